// The request that a line is, or the number that refuses it.
ghost use Rattle.std.specs.Prelude.{◌≡◌, [], ◌∷◌, ◌-◌, length};
ghost use Rattle.paper.specs.Line.{words};
ghost use Rattle.paper.specs.Check.{verdict};
ghost use Rattle.paper.specs.Request.{each, between, malformed, illegal_but, unlinked, misbased, miscounted, misnamed, link_alone, read_crd, read_wrs, read_rds, read_lst, read_cpy, read_dup, read_chn, read_dpr, read_names, depth_given, read_tree, read_rewrite, read_function, read};
ghost use Rattle.words.specs.Place.{names_from, word_at};
ghost use Rattle.records.specs.Part.{shown_part};
ghost use Rattle.reader.specs.Asked.{fault_check, old_checks, both_checks, removing, removed, shown_verdict, shown_read, told};

use crate::argument::{as_count, declared_at, octal_at};
use crate::function::Function;
use answers::number::Number;
use declarations::part::Part;
use declarations::taken::{
    taken_by_cpy, taken_by_crd, taken_by_dpr, taken_by_dup, taken_by_rewrite, taken_by_wrs,
};
use records::name::are_same;
use words::begin::{Begin, is_give, is_take, is_take_within, new_to, old_from};
use words::line::{count_words, is_legal_line, lone_word, name, next_word, word_at};
use words::name::{
    count_links, first_wrong, has_legal_base, is_legal_base, is_link_name, is_well_formed,
};

// The functions, and LST of a lone point. Names stand by the places where they start in the line; the names of DEL and of DST are
// the words from the first on.
#[derive(Clone, Copy)]
pub enum Request {
    Crd {
        name: usize,
        level: Part,
        digit: Part,
    },
    Wrs {
        lifetime: u8,
        level: Part,
        digit: Part,
        name: usize,
    },
    Rds {
        from: Begin,
        name: usize,
        first: Option<u32>,
        count: Option<u32>,
    },
    Cpy {
        from: Begin,
        old: usize,
        new: usize,
        lifetime: Part,
        level: Part,
        digit: Part,
    },
    Dup {
        from: Begin,
        old: usize,
        to: Begin,
        new: usize,
        digit: Part,
    },
    Chn {
        old: usize,
        link: usize,
    },
    Del {
        first: usize,
        count: usize,
    },
    Dst {
        first: usize,
        count: usize,
    },
    Dpr {
        name: usize,
        code: u8,
    },
    Lst {
        from: Begin,
        name: usize,
    },
    LstBase,
    LstTree {
        from: Begin,
        name: usize,
        depth: u8,
    },
    LstBaseTree {
        depth: u8,
    },
    Rewrite {
        name: usize,
    },
}

impl Request {
    // The most names that a DEL or a DST has.
    const MOST_NAMES: usize = 8;
}

// The reply number, the argument from 1 or 0, and the link of its chain from 1 or 0.
#[derive(Clone, Copy)]
pub struct Refusal {
    pub number: Number,
    pub place: usize,
    pub link: usize,
}

impl Refusal {
    // Of the argument at this place as a whole, or of the line at place 0.
    fn whole(number: Number, place: usize) -> Refusal
        ensures { result ≡ record { number = number; place = place; link = 0 } }
    {
        Refusal {
            number,
            place,
            link: 0,
        }
    }
}

// What a name gets: 7; or 8, where it may start in one's own base list alone, or with `.nnnnnn` as well.
// An enum and no closure: one definition, `fault_check`, says what each is on paper, which a closure's contract would say at each use.
#[derive(Clone, Copy)]
enum Fault {
    Malformed,
    Illegal,
    IllegalTake,
    IllegalTakeWithin,
    IllegalGive,
}

// How many arguments the line has.
fn arguments(line: &[u8]) -> usize
    ensures { result ≡ length (words line.now) - 1 }
{
    count_words(line).saturating_sub(1)
}

// 6 where the line has not from least to most arguments.
fn check_count(line: &[u8], least: usize, most: usize) -> Result<(), Refusal>
    ensures { told result ≡ shown_verdict (verdict (miscounted least most line.now ∷ [])) }
{
    let n = arguments(line);
    if n < least || most < n {
        Err(Refusal::whole(Number::WrongCount, 0))
    } else {
        Ok(())
    }
}

// 7 for the name at p, the argument at this place.
fn check_chain(line: &[u8], p: usize, place: usize) -> Result<(), Refusal>
    ensures { told result ≡ shown_verdict (verdict (malformed place (word_at line.now p) ∷ [])) }
{
    if is_well_formed(line, p) {
        Ok(())
    } else {
        Err(Refusal {
            number: Number::Malformed,
            place,
            link: first_wrong(line, p).unwrap_or(0),
        })
    }
}

// 8 for it, where it does not start as it may.
fn check_start(line: &[u8], p: usize, starts: bool, place: usize) -> Result<(), Refusal>
    ensures { told result ≡ shown_verdict (verdict (illegal_but (λ w. starts) place (word_at line.now p) ∷ [])) }
{
    if starts || has_legal_base(line, p) {
        Ok(())
    } else {
        Err(Refusal {
            number: Number::IllegalBase,
            place,
            link: 1,
        })
    }
}

// 7 or 8 for it.
fn check_name(line: &[u8], p: usize, fault: Fault, place: usize) -> Result<(), Refusal>
    ensures { told result ≡ shown_verdict (verdict (fault_check fault place (word_at line.now p) ∷ [])) }
{
    match fault {
        Fault::Malformed => check_chain(line, p, place),
        Fault::Illegal => check_start(line, p, false, place),
        Fault::IllegalTake => check_start(line, p, is_take(line, p), place),
        Fault::IllegalTakeWithin => check_start(line, p, is_take_within(line, p), place),
        Fault::IllegalGive => check_start(line, p, is_give(line, p), place),
    }
}

// 7 or 8 for the first of the words from number a up to number b that gets it.
fn check_each(line: &[u8], fault: Fault, a: usize, b: usize) -> Result<(), Refusal>
    ensures { told result ≡ shown_verdict (verdict (each (fault_check fault) a (between a b line.now))) }
{
    let mut p = word_at(line, a);
    for k in a..b {
        if line.len() <= p {
            return Ok(());
        }
        check_name(line, p, fault, k)?;
        p = next_word(line, p);
    }
    Ok(())
}

// 7, then 8, for the words from number a up to number b.
fn check_names(line: &[u8], a: usize, b: usize) -> Result<(), Refusal>
    ensures { told result ≡ shown_verdict (verdict (misnamed a b line.now)) }
{
    check_each(line, Fault::Malformed, a, b)?;
    check_each(line, Fault::Illegal, a, b)
}

// The count of arguments, then the names.
fn check_form(line: &[u8], least: usize, most: usize, a: usize, b: usize) -> Result<(), Refusal>
    ensures { told result ≡ shown_verdict (verdict (miscounted least most line.now ∷ misnamed a b line.now)) }
{
    check_count(line, least, most)?;
    check_names(line, a, b)
}

// The count of arguments, then the first of them, a name at p.
fn check_old(line: &[u8], least: usize, most: usize, p: usize) -> Result<(), Refusal>
    ensures { told result ≡ shown_verdict (verdict (old_checks least most line.now (word_at line.now p))) }
{
    check_count(line, least, most)?;
    check_name(line, p, Fault::Malformed, 1)?;
    check_name(line, p, Fault::IllegalTake, 1)
}

// The count of arguments, then 7 of the old name and of the new, then 8 of both, each by how it may start.
fn check_both(line: &[u8], old: usize, take: Fault, new: usize, give: Fault) -> Result<(), Refusal>
    ensures { told result ≡ shown_verdict (verdict (both_checks line.now take (word_at line.now old) give (word_at line.now new))) }
{
    check_count(line, 2, 3)?;
    check_name(line, old, Fault::Malformed, 1)?;
    check_name(line, new, Fault::Malformed, 2)?;
    check_name(line, old, take, 1)?;
    check_name(line, new, give, 2)
}

// CRD name [decl]
fn read_crd(line: &[u8]) -> Result<Request, Refusal>
    ensures { told result ≡ shown_read (read_crd line.now) }
{
    check_form(line, 1, 2, 1, 2)?;
    let Some(parts) = taken_by_crd(declared_at(line, 2)) else {
        return Err(Refusal::whole(Number::UnfitDeclaration, 2));
    };
    Ok(Request::Crd {
        name: word_at(line, 1),
        level: parts.level,
        digit: parts.digit,
    })
}

// WRS decl name
fn read_wrs(line: &[u8]) -> Result<Request, Refusal>
    ensures { told result ≡ shown_read (read_wrs line.now) }
{
    check_form(line, 2, 2, 2, 3)?;
    let Some(parts) = declared_at(line, 1) else {
        return Err(Refusal::whole(Number::UnfitDeclaration, 1));
    };
    let Some(lifetime) = taken_by_wrs(parts) else {
        return Err(Refusal::whole(Number::UnfitDeclaration, 1));
    };
    Ok(Request::Wrs {
        lifetime,
        level: parts.level,
        digit: parts.digit,
        name: word_at(line, 2),
    })
}

// WRS* decl name
fn read_rewrite(line: &[u8]) -> Result<Request, Refusal>
    ensures { told result ≡ shown_read (read_rewrite line.now) }
{
    check_form(line, 2, 2, 2, 3)?;
    let Some(_) = taken_by_rewrite(declared_at(line, 1)) else {
        return Err(Refusal::whole(Number::UnfitDeclaration, 1));
    };
    Ok(Request::Rewrite {
        name: word_at(line, 2),
    })
}

// RDS name [first] [count]
fn read_rds(line: &[u8]) -> Result<Request, Refusal>
    ensures { told result ≡ shown_read (read_rds line.now) }
{
    let p = word_at(line, 1);
    check_old(line, 1, 3, p)?;
    let Ok(first) = octal_at(line, 2) else {
        return Err(Refusal::whole(Number::BadNumber, 2));
    };
    let Ok(count) = as_count(octal_at(line, 3)) else {
        return Err(Refusal::whole(Number::BadNumber, 3));
    };
    Ok(Request::Rds {
        from: old_from(line, p),
        name: p,
        first,
        count,
    })
}

// LST name, or LST of a lone point
fn read_lst(line: &[u8]) -> Result<Request, Refusal>
    ensures { told result ≡ shown_read (read_lst line.now) }
{
    let p = word_at(line, 1);
    if are_same(lone_word(line, p), b".") {
        check_count(line, 1, 1)?;
        return Ok(Request::LstBase);
    }
    check_old(line, 1, 1, p)?;
    Ok(Request::Lst {
        from: old_from(line, p),
        name: p,
    })
}

// The depth that the word at p is: one byte from 1 to 8.
#[tactic(auto, using(crate::proofs::Functions::depth_lone))]
fn depth_at(line: &[u8], p: usize) -> Option<u8>
    ensures { result ≡ shown_part (depth_given (names_from line.now p)) }
{
    match lone_word(line, p) {
        [b @ b'1'..=b'8'] => Some(*b - b'0'),
        _ => None,
    }
}

// LST* name digit, or LST* of a lone point
fn read_tree(line: &[u8]) -> Result<Request, Refusal>
    ensures { told result ≡ shown_read (read_tree line.now) }
{
    let p = word_at(line, 1);
    if are_same(lone_word(line, p), b".") {
        check_count(line, 2, 2)?;
        let depth = depth_at(line, word_at(line, 2)).ok_or(Refusal::whole(
            Number::UnfitDeclaration,
            2,
        ))?;
        return Ok(Request::LstBaseTree { depth });
    }
    check_old(line, 2, 2, p)?;
    let depth = depth_at(line, word_at(line, 2)).ok_or(Refusal::whole(
        Number::UnfitDeclaration,
        2,
    ))?;
    Ok(Request::LstTree {
        from: old_from(line, p),
        name: p,
        depth,
    })
}

// CPY old new [decl]
fn read_cpy(line: &[u8]) -> Result<Request, Refusal>
    ensures { told result ≡ shown_read (read_cpy line.now) }
{
    let old = word_at(line, 1);
    let new = word_at(line, 2);
    check_both(line, old, Fault::IllegalTake, new, Fault::Illegal)?;
    let Some(parts) = taken_by_cpy(declared_at(line, 3)) else {
        return Err(Refusal::whole(Number::UnfitDeclaration, 3));
    };
    Ok(Request::Cpy {
        from: old_from(line, old),
        old,
        new,
        lifetime: parts.lifetime,
        level: parts.level,
        digit: parts.digit,
    })
}

// DUP old new [decl]
fn read_dup(line: &[u8]) -> Result<Request, Refusal>
    ensures { told result ≡ shown_read (read_dup line.now) }
{
    let old = word_at(line, 1);
    let new = word_at(line, 2);
    check_both(line, old, Fault::IllegalTakeWithin, new, Fault::IllegalGive)?;
    let Some(parts) = taken_by_dup(declared_at(line, 3)) else {
        return Err(Refusal::whole(Number::UnfitDeclaration, 3));
    };
    Ok(Request::Dup {
        from: old_from(line, old),
        old,
        to: new_to(line, new),
        new,
        digit: parts.digit,
    })
}

// Whether the word at p is one link name, and no dash.
fn is_link_alone(line: &[u8], p: usize) -> bool
    ensures { result ≡ link_alone (names_from line.now p) }
{
    let w = lone_word(line, p);
    is_link_name(w) && !are_same(w, b"-")
}

// 7 where CHN's link is not one link name.
fn check_link(line: &[u8], p: usize) -> Result<(), Refusal>
    ensures { told result ≡ shown_verdict (verdict (unlinked 2 (word_at line.now p) ∷ [])) }
{
    if is_link_alone(line, p) {
        Ok(())
    } else {
        Err(Refusal::whole(Number::Malformed, 2))
    }
}

// 8 where old is a base file and CHN's link is no legal base name.
fn check_base(line: &[u8], old: usize, link: usize) -> Result<(), Refusal>
    ensures { told result ≡ shown_verdict (verdict (misbased 2 (word_at line.now old) (word_at line.now link) ∷ [])) }
{
    if count_links(line, old) != 1 || is_legal_base(name(line, link)) {
        Ok(())
    } else {
        Err(Refusal::whole(Number::IllegalBase, 2))
    }
}

// CHN old link
fn read_chn(line: &[u8]) -> Result<Request, Refusal>
    ensures { told result ≡ shown_read (read_chn line.now) }
{
    let old = word_at(line, 1);
    let link = word_at(line, 2);
    check_count(line, 2, 2)?;
    check_name(line, old, Fault::Malformed, 1)?;
    check_link(line, link)?;
    check_name(line, old, Fault::Illegal, 1)?;
    check_base(line, old, link)?;
    Ok(Request::Chn { old, link })
}

// DPR name decl
fn read_dpr(line: &[u8]) -> Result<Request, Refusal>
    ensures { told result ≡ shown_read (read_dpr line.now) }
{
    check_form(line, 2, 2, 1, 2)?;
    let Some(parts) = declared_at(line, 2) else {
        return Err(Refusal::whole(Number::UnfitDeclaration, 2));
    };
    let Some(code) = taken_by_dpr(parts) else {
        return Err(Refusal::whole(Number::UnfitDeclaration, 2));
    };
    Ok(Request::Dpr {
        name: word_at(line, 1),
        code,
    })
}

// DEL of so many names or, if it destroys, DST of them. A flag as in `removing`: a closure that makes the request would need its relation to both.
fn removal(destroys: bool, first: usize, count: usize) -> Request
    ensures { result ≡ removed destroys first count }
{
    if destroys {
        Request::Dst { first, count }
    } else {
        Request::Del { first, count }
    }
}

// DEL or DST, 1 to 8 names
fn read_names(line: &[u8], destroys: bool) -> Result<Request, Refusal>
    ensures { told result ≡ shown_read (read_names (removing destroys) line.now) }
{
    check_form(line, 1, Request::MOST_NAMES, 1, count_words(line))?;
    Ok(removal(destroys, word_at(line, 1), arguments(line)))
}

// The first word is the function.
fn read_function(line: &[u8]) -> Result<Request, Refusal>
    ensures { told result ≡ shown_read (read_function line.now) }
{
    let Some(function) = Function::of(lone_word(line, word_at(line, 0))) else {
        return Err(Refusal::whole(Number::NoFunction, 0));
    };
    match function {
        Function::Crd => read_crd(line),
        Function::Wrs => read_wrs(line),
        Function::Rds => read_rds(line),
        Function::Cpy => read_cpy(line),
        Function::Dup => read_dup(line),
        Function::Chn => read_chn(line),
        Function::Del => read_names(line, false),
        Function::Dst => read_names(line, true),
        Function::Dpr => read_dpr(line),
        Function::Lst => read_lst(line),
        Function::LstTree => read_tree(line),
        Function::Rewrite => read_rewrite(line),
    }
}

// The request that the line is, or the number from 4 to 9, or 27, that refuses it.
pub fn read_line(line: &[u8]) -> Result<Request, Refusal>
    ensures { told result ≡ shown_read (read line.now) }
{
    if is_legal_line(line) {
        read_function(line)
    } else {
        Err(Refusal::whole(Number::BadLine, 0))
    }
}
