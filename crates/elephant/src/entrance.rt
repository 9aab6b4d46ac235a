// The way in: numbers 1 to 3 and 10, and then the function that the line asks for.
ghost use Rattle.std.specs.Prelude.{◌&&◌, List, ◌≡◌, ℕ, ltb, length};
ghost use Rattle.paper.specs.Layout.{boxed};
ghost use Rattle.paper.specs.Answer.{entrance, requested};
ghost use Rattle.paper.specs.Request.{text_too_long};
ghost use Rattle.elephant.specs.Meant.{request_meant};
ghost use Rattle.elephant.specs.Admitted.{Admitted};
ghost use Rattle.answers.specs.Promised.{Promised};
ghost use Rattle.answers.specs.Shown.{told, verdict_shown, answer_of};

use crate::change::{chn, dpr};
use crate::copying::cpy;
use crate::making::{Declared, crd, dup, wrs};
use crate::place::Chain;
use crate::removal::{Removal, remove};
use crate::reply::{Sheet, lst_base, lst_base_tree, read};
use crate::rewriting::rewrite;
use answers::number::Number;
use answers::{Answer, Refusal};
use reader::request::Request;
use records::entry::Holder;

// 1, 2 and 3: "table length no multiple of 32, or above 65,536", "table not sound", "user above 999,999".
pub(crate) fn check_entrance(table: &[u8], user: u32) -> Result<(), Refusal>
    ensures { told result ≡ verdict_shown (entrance boxed table.now user) }
{
    if let Ok(number) = Number::try_from(judge::judge(table)) {
        return Err(Refusal::whole(number, 0));
    }
    if Holder::LAST_USER < user {
        return Err(Refusal::whole(Number::UserTooHigh, 0));
    }
    Ok(())
}

// Whether the text is looked at: "WRS text above 24,000 bytes", and that of WRS*.
pub(crate) fn bears_text(asked: Request) -> bool
    ensures { (line text : List ℕ) → text_too_long (request_meant line asked) text ≡ (result && ltb 24000 (length text)) }
{
    matches!(asked, Request::Wrs { .. } | Request::Rewrite { .. })
}

// What was read, done by its function.
pub(crate) fn grant(
    table: &mut [u8],
    line: &[u8],
    text: &[u8],
    reply: &mut [u8],
    user: u32,
    stop: u32,
    asked: Request,
) -> Result<Answer, Refusal>
    requires { Admitted table.old line.now text.now user asked }
    ensures { Promised (requested boxed table.old line.now text.now reply.old user stop)
        (answer_of result) table.new reply.new }
{
    match asked {
        Request::Crd { name, level, digit } => {
            crd(table, line, name, Declared { level, digit }, user, stop)
        }
        Request::Wrs {
            lifetime,
            level,
            digit,
            name,
        } => {
            let declared = Declared { level, digit };
            wrs(table, line, text, lifetime, declared, name, user, stop)
        }
        Request::Rds {
            from: begin,
            name: at,
            first,
            count,
        } => {
            let sheet = Sheet::Text(first, count);
            read(table, line, reply, sheet, Chain { at, begin }, user)
        }
        Request::Cpy {
            from: begin,
            old: at,
            new,
            lifetime,
            level,
            digit,
        } => {
            let old = Chain { at, begin };
            let declared = Declared { level, digit };
            cpy(table, line, old, new, lifetime, declared, user, stop)
        }
        Request::Dup {
            from,
            old,
            to,
            new,
            digit,
        } => {
            let old = Chain {
                at: old,
                begin: from,
            };
            let new = Chain { at: new, begin: to };
            dup(table, line, old, new, digit, user, stop)
        }
        Request::Chn { old, link } => chn(table, line, old, link, user, stop),
        Request::Del { first, count } => {
            let names = count as u32;
            Ok(remove(table, line, Removal::Delete, first, names, user, stop))
        }
        Request::Dst { first, count } => {
            let names = count as u32;
            Ok(remove(table, line, Removal::Destroy, first, names, user, stop))
        }
        Request::Dpr { name, code } => dpr(table, line, name, code, user, stop),
        Request::Lst {
            from: begin,
            name: at,
        } => read(table, line, reply, Sheet::Lines, Chain { at, begin }, user),
        Request::LstBase => lst_base(table, reply, user),
        Request::LstTree {
            from: begin,
            name: at,
            depth,
        } => read(
            table,
            line,
            reply,
            Sheet::Deep(depth),
            Chain { at, begin },
            user,
        ),
        Request::LstBaseTree { depth } => lst_base_tree(table, reply, user, depth),
        Request::Rewrite { name } => rewrite(table, line, text, name, user, stop),
    }
}

// The same for what bears no text, with CPY apart: its frame has room for a whole text, and would be part of every function's frame if
// `grant` alone called it. What is called from two places, as `cpy` and `grant` are, the compiler leaves a frame of its own.
pub(crate) fn admit(
    table: &mut [u8],
    line: &[u8],
    text: &[u8],
    reply: &mut [u8],
    user: u32,
    stop: u32,
    asked: Request,
) -> Result<Answer, Refusal>
    requires { Admitted table.old line.now text.now user asked }
    ensures { Promised (requested boxed table.old line.now text.now reply.old user stop)
        (answer_of result) table.new reply.new }
{
    let Request::Cpy {
        from: begin,
        old: at,
        new,
        lifetime,
        level,
        digit,
    } = asked
    else {
        return grant(table, line, text, reply, user, stop, asked);
    };
    let old = Chain { at, begin };
    let declared = Declared { level, digit };
    cpy(table, line, old, new, lifetime, declared, user, stop)
}
