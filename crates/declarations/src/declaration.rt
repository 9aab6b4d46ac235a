// The declaration that a name of the line is.
ghost use Rattle.std.specs.Prelude.{◌≡◌, [], ◌∷◌, ◌≤◌};
ghost use Rattle.paper.specs.Declaration.{right, nothing, level_at, declaration, declared};
ghost use Rattle.declarations.specs.Given.{paper_parts, shown_declared};

use crate::part::{Part, digit_of, kind_of, level_of, lifetime_of, width};
use records::bytes::byte_at;
use records::name::are_same;

// Its parts, each given or not given.
#[derive(Clone, Copy)]
pub struct Parts {
    pub kind: Part,
    pub lifetime: Part,
    pub level: Part,
    pub digit: Part,
}

impl Parts {
    const NOTHING: Parts = Parts {
        kind: None,
        lifetime: None,
        level: None,
        digit: None,
    };
}

// An omitted declaration gives nothing.
pub fn omitted() -> Option<Parts>
    ensures { result ≡ shown_declared (right nothing) }
{
    Some(Parts::NOTHING)
}

// After the point: the level at place i, then the digit, which ends the declaration.
fn after_point(w: &[u8], front: Parts, i: usize) -> Option<Parts>
    requires { i ≤ 3 }
    ensures { result ≡ shown_declared (level_at w.now (paper_parts front) i) }
{
    let level = level_of(byte_at(w, i));
    let d = i + width(level);
    let digit = digit_of(byte_at(w, d));
    if d + width(digit) != w.len() {
        return None;
    }
    Some(Parts {
        level,
        digit,
        ..front
    })
}

// The declaration that a name is, if it is no dash.
fn declaration_of(w: &[u8]) -> Option<Parts>
    ensures { result ≡ shown_declared (declaration w.now) }
{
    let kind = kind_of(byte_at(w, 0));
    let a = width(kind);
    let lifetime = lifetime_of(byte_at(w, a));
    let b = a + width(lifetime);
    let front = Parts {
        kind,
        lifetime,
        ..Parts::NOTHING
    };
    if b == w.len() {
        return Some(front);
    }
    if byte_at(w, b) != b'.' {
        return None;
    }
    after_point(w, front, b + 1)
}

// The declaration that a name is, if it is one: one dash gives nothing.
#[tactic(auto, unfolding(paper::specs::Declaration::declared))]
pub fn declared(w: &[u8]) -> Option<Parts>
    ensures { result ≡ shown_declared (declared (w.now ∷ [])) }
{
    if are_same(w, b"-") {
        omitted()
    } else {
        declaration_of(w)
    }
}
