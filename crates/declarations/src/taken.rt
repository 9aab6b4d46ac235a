// What each function takes of a declaration.
ghost use Rattle.std.specs.Prelude.{◌≡◌};
ghost use Rattle.paper.specs.Declaration.{right, fit_crd, fit_rewrite, fit_cpy, fit_dup, wrs_lifetime, dpr_code};
ghost use Rattle.records.specs.Part.{shown_part};
ghost use Rattle.declarations.specs.Given.{paper_parts, taken};

use crate::declaration::Parts;
use crate::part::Part;
use records::heading::Heading;

// CRD refuses a type and a lifetime.
pub fn taken_by_crd(d: Option<Parts>) -> Option<Parts>
    ensures { result ≡ taken fit_crd d }
{
    let parts = d?;
    let (None, None) = (parts.kind, parts.lifetime) else {
        return None;
    };
    d
}

// WRS refuses a type and needs a lifetime, M or L: the lifetime, not given where these parts are unfit.
pub fn taken_by_wrs(parts: Parts) -> Part
    ensures { result ≡ shown_part (wrs_lifetime (right (paper_parts parts))) }
{
    let (None, Some(Heading::MEDIUM..)) = (parts.kind, parts.lifetime) else {
        return None;
    };
    parts.lifetime
}

// WRS* takes the lifetime M and nothing else.
pub fn taken_by_rewrite(d: Option<Parts>) -> Option<Parts>
    ensures { result ≡ taken fit_rewrite d }
{
    let parts = d?;
    let (None, Some(Heading::MEDIUM), None, None) = (
        parts.kind,
        parts.lifetime,
        parts.level,
        parts.digit,
    ) else {
        return None;
    };
    d
}

// CPY refuses a type; a lifetime is M or L.
pub fn taken_by_cpy(d: Option<Parts>) -> Option<Parts>
    ensures { result ≡ taken fit_cpy d }
{
    let parts = d?;
    let (None, None | Some(Heading::MEDIUM..)) = (parts.kind, parts.lifetime) else {
        return None;
    };
    d
}

// DUP allows a digit only.
pub fn taken_by_dup(d: Option<Parts>) -> Option<Parts>
    ensures { result ≡ taken fit_dup d }
{
    let parts = d?;
    let (None, None, None) = (parts.kind, parts.lifetime, parts.level) else {
        return None;
    };
    d
}

// DPR needs a digit and allows nothing else: the digit, not given where these parts are unfit.
pub fn taken_by_dpr(parts: Parts) -> Part
    ensures { result ≡ shown_part (dpr_code (right (paper_parts parts))) }
{
    taken_by_dup(Some(parts))?.digit
}
