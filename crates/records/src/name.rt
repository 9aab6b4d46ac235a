// Names that are the same.
ghost use Rattle.std.specs.Prelude.{◌≡◌};
ghost use Rattle.paper.specs.Name.{same};

// Whether two names are the same: `==`, under the word of document 01.
#[tactic(auto, using(crate::proofs::Order::same_bytes))]
pub fn are_same(a: &[u8], b: &[u8]) -> bool
    ensures { result ≡ same a.now b.now }
{
    a == b
}
