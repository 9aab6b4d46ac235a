// The function that a name is.
ghost use Rattle.std.specs.Prelude.{◌≡◌, [], ◌∷◌};
ghost use Rattle.reader.specs.Asked.{function_of};

#[derive(Clone, Copy)]
pub(crate) enum Function {
    Crd,
    Wrs,
    Rds,
    Cpy,
    Dup,
    Chn,
    Del,
    Dst,
    Dpr,
    Lst,
    LstTree,
    Rewrite,
}

impl Function {
    // The function that a name is.
    #[tactic(auto, using(crate::proofs::Functions::by_letters))]
    pub(crate) fn of(name: &[u8]) -> Option<Function>
        ensures { result ≡ function_of (name.now ∷ []) }
    {
        match name {
            b"CRD" => Some(Function::Crd),
            b"WRS" => Some(Function::Wrs),
            b"RDS" => Some(Function::Rds),
            b"CPY" => Some(Function::Cpy),
            b"DUP" => Some(Function::Dup),
            b"CHN" => Some(Function::Chn),
            b"DEL" => Some(Function::Del),
            b"DST" => Some(Function::Dst),
            b"DPR" => Some(Function::Dpr),
            b"LST" => Some(Function::Lst),
            b"LST*" => Some(Function::LstTree),
            b"WRS*" => Some(Function::Rewrite),
            _ => None,
        }
    }
}
