// What a sweep does, stated and proved in `proofs/`.

#![tactic(auto)]
