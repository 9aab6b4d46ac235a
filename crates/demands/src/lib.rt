// What the definitions of `paper` keep: soundness, mending and the power cut, in proofs/.

#![tactic(auto)]
