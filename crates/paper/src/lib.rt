// The definitions of document 01 are in specs/, in reading order; the claim over its proved cases is in proofs/.

#![tactic(auto)]
