// What the lamp of `job` promises, as theorems about its definitions, in proofs/.

#![tactic(auto)]
