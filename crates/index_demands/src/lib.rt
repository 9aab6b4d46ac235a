// What the sorted index promises, as theorems about its definitions, in proofs/.

#![tactic(auto)]
