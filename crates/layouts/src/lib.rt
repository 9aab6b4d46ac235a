// Two layouts of names answer alike: every request and every mend, store by store, and the conversion between them, in proofs/.

#![tactic(auto)]
