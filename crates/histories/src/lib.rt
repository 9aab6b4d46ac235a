// Any sequence of calls from a sound table: what stays of a capped file, when a heading goes, and what a sealed file shows, in proofs/.

#![tactic(auto)]
