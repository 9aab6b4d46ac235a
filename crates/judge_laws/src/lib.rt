// Laws by which the judge computes the clauses of soundness in one pass each.

#![tactic(auto)]
