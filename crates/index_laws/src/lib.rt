// Laws of the sorted index: the order of entries, the linear test of a list, the halving search, and the repair.

#![tactic(auto)]
