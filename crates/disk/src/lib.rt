// A request on a disk, as definitions in specs/: the phase in which each of its records is written, and what a disk may hold meanwhile.

#![tactic(auto)]
