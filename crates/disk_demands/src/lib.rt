// What a cut leaves on a disk, mended: theorems about the definitions of `disk`, in proofs/.

#![tactic(auto)]
