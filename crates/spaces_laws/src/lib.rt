// What the definitions of `spaces` mean for whole sheets: a valid sheet, what keeps it valid, and that no volume is
// taken off twice (proofs/); levels, standings, gross, the water ballast and the deduction for machinery said without the
// computing (specs/). There is no code here: a crate of its own, so that a check of the code does not pay for theorems that
// no code needs.
#![tactic(auto)]
