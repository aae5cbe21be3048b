// What the definitions of `sheet` mean, proved once (proofs/): the starred figures, and what holds after any run of calls
// (specs/). There is no code here: a crate of its own, so that a check of the code does not pay for theorems that no code
// needs.
#![tactic(auto)]
