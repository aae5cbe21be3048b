// What the definitions of `measure` mean, said declaratively and proved once (proofs/). There is no code here: a crate
// of its own, so that a check of the code does not pay for theorems that no code needs.
#![tactic(auto)]
