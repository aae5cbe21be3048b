// What the definitions of `dayfile` mean: what is written is read back, what is read is written back, and a day's sheets are
// all found again (proofs/). There is no code here: a crate of its own, so that a check of the code does not pay for
// theorems that no code needs.
#![tactic(auto)]
