// The three demands as theorems (proofs/), in the words of the demands and of the paper, and that no promise leaves room for
// a second answer. What they say beyond the paper's own definitions is in specs/. There is no code here.
#![tactic(auto)]
