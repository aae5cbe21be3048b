// How a script is read, on slices of bytes: words, numbers, lists, hex digits, what a line is and its remark. Knows nothing of
// sheets or of input, and prints nothing itself; the programs `survey` and `figures` read their lines by it.
//
// No public function asks anything of its caller: each takes any bytes, ends, and answers what its definition in specs/
// says, and so does every place of a lent array afterwards. Only functions inside the crate have a `requires`. What is read into
// many places goes into a lent array, with how many as the answer: there is no heap.
#![tactic(auto)]

pub mod calls;
pub mod hex;
pub mod remarks;
pub mod text;
pub mod words;
