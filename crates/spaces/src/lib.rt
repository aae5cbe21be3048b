// Floor 2, the row: spaces in order of entry, finding one by its id, sums over them, and what is above, below and around one.
// Knows nothing of the rules of a system of measurement, nor of histories or files.
//
// A row is made of the first `count` of 200 places; what lies in a free place is never looked at, and a count over 200 is
// all of them. No public function asks anything of its caller. A place among 200 fits a byte: casts to it are proved, where `TryFrom` would
// add a branch that is never taken.
#![tactic(auto)]

pub mod around;
pub mod enclosure;
mod homes;
mod index;
pub mod row;
pub mod space;
pub mod sums;
