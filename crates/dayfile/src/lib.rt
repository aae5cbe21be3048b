// Floor 4: the day's file ("The file", and T-05 of document 02), read, written and moved, in two forms. Sheets come from
// `sheet`, and go back to it: no sheet is made here. Knows nothing of programs.
//
// No public function asks anything of its caller; each takes any numbers and any bytes, ends, and answers what its
// definition in specs/ says, of every byte of a lent buffer too. Casts stand where Rust has no `From`, or none in a constant: each is proved to lose nothing.
#![tactic(auto)]

mod fields;
mod forms;
mod moving;
mod numbers;
mod reading;
mod record;
pub mod refusals;
mod trailer;
mod writing;

pub use moving::{Moved, move_last};
pub use reading::{Reading, part_before, part_from, read, read_before};
pub use writing::{Written, write};
