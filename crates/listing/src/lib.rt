// Floor 5: what programs print. The listing of a day's file, as `sheetlist` prints it. Knows nothing of input and output.
//
// The one public function asks nothing of its caller: it takes any bytes, ends, and answers every byte as its definition in
// specs/ says. Casts stand where Rust has no `From`: each is proved to lose nothing.
#![tactic(auto)]

mod lines;
mod listing;
mod text;

pub use listing::{Listing, list};
