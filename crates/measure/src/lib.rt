// Floor 1: the measuring rules. One space's tonnage from its offsets, by 46 CFR 69.109 to 69.117 as document 01
// condenses them. Knows nothing of sheets or files.
//
// No public function asks anything of its caller: each takes any numbers and any lists, ends, and answers what its
// definition in specs/ says. Only the functions inside the crate have a `requires`.
//
// What is found for each of some stations or sections lies in the first places of an array: the project has no heap, and there are at most
// 17 stations and 34 sections. Each is set by its place, since a proof has no name for what an array holds after a `zip` with `iter_mut`.
// Casts stand where Rust has no `From` (to or from `usize`, to a narrower type or a sign): each is proved to lose nothing.
#![tactic(auto)]

pub mod allowances;
pub mod ends;
pub mod kinds;
mod multipliers;
pub mod offsets;
mod parts;
pub mod ranges;
pub mod refusals;
pub mod rounding;
pub mod roundings;
pub mod sections;
pub mod tanks;
pub mod thirds;
pub mod units;
mod volumes;
