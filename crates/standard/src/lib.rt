// Floor 2, the rules of the Standard system on a row of spaces: the table of standings, when an entry, a withdrawal and a mark are
// refused, records judged one after another, gross, the deduction for machinery and net. Knows nothing of histories or files.
//
// The spaces that stand come as a `Row` of `spaces`. No public function asks anything of its caller.
#![tactic(auto)]

pub mod gross;
mod machinery;
pub mod records;
pub mod refusals;
pub mod rules;
pub mod standings;
pub mod tanks;
