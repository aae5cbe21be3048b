// Floor 3: the sheet, its changes and its report. A sheet goes in by value and comes back: every sheet there is came from
// `Sheet::open`, `Sheet::resume` or a call. Knows nothing of bytes.
//
// No public function asks anything of its caller; each takes any numbers and any sheet, ends, and answers what its
// definition in specs/ says. A sheet that no call handed back is answered as one not open, or within its own places.
#![tactic(auto)]

mod calls;
mod changes;
mod ends;
pub mod refusals;
mod resume;
mod sheet;
mod tanks;

pub use calls::{Changed, Counted, Entering, Entry, Figures, Reported};
pub use resume::Resumed;
pub use sheet::Sheet;
pub use tanks::{Tank, TankEntering};
