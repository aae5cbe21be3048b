// Moving the last sheet of one buffer into another, in either form (T-05 of document 02).
ghost use Rattle.std.specs.Prelude.{◌≡◌, length};
ghost use Rattle.dayfile.specs.Moving.{moved, moved_into};
ghost use Rattle.dayfile.specs.Handed.{moved_as};

use crate::forms::is_form;
use crate::reading::last_sheet;
use crate::refusals::Refusal;
use crate::writing::store_sheet;
use measure::refusals::OUTSIDE_ITS_RANGE;

// The paper's number, 0 where accepted, the bytes written, and the position of the record where the number is 17. No `Result`, since C
// takes it by this layout.
#[repr(C)]
#[derive(Clone, Copy)]
pub struct Moved {
    pub number: u8,
    pub bytes: usize,
    pub position: usize,
}

// Reads the last sheet of a file and writes it with its mark in a form, 1 or 2, from a place of another buffer on; no byte before or
// after is touched.
pub fn move_last(from: &[u8], form: u8, to: &mut [u8], at: usize) -> Moved
    ensures answer { result ≡ moved from.now form (length to.old) at }
    ensures buffer { to.new ≡ moved_into from.now form at to.old }
{
    match read_and_store(from, form, to, at) {
        Ok(bytes) => Moved {
            number: 0,
            bytes,
            position: 0,
        },
        // "answering as a write does": a refused move writes no bytes.
        Err(refusal) => Moved {
            number: refusal.number,
            bytes: 0,
            position: refusal.position,
        },
    }
}

// The bytes written of the last sheet of a file, or how its move is refused.
fn read_and_store(from: &[u8], form: u8, to: &mut [u8], at: usize) -> Result<usize, Refusal>
    ensures answer { moved_as result ≡ moved from.now form (length to.old) at }
    ensures buffer { to.new ≡ moved_into from.now form at to.old }
{
    if !is_form(form) {
        return Err(Refusal::numbered(OUTSIDE_ITS_RANGE));
    }
    let last = last_sheet(from)?;
    let figures = last.sheet.figures(last.justified);
    store_sheet(&last.sheet, last.justified, form, figures, to, at)
}
