// Reading the last sheet of a file, whatever its bytes ("Reading judges the last sheet only").
ghost use Rattle.std.specs.Prelude.{◌≡◌, not, take, drop};
ghost use Rattle.dayfile.specs.Reading.{no_sheet, last_trailer, refused_reading, read_of, read_before};
ghost use Rattle.dayfile.specs.Handed.{judged_reading, last_read, where_true};

use crate::forms::form_of;
use crate::record::read_records;
use crate::refusals::{NO_SHEET, Refusal, WRONG_FIGURES, WRONG_RECORD};
use crate::trailer::{TRAILER_SIZE, Trailer, read_trailer, read_vessel, sheet_size, trailer_of};
use sheet::Sheet;
use spaces::row::Row;

// The paper's number, 0 where accepted, and the position of the record where it is 17; then the sheet, its justified mark,
// where it starts, and the form it has there, 1 or 2. No `Result`, since C takes it by this layout.
#[repr(C)]
#[derive(Clone, Copy)]
pub struct Reading {
    pub number: u8,
    pub position: usize,
    pub sheet: Sheet,
    pub justified: u8,
    pub start: usize,
    pub form: u8,
}

// The last sheet of a file that is read, before it is made that record: so neither a number nor a position stands beside it.
#[derive(Clone, Copy)]
pub(crate) struct LastSheet {
    pub(crate) sheet: Sheet,
    pub(crate) justified: u8,
    pub(crate) start: usize,
    pub(crate) form: u8,
}

// Reads the last sheet of a file.
#[tactic(auto, using(crate::proofs::Laws::Reading::accepted_is, crate::proofs::Laws::Reading::refusal_is))]
pub fn read(file: &[u8]) -> Reading
    ensures { result ≡ read_of file.now }
{
    match last_sheet(file) {
        Ok(last) => Reading {
            number: 0,
            position: 0,
            sheet: last.sheet,
            justified: last.justified,
            start: last.start,
            form: last.form,
        },
        Err(refusal) => refused(refusal),
    }
}

// Reads the sheet before a start; what it answers as its own start is counted from the beginning of the file too.
pub fn read_before(file: &[u8], start: usize) -> Reading
    ensures { result ≡ read_before file.now start }
{
    read(part_before(file, start))
}

// The last sheet of a file, or how the file is refused.
pub(crate) fn last_sheet(file: &[u8]) -> Result<LastSheet, Refusal>
    ensures { result ≡ last_read file.now }
{
    let Some(trailer) = last_trailer(file) else {
        return Err(Refusal::numbered(NO_SHEET));
    };
    let form = form_of(trailer.form);
    let count = trailer.count;
    let start = file.len() - sheet_size(form, count);
    let spaces = read_records(part_from(file, start), form, count);
    let vessel = read_vessel(file, form);
    let resumed = Sheet::resume(trailer.tonnage_length, vessel, Row::of(&spaces, count));
    if resumed.position != 0 {
        return Err(Refusal {
            number: WRONG_RECORD,
            position: resumed.position,
        });
    }
    judged(resumed.sheet, trailer, start)
}

// The trailer at the end of a file that ends in a sheet.
fn last_trailer(file: &[u8]) -> Option<Trailer>
    ensures { result ≡ where_true (not (no_sheet file.now)) (last_trailer file.now) }
{
    let size = file.len();
    let cut = size.checked_sub(TRAILER_SIZE)?;
    let numbers = read_trailer(&file[cut..]);
    let distance = numbers[0];
    if (size as u64) < distance {
        return None;
    }
    trailer_of(numbers)
}

// A sheet judged by its report and its trailer: 13, 14, 21 or 18, or the sheet read.
fn judged(sheet: Sheet, trailer: Trailer, start: usize) -> Result<LastSheet, Refusal>
    ensures { result ≡ judged_reading sheet trailer start }
{
    let figures = sheet.figures(trailer.justified);
    if figures.number != 0 {
        return Err(Refusal::numbered(figures.number));
    }
    if figures.gross != trailer.gross || figures.net != trailer.net {
        return Err(Refusal::numbered(WRONG_FIGURES));
    }
    Ok(LastSheet {
        sheet,
        justified: trailer.justified,
        start,
        form: trailer.form,
    })
}

// "A refused open or read hands back a sheet not open, mark 0, start 0", and form 0.
#[tactic(auto, unfolding(crate::specs::Reading::refused_reading))]
fn refused(refusal: Refusal) -> Reading
    ensures { result ≡ refused_reading refusal.number refusal.position }
{
    Reading {
        number: refusal.number,
        position: refusal.position,
        sheet: Sheet::closed(),
        justified: 0,
        start: 0,
        form: 0,
    }
}

// The part of a file from a start on: the last sheet, where it is the start that reading answered.
pub fn part_from(file: &[u8], start: usize) -> &[u8]
    ensures { result.now ≡ drop start file.now }
{
    &file[start.min(file.len())..]
}

// The part before it: the earlier sheets, read the same way.
pub fn part_before(file: &[u8], start: usize) -> &[u8]
    ensures { result.now ≡ take start file.now }
{
    &file[..start.min(file.len())]
}
