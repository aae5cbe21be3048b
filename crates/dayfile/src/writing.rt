// Writing a sheet into a lent buffer ("Writing starts at a place in the buffer that the caller names"). Buffer and place go on as C hands
// them in: what is promised speaks of the whole buffer (specs/Writing `written_into`).
ghost use Rattle.std.specs.Prelude.{◌≡◌, true, ◌||◌, ◌-◌, ◌≤◌, ltb, length};
ghost use Rattle.dayfile.specs.Forms.{is_form, lost as lost_in};
ghost use Rattle.dayfile.specs.Writing.{loses_deck, written, written_into};
ghost use Rattle.dayfile.specs.Handed.{Reports, form_refusal, refused_or, stored, stored_into, written_as};

use crate::forms::{Form, form_of, is_form, lost};
use crate::record::{record_size, write_records};
use crate::refusals::{LOSES_NUMBER, NO_ROOM, Refusal};
use crate::trailer::{Trailer, sheet_size, write_end};
use measure::refusals::OUTSIDE_ITS_RANGE;
use sheet::refusals::{DEDUCTIONS_PASS, NOT_OPEN};
use sheet::{Figures, Sheet};
use spaces::space::Space;

// The paper's number, 0 where accepted, the bytes written, and the sheet as it came. No `Result`, since C takes it by this layout.
#[repr(C)]
#[derive(Clone, Copy)]
pub struct Written {
    pub number: u8,
    pub bytes: usize,
    pub sheet: Sheet,
}

// Writes a sheet with its justified mark in a form, 1 or 2, from a place of the buffer on; no byte before or after is touched.
pub fn write(sheet: Sheet, justified: u8, form: u8, buf: &mut [u8], at: usize) -> Written
    ensures answer { result ≡ written sheet justified form (length buf.old) at }
    ensures buffer { buf.new ≡ written_into sheet justified form at buf.old }
{
    match write_sheet(&sheet, justified, form, buf, at) {
        Ok(bytes) => Written {
            number: 0,
            bytes,
            sheet,
        },
        Err(refusal) => Written {
            number: refusal.number,
            bytes: 0,
            sheet,
        },
    }
}

// The bytes written, or how the write is refused.
fn write_sheet(
    sheet: &Sheet,
    justified: u8,
    form: u8,
    buf: &mut [u8],
    at: usize,
) -> Result<usize, Refusal>
    ensures answer { result ≡ written_as sheet.now justified form (length buf.old) at }
    ensures buffer { buf.new ≡ written_into sheet.now justified form at buf.old }
{
    let figures = sheet.figures(justified);
    form_refusal(figures.number, form)?;
    store_sheet(sheet, justified, form, figures, buf, at)
}

// 1, 2, 13 or 14 of a write, by the number of its report and its form; 21 comes later in a write.
fn form_refusal(report: u8, form: u8) -> Result<(), Refusal>
    ensures { result ≡ refused_or (form_refusal report (is_form form)) tt }
{
    if report == NOT_OPEN {
        return Err(Refusal::numbered(NOT_OPEN));
    }
    if !is_form(form) {
        return Err(Refusal::numbered(OUTSIDE_ITS_RANGE));
    }
    if report == 0 || report == DEDUCTIONS_PASS {
        return Ok(());
    }
    Err(Refusal::numbered(report))
}

// What is left of a write of a sheet, with the figures of its report, which none of 1, 2, 13 and 14 refuses, in a form that there is.
pub(crate) fn store_sheet(
    sheet: &Sheet,
    justified: u8,
    form: u8,
    figures: Figures,
    buf: &mut [u8],
    at: usize,
) -> Result<usize, Refusal>
    requires { Reports sheet.now justified figures × (is_form form ≡ true) }
    ensures answer { result ≡ written_as sheet.now justified form (length buf.old) at }
    ensures buffer { buf.new ≡ written_into sheet.now justified form at buf.old }
{
    let spaces = sheet.standing().spaces;
    let trailer = Trailer {
        count: spaces.len(),
        justified,
        form,
        tonnage_length: sheet.tonnage_length(),
        gross: figures.gross,
        net: figures.net,
    };
    let deductions_pass = figures.number == DEDUCTIONS_PASS;
    store(trailer, deductions_pass, sheet.vessel(), spaces, buf, at)
}

// Writes the records of the spaces that a trailer counts, the vessel number and the trailer, unless a number would be lost, there is
// too little room, or deductions pass gross.
fn store(
    trailer: Trailer,
    deductions_pass: bool,
    vessel: u32,
    spaces: &[Space],
    buf: &mut [u8],
    at: usize,
) -> Result<usize, Refusal>
    requires { (trailer.count ≤ 200) × (length spaces.now ≡ trailer.count) }
    ensures answer { result ≡ stored trailer deductions_pass vessel spaces.now (length buf.old) at }
    ensures buffer { buf.new ≡ stored_into trailer deductions_pass vessel spaces.now at buf.old }
{
    let form = form_of(trailer.form);
    let size = sheet_size(form, trailer.count);
    let loses = loses_number(form, vessel, spaces);
    let short = too_little_room(buf.len(), at, size);
    if loses {
        return Err(Refusal::numbered(LOSES_NUMBER));
    }
    if short {
        return Err(Refusal::numbered(NO_ROOM));
    }
    if deductions_pass {
        return Err(Refusal::numbered(DEDUCTIONS_PASS));
    }
    write_records(&mut buf[at..], form, spaces);
    let end = at + record_size(form) * trailer.count;
    write_end(&mut buf[end..], vessel, trailer);
    Ok(size)
}

// 20: the vessel number or a deck of the spaces would be lost.
fn loses_number(form: Form, vessel: u32, spaces: &[Space]) -> bool
    ensures { result ≡ (lost_in form.vessel vessel || loses_deck form spaces.now) }
{
    lost(form.vessel, vessel) || spaces.iter().any(|x| lost(form.deck, u32::from(x.deck)))
}

// 15: so many bytes from a place on are more than a buffer of this length has.
fn too_little_room(length: usize, at: usize, size: usize) -> bool
    ensures { result ≡ ltb (length - at) size }
{
    length.saturating_sub(at) < size
}
