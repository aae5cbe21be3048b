// The trailer, which points back to the first record ("Trailer"), and the vessel number before it, in a form that has it.
ghost use Rattle.std.specs.Prelude.{◌≡◌, ◌++◌, ◌≤◌, length};
ghost use Rattle.std.proofs.lemmas.List.Edits.{sets};
ghost use Rattle.dayfile.specs.Forms.{form_of};
ghost use Rattle.dayfile.specs.Trailer.{end_size, sheet_size, trailer_size, vessel_bytes, vessel_in, trailer_bytes, trailer_numbers, trailer_right, trailer_of};
ghost use Rattle.dayfile.specs.Handed.{most_end, where_true};

use crate::fields::{get_fields, in_ranges, put_fields};
use crate::forms::{Form, form_of, form_told};
use crate::numbers::{number_at, put_number};
use crate::record::record_size;
use measure::units::Hundredths;

pub(crate) const TRAILER_SIZE: usize = 28;

// Widths, least and greatest are rows, each by itself, and the numbers read a row in their order: `encoded`, `decoded` and `in_ranges`
// (specs/Fields) take such rows, and a struct for each field would have to be taken apart into them again.
//
// distance 4, count 2, justified 1, the byte that tells the form 1, tonnage length 4, gross 8, net 8
const WIDTHS: [u8; 7] = [4, 2, 1, 1, 4, 8, 8];

const LEAST: [u64; 7] = [0, 0, 0, 0, 100, 0, 0];

const GREATEST: [u64; 7] = [
    u32::MAX as u64,
    200,
    1,
    u8::MAX as u64,
    150_000,
    u64::MAX,
    u64::MAX,
];

// What a trailer says of its sheet; the form by its number. No ghost field says that it counts at most 200: the definition builds trailers
// of any numbers (specs/Trailer `trailer_of`), so that functions ask it.
#[derive(Clone, Copy)]
pub(crate) struct Trailer {
    pub(crate) count: usize,
    pub(crate) justified: u8,
    pub(crate) form: u8,
    pub(crate) tonnage_length: Hundredths,
    pub(crate) gross: u64,
    pub(crate) net: u64,
}

// The bytes behind the records.
fn end_size(form: Form) -> usize
    ensures { (result ≡ end_size form) × (result ≤ most_end) }
{
    usize::from(form.vessel) + TRAILER_SIZE
}

// The bytes of a sheet of so many spaces, which is its trailer's distance.
pub(crate) fn sheet_size(form: Form, count: usize) -> usize
    requires { count ≤ 200 }
    ensures { result ≡ sheet_size form count }
{
    record_size(form) * count + end_size(form)
}

// Writes the vessel number, in a form that has it, and a trailer behind it, at the front of a part of a buffer.
pub(crate) fn write_end(buf: &mut [u8], vessel: u32, t: Trailer)
    requires { (end_size (form_of t.form) ≤ length buf.old) × (t.count ≤ 200) }
    ensures { buf.new ≡ sets buf.old 0 (vessel_bytes (form_of t.form) vessel ++ trailer_bytes t) }
{
    let form = form_of(t.form);
    let width = usize::from(form.vessel);
    put_number(&mut buf[..width], u64::from(vessel));
    write_trailer(&mut buf[width..], form, t);
}

fn write_trailer(buf: &mut [u8], form: Form, t: Trailer)
    requires { (trailer_size ≤ length buf.old) × (t.count ≤ 200) × (form ≡ form_of t.form) }
    ensures { buf.new ≡ sets buf.old 0 (trailer_bytes t) }
{
    let numbers = [
        sheet_size(form, t.count) as u64,
        t.count as u64,
        u64::from(t.justified),
        u64::from(form.tells),
        u64::from(t.tonnage_length.0),
        t.gross,
        t.net,
    ];
    put_fields(buf, &WIDTHS, &numbers);
}

// The numbers of the trailer at the front of some bytes.
pub(crate) fn read_trailer(bytes: &[u8]) -> [u64; 7]
    requires { trailer_size ≤ length bytes.now }
    ensures { result ≡ trailer_numbers bytes.now }
{
    let mut numbers = [0u64; 7];
    get_fields(bytes, &WIDTHS, &mut numbers);
    numbers
}

// The trailer of some numbers, where count, distance, the byte that tells the form, mark and tonnage length are as they must be.
pub(crate) fn trailer_of(numbers: [u64; 7]) -> Option<Trailer>
    ensures { result ≡ where_true (trailer_right numbers) (trailer_of numbers) }
{
    if !in_ranges(&numbers, &LEAST, &GREATEST) {
        return None;
    }
    let form = form_told(numbers[3])?;
    let count = numbers[1] as usize;
    if numbers[0] != sheet_size(form_of(form), count) as u64 {
        return None;
    }
    Some(Trailer {
        count,
        justified: numbers[2] as u8,
        form,
        tonnage_length: Hundredths(numbers[4] as u32),
        gross: numbers[5],
        net: numbers[6],
    })
}

// The vessel number before the trailer at the end of a file; 0 in a form that lacks it.
pub(crate) fn read_vessel(file: &[u8], form: Form) -> u32
    requires { (form.vessel ≤ 4) × (end_size form ≤ length file.now) }
    ensures { result ≡ vessel_in form file.now }
{
    let at = file.len() - end_size(form);
    number_at(&file[at..at + usize::from(form.vessel)]) as u32
}
