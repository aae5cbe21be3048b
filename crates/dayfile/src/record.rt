// The record of a space ("Record"), in any form.
ghost use Rattle.std.specs.Prelude.{◌≡◌, ◌*◌, ◌≤◌, length, take};
ghost use Rattle.std.proofs.lemmas.List.Edits.{sets};
ghost use Rattle.dayfile.specs.Fields.{widths as widths_of};
ghost use Rattle.dayfile.specs.Record.{record_fields, record_size, record_bytes, record_numbers, records, records_in};
ghost use Rattle.dayfile.specs.Handed.{Narrow, most_record, read_as, each_read_as};

use crate::fields::{get_fields, in_ranges, put_fields};
use crate::forms::{Form, greatest_in};
use measure::units::Hundredths;
use spaces::space::{GREATEST_DECK, Space, empty};
use standard::records::GREATEST_TONNAGE;
use standard::rules::GREATEST_ID;
use standard::standings::GREATEST_STANDING;

// "The old 16": the bytes of a record that every form has.
const OLD_RECORD: usize = 16;

// Rows, as those of a trailer are.
const LEAST: [u64; 9] = [1, 0, 1, 0, 0, 0, 1, 0, 0];

// The greatest id, standing, tonnage and deck, as numbers of a file.
const ID: u64 = GREATEST_ID as u64;

const STANDING: u64 = GREATEST_STANDING as u64;

const TONNAGE: u64 = GREATEST_TONNAGE as u64;

const DECK: u64 = GREATEST_DECK as u64;

// The bytes of a record; so few that those of 200 don't overflow.
pub(crate) fn record_size(form: Form) -> usize
    ensures { (result ≡ record_size form) × (result ≤ most_record) }
{
    OLD_RECORD + usize::from(form.deck) + usize::from(form.zero)
}

// id 2, enclosing id 2, kind 1, standing 1, zero 2, tonnage 4, length 4; then deck and zero, in a form that has them
fn record_widths(form: Form) -> [u8; 9]
    ensures { result ≡ widths_of (record_fields form) }
{
    [2, 2, 1, 1, 2, 4, 4, form.deck, form.zero]
}

// Writes the records of some spaces, one after the other, from the front of a part of a buffer. By their number: `chunks_exact_mut` was
// tried, and what the buffer holds after it is a name of Rattle's own, so that the proof didn't close.
pub(crate) fn write_records(buf: &mut [u8], form: Form, spaces: &[Space])
    requires { record_size form * length spaces.now ≤ length buf.old }
    ensures { buf.new ≡ sets buf.old 0 (records form spaces.now) }
{
    let size = record_size(form);
    for (i, x) in spaces.iter().enumerate() {
        write_record(&mut buf[size * i..], form, *x);
    }
}

fn write_record(buf: &mut [u8], form: Form, x: Space)
    requires { record_size form ≤ length buf.old }
    ensures { buf.new ≡ sets buf.old 0 (record_bytes form x) }
{
    let numbers = [
        u64::from(x.id),
        u64::from(x.within),
        u64::from(x.kind),
        u64::from(x.standing),
        0,
        u64::from(x.tonnage),
        u64::from(x.length.0),
        u64::from(x.deck),
        0,
    ];
    put_fields(buf, &record_widths(form), &numbers);
}

// The spaces of the first `count` records of some bytes, in the first places of an array: the library uses no heap. By their number, too:
// a zip of `iter_mut` with `chunks_exact` was tried, with the same end.
pub(crate) fn read_records(bytes: &[u8], form: Form, count: usize) -> [Space; 200]
    requires count_bound { (count ≤ 200) × (record_size form * count ≤ length bytes.now) }
    requires narrow { Narrow (widths_of (record_fields form)) }
    ensures { take count result ≡ each_read_as form (records_in form count bytes.now) }
{
    let size = record_size(form);
    let mut spaces = [empty(); 200];
    for (i, x) in spaces[..count].iter_mut().enumerate() {
        *x = space_of(form, read_record(&bytes[size * i..], form));
    }
    spaces
}

fn read_record(bytes: &[u8], form: Form) -> [u64; 9]
    requires form_in_bounds { record_size form ≤ length bytes.now }
    requires narrow { Narrow (widths_of (record_fields form)) }
    ensures { result ≡ record_numbers form bytes.now }
{
    let mut numbers = [0u64; 9];
    get_fields(bytes, &record_widths(form), &mut numbers);
    numbers
}

// The space of a record's numbers; an empty record, which no entry could have made, where one is outside its range.
fn space_of(form: Form, numbers: [u64; 9]) -> Space
    ensures { result ≡ read_as form numbers }
{
    let deck = greatest_in(form.deck, DECK);
    let greatest = [ID, 65_535, 5, STANDING, 0, TONNAGE, 150_000, deck, 0];
    if in_ranges(&numbers, &LEAST, &greatest) {
        return Space {
            id: numbers[0] as u16,
            within: numbers[1] as u16,
            kind: numbers[2] as u8,
            standing: numbers[3] as u8,
            m: 0,
            deck: numbers[7] as u8,
            tonnage: numbers[5] as u32,
            length: Hundredths(numbers[6] as u32),
        };
    }
    empty()
}
