// What C and Rust link: each export is the twin of the call of its name in `fummidrake`, and promises what that one promises. The C
// interface needs both: a crate is a library or an archive, not both, and only a library can be called by other crates, so the exports
// stand here. include/fummidrake.h declares them, with a sentence for each.
#![tactic(auto)]

ghost use Rattle.std.specs.Prelude.{◌≡◌, length};
ghost use Rattle.measure.specs.Kinds.{kind_of};
ghost use Rattle.measure.specs.Volumes.{hundredths};
ghost use Rattle.measure.specs.Offsets.{stations as stations_of, breadths_at_station};
ghost use Rattle.measure.specs.Tanks.{laid_out, section_station};
ghost use Rattle.sheet.specs.Sheet.{usable, length_of, vessel_of, standing_count, space_at};
ghost use Rattle.sheet.specs.Calls.{opened_with, entering, withdrawn, marked, undone, redone, counted, reported};
ghost use Rattle.sheet.specs.Tanks.{tank_entering};
ghost use Rattle.dayfile.specs.Writing.{written, written_into};
ghost use Rattle.dayfile.specs.Reading.{read_of, read_before};
ghost use Rattle.dayfile.specs.Moving.{moved, moved_into};
ghost use Rattle.listing.specs.Listing.{listed};

use dayfile::{Moved, Reading, Written};
use listing::Listing;
use measure::tanks::LaidOut;
use sheet::{Changed, Counted, Entering, Entry, Reported, Sheet, Tank, TankEntering};
use spaces::space::Space;

#[unsafe(no_mangle)]
pub extern "C" fn fummidrake_open(length: u32, vessel: u32) -> Changed
    ensures { result ≡ opened_with (hundredths length) vessel }
{
    fummidrake::fummidrake_open(length, vessel)
}

#[unsafe(no_mangle)]
pub extern "C" fn fummidrake_enter(
    sheet: Sheet,
    entry: Entry,
    heights: &[u32],
    breadths: &[u32],
) -> Entering
    ensures { result ≡ entering sheet entry heights.now breadths.now }
{
    fummidrake::fummidrake_enter(sheet, entry, heights, breadths)
}

#[unsafe(no_mangle)]
pub extern "C" fn fummidrake_enter_tank(
    sheet: Sheet,
    tank: Tank,
    depths: &[u32],
    breadths: &[u32],
) -> TankEntering
    ensures { result ≡ tank_entering sheet tank depths.now breadths.now }
{
    fummidrake::fummidrake_enter_tank(sheet, tank, depths, breadths)
}

#[unsafe(no_mangle)]
pub extern "C" fn fummidrake_withdraw(sheet: Sheet, id: u16) -> Changed
    ensures { result ≡ withdrawn sheet id }
{
    fummidrake::fummidrake_withdraw(sheet, id)
}

#[unsafe(no_mangle)]
pub extern "C" fn fummidrake_mark(sheet: Sheet, id: u16, standing: u8) -> Changed
    ensures { result ≡ marked sheet id standing }
{
    fummidrake::fummidrake_mark(sheet, id, standing)
}

#[unsafe(no_mangle)]
pub extern "C" fn fummidrake_undo(sheet: Sheet) -> Changed
    ensures { result ≡ undone sheet }
{
    fummidrake::fummidrake_undo(sheet)
}

#[unsafe(no_mangle)]
pub extern "C" fn fummidrake_redo(sheet: Sheet) -> Changed
    ensures { result ≡ redone sheet }
{
    fummidrake::fummidrake_redo(sheet)
}

#[unsafe(no_mangle)]
pub extern "C" fn fummidrake_counts(sheet: Sheet) -> Counted
    ensures { result ≡ counted sheet }
{
    fummidrake::fummidrake_counts(sheet)
}

#[unsafe(no_mangle)]
pub extern "C" fn fummidrake_report(sheet: Sheet, justified: u8) -> Reported
    ensures { result ≡ reported sheet justified }
{
    fummidrake::fummidrake_report(sheet, justified)
}

#[unsafe(no_mangle)]
pub extern "C" fn fummidrake_is_open(sheet: Sheet) -> bool
    ensures { result ≡ usable sheet }
{
    fummidrake::fummidrake_is_open(sheet)
}

#[unsafe(no_mangle)]
pub extern "C" fn fummidrake_tonnage_length(sheet: Sheet) -> u32
    ensures { result ≡ (length_of sheet).0 }
{
    fummidrake::fummidrake_tonnage_length(sheet)
}

#[unsafe(no_mangle)]
pub extern "C" fn fummidrake_vessel(sheet: Sheet) -> u32
    ensures { result ≡ vessel_of sheet }
{
    fummidrake::fummidrake_vessel(sheet)
}

#[unsafe(no_mangle)]
pub extern "C" fn fummidrake_standing_count(sheet: Sheet) -> usize
    ensures { result ≡ standing_count sheet }
{
    fummidrake::fummidrake_standing_count(sheet)
}

#[unsafe(no_mangle)]
pub extern "C" fn fummidrake_space_at(sheet: Sheet, place: usize) -> Space
    ensures { result ≡ space_at sheet place }
{
    fummidrake::fummidrake_space_at(sheet, place)
}

#[unsafe(no_mangle)]
pub extern "C" fn fummidrake_stations(kind: u8, tonnage_length: u32, length: u32) -> usize
    ensures { result ≡ stations_of (kind_of kind) (hundredths tonnage_length) (hundredths length) }
{
    fummidrake::fummidrake_stations(kind, tonnage_length, length)
}

#[unsafe(no_mangle)]
pub extern "C" fn fummidrake_breadths_at_station(kind: u8, middle: u32) -> usize
    ensures { result ≡ breadths_at_station (kind_of kind) (hundredths middle) }
{
    fummidrake::fummidrake_breadths_at_station(kind, middle)
}

#[unsafe(no_mangle)]
pub extern "C" fn fummidrake_lay_out(
    tonnage_length: u32,
    under_deck: u32,
    length: u32,
    fore: u32,
) -> LaidOut
    ensures { result ≡ laid_out (hundredths tonnage_length) (hundredths under_deck) (hundredths length) (hundredths fore) }
{
    fummidrake::fummidrake_lay_out(tonnage_length, under_deck, length, fore)
}

#[unsafe(no_mangle)]
pub extern "C" fn fummidrake_section_station(
    tonnage_length: u32,
    under_deck: u32,
    length: u32,
    fore: u32,
    section: usize,
) -> usize
    ensures { result ≡ section_station (hundredths tonnage_length) (hundredths under_deck) (hundredths length) (hundredths fore) section }
{
    fummidrake::fummidrake_section_station(tonnage_length, under_deck, length, fore, section)
}

#[unsafe(no_mangle)]
pub extern "C" fn fummidrake_write(
    sheet: Sheet,
    justified: u8,
    form: u8,
    buf: &mut [u8],
    at: usize,
) -> Written
    ensures answer { result ≡ written sheet justified form (length buf.old) at }
    ensures buffer { buf.new ≡ written_into sheet justified form at buf.old }
{
    fummidrake::fummidrake_write(sheet, justified, form, buf, at)
}

#[unsafe(no_mangle)]
pub extern "C" fn fummidrake_read(file: &[u8]) -> Reading
    ensures { result ≡ read_of file.now }
{
    fummidrake::fummidrake_read(file)
}

#[unsafe(no_mangle)]
pub extern "C" fn fummidrake_read_before(file: &[u8], start: usize) -> Reading
    ensures { result ≡ read_before file.now start }
{
    fummidrake::fummidrake_read_before(file, start)
}

#[unsafe(no_mangle)]
pub extern "C" fn fummidrake_move_last(from: &[u8], form: u8, to: &mut [u8], at: usize) -> Moved
    ensures answer { result ≡ moved from.now form (length to.old) at }
    ensures buffer { to.new ≡ moved_into from.now form at to.old }
{
    fummidrake::fummidrake_move_last(from, form, to, at)
}

#[unsafe(no_mangle)]
pub extern "C" fn fummidrake_list(file: &[u8]) -> Listing
    ensures { result ≡ listed file.now }
{
    fummidrake::fummidrake_list(file)
}
