// The calls for C and Rust: each hands its numbers to the call of the library that it is named for, and promises what that
// one promises. `fummidrake_c` exports them, and include/fummidrake.h declares them, with a sentence for each.
//
// A slice is a pointer and a length there. No function asks anything of its caller but that the two belong together.
#![tactic(auto)]

ghost use Rattle.std.specs.Prelude.{◌≡◌, length};
ghost use Rattle.measure.specs.Kinds.{kind_of};
ghost use Rattle.measure.specs.Volumes.{hundredths};
ghost use Rattle.measure.specs.Offsets.{stations as stations_of, breadths_at_station};
ghost use Rattle.measure.specs.Tanks.{laid_out, section_station};
ghost use Rattle.sheet.specs.Sheet.{usable, length_of, vessel_of, standing_count, space_at};
ghost use Rattle.sheet.specs.Calls.{opened_with, entering, withdrawn, marked, undone, redone, counted, reported};
ghost use Rattle.sheet.specs.Tanks.{tank_entering};
ghost use Rattle.dayfile.specs.Writing.{written, written_into};
ghost use Rattle.dayfile.specs.Reading.{read_of, read_before};
ghost use Rattle.dayfile.specs.Moving.{moved, moved_into};
ghost use Rattle.listing.specs.Listing.{listed};

use dayfile::{Moved, Reading, Written};
use listing::Listing;
use measure::kinds::kind_of;
use measure::offsets::{breadths_at_station, stations};
use measure::tanks::{LaidOut, lay_out, section_station};
use measure::units::Hundredths;
use sheet::{Changed, Counted, Entering, Entry, Reported, Sheet, Tank, TankEntering};
use spaces::space::Space;

pub fn fummidrake_open(length: u32, vessel: u32) -> Changed
    ensures { result ≡ opened_with (hundredths length) vessel }
{
    Sheet::open(Hundredths(length), vessel)
}

pub fn fummidrake_enter(sheet: Sheet, entry: Entry, heights: &[u32], breadths: &[u32]) -> Entering
    ensures { result ≡ entering sheet entry heights.now breadths.now }
{
    sheet.enter(entry, heights, breadths)
}

pub fn fummidrake_enter_tank(
    sheet: Sheet,
    tank: Tank,
    depths: &[u32],
    breadths: &[u32],
) -> TankEntering
    ensures { result ≡ tank_entering sheet tank depths.now breadths.now }
{
    sheet.enter_tank(tank, depths, breadths)
}

pub fn fummidrake_withdraw(sheet: Sheet, id: u16) -> Changed
    ensures { result ≡ withdrawn sheet id }
{
    sheet.withdraw(id)
}

pub fn fummidrake_mark(sheet: Sheet, id: u16, standing: u8) -> Changed
    ensures { result ≡ marked sheet id standing }
{
    sheet.mark(id, standing)
}

pub fn fummidrake_undo(sheet: Sheet) -> Changed
    ensures { result ≡ undone sheet }
{
    sheet.undo()
}

pub fn fummidrake_redo(sheet: Sheet) -> Changed
    ensures { result ≡ redone sheet }
{
    sheet.redo()
}

pub fn fummidrake_counts(sheet: Sheet) -> Counted
    ensures { result ≡ counted sheet }
{
    sheet.counts()
}

pub fn fummidrake_report(sheet: Sheet, justified: u8) -> Reported
    ensures { result ≡ reported sheet justified }
{
    sheet.report(justified)
}

pub fn fummidrake_is_open(sheet: Sheet) -> bool
    ensures { result ≡ usable sheet }
{
    sheet.is_open()
}

pub fn fummidrake_tonnage_length(sheet: Sheet) -> u32
    ensures { result ≡ (length_of sheet).0 }
{
    sheet.tonnage_length().0
}

pub fn fummidrake_vessel(sheet: Sheet) -> u32
    ensures { result ≡ vessel_of sheet }
{
    sheet.vessel()
}

pub fn fummidrake_standing_count(sheet: Sheet) -> usize
    ensures { result ≡ standing_count sheet }
{
    sheet.standing_count()
}

pub fn fummidrake_space_at(sheet: Sheet, place: usize) -> Space
    ensures { result ≡ space_at sheet place }
{
    sheet.space_at(place)
}

pub fn fummidrake_stations(kind: u8, tonnage_length: u32, length: u32) -> usize
    ensures { result ≡ stations_of (kind_of kind) (hundredths tonnage_length) (hundredths length) }
{
    stations(
        kind_of(kind),
        Hundredths(tonnage_length),
        Hundredths(length),
    )
}

pub fn fummidrake_breadths_at_station(kind: u8, middle: u32) -> usize
    ensures { result ≡ breadths_at_station (kind_of kind) (hundredths middle) }
{
    breadths_at_station(kind_of(kind), Hundredths(middle))
}

pub fn fummidrake_lay_out(tonnage_length: u32, under_deck: u32, length: u32, fore: u32) -> LaidOut
    ensures { result ≡ laid_out (hundredths tonnage_length) (hundredths under_deck) (hundredths length) (hundredths fore) }
{
    lay_out(
        Hundredths(tonnage_length),
        Hundredths(under_deck),
        Hundredths(length),
        Hundredths(fore),
    )
}

pub fn fummidrake_section_station(
    tonnage_length: u32,
    under_deck: u32,
    length: u32,
    fore: u32,
    section: usize,
) -> usize
    ensures { result ≡ section_station (hundredths tonnage_length) (hundredths under_deck) (hundredths length) (hundredths fore) section }
{
    section_station(
        Hundredths(tonnage_length),
        Hundredths(under_deck),
        Hundredths(length),
        Hundredths(fore),
        section,
    )
}

pub fn fummidrake_write(sheet: Sheet, justified: u8, form: u8, buf: &mut [u8], at: usize) -> Written
    ensures answer { result ≡ written sheet justified form (length buf.old) at }
    ensures buffer { buf.new ≡ written_into sheet justified form at buf.old }
{
    dayfile::write(sheet, justified, form, buf, at)
}

pub fn fummidrake_read(file: &[u8]) -> Reading
    ensures { result ≡ read_of file.now }
{
    dayfile::read(file)
}

pub fn fummidrake_read_before(file: &[u8], start: usize) -> Reading
    ensures { result ≡ read_before file.now start }
{
    dayfile::read_before(file, start)
}

pub fn fummidrake_move_last(from: &[u8], form: u8, to: &mut [u8], at: usize) -> Moved
    ensures answer { result ≡ moved from.now form (length to.old) at }
    ensures buffer { to.new ≡ moved_into from.now form at to.old }
{
    dayfile::move_last(from, form, to, at)
}

pub fn fummidrake_list(file: &[u8]) -> Listing
    ensures { result ≡ listed file.now }
{
    listing::list(file)
}
