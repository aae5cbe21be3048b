// Answer lines. The first number of each is the paper's number of refusal, 0 for accepted; a line that is no call is
// answered by a remark. What a call handed back is answered, and its sheet handed on.
ghost use Rattle.std.specs.Prelude.{◌≤◌, length};

use dayfile::{Moved, Reading, Written};
use measure::kinds::UNDER_DECK;
use measure::roundings::Roundings;
use measure::tanks;
use measure::units::Hundredths;
use script::hex;
use script::remarks::Remark;
use sheet::{Changed, Counted, Entering, Reported, Sheet, TankEntering};
use spaces::space::Space;
use std::fmt::Display;
use std::io;

const BYTES_AT_A_TIME: usize = 2048;

// A remark and a newline, each written by itself.
pub fn remark(rt: &impl Print, remark: Remark) -> io::Result<()> {
    print!(rt; "{remark}")?;
    println!(rt)
}

pub fn changed(rt: &impl Print, changed: Changed) -> io::Result<Sheet> {
    println!(rt; "{}", changed.number)?;
    Ok(changed.sheet)
}

// The rounding of the length; of an accepted U those of the depths at its stations, `-` where there are none; and the enclosing
// spaces visited.
pub fn entering(
    rt: &impl Print,
    entering: Entering,
    kind: u8,
    stations: usize,
) -> io::Result<Sheet> {
    let roundings = entering.roundings;
    print!(rt; "{} {} ", entering.number, roundings.length)?;
    if entering.number == 0 && kind == UNDER_DECK {
        print_depths(rt, roundings, stations)?;
    } else {
        rt.print("-")?;
    }
    println!(rt; " {}", entering.visited)?;
    Ok(entering.sheet)
}

// The enclosing spaces visited.
pub fn tank_entering(rt: &impl Print, entering: TankEntering) -> io::Result<Sheet> {
    println!(rt; "{} {}", entering.number, entering.visited)?;
    Ok(entering.sheet)
}

// An accepted U has at most as many stations as there are places.
fn print_depths(rt: &impl Print, roundings: Roundings, stations: usize) -> io::Result<()> {
    for (place, depth) in roundings.depths.iter().take(stations).enumerate() {
        print_listed(rt, place, *depth)?;
    }
    Ok(())
}

pub fn counted(rt: &impl Print, counted: Counted) -> io::Result<Sheet> {
    println!(rt; "0 {} {}", counted.undoable, counted.redoable)?;
    Ok(counted.sheet)
}

pub fn reported(rt: &impl Print, reported: Reported) -> io::Result<Sheet> {
    println!(rt; "{} {} {}", reported.number, reported.gross, reported.net)?;
    Ok(reported.sheet)
}

// The bytes written, and the whole buffer after it.
pub fn written(rt: &impl Print, written: Written, buffer: &[u8]) -> io::Result<Sheet> {
    print!(rt; "{} {} ", written.number, written.bytes)?;
    print_bytes(rt, buffer)?;
    rt.print("\n")?;
    Ok(written.sheet)
}

// The bytes written, the position, and the whole buffer after it.
pub fn moved(rt: &impl Print, moved: Moved, buffer: &[u8]) -> io::Result<()> {
    print!(rt; "{} {} {} ", moved.number, moved.bytes, moved.position)?;
    print_bytes(rt, buffer)?;
    rt.print("\n")
}

// The position, the justified mark, the start and the form.
pub fn read(rt: &impl Print, reading: Reading) -> io::Result<Sheet> {
    println!(rt;
        "{} {} {} {} {}",
        reading.number, reading.position, reading.justified, reading.start, reading.form
    )?;
    Ok(reading.sheet)
}

// Whether the sheet is open, its tonnage length, how many spaces stand, its vessel number, and each space.
pub fn spaces(rt: &impl Print, sheet: Sheet) -> io::Result<Sheet> {
    print!(rt;
        "0 {} {} {} {}",
        u8::from(sheet.is_open()),
        sheet.tonnage_length().0,
        sheet.standing_count(),
        sheet.vessel()
    )?;
    print_spaces(rt, sheet)?;
    rt.print("\n")?;
    Ok(sheet)
}

// Each standing space in order of entry.
fn print_spaces(rt: &impl Print, sheet: Sheet) -> io::Result<()> {
    for space in sheet.standing().spaces {
        print_space(rt, *space)?;
    }
    Ok(())
}

fn print_space(rt: &impl Print, space: Space) -> io::Result<()> {
    print!(rt;
        " {}:{}:{}:{}:{}:{}:{}:{}",
        space.id,
        space.within,
        space.kind,
        space.standing,
        space.tonnage,
        space.length.0,
        space.m,
        space.deck
    )
}

// Where a tank is measured: its parts and, of each section, the under-deck station inside whose section it is.
pub fn zones(
    rt: &impl Print,
    tonnage_length: Hundredths,
    under_deck: Hundredths,
    length: Hundredths,
    fore: Hundredths,
) -> io::Result<()> {
    let laid_out = tanks::lay_out(tonnage_length, under_deck, length, fore);
    print!(rt; "{} {} ", laid_out.number, laid_out.parts)?;
    if laid_out.sections == 0 {
        rt.print("-")?;
    }
    for place in 0..laid_out.sections {
        let station = tanks::section_station(tonnage_length, under_deck, length, fore, place);
        print_listed(rt, place, station)?;
    }
    rt.print("\n")
}

// A number of a list, by its place: a comma stands before each but the first.
fn print_listed(rt: &impl Print, place: usize, x: impl Display + Drop) -> io::Result<()> {
    if 0 < place {
        rt.print(",")?;
    }
    rt.print(x)
}

// Bytes as hex digits, some thousands at a time; `-` where there are none.
fn print_bytes(rt: &impl Print, bytes: &[u8]) -> io::Result<()> {
    if bytes.is_empty() {
        return rt.print("-");
    }
    for part in bytes.chunks(BYTES_AT_A_TIME) {
        print_hex(rt, part)?;
    }
    Ok(())
}

// So few bytes that the digits of all of them fit.
fn print_hex(rt: &impl Print, bytes: &[u8]) -> io::Result<()>
    requires { length bytes.now ≤ 2048 }
{
    let mut text = [0u8; 4096];
    let n = hex::digits(bytes, &mut text);
    rt.write_all(&text[..n])
}
