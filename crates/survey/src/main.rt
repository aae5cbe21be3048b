// A script of calls on one current sheet, and an answer line for each: how a newcomer tries the library, how a survey
// is replayed, and how the library is held against the second program (reference/survey.py), whose protocol this is.
// What it prints is tested, not proved.
#![tactic(auto)]

mod answers;

use dayfile::Reading;
use input::read_full;
use measure::units::Hundredths;
use script::remarks::Remark;
use script::text::{self, Lines};
use script::{calls, hex, words};
use sheet::{Changed, Entry, Sheet, Tank};
use std::io;

// A call by its form: with words that may be left out, or without.
#[derive(Clone, Copy)]
enum Call {
    Open,
    OpenWithVessel,
    Enter,
    EnterWithDeck,
    EnterWithEnds,
    EnterWithEndsAndDeck,
    EnterTank,
    EnterTankWithDeck,
    Withdraw,
    Mark,
    Undo,
    Redo,
    Counts,
    Report,
    Write,
    WriteInForm,
    WriteFilled,
    WriteFilledInForm,
    Read,
    ReadBefore,
    Move,
    Zones,
    Spaces,
}

// By the places of their forms (`script::calls::survey_line`).
const CALLS: [Call; 23] = [
    Call::Open,
    Call::OpenWithVessel,
    Call::Enter,
    Call::EnterWithDeck,
    Call::EnterWithEnds,
    Call::EnterWithEndsAndDeck,
    Call::EnterTank,
    Call::EnterTankWithDeck,
    Call::Withdraw,
    Call::Mark,
    Call::Undo,
    Call::Redo,
    Call::Counts,
    Call::Report,
    Call::Write,
    Call::WriteInForm,
    Call::WriteFilled,
    Call::WriteFilledInForm,
    Call::Read,
    Call::ReadBefore,
    Call::Move,
    Call::Zones,
    Call::Spaces,
];

// The words of a line, by their places; the call's name has place 0. A number that is left out is 0.
#[derive(Clone, Copy)]
struct Line<'a>(&'a [u8]);

impl<'a> Line<'a> {
    fn word(self, place: usize) -> &'a [u8] {
        words::word(self.0, place)
    }

    fn id(self, place: usize) -> u16 {
        words::id_in(self.word(place))
    }

    fn code(self, place: usize) -> u8 {
        words::code_in(self.word(place))
    }

    fn vessel(self, place: usize) -> u32 {
        words::measure_in(self.word(place))
    }

    fn measure(self, place: usize) -> Hundredths {
        Hundredths(words::measure_in(self.word(place)))
    }

    // A place in a buffer or a file, which has as many bits as a number of a script.
    fn position(self, place: usize) -> usize {
        words::value_in(self.word(place)) as usize
    }
}

fn main(rt: HostRuntime) -> io::Result<()> {
    let mut script = text::script_buffer();
    let n = read_full(&mut rt.reader(), &mut script)?;
    if text::MOST_BYTES < n {
        return answers::remark(&rt, Remark::ScriptTooLong);
    }
    answer_lines(&rt, &script[..n])
}

// At the start the current sheet is one not open. A loop of its own, beside that of `figures`: this one hands the sheet on.
fn answer_lines(rt: &impl Print, script: &[u8]) -> io::Result<()> {
    let mut sheet = Sheet::closed();
    for line in Lines(script) {
        sheet = answer_line(rt, sheet, line)?;
    }
    Ok(())
}

// Answers a line, if it has an answer, and hands back the sheet after it.
fn answer_line(rt: &impl Print, sheet: Sheet, line: &[u8]) -> io::Result<Sheet> {
    match calls::survey_line(line) {
        Ok(None) => Ok(sheet),
        Ok(Some(place)) => make(rt, sheet, Line(line), CALLS[place]),
        Err(remark) => {
            answers::remark(rt, remark)?;
            Ok(sheet)
        }
    }
}

// Makes a call with the words of its line. Of those that may be left out a vessel number, an end, a deck and a filling are then 0, and
// a form is 1. What takes more of the stack than a sheet is a function that is never inlined, so that no call takes another's.
fn make(rt: &impl Print, sheet: Sheet, line: Line, call: Call) -> io::Result<Sheet> {
    match call {
        Call::Open | Call::OpenWithVessel | Call::Withdraw | Call::Mark | Call::Undo | Call::Redo =>
            answers::changed(rt, change(sheet, line, call)),
        Call::Enter | Call::EnterWithEnds | Call::EnterWithEndsAndDeck => {
            enter(
                rt,
                sheet,
                line,
                entry(line, line.code(8), line.code(9), line.code(10)),
            )
        }
        Call::EnterWithDeck => enter(rt, sheet, line, entry(line, 0, 0, line.code(8))),
        Call::EnterTank | Call::EnterTankWithDeck => enter_tank(rt, sheet, line),
        Call::Counts => answers::counted(rt, sheet.counts()),
        Call::Report => answers::reported(rt, sheet.report(line.code(1))),
        Call::Write => write(rt, sheet, line, 0, 1),
        Call::WriteInForm => write(rt, sheet, line, 0, line.code(4)),
        Call::WriteFilled => write(rt, sheet, line, line.code(4), 1),
        Call::WriteFilledInForm => write(rt, sheet, line, line.code(4), line.code(5)),
        Call::Read => read(rt, line.word(1), |file| dayfile::read(file)),
        Call::ReadBefore => read(rt, line.word(2), |file| {
            dayfile::read_before(file, line.position(1))
        }),
        Call::Move => {
            move_last(rt, line)?;
            Ok(sheet)
        }
        Call::Zones => {
            zones(rt, line)?;
            Ok(sheet)
        }
        Call::Spaces => answers::spaces(rt, sheet),
    }
}

// Opens a sheet, makes a change other than an entry, takes one back or makes it again: these answer a number alone.
#[inline(never)]
fn change(sheet: Sheet, line: Line, call: Call) -> Changed {
    match call {
        Call::Open | Call::OpenWithVessel => Sheet::open(line.measure(1), line.vessel(2)),
        Call::Withdraw => sheet.withdraw(line.id(1)),
        Call::Mark => sheet.mark(line.id(1), line.code(2)),
        Call::Undo => sheet.undo(),
        _ => sheet.redo(),
    }
}

// Enters a space, with the two lists of the line.
#[inline(never)]
fn enter(rt: &impl Print, sheet: Sheet, line: Line, entry: Entry) -> io::Result<Sheet> {
    let kind = entry.kind;
    with_lists(line, |heights, breadths| {
        let stations = heights.len();
        answers::entering(rt, sheet.enter(entry, heights, breadths), kind, stations)
    })
}

// What is answered with the two lists of the line.
fn with_lists<T, F: FnOnce(&[u32], &[u32]) -> T>(line: Line, answer: F) -> T
    requires { F.IsAlwaysCallable answer }
{
    let mut first = [0u32; 1024];
    let f = words::measures(line.word(6), &mut first);
    let mut second = [0u32; 1024];
    let s = words::measures(line.word(7), &mut second);
    answer(&first[..f], &second[..s])
}

fn entry(line: Line, fore_end: u8, aft_end: u8, deck: u8) -> Entry {
    Entry {
        id: line.id(1),
        within: line.id(2),
        kind: line.code(3),
        standing: line.code(4),
        fore_end,
        aft_end,
        deck,
        length: line.measure(5),
    }
}

// Enters a tank, with the two lists of the line.
#[inline(never)]
fn enter_tank(rt: &impl Print, sheet: Sheet, line: Line) -> io::Result<Sheet> {
    with_lists(line, |depths, breadths| {
        answers::tank_entering(rt, sheet.enter_tank(tank(line), depths, breadths))
    })
}

fn tank(line: Line) -> Tank {
    Tank {
        id: line.id(1),
        within: line.id(2),
        standing: line.code(3),
        deck: line.code(8),
        length: line.measure(4),
        fore: line.measure(5),
    }
}

// Writes the sheet into a buffer of the size that the line says, whose bytes are all its filling.
#[inline(never)]
fn write(rt: &impl Print, sheet: Sheet, line: Line, fill: u8, form: u8) -> io::Result<Sheet> {
    let mut room = [fill; 65536];
    let buffer = &mut room[..words::size_in(line.word(3))];
    let written = dayfile::write(sheet, line.code(1), form, buffer, line.position(2));
    answers::written(rt, written, buffer)
}

// Reads a sheet of the file that a word is: its last, or the one before a start. Both come as closures: of
// `dayfile::read` as a value a proof asks the contract by its module, which dayfile doesn't export.
#[inline(never)]
fn read<F: FnOnce(&[u8]) -> Reading>(rt: &impl Print, file: &[u8], read: F) -> io::Result<Sheet>
    requires { F.IsAlwaysCallable read }
{
    let mut room = [0u8; 65536];
    let n = hex::bytes(file, &mut room);
    answers::read(rt, read(&room[..n]))
}

// Moves a file's last sheet into a buffer, as `write` has one.
#[inline(never)]
fn move_last(rt: &impl Print, line: Line) -> io::Result<()> {
    let mut file = [0u8; 65536];
    let n = hex::bytes(line.word(1), &mut file);
    let mut room = [line.code(5); 65536];
    let buffer = &mut room[..words::size_in(line.word(4))];
    let moved = dayfile::move_last(&file[..n], line.code(2), buffer, line.position(3));
    answers::moved(rt, moved, buffer)
}

// Where a tank is measured, which needs no sheet.
#[inline(never)]
fn zones(rt: &impl Print, line: Line) -> io::Result<()> {
    answers::zones(
        rt,
        line.measure(1),
        line.measure(2),
        line.measure(3),
        line.measure(4),
    )
}
