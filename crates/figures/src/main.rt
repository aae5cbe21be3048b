// Figures of one space, by the proved library: offsets in, tonnages out, a line each. It is how the library is held
// against the second program (reference/figures.py), and how a newcomer tries it. What it prints is tested, not proved.
//
//   space KIND TONNAGE_LENGTH LENGTH HEIGHTS BREADTHS   answers   NUMBER TONNAGE PARTS THIRD
//   hatchways G SUM                                     answers   ALLOWANCE EXCESS
//   ballast BALLAST GROSS                               answers   1 where over 30%, else 0
//
// Words, numbers and lists are those of `survey`, and so are the remarks on a line that is none of these.
#![tactic(auto)]

use input::read_full;
use measure::units::Hundredths;
use script::remarks::Remark;
use script::text::{self, Lines};
use script::{calls, words};
use std::io;

#[derive(Clone, Copy)]
enum Call {
    Space,
    Hatchways,
    Ballast,
}

// By the places of their forms (`script::calls::figures_line`).
const CALLS: [Call; 3] = [Call::Space, Call::Hatchways, Call::Ballast];

fn main(rt: HostRuntime) -> io::Result<()> {
    let mut script = text::script_buffer();
    let n = read_full(&mut rt.reader(), &mut script)?;
    if text::MOST_BYTES < n {
        return answer_remark(&rt, Remark::ScriptTooLong);
    }
    answer_lines(&rt, &script[..n])
}

// A loop of its own, beside that of `survey`, which hands a sheet on.
fn answer_lines(rt: &impl Print, script: &[u8]) -> io::Result<()> {
    for line in Lines(script) {
        answer(rt, line)?;
    }
    Ok(())
}

fn answer(rt: &impl Print, line: &[u8]) -> io::Result<()> {
    match calls::figures_line(line) {
        Ok(None) => Ok(()),
        Ok(Some(place)) => answer_call(rt, line, CALLS[place]),
        Err(remark) => answer_remark(rt, remark),
    }
}

// A remark and a newline, each written by itself.
fn answer_remark(rt: &impl Print, remark: Remark) -> io::Result<()> {
    print!(rt; "{remark}")?;
    println!(rt)
}

fn answer_call(rt: &impl Print, line: &[u8], call: Call) -> io::Result<()> {
    match call {
        Call::Space => answer_space(rt, line),
        Call::Hatchways => answer_hatchways(rt, line),
        Call::Ballast => answer_ballast(rt, line),
    }
}

fn answer_space(rt: &impl Print, line: &[u8]) -> io::Result<()> {
    let code = words::code_in(words::word(line, 1));
    let tonnage_length = Hundredths(words::measure_in(words::word(line, 2)));
    let length = Hundredths(words::measure_in(words::word(line, 3)));
    let mut heights = [0u32; 1024];
    let h = words::measures(words::word(line, 4), &mut heights);
    let mut breadths = [0u32; 1024];
    let b = words::measures(words::word(line, 5), &mut breadths);
    let offsets = measure::offsets::measure_offsets(
        code,
        tonnage_length,
        length,
        &heights[..h],
        &breadths[..b],
    );
    let measured = offsets.measured;
    let divided = measure::thirds::divided(measure::kinds::kind_of(code), tonnage_length, length);
    println!(rt;
        "{} {} {} {}",
        measured.number, measured.tonnage, divided.parts, divided.third.0
    )
}

fn answer_hatchways(rt: &impl Print, line: &[u8]) -> io::Result<()> {
    let g = words::value_in(words::word(line, 1));
    let sum = words::value_in(words::word(line, 2));
    let allowance = measure::allowances::hatchway_allowance(g);
    let excess = measure::allowances::hatchway_excess(g, sum);
    println!(rt; "{allowance} {excess}")
}

fn answer_ballast(rt: &impl Print, line: &[u8]) -> io::Result<()> {
    let ballast = words::value_in(words::word(line, 1));
    let gross = words::value_in(words::word(line, 2));
    let over = measure::allowances::ballast_over(ballast, gross);
    println!(rt; "{}", u8::from(over))
}
