// How many parts a length or a depth is divided into ("Parts of a length"; "U"). A number of parts is a `usize`, and no type with "at most
// 16" as its invariant: such a type would be unpacked at each product, in `Layout` and in `Division`, where the definitions have numbers.
ghost use Rattle.std.specs.Prelude.{◌≡◌, ◌≤◌, ◌<◌, ◌^◌};
ghost use Rattle.measure.specs.Parts.{table_parts, step_parts, under_deck_parts, distance as distance_of, nearer as nearer_of, nearest_parts, superstructure_parts, depth_parts, parts_of};

use crate::kinds::Kind;
use crate::units::Hundredths;

// Fifty feet, the width of a class of the table of 69.109(g)(1), and the least and the most parts that the table gives.
const FIFTY: usize = 5_000;

const LEAST_BY_TABLE: usize = 6;

const MOST_BY_TABLE: usize = 16;

// The table of 69.109(g)(1), worked out from the length (T-03 of document 02): the fifties begun, doubled, and 4 more, with 6 the least and
// 16 the most. Not by `div_ceil`, which takes the remainder too.
#[tactic(auto, using(crate::proofs::Laws::Parts::table_by_fifties))]
pub(crate) fn by_table(length: Hundredths) -> usize
    ensures { result ≡ table_parts length }
{
    let begun = (length.0 as usize + FIFTY - 1) / FIFTY;
    (2 * begun + 4).clamp(LEAST_BY_TABLE, MOST_BY_TABLE)
}

// A part made by a step, 69.109(m)(1).
#[tactic(auto, unfolding(crate::specs::Parts::step_parts))]
pub(crate) fn of_step_part(length: Hundredths) -> usize
    ensures { result ≡ step_parts length }
{
    let l = length.0;
    match l {
        0..=2_000 => 2,
        2_001..=3_999 => 4,
        _ => by_table(length),
    }
}

// A U: the table where its length is the tonnage length, else a part made by a step.
#[tactic(auto, unfolding(crate::specs::Parts::under_deck_parts))]
pub(crate) fn of_under_deck(tonnage_length: Hundredths, length: Hundredths) -> usize
    ensures { result ≡ under_deck_parts tonnage_length length }
{
    if length == tonnage_length {
        by_table(length)
    } else {
        of_step_part(length)
    }
}

// An S, 69.113(b)(2).
#[tactic(auto, unfolding(crate::specs::Parts::superstructure_parts), using(crate::proofs::Laws::Parts::table_most))]
pub(crate) fn of_superstructure(tonnage_length: Hundredths, length: Hundredths) -> usize
    ensures { result ≡ superstructure_parts tonnage_length length }
{
    nearest_parts(tonnage_length, by_table(tonnage_length), length)
}

// The even number from 2 to 16 whose interval of `length` is nearest to `whole` divided in `parts`. From the greatest
// down, so that a lesser one has to be nearer; by number, as the definition (`nearest_of_last`) tells them.
#[tactic(auto, unfolding(crate::specs::Parts::nearest_parts), using(crate::proofs::Laws::Parts::nearest_of_last_le))]
pub(crate) fn nearest_parts(whole: Hundredths, parts: usize, length: Hundredths) -> usize
    requires { parts ≤ 16 }
    ensures { result ≡ nearest_parts whole parts length }
{
    let mut best = 16;
    for i in 0..7 {
        best = nearer(whole, parts, length, 14 - 2 * i, best);
    }
    best
}

// Of two numbers of parts the one whose interval is nearer, the second on a tie.
#[tactic(auto, unfolding(crate::specs::Parts::nearer))]
fn nearer(whole: Hundredths, parts: usize, length: Hundredths, first: usize, second: usize) -> usize
    requires { (parts ≤ 16) × (first ≤ 16) × (second ≤ 16) }
    ensures { result ≡ nearer_of whole parts length first second }
{
    let of_first = distance(whole, parts, length, first) * (second as u64);
    let of_second = distance(whole, parts, length, second) * (first as u64);
    if of_second <= of_first { second } else { first }
}

// How far length / k is from whole / parts, in parts of 1 / (k * parts).
#[tactic(auto, unfolding(crate::specs::Parts::distance))]
fn distance(whole: Hundredths, parts: usize, length: Hundredths, k: usize) -> u64
    requires { (parts ≤ 16) × (k ≤ 16) }
    ensures { (result ≡ distance_of whole parts length k) × (result < 2 ^ 37) }
{
    let of_length = u64::from(length.0) * (parts as u64);
    let of_whole = u64::from(whole.0) * (k as u64);
    of_length.abs_diff(of_whole)
}

// The depth at the middle station fixes the parts of depth for all stations, 69.109(h)(4)(i).
#[tactic(auto, unfolding(crate::specs::Parts::depth_parts))]
pub(crate) fn of_depth(middle: Hundredths) -> usize
    ensures { result ≡ depth_parts middle }
{
    if middle.0 <= 1_600 { 4 } else { 6 }
}

// The parts of a space's length: 0 for a hatchway or a room, which isn't divided.
pub(crate) fn of_kind(kind: Kind, tonnage_length: Hundredths, length: Hundredths) -> usize
    ensures { result ≡ parts_of kind tonnage_length length }
{
    match kind {
        Kind::UnderDeck => of_under_deck(tonnage_length, length),
        Kind::BetweenDeck => by_table(tonnage_length),
        Kind::Superstructure => of_superstructure(tonnage_length, length),
        Kind::Hatchway | Kind::Room | Kind::NoKind => 0,
    }
}
