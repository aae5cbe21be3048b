// One space measured from its offsets: its tonnage, or refusal 2 or 3; and its roundings.
ghost use Rattle.std.specs.Prelude.{◌≡◌, ◌≤◌, length as length_of};
ghost use Rattle.measure.specs.Offsets.{in_range, stations as stations_of, breadths_at_station, middle_of, m_of, counted as counted_of, tonnage as tonnage_of};
ghost use Rattle.measure.specs.Roundings.{depths_passed_on, passed_on, measured_offsets, no_roundings};
ghost use Rattle.measure.specs.Handed.{Taken, of_offsets};

use crate::kinds::{Kind, is_kind, kind_of};
use crate::parts::{by_table, of_depth, of_kind, of_superstructure, of_under_deck};
use crate::ranges::{
    breadths as breadth_range, heights as height_range, length_fits, tonnage_length_fits,
};
use crate::refusals::{NOT_THE_NUMBER_ASKED, OUTSIDE_ITS_RANGE};
use crate::roundings::{Roundings, none, of_depths};
use crate::thirds::divided;
use crate::units::Hundredths;
use crate::volumes::{box_tons, level_tons, under_deck_tons};

// The paper's number, 0 where accepted, and the tonnage in hundredths of a ton, 0 where refused. No `Result`, since the definitions
// (specs/Offsets `measured`) and the theorems on them speak of the paper's number.
#[derive(Clone, Copy)]
pub struct Measured {
    pub number: u8,
    pub tonnage: u32,
}

impl Measured {
    pub(crate) fn accepted(tonnage: u32) -> Self
        ensures { result ≡ record { number = 0; tonnage = tonnage } }
    {
        Measured { number: 0, tonnage }
    }

    pub(crate) fn refused(number: u8) -> Self
        ensures { result ≡ record { number = number; tonnage = 0 } }
    {
        Measured { number, tonnage: 0 }
    }
}

// The same with what the rounding did: of accepted offsets alone, else 0 each.
#[derive(Clone, Copy)]
pub struct MeasuredOffsets {
    pub measured: Measured,
    pub roundings: Roundings,
}

// What one space is measured from: `heights` are the depths at a U's stations, the heights at a B's or S's, the one height of an H
// or R; `breadths` go station by station from the bow, and at a U's station from above.
#[derive(Clone, Copy)]
pub(crate) struct Offsets<'a> {
    pub(crate) kind: Kind,
    pub(crate) tonnage_length: Hundredths,
    pub(crate) length: Hundredths,
    pub(crate) heights: &'a [u32],
    pub(crate) breadths: &'a [u32],
}

impl Offsets<'_> {
    // The kind, the tonnage length, the length and every measure are in their ranges.
    #[tactic(auto, unfolding(crate::specs::Offsets::in_range))]
    pub(crate) fn in_range(&self) -> bool
        ensures { result ≡ of_offsets in_range self.now }
    {
        is_kind(self.kind)
            && tonnage_length_fits(self.tonnage_length)
            && length_fits(self.kind, self.length)
            && height_range(self.kind).includes_all(self.heights)
            && breadth_range(self.kind).includes_all(self.breadths)
    }

    // There are as many heights and breadths as the rules ask.
    #[tactic(auto, unfolding(crate::specs::Offsets::counted, crate::specs::Offsets::stations), using(crate::proofs::Laws::Parts::parts_most, crate::proofs::Laws::Offsets::breadths_at_station_le))]
    pub(crate) fn counted(&self) -> bool
        ensures { result ≡ of_offsets counted_of self.now }
    {
        let Offsets {
            kind,
            tonnage_length,
            length,
            heights,
            breadths,
        } = *self;
        heights.len() == stations(kind, tonnage_length, length)
            && breadths.len() == heights.len() * breadths_at_station(kind, middle_of(heights))
    }

    // The tonnage of offsets that are in range and of the number asked.
    #[tactic(auto, unfolding(crate::specs::Offsets::tonnage, crate::specs::Volumes::tons, crate::specs::Rounding::nearest), using(crate::proofs::Laws::Offsets::each_taken))]
    fn tonnage(&self) -> u32
        requires { Taken self.now.kind self.now.tonnage_length self.now.length self.now.heights.now self.now.breadths.now }
        ensures { result ≡ of_offsets tonnage_of self.now }
    {
        let Offsets {
            kind,
            tonnage_length,
            length,
            heights,
            breadths,
        } = *self;
        match kind {
            Kind::UnderDeck => {
                let n = of_under_deck(tonnage_length, length);
                let m = of_depth(middle_of(heights));
                under_deck_tons(length, n, m, heights, breadths)
            }
            Kind::BetweenDeck => level_tons(length, by_table(tonnage_length), heights, breadths),
            Kind::Superstructure => {
                let n = of_superstructure(tonnage_length, length);
                level_tons(length, n, heights, breadths)
            }
            Kind::Hatchway | Kind::Room => box_tons(length, heights, breadths),
            // What is no space has no volume.
            Kind::NoKind => 0,
        }
    }

    // The roundings of accepted offsets: that of the length, and of a U those of its stations' depths.
    #[tactic(auto, unfolding(crate::specs::Roundings::passed_on))]
    fn passed_on(&self) -> Roundings
        requires { length_of self.now.heights.now ≤ 17 }
        ensures { result ≡ passed_on self.now.kind self.now.tonnage_length self.now.length self.now.heights.now }
    {
        Roundings {
            length: divided(self.kind, self.tonnage_length, self.length).rounding,
            depths: depths_passed_on(self.kind, self.heights),
        }
    }
}

// Measures one space.
#[tactic(auto, unfolding(crate::specs::Offsets::measured, crate::specs::Roundings::measured_offsets), using(crate::proofs::Laws::Offsets::taken_few))]
pub fn measure_offsets(
    code: u8,
    tonnage_length: Hundredths,
    length: Hundredths,
    heights: &[u32],
    breadths: &[u32],
) -> MeasuredOffsets
    ensures { result ≡ measured_offsets code tonnage_length length heights.now breadths.now }
{
    let offsets = Offsets {
        kind: kind_of(code),
        tonnage_length,
        length,
        heights,
        breadths,
    };
    if !offsets.in_range() {
        return refused(OUTSIDE_ITS_RANGE);
    }
    if !offsets.counted() {
        return refused(NOT_THE_NUMBER_ASKED);
    }
    MeasuredOffsets {
        measured: Measured::accepted(offsets.tonnage()),
        roundings: offsets.passed_on(),
    }
}

fn refused(number: u8) -> MeasuredOffsets
    ensures { result ≡ record { measured = record { number = number; tonnage = 0 }; roundings = no_roundings } }
{
    MeasuredOffsets {
        measured: Measured::refused(number),
        roundings: none(),
    }
}

// Only a U has m, and with it depths to divide.
#[tactic(auto, using(crate::proofs::Laws::Parts::depth_some, crate::proofs::Laws::Parts::depth_most))]
fn depths_passed_on(kind: Kind, heights: &[u32]) -> [i8; 17]
    requires { length_of heights.now ≤ 17 }
    ensures { result ≡ depths_passed_on kind heights.now }
{
    match kind {
        Kind::UnderDeck => of_depths(of_depth(middle_of(heights)), heights),
        _ => [0; 17],
    }
}

// One station more than parts; the one length, breadth and height of a hatchway or a room count as one station.
#[tactic(auto, unfolding(crate::specs::Offsets::stations), using(crate::proofs::Laws::Parts::parts_most))]
pub fn stations(kind: Kind, tonnage_length: Hundredths, length: Hundredths) -> usize
    ensures { result ≡ stations_of kind tonnage_length length }
{
    of_kind(kind, tonnage_length, length) + 1
}

// A U has m + 1 breadths at each station, m by the depth at its middle station; any other space has one.
#[tactic(auto, using(crate::proofs::Laws::Parts::depth_most))]
pub fn breadths_at_station(kind: Kind, middle: Hundredths) -> usize
    ensures { result ≡ breadths_at_station kind middle }
{
    match kind {
        Kind::UnderDeck => of_depth(middle) + 1,
        _ => 1,
    }
}

// m of a space that is entered from its heights: a U's, by the depth at its middle station; no other space has one, 0 as its record
// holds it.
#[tactic(auto, using(crate::proofs::Laws::Parts::depth_most))]
pub fn m_of(kind: Kind, heights: &[u32]) -> u8
    ensures { result ≡ m_of kind heights.now }
{
    match kind {
        Kind::UnderDeck => of_depth(middle_of(heights)) as u8,
        _ => 0,
    }
}

// The depth at the middle station; 0 where there is none.
#[tactic(auto, unfolding(crate::specs::Offsets::middle_of))]
pub(crate) fn middle_of(depths: &[u32]) -> Hundredths
    ensures { result ≡ middle_of depths.now }
{
    let middle = depths.get(depths.len() / 2).copied();
    Hundredths(middle.unwrap_or(0))
}
