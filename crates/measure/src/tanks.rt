// Tanks that follow the hull (69.117(g)(3); T-01 of document 02): where a tank is measured, and its tonnage from its sections, or
// refusal 2, 3, 9 or 29.
ghost use Rattle.std.specs.Prelude.{◌≡◌, ◌≤◌, ◌+◌, ◌*◌, ◌==◌, ◌&&◌, length as length_of, take};
ghost use Rattle.measure.specs.Volumes.{tons};
ghost use Rattle.measure.specs.Sections.{layout_of, doubled as doubled_of};
ghost use Rattle.measure.specs.Tanks.{taken as taken_of, tank_volume, tank_in_range, passes_end, has_m, all_sections, measured_tank, lengths_fit, laid_out, section_station};
ghost use Rattle.measure.specs.declared.sections.Layout.{Layout};
ghost use Rattle.measure.specs.Handed.{Laid, LaidOrRefused, TankHanded};

use crate::kinds::Kind;
use crate::offsets::Measured;
use crate::ranges::{
    breadths as breadth_range, fore_fits, heights as height_range, length_fits, tonnage_length_fits,
};
use crate::refusals::{NO_M, NOT_THE_NUMBER_ASKED, OUTSIDE_ITS_RANGE, PASSES_AN_END, Refusal};
use crate::sections::{Layout, layout_of, sections_over};
use crate::units::Hundredths;
use crate::volumes::{section_areas, tons_over};

// Where a tank is measured: the paper's number, 0 where accepted, its parts, and how many sections it asks; 0 and 0 where refused. No
// `Result`, since C calls take it by this layout.
#[repr(C)]
#[derive(Clone, Copy)]
pub struct LaidOut {
    pub number: u8,
    pub parts: usize,
    pub sections: usize,
}

// A tank along its U, `under_deck` long; `fore` is the distance of its fore end along it.
#[derive(Clone, Copy)]
struct Tank {
    tonnage_length: Hundredths,
    under_deck: Hundredths,
    length: Hundredths,
    fore: Hundredths,
}

impl Tank {
    // The length, the fore end and every depth and breadth are in their ranges, surplus ones too.
    #[tactic(auto, unfolding(crate::specs::Tanks::tank_in_range))]
    fn in_range(self, depths: &[u32], breadths: &[u32]) -> bool
        ensures { result ≡ tank_in_range self.length self.fore depths.now breadths.now }
    {
        length_fits(Kind::Room, self.length)
            && fore_fits(self.fore)
            && height_range(Kind::UnderDeck).includes_all(depths)
            && breadth_range(Kind::UnderDeck).includes_all(breadths)
    }

    // The lengths and the fore end of a tank that is yet to be measured are in their ranges.
    #[tactic(auto, unfolding(crate::specs::Tanks::lengths_fit))]
    fn lengths_fit(self) -> bool
        ensures { result ≡ lengths_fit self.tonnage_length self.under_deck self.length self.fore }
    {
        tonnage_length_fits(self.tonnage_length)
            && length_fits(Kind::UnderDeck, self.under_deck)
            && length_fits(Kind::Room, self.length)
            && fore_fits(self.fore)
    }

    fn passes_end(self) -> bool
        ensures { result ≡ passes_end self.under_deck self.length self.fore }
    {
        passes_end(self.under_deck, self.length, self.fore)
    }

    fn layout(self) -> Layout
        ensures { (result ≡ layout_of self.tonnage_length self.under_deck self.length self.fore) × Laid result }
    {
        layout_of(self.tonnage_length, self.under_deck, self.length, self.fore)
    }

    // How it lies along its U, or the number with which it is refused.
    #[tactic(auto, unfolding(crate::specs::Tanks::lay_out_number))]
    fn layout_or_refusal(self) -> Result<Layout, Refusal>
        ensures { LaidOrRefused self.tonnage_length self.under_deck self.length self.fore result }
    {
        if !self.lengths_fit() {
            return Err(Refusal(OUTSIDE_ITS_RANGE));
        }
        if self.passes_end() {
            return Err(Refusal(PASSES_AN_END));
        }
        Ok(self.layout())
    }
}

// Measures one tank in a U of `under_deck`, whose depth is in m parts; `fore` is the distance of its fore end along the U. Depths and
// breadths go section by section from the bow, and at a section from above; where a tank station falls between two zones there are two
// sections, the fore zone's first. The lengths of the U and of the whole stand on a sheet, and aren't judged again.
#[tactic(auto, unfolding(crate::specs::Tanks::measured_tank), using(crate::proofs::Laws::Tanks::has_m_most))]
pub fn measure_tank(
    tonnage_length: Hundredths,
    under_deck: Hundredths,
    m: u8,
    length: Hundredths,
    fore: Hundredths,
    depths: &[u32],
    breadths: &[u32],
) -> Measured
    ensures { result ≡ measured_tank tonnage_length under_deck m length fore depths.now breadths.now }
{
    let tank = Tank {
        tonnage_length,
        under_deck,
        length,
        fore,
    };
    if !tank.in_range(depths, breadths) {
        return Measured::refused(OUTSIDE_ITS_RANGE);
    }
    if tank.passes_end() {
        return Measured::refused(PASSES_AN_END);
    }
    if !has_m(m) {
        return Measured::refused(NO_M);
    }
    // 3 is judged only with m and inside the ends, so it comes last.
    let m = usize::from(m);
    let a = tank.layout();
    let stations = a.doubled();
    let two = &stations[..a.p + 1];
    if !all_sections(two, m, depths, breadths) {
        return Measured::refused(NOT_THE_NUMBER_ASKED);
    }
    Measured::accepted(tonnage(a, two, m, depths, breadths))
}

// Whether a tank passes an end of its U.
#[tactic(auto, unfolding(crate::specs::Tanks::passes_end))]
pub fn passes_end(under_deck: Hundredths, length: Hundredths, fore: Hundredths) -> bool
    ensures { result ≡ passes_end under_deck length fore }
{
    u64::from(under_deck.0) < u64::from(fore.0) + u64::from(length.0)
}

// Whether m is that of a U which was entered from offsets.
#[tactic(auto, unfolding(crate::specs::Tanks::has_m))]
pub fn has_m(m: u8) -> bool
    ensures { result ≡ has_m m }
{
    m == 4 || m == 6
}

// There are as many sections, and breadths at each, as are asked by a tank of whose stations these are doubled.
#[tactic(auto, unfolding(crate::specs::Tanks::all_sections, crate::specs::Sections::sections), using(crate::proofs::Laws::Sections::sections_most))]
fn all_sections(two: &[bool], m: usize, depths: &[u32], breadths: &[u32]) -> bool
    requires { (length_of two.now ≤ 17) × (m ≤ 16) }
    ensures { (a : Layout) → two.now ≡ doubled_of a → result ≡ all_sections a m depths.now breadths.now }
{
    depths.len() == sections_over(two) && breadths.len() == depths.len() * (m + 1)
}

// The tonnage of a tank with all its sections, of whose stations these are doubled.
#[tactic(auto, unfolding(crate::specs::Tanks::tank_volume), using(crate::proofs::Laws::Tanks::areas_taken))]
fn tonnage(a: Layout, two: &[bool], m: usize, depths: &[u32], breadths: &[u32]) -> u32
    requires { Laid a × (two.now ≡ doubled_of a) × TankHanded a m depths.now breadths.now }
    ensures { result ≡ tons (tank_volume a m depths.now breadths.now) }
{
    let areas = taken(two, &section_areas(m, depths, breadths));
    tons_over(a.l, a.p, &areas[..two.len()])
}

// The areas of stations, in the first places, of which these are doubled, from those of their sections: the larger of a station's
// first and last.
fn taken(two: &[bool], areas: &[u32; 34]) -> [u32; 17]
    requires { length_of two.now ≤ 17 }
    ensures { take (length_of two.now) result ≡ taken_of two.now areas.now }
{
    let mut found = [0; 17];
    let mut first = 0;
    for (j, doubled) in two.iter().enumerate() {
        let last = first + usize::from(*doubled);
        found[j] = areas[first].max(areas[last]);
        first = last + 1;
    }
    found
}

// Where a tank is measured: its parts, and how many sections it asks.
#[tactic(auto, unfolding(crate::specs::Tanks::laid_out, crate::specs::Sections::sections))]
pub fn lay_out(
    tonnage_length: Hundredths,
    under_deck: Hundredths,
    length: Hundredths,
    fore: Hundredths,
) -> LaidOut
    ensures { result ≡ laid_out tonnage_length under_deck length fore }
{
    let tank = Tank {
        tonnage_length,
        under_deck,
        length,
        fore,
    };
    match tank.layout_or_refusal() {
        Ok(a) => LaidOut {
            number: 0,
            parts: a.p,
            sections: sections_over(&a.doubled()[..a.p + 1]),
        },
        Err(refusal) => LaidOut {
            number: refusal.0,
            parts: 0,
            sections: 0,
        },
    }
}

// The number, from 1, of the under-deck station inside whose section the tank's section i, from 0, is measured; 0 where there is no such
// section.
#[tactic(auto, unfolding(crate::specs::Tanks::section_station))]
pub fn section_station(
    tonnage_length: Hundredths,
    under_deck: Hundredths,
    length: Hundredths,
    fore: Hundredths,
    i: usize,
) -> usize
    ensures { result ≡ section_station tonnage_length under_deck length fore i }
{
    let tank = Tank {
        tonnage_length,
        under_deck,
        length,
        fore,
    };
    match tank.layout_or_refusal() {
        Ok(a) => a.section_zone(i),
        Err(_) => 0,
    }
}
