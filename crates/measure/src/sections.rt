// The sections of a tank (69.117(g)(3)(ii), (iii)): how its stations lie among the zones of influence of its U. Points of the U are told
// times 3 n p, so that they and the ends of zones are whole numbers and compared exactly.
ghost use Rattle.std.specs.Prelude.{◌≡◌, ◌+◌, ◌*◌, ◌^◌, ◌≤◌, ◌<◌, length, take, get_or};
ghost use Rattle.measure.specs.Sections.{layout_of, zone_of_station, between_zones, doubled as doubled_of, sections_over, section_zones};
ghost use Rattle.measure.specs.Handed.{Laid};

use crate::multipliers::multiplier;
use crate::parts::{nearest_parts, of_under_deck};
use crate::units::Hundredths;

// How a tank lies along its U. No ghost field says that n and p are numbers of parts (`Laid`): the definitions build layouts of any
// numbers (specs/Sections `layout_of`), and a ghost field would ask its proof of them.
#[derive(Clone, Copy)]
pub struct Layout {
    // The parts and the length of the U.
    pub n: usize,
    pub u: Hundredths,
    // The parts and the length of the tank, and the distance of its fore end along the U.
    pub p: usize,
    pub l: Hundredths,
    pub f: Hundredths,
}

// How a tank station lies among the zones: the number, from 1, of the under-deck station in whose zone it is, of two the fore one, and
// whether it falls exactly between two.
#[derive(Clone, Copy)]
pub(crate) struct Zoned {
    pub(crate) zone: usize,
    pub(crate) between: bool,
}

// A tank is divided as an S is, with the U's interval as the reference.
#[tactic(auto, unfolding(crate::specs::Sections::layout_of), using(crate::proofs::Laws::Parts::under_deck_most, crate::proofs::Laws::Parts::nearest_even))]
pub(crate) fn layout_of(
    tonnage_length: Hundredths,
    u: Hundredths,
    l: Hundredths,
    f: Hundredths,
) -> Layout
    ensures { (result ≡ layout_of tonnage_length u l f) × Laid result }
{
    let n = of_under_deck(tonnage_length, u);
    let p = nearest_parts(u, n, l);
    Layout { n, u, p, l, f }
}

impl Layout {
    // Tank station j, from 0, along the U.
    #[tactic(auto, using(crate::proofs::Laws::Products::point_fits, crate::proofs::Laws::Parts::most))]
    fn station_at(self, j: usize) -> u64
        requires { Laid self × (j ≤ 16) }
        ensures { result ≡ (self.f.0 * self.p + j * self.l.0) * (3 * self.n) }
    {
        (u64::from(self.f.0) * (self.p as u64) + (j as u64) * u64::from(self.l.0))
            * (3 * (self.n as u64))
    }

    // A third of the U's interval.
    fn third_of_interval(self) -> u64
        requires { Laid self }
        ensures { (result ≡ self.u.0 * self.p) × (result < 2 ^ 36) }
    {
        u64::from(self.u.0) * (self.p as u64)
    }

    // Tank station j, from 0, among the zones: that of station k ends where the first k multipliers, added up, end.
    fn zone_of(self, j: usize) -> Zoned
        requires { Laid self × (j ≤ 16) }
        ensures { (result ≡ record { zone = zone_of_station self j; between = between_zones self j }) × (result.zone ≤ 17) }
    {
        let point = self.station_at(j);
        let third = self.third_of_interval();
        let mut end = 0;
        let mut zone = 1;
        let mut between = false;
        for k in 0..self.n {
            end += multiplier(self.n, k + 1) * third;
            zone += usize::from(end < point);
            between |= point == end;
        }
        Zoned { zone, between }
    }

    // Which of the tank's stations, at most 17, fall exactly between two zones: from the bow, in the first places.
    #[tactic(auto, using(crate::proofs::Laws::Parts::most))]
    pub(crate) fn doubled(self) -> [bool; 17]
        requires { Laid self }
        ensures { take (self.p + 1) result ≡ doubled_of self }
    {
        let mut two = [false; 17];
        for j in 0..self.p + 1 {
            two[j] = self.zone_of(j).between;
        }
        two
    }

    // The number, from 1, of the under-deck station in whose zone section i, from 0, falls; 0 where there is no such section.
    #[tactic(auto, unfolding(crate::specs::Sections::section_zones))]
    pub(crate) fn section_zone(self, i: usize) -> usize
        requires { Laid self }
        ensures { result ≡ get_or (section_zones self) i 0 }
    {
        let mut first = 0;
        for j in 0..self.p + 1 {
            let at = self.zone_of(j);
            let next = first + 1 + usize::from(at.between);
            if i < next {
                return at.zone + (i - first);
            }
            first = next;
        }
        0
    }
}

// How many sections stations ask, of which these are doubled: one each, and one more where doubled.
#[tactic(auto, using(crate::proofs::Laws::Sections::sections_sum))]
pub(crate) fn sections_over(two: &[bool]) -> usize
    requires { length two.now ≤ 17 }
    ensures { result ≡ sections_over two.now }
{
    two.iter().map(|doubled| 1 + usize::from(*doubled)).sum()
}
