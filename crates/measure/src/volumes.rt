// Volumes and tonnages ("U", "B and S", "H and R"). Each tonnage is rounded once, from the exact fraction.
ghost use Rattle.std.specs.Prelude.{◌≡◌, ◌≤◌, ◌<◌, ◌*◌, length as length_of, take, get_or};
ghost use Rattle.measure.specs.Rounding.{nearest as nearest_of};
ghost use Rattle.measure.specs.Volumes.{station_area, areas, tons as tons_of, volume_over, under_deck_volume, level_volume, box_volume};
ghost use Rattle.measure.specs.Handed.{StationHanded, SectionsHanded, AreasHanded, UnderDeckHanded, LevelHanded, BoxHanded, most_tons};

use crate::multipliers::{plain_sum, weighted_sum};
use crate::rounding::nearest;
use crate::thirds::{third_of_depth, third_of_length};
use crate::units::Hundredths;

// A cubic foot, which is a hundredth of a ton, in products of two measures and a third interval of length.
const CUBIC_FOOT_BY_THIRDS: u64 = 10_000_000;
// The same in products of three measures.
const CUBIC_FOOT: u64 = 1_000_000;

// The area of a station: its breadths with their multipliers, times the third interval of its depth.
#[tactic(auto, unfolding(crate::specs::Volumes::station_area), using(crate::proofs::Laws::Volumes::station_le))]
fn station_area(parts: usize, depth: Hundredths, breadths: &[u32]) -> u32
    requires { StationHanded parts depth breadths.now }
    ensures { result ≡ station_area parts depth breadths.now }
{
    let third = third_of_depth(depth, parts);
    (weighted_sum(parts, breadths) * u64::from(third.0)) as u32
}

// The areas of sections in m parts of depth, in the first places; each has the next m + 1 breadths.
pub(crate) fn section_areas(m: usize, depths: &[u32], breadths: &[u32]) -> [u32; 34]
    requires { SectionsHanded m depths.now breadths.now }
    ensures { take (length_of depths.now) result ≡ areas m depths.now breadths.now }
{
    let mut found = [0; 34];
    for (i, (depth, of_section)) in depths.iter().zip(breadths.chunks_exact(m + 1)).enumerate() {
        found[i] = station_area(m, Hundredths(*depth), of_section);
    }
    found
}

// A volume of which `per` make a cubic foot, in hundredths of a ton.
#[tactic(auto, using(crate::proofs::Laws::Rounding::nearest_cap))]
fn tons(volume: u64, per: u64) -> u32
    requires { (0 < per) × (volume ≤ most_tons * per) }
    ensures { result ≡ nearest_of volume per }
{
    nearest(volume, per) as u32
}

// A length in n parts with these areas at its stations.
#[tactic(auto, unfolding(crate::specs::Volumes::tons), using(crate::proofs::Laws::Volumes::volume_over_le))]
pub(crate) fn tons_over(length: Hundredths, n: usize, areas: &[u32]) -> u32
    requires { AreasHanded length n areas.now }
    ensures { result ≡ tons_of (volume_over length n areas.now) }
{
    let third = third_of_length(length, n);
    let volume = weighted_sum(n, areas) * third.0;
    tons(volume, CUBIC_FOOT_BY_THIRDS)
}

// A U in n parts of length and m parts of depth.
#[tactic(auto, unfolding(crate::specs::Volumes::under_deck_volume))]
pub(crate) fn under_deck_tons(
    length: Hundredths,
    n: usize,
    m: usize,
    depths: &[u32],
    breadths: &[u32],
) -> u32
    requires { UnderDeckHanded length n m depths.now breadths.now }
    ensures { result ≡ tons_of (under_deck_volume length n m depths.now breadths.now) }
{
    let areas = section_areas(m, depths, breadths);
    tons_over(length, n, &areas[..depths.len()])
}

// A B or an S in n parts.
#[tactic(auto, unfolding(crate::specs::Volumes::tons, crate::specs::Volumes::level_volume), using(crate::proofs::Laws::Volumes::level_area_le, crate::proofs::Laws::Volumes::level_le))]
pub(crate) fn level_tons(length: Hundredths, n: usize, heights: &[u32], breadths: &[u32]) -> u32
    requires { LevelHanded length n heights.now breadths.now }
    ensures { result ≡ tons_of (level_volume length n heights.now breadths.now) }
{
    let third = third_of_length(length, n);
    let area = weighted_sum(n, breadths) * third.0;
    let volume = area * plain_sum(heights);
    tons(volume, CUBIC_FOOT_BY_THIRDS * (n as u64 + 1))
}

// An H or an R, of one height and one breadth.
#[tactic(auto, unfolding(crate::specs::Volumes::tons, crate::specs::Volumes::box_volume), using(crate::proofs::Laws::Volumes::box_le, crate::proofs::Laws::Volumes::at_most_get))]
pub(crate) fn box_tons(length: Hundredths, heights: &[u32], breadths: &[u32]) -> u32
    requires { BoxHanded length heights.now breadths.now }
    ensures { result ≡ tons_of (box_volume length (get_or heights.now 0 0) (get_or breadths.now 0 0)) }
{
    let volume = u64::from(length.0) * u64::from(breadths[0]) * u64::from(heights[0]);
    tons(volume, CUBIC_FOOT)
}
