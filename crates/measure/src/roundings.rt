// What a space passes on of its roundings (T-04 of document 02).
ghost use Rattle.std.specs.Prelude.{◌≡◌, ◌≤◌, length as length_of};
ghost use Rattle.measure.specs.Roundings.{of_depths, no_roundings};

use crate::thirds::rounding_of_depth;
use crate::units::Hundredths;

// Of a third interval of length in parts of 1 / (3 n) of a thousandth, of one of depth in parts of 1 / (3 m) of a
// hundredth: above zero when rounded up, zero when exact, else below. The depths are those at a U's stations, at most
// 17, from the bow; 0 in every other place.
#[repr(C)]
#[derive(Clone, Copy)]
pub struct Roundings {
    pub length: i8,
    pub depths: [i8; 17],
}

// What a refused entry passes on.
pub fn none() -> Roundings
    ensures { result ≡ no_roundings }
{
    Roundings {
        length: 0,
        depths: [0; 17],
    }
}

// The roundings of the depths at stations, each in so many parts.
#[tactic(auto, unfolding(crate::specs::Roundings::of_depths))]
pub(crate) fn of_depths(parts: usize, depths: &[u32]) -> [i8; 17]
    requires { (1 ≤ parts) × (parts ≤ 16) × (length_of depths.now ≤ 17) }
    ensures { result ≡ of_depths parts depths.now }
{
    let mut found = [0; 17];
    for (i, depth) in depths.iter().enumerate() {
        found[i] = rounding_of_depth(Hundredths(*depth), parts);
    }
    found
}
