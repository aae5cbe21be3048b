// Third intervals: of a length in thousandths of a foot, of a depth in hundredths ("Units and roundings"); and what their
// rounding did (T-04 of document 02). A length and a depth have functions of their own: generic ones over the scale would be no plainer,
// since each is the one call that the two share, of `nearest` or `rounding`.
ghost use Rattle.std.specs.Prelude.{◌≡◌, ◌≤◌};
ghost use Rattle.measure.specs.Thirds.{third_of_length, third_of_depth, rounding_of_length, rounding_of_depth, divided as divided_of};

use crate::kinds::Kind;
use crate::parts::of_kind;
use crate::rounding::{nearest, rounding};
use crate::units::{Hundredths, Thousandths};

// A length divided: the number of parts, the third interval, and its rounding, in parts of 1 / (3 n) of its thousandth.
#[derive(Clone, Copy)]
pub struct Division {
    pub parts: usize,
    pub third: Thousandths,
    pub rounding: i8,
}

// 10 L / (3 n), nearest.
#[tactic(auto, unfolding(crate::specs::Thirds::third_of_length))]
pub(crate) fn third_of_length(length: Hundredths, parts: usize) -> Thousandths
    requires { (1 ≤ parts) × (parts ≤ 16) }
    ensures { result ≡ third_of_length length parts }
{
    Thousandths(nearest(10 * u64::from(length.0), 3 * (parts as u64)))
}

// D / (3 m), nearest.
#[tactic(auto, unfolding(crate::specs::Thirds::third_of_depth), using(crate::proofs::Laws::Rounding::nearest_le))]
pub(crate) fn third_of_depth(depth: Hundredths, parts: usize) -> Hundredths
    requires { (1 ≤ parts) × (parts ≤ 16) }
    ensures { result ≡ third_of_depth depth parts }
{
    Hundredths(nearest(u64::from(depth.0), 3 * (parts as u64)) as u32)
}

// 3 n times the third interval, less 10 L.
#[tactic(auto, unfolding(crate::specs::Thirds::rounding_of_length, crate::specs::Thirds::third_of_length))]
pub(crate) fn rounding_of_length(length: Hundredths, parts: usize) -> i8
    requires { (1 ≤ parts) × (parts ≤ 16) }
    ensures { result ≡ rounding_of_length length parts }
{
    rounding(10 * u64::from(length.0), 3 * (parts as u64))
}

// 3 m times the third interval, less D.
#[tactic(auto, unfolding(crate::specs::Thirds::rounding_of_depth, crate::specs::Thirds::third_of_depth))]
pub(crate) fn rounding_of_depth(depth: Hundredths, parts: usize) -> i8
    requires { (1 ≤ parts) × (parts ≤ 16) }
    ensures { result ≡ rounding_of_depth depth parts }
{
    rounding(u64::from(depth.0), 3 * (parts as u64))
}

// How a space of this kind and length is divided: 0 each for a hatchway or a room, which isn't, as the definition has it.
#[tactic(auto, unfolding(crate::specs::Thirds::divided), using(crate::proofs::Laws::Parts::parts_most))]
pub fn divided(kind: Kind, tonnage_length: Hundredths, length: Hundredths) -> Division
    ensures { result ≡ divided_of kind tonnage_length length }
{
    let parts = of_kind(kind, tonnage_length, length);
    if parts == 0 {
        return Division {
            parts: 0,
            third: Thousandths(0),
            rounding: 0,
        };
    }
    Division {
        parts,
        third: third_of_length(length, parts),
        rounding: rounding_of_length(length, parts),
    }
}
