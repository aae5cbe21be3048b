// The ranges of measures ("Ranges"), and whether measures are in them.
ghost use Rattle.std.specs.Prelude.{◌≡◌};
ghost use Rattle.measure.specs.Ranges.{includes as includes_of, includes_all, least_offset, tonnage_lengths, other_lengths, lengths as lengths_of, fores, heights as heights_of, breadths as breadths_of};

use crate::kinds::Kind;
use crate::units::Hundredths;

// From the least to the most, both included. Each range has a function, as it has a definition (specs/Ranges); what they share is this
// type's two fields, and a function that took them would say no more.
#[derive(Clone, Copy)]
pub struct Range {
    pub least: u32,
    pub most: u32,
}

impl Range {
    #[tactic(auto, unfolding(crate::specs::Ranges::includes))]
    fn includes(self, x: u32) -> bool
        ensures { result ≡ includes_of self x }
    {
        (self.least..=self.most).contains(&x)
    }

    pub(crate) fn includes_all(self, xs: &[u32]) -> bool
        ensures { result ≡ includes_all self xs.now }
    {
        xs.iter().all(|x| self.includes(*x))
    }
}

// The least tonnage length, U length and B length, and the greatest of any length.
const SHORTEST: u32 = 100;

const LONGEST: u32 = 150_000;
// The greatest depth or height, and the greatest breadth.
const DEEPEST: u32 = 20_000;

const BROADEST: u32 = 30_000;

fn tonnage_lengths() -> Range
    ensures { result ≡ tonnage_lengths }
{
    Range {
        least: SHORTEST,
        most: LONGEST,
    }
}

fn other_lengths() -> Range
    ensures { result ≡ other_lengths }
{
    Range {
        least: 1,
        most: LONGEST,
    }
}

fn lengths(kind: Kind) -> Range
    ensures { result ≡ lengths_of kind }
{
    match kind {
        Kind::UnderDeck | Kind::BetweenDeck => tonnage_lengths(),
        _ => other_lengths(),
    }
}

pub(crate) fn heights(kind: Kind) -> Range
    ensures { result ≡ heights_of kind }
{
    Range {
        least: least_offset(kind),
        most: DEEPEST,
    }
}

pub(crate) fn breadths(kind: Kind) -> Range
    ensures { result ≡ breadths_of kind }
{
    Range {
        least: least_offset(kind),
        most: BROADEST,
    }
}

fn least_offset(kind: Kind) -> u32
    ensures { result ≡ least_offset kind }
{
    match kind {
        Kind::Hatchway | Kind::Room => 1,
        _ => 0,
    }
}

// Whether a tonnage length is in its range.
pub fn tonnage_length_fits(length: Hundredths) -> bool
    ensures { result ≡ includes_of tonnage_lengths length.0 }
{
    tonnage_lengths().includes(length.0)
}

// Whether the distance of a tank's fore end along its U is in its range.
#[tactic(auto, unfolding(crate::specs::Ranges::includes))]
pub(crate) fn fore_fits(fore: Hundredths) -> bool
    ensures { result ≡ includes_of fores fore.0 }
{
    fore.0 <= LONGEST
}

// Whether the length of a space of this kind is in its range.
pub fn length_fits(kind: Kind, length: Hundredths) -> bool
    ensures { result ≡ includes_of (lengths_of kind) length.0 }
{
    lengths(kind).includes(length.0)
}
