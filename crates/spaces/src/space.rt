// A space: what its record has ("Spaces"), with its deck (T-05 of document 02), and m.
ghost use Rattle.std.specs.Prelude.{◌≡◌};
ghost use Rattle.spaces.specs.Space.{empty_space};

use measure::units::Hundredths;

// As C and the file hold it, so its kind and its standing are the codes of the paper's tables, and no enums.
#[repr(C)]
#[derive(Clone, Copy)]
pub struct Space {
    pub id: u16,
    // The enclosing id, 0 for a U, B, S or H.
    pub within: u16,
    pub kind: u8,
    pub standing: u8,
    // A U's parts of depth, 4 or 6, where it was entered from offsets; else 0. No record holds it.
    pub m: u8,
    // 0 to 99, 0 for none.
    pub deck: u8,
    // In hundredths of a ton.
    pub tonnage: u32,
    pub length: Hundredths,
}

// "A deck number on each space (0 to 99, 0 for none)".
pub const GREATEST_DECK: u8 = 99;

// The record of a free place.
pub fn empty() -> Space
    ensures { result ≡ empty_space }
{
    Space {
        id: 0,
        within: 0,
        kind: 0,
        standing: 0,
        m: 0,
        deck: 0,
        tonnage: 0,
        length: Hundredths(0),
    }
}
