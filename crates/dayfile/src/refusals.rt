// The numbers of refusal of writing, reading and moving ("Numbers of refusal", and T-05 of document 02). The paper's own, and no enum:
// the definitions and the records for C hold them, and those of a report come through from `sheet`.
ghost use Rattle.std.specs.Prelude.{◌≡◌};
ghost use Rattle.dayfile.specs.Handed.{refusal};

// Buffer has too little room from the named place.
pub const NO_ROOM: u8 = 15;

// The file ends in no sheet.
pub const NO_SHEET: u8 = 16;

// A record that no entry could have made.
pub const WRONG_RECORD: u8 = 17;

// Gross or net isn't what the records give.
pub const WRONG_FIGURES: u8 = 18;

// Form 1 would lose the vessel number or a deck.
pub const LOSES_NUMBER: u8 = 20;

// How a call is refused: by the paper's number, which may be that of a report too; with the position of the record where it is 17, for
// which the refusals of the floors below, a number alone, have no place.
#[derive(Clone, Copy)]
pub(crate) struct Refusal {
    pub(crate) number: u8,
    pub(crate) position: usize,
}

impl Refusal {
    // "The position is 0 for every number but 17."
    pub(crate) fn numbered(number: u8) -> Refusal
        ensures { result ≡ refusal number }
    {
        Refusal {
            number,
            position: 0,
        }
    }
}
