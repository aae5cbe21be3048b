// The sheet ("The sheet and its changes"): its places and its open changes, and what stands.
ghost use Rattle.std.specs.Prelude.{◌≡◌, false, length, MatchResult};
ghost use Rattle.sheet.specs.Sheet.{blank as blank_of, not_open, usable as usable_of, standing_count, space_at, places_of, standing_of, length_of, vessel_of};
ghost use Rattle.sheet.specs.Handed.{Open, refusal};

use crate::changes::{Change, OPEN_PLACES, OpenChange};
use crate::refusals::NOT_OPEN;
use measure::refusals::Refusal;
use measure::units::Hundredths;
use spaces::row::{PLACES, Row};
use spaces::space::{Space, empty};

// C takes it by this layout, and no crate here has a heap: so arrays with their counts, and a number for a `bool`, since C hands in
// any byte.
#[repr(C)]
#[derive(Clone, Copy)]
pub struct Sheet {
    // 1 where the sheet is open.
    pub(crate) opened: u8,
    // The tonnage length.
    pub(crate) length: Hundredths,
    // 200 places: the first `count` stand, in order of entry.
    pub(crate) spaces: [Space; 200],
    pub(crate) count: usize,
    // 64 places for open changes: the undoable ones, the oldest first, then the redoable ones.
    pub(crate) changes: [OpenChange; 64],
    pub(crate) undoable: usize,
    pub(crate) redoable: usize,
    // The vessel number, 0 for none.
    pub(crate) vessel: u32,
}

impl Sheet {
    // A sheet with nothing on it.
    pub(crate) fn blank(opened: bool, length: Hundredths, vessel: u32) -> Sheet
        ensures { result ≡ blank_of opened length vessel }
    {
        let none = empty();
        let free = OpenChange::from(Change::Entered(none));
        let spaces = [none; 200];
        let changes = [free; 64];
        Sheet {
            opened: u8::from(opened),
            length,
            spaces,
            count: 0,
            changes,
            undoable: 0,
            redoable: 0,
            vessel,
        }
    }

    // Open, with counts that a call could have handed back.
    #[tactic(auto, unfolding(crate::specs::Sheet::usable))]
    pub(crate) fn usable(&self) -> bool
        ensures { result ≡ usable_of self.now }
    {
        self.opened == 1
            && self.count <= PLACES
            && self.undoable <= OPEN_PLACES
            && self.redoable <= OPEN_PLACES - self.undoable
    }

    // 1: the sheet isn't open.
    pub(crate) fn check_open(&self) -> Result<(), Refusal>
        ensures { MatchResult result (λ _. Open self.now) (λ r. (r ≡ refusal 1) × (usable_of self.now ≡ false)) }
    {
        if self.usable() {
            Ok(())
        } else {
            Err(Refusal(NOT_OPEN))
        }
    }

    // A sheet not open.
    pub fn closed() -> Sheet
        ensures { result ≡ not_open }
    {
        Sheet::blank(false, Hundredths(0), 0)
    }

    // The tonnage length; 0 where the sheet isn't open.
    #[tactic(auto, unfolding(crate::specs::Sheet::length_of))]
    pub fn tonnage_length(&self) -> Hundredths
        ensures { result ≡ length_of self.now }
    {
        if self.usable() {
            self.length
        } else {
            Hundredths(0)
        }
    }

    // The vessel number; 0 where the sheet isn't open. The same `if` as the next one's, of another field: one of both would be no plainer.
    #[tactic(auto, unfolding(crate::specs::Sheet::vessel_of))]
    pub fn vessel(&self) -> u32
        ensures { result ≡ vessel_of self.now }
    {
        if self.usable() { self.vessel } else { 0 }
    }

    // How many spaces stand; none where the sheet isn't open.
    #[tactic(auto, unfolding(crate::specs::Sheet::standing_count))]
    pub fn standing_count(&self) -> usize
        ensures { result ≡ standing_count self.now }
    {
        if self.usable() { self.count } else { 0 }
    }

    // The space at a place of the order, from 0; an empty record where none stands.
    #[tactic(auto, unfolding(crate::specs::Sheet::space_at, crate::specs::Sheet::standing_count))]
    pub fn space_at(self, place: usize) -> Space
        ensures { result ≡ space_at self place }
    {
        // The places alone: an index into `self` has the whole sheet copied.
        let spaces = self.spaces;
        if self.usable() && place < self.count {
            spaces[place]
        } else {
            empty()
        }
    }

    // The 200 places, of which the first `standing_count` stand; empty records where the sheet isn't open.
    #[tactic(auto, unfolding(crate::specs::Sheet::places_of))]
    pub fn places(self) -> [Space; 200]
        ensures { result ≡ places_of self }
    {
        if self.usable() {
            self.spaces
        } else {
            [empty(); 200]
        }
    }

    // The spaces that stand, in order of entry; none where the sheet isn't open.
    #[tactic(auto, unfolding(crate::specs::Sheet::standing_of, crate::specs::Sheet::standing_count))]
    pub fn standing(&self) -> Row<'_>
        ensures spaces { result.spaces.now ≡ standing_of self.now }
        ensures counted { length result.spaces.now ≡ standing_count self.now }
    {
        Row::of(&self.spaces, if self.usable() { self.count } else { 0 })
    }

    // Whether the sheet is open.
    pub fn is_open(&self) -> bool
        ensures { result ≡ usable_of self.now }
    {
        self.usable()
    }
}
