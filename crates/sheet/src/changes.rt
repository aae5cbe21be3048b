// Changes to the standing spaces: made, taken back, and noted as the latest.
ghost use Rattle.std.specs.Prelude.{◌≡◌, ◌≢◌, MatchResult};
ghost use Rattle.sheet.specs.Sheet.{standing as standing_of, kept, change_of};
ghost use Rattle.sheet.specs.Handed.{Open, answer_of};
ghost use Rattle.sheet.specs.Changes.{made, taken_back, noted, fitted, without_last, removed, inserted, restood};
ghost use Rattle.sheet.specs.Calls.{answered, changed};

use crate::refusals::accepted;
use crate::sheet::Sheet;
use measure::refusals::Refusal;
use spaces::row::PLACES;
use spaces::space::{Space, empty};

#[derive(Clone, Copy)]
pub enum Change {
    Entered(Space),
    // The place, from 0, and what stood there.
    Withdrawn(usize, Space),
    // The place, the standing before and the one after.
    Marked(usize, u8, u8),
}

// A change as a sheet keeps it, in numbers: an enum can't be handed to C.
#[repr(C)]
#[derive(Clone, Copy)]
pub struct OpenChange {
    // Which change it is: 0 an entry, 1 a withdrawal, 2 a mark.
    pub made: u8,
    pub before: u8,
    pub after: u8,
    pub place: usize,
    pub space: Space,
}

// Places for open changes on a sheet.
pub(crate) const OPEN_PLACES: usize = 64;

const ENTRY: u8 = 0;

const WITHDRAWAL: u8 = 1;

const MARK: u8 = 2;

impl From<Change> for OpenChange {
    ghost from_gives = { λ change noted. noted ≡ kept change };

    fn from(change: Change) -> OpenChange {
        let none = OpenChange {
            made: ENTRY,
            before: 0,
            after: 0,
            place: 0,
            space: empty(),
        };
        match change {
            Change::Entered(space) => OpenChange { space, ..none },
            Change::Withdrawn(place, space) => OpenChange {
                made: WITHDRAWAL,
                place,
                space,
                ..none
            },
            Change::Marked(place, before, after) => OpenChange {
                made: MARK,
                before,
                after,
                place,
                ..none
            },
        }
    }
}

impl From<OpenChange> for Change {
    ghost from_gives = { λ noted change. change ≡ change_of noted };

    #[tactic(auto, unfolding(crate::specs::Sheet::change_of))]
    fn from(noted: OpenChange) -> Change {
        match noted.made {
            ENTRY => Change::Entered(noted.space),
            WITHDRAWAL => Change::Withdrawn(noted.place, noted.space),
            _ => Change::Marked(noted.place, noted.before, noted.after),
        }
    }
}

// `Open` is asked of a sheet here and isn't its type's: C hands in any sheet by value, so that `Sheet` can't hold it.
impl Sheet {
    // Makes a change, and notes it as the latest, unless a number refuses it.
    pub(crate) fn change(&mut self, number: u8, change: Change) -> Result<(), Refusal>
        requires { Open self.old }
        ensures answer { answer_of result self.new ≡ answered number self.old (changed change self.old) }
        ensures ruled { MatchResult result (λ _. number ≡ 0) (λ _. number ≢ 0) }
    {
        accepted(number)?;
        self.make(change);
        self.note(change);
        Ok(())
    }

    // Makes a change to the standing spaces.
    pub(crate) fn make(&mut self, change: Change)
        requires { Open self.old }
        ensures { self.new ≡ made change self.old }
    {
        match change {
            Change::Entered(x) => self.insert(self.count, x),
            Change::Withdrawn(p, _) => self.remove(p),
            Change::Marked(p, _, after) => self.restand(p, after),
        }
    }

    // Takes a change to the standing spaces back.
    pub(crate) fn take_back(&mut self, change: Change)
        requires { Open self.old }
        ensures { self.new ≡ taken_back change self.old }
    {
        match change {
            Change::Entered(_) => self.remove_last(),
            Change::Withdrawn(p, x) => self.insert(p, x),
            Change::Marked(p, before, _) => self.restand(p, before),
        }
    }

    fn remove_last(&mut self)
        requires { Open self.old }
        ensures { self.new ≡ fitted (without_last (standing_of self.old)) self.old }
    {
        self.count = self.count.saturating_sub(1);
    }

    fn remove(&mut self, p: usize)
        requires { Open self.old }
        ensures { self.new ≡ fitted (removed p (standing_of self.old)) self.old }
    {
        if p < self.count {
            self.spaces.copy_within(p + 1..self.count, p);
            self.count -= 1;
        }
    }

    fn insert(&mut self, p: usize, x: Space)
        requires { Open self.old }
        ensures { self.new ≡ fitted (inserted p x (standing_of self.old)) self.old }
    {
        let count = self.count;
        if count < PLACES {
            let at = p.min(count);
            self.spaces.copy_within(at..count, at + 1);
            self.spaces[at] = x;
            self.count = count + 1;
        }
    }

    fn restand(&mut self, p: usize, standing: u8)
        requires { Open self.old }
        ensures { self.new ≡ fitted (restood p standing (standing_of self.old)) self.old }
    {
        if p < self.count {
            self.spaces[p].standing = standing;
        }
    }

    // Notes a change as the latest: 64 at the most, the oldest pushed out, and nothing left to redo.
    fn note(&mut self, change: Change)
        requires { Open self.old }
        ensures { self.new ≡ noted change self.old }
    {
        let latest = OpenChange::from(change);
        self.redoable = 0;
        if self.undoable < OPEN_PLACES {
            self.changes[self.undoable] = latest;
            self.undoable += 1;
        } else {
            self.changes.copy_within(1.., 0);
            self.changes[OPEN_PLACES - 1] = latest;
        }
    }
}
