// The calls on a sheet. Each answers the paper's number, 0 where accepted, its values, and the sheet after it; a refused
// change, undo or redo hands back the sheet as it came. A call that changes the sheet does so in its answer's own, so that none
// is copied for the answer.
//
// A number beside the values and no `Result`, in `Changed`, `Entering`, `Reported` and `tanks::TankEntering`: C takes them by this layout.
ghost use Rattle.std.specs.Prelude.{◌≡◌, not, [], ◌∷◌, eqb};
ghost use Rattle.std.specs.Fn.{FnOnceReturnsAtMut};
ghost use Rattle.measure.specs.Refusals.{first_of};
ghost use Rattle.measure.specs.Ends.{end_areas};
ghost use Rattle.sheet.specs.Ends.{pointed_with_area};
ghost use Rattle.sheet.specs.Calls.{opened_with, out_of_range, misstated as misstated_of, entry_of, entering, withdrawn, marked, undone, redone, counted, reported, figures_of};
ghost use Rattle.sheet.specs.Handed.{answer_of, entry_answer, told};

use crate::changes::Change;
use crate::refusals::{DEDUCTIONS_PASS, LENGTHS_SHORT, NOT_JUSTIFIED, NOTHING_OPEN, number_of};
use crate::sheet::Sheet;
use measure::kinds::{ROOM, kind_of};
use measure::offsets::{m_of, measure_offsets};
use measure::ranges::tonnage_length_fits;
use measure::refusals::{OUTSIDE_ITS_RANGE, Refusal};
use measure::roundings;
use measure::roundings::Roundings;
use measure::units::Hundredths;
use spaces::space::{GREATEST_DECK, Space};
use standard::gross::reckon;
use standard::rules::{entry_ruling, mark_ruling, withdraw_ruling};
use standard::standings::GREATEST_STANDING;

// What is entered: the enclosing id is looked at only of a room, and the ends only of a U: 1 inner (at a step), 2 upright, 3 pointed.
// Its kind, standing and ends are numbers, as a tank's standing is: C hands in any byte, and one that is none of theirs is 2.
#[repr(C)]
#[derive(Clone, Copy)]
pub struct Entry {
    pub id: u16,
    pub within: u16,
    pub kind: u8,
    pub standing: u8,
    pub fore_end: u8,
    pub aft_end: u8,
    pub deck: u8,
    pub length: Hundredths,
}

#[repr(C)]
#[derive(Clone, Copy)]
pub struct Changed {
    pub number: u8,
    pub sheet: Sheet,
}

// What entering answers: with the change the roundings that an accepted space passes on, 0 each where refused; and, refused or not,
// how many enclosing spaces were visited, 0 of a kind that is no room and on a sheet not open.
#[repr(C)]
#[derive(Clone, Copy)]
pub struct Entering {
    pub number: u8,
    pub roundings: Roundings,
    pub visited: u8,
    pub sheet: Sheet,
}

#[repr(C)]
#[derive(Clone, Copy)]
pub struct Counted {
    pub undoable: usize,
    pub redoable: usize,
    pub sheet: Sheet,
}

// Gross and net in hundredths of a ton, 0 and 0 where refused.
#[repr(C)]
#[derive(Clone, Copy)]
pub struct Reported {
    pub number: u8,
    pub gross: u64,
    pub net: u64,
    pub sheet: Sheet,
}

// What a report tells, the paper's number first. A record and no `Result`, since the definition `figures_of` (specs/Calls) answers it.
#[derive(Clone, Copy)]
pub struct Figures {
    pub number: u8,
    pub gross: u64,
    pub net: u64,
}

impl Entry {
    // 2 by what it says beside its measures: its standing, its deck, and of a U its ends.
    fn misstated(self) -> bool
        ensures { result ≡ misstated_of self }
    {
        out_of_range(self.standing, self.deck) || !self.ends_fit()
    }

    // The first of its numbers: 2 by what it says; `measured`, as its offsets are judged; `ruled`, by the spaces that stand; and 19. A
    // number, 0 for none, here and in `judged_by_ends` and `Tank::judged`, as `first_of` and the definitions by it have it;
    // `Sheet::change` makes a `Result` of it. `whole` and the offsets go on to `measure::ends::end_areas`, which takes them one by one.
    fn judged(
        self,
        measured: u8,
        ruled: u8,
        whole: Hundredths,
        heights: &[u32],
        breadths: &[u32],
    ) -> u8
        ensures { result ≡ first_of ((misstated_of self, 2) ∷ (not (eqb measured 0), measured) ∷ (not (eqb ruled 0), ruled) ∷ (pointed_with_area self (end_areas whole self.length heights.now breadths.now), 19) ∷ []) }
    {
        if self.misstated() {
            OUTSIDE_ITS_RANGE
        } else if measured != 0 {
            measured
        } else {
            self.judged_by_ends(ruled, whole, heights, breadths)
        }
    }

    // The record of an entry, with its m and its tonnage.
    #[tactic(auto, unfolding(crate::specs::Calls::entry_of))]
    fn space(self, m: u8, tonnage: u32) -> Space
        ensures { result ≡ entry_of self m tonnage }
    {
        Space {
            id: self.id,
            within: if self.kind == ROOM { self.within } else { 0 },
            kind: self.kind,
            standing: self.standing,
            m,
            deck: self.deck,
            tonnage,
            length: self.length,
        }
    }
}

impl Figures {
    // "A refused report gives 0 and 0."
    fn of(outcome: Result<(u64, u64), Refusal>) -> Figures
        ensures { result ≡ told outcome }
    {
        let (gross, net) = outcome.unwrap_or((0, 0));
        Figures {
            number: number_of(outcome),
            gross,
            net,
        }
    }
}

impl Changed {
    // A sheet changed so, and what came of it. It is changed where it is answered, so that none is copied for the answer.
    fn by<F: FnOnce(&mut Sheet) -> Result<(), Refusal>>(sheet: Sheet, change: F) -> Changed
        requires { F.IsAlwaysCallable change }
        ensures { (outcome : _) × FnOnceReturnsAtMut F.FnOnce change sheet outcome result.sheet × (result ≡ answer_of outcome result.sheet) }
    {
        let mut changed = Changed { number: 0, sheet };
        changed.number = number_of(change(&mut changed.sheet));
        changed
    }
}

impl Sheet {
    // A new sheet with a tonnage length and a vessel number; one not open where the length is outside its range.
    pub fn open(length: Hundredths, vessel: u32) -> Changed
        ensures { result ≡ opened_with length vessel }
    {
        if !tonnage_length_fits(length) {
            return Changed {
                number: OUTSIDE_ITS_RANGE,
                sheet: Sheet::closed(),
            };
        }
        Changed {
            number: 0,
            sheet: Sheet::blank(true, length, vessel),
        }
    }

    // Enters a space from its offsets.
    pub fn enter(self, entry: Entry, heights: &[u32], breadths: &[u32]) -> Entering
        ensures { result ≡ entering self entry heights.now breadths.now }
    {
        let mut entering = Entering {
            number: 0,
            roundings: roundings::none(),
            visited: 0,
            sheet: self,
        };
        let (outcome, visited) = entering.sheet.take_in(entry, heights, breadths);
        entering.number = number_of(outcome);
        entering.roundings = outcome.unwrap_or(roundings::none());
        entering.visited = visited;
        entering
    }

    // Strikes out the space with an id.
    pub fn withdraw(self, id: u16) -> Changed
        ensures { result ≡ withdrawn self id }
    {
        Changed::by(self, |sheet| sheet.strike_out(id))
    }

    // Gives the space with an id a new standing, even the same one.
    pub fn mark(self, id: u16, standing: u8) -> Changed
        ensures { result ≡ marked self id standing }
    {
        Changed::by(self, |sheet| sheet.give_standing(id, standing))
    }

    // Takes back the latest accepted change not undone.
    pub fn undo(self) -> Changed
        ensures { result ≡ undone self }
    {
        Changed::by(self, Sheet::step_back)
    }

    // Makes again the change last undone.
    pub fn redo(self) -> Changed
        ensures { result ≡ redone self }
    {
        Changed::by(self, Sheet::step_forth)
    }

    // The roundings of an accepted entry, and how many enclosing spaces were visited. The same steps as `take_tank_in` and no body of
    // both, which would be handed each step: what is measured, ruled, judged and passed on differs.
    fn take_in(
        &mut self,
        entry: Entry,
        heights: &[u32],
        breadths: &[u32],
    ) -> (Result<Roundings, Refusal>, u8)
        ensures { entry_answer result.0 result.1 self.new ≡ entering self.old entry heights.now breadths.now }
    {
        if let Err(refusal) = self.check_open() {
            return (Err(refusal), 0);
        }
        let whole = self.length;
        let offsets = measure_offsets(entry.kind, whole, entry.length, heights, breadths);
        let measured = offsets.measured;
        let x = entry.space(m_of(kind_of(entry.kind), heights), measured.tonnage);
        let ruling = entry_ruling(self.standing(), whole, x);
        let number = entry.judged(measured.number, ruling.number, whole, heights, breadths);
        let outcome = self.change(number, Change::Entered(x));
        (outcome.map(|()| offsets.roundings), ruling.visited)
    }

    // 1; 5 and 11, as the spaces that stand rule.
    fn strike_out(&mut self, id: u16) -> Result<(), Refusal>
        ensures { answer_of result self.new ≡ withdrawn self.old id }
    {
        self.check_open()?;
        let ruling = withdraw_ruling(self.standing(), id);
        let x = ruling.space;
        self.change(ruling.number, Change::Withdrawn(ruling.place, x))
    }

    // 1; 2: a standing over 4; 5, 6 and 8, as the spaces that stand rule.
    fn give_standing(&mut self, id: u16, standing: u8) -> Result<(), Refusal>
        ensures { answer_of result self.new ≡ marked self.old id standing }
    {
        self.check_open()?;
        if GREATEST_STANDING < standing {
            return Err(Refusal(OUTSIDE_ITS_RANGE));
        }
        let ruling = mark_ruling(self.standing(), id, standing);
        let before = ruling.space.standing;
        self.change(
            ruling.number,
            Change::Marked(ruling.place, before, standing),
        )
    }

    // 1; 12: nothing undoable. No one body with `step_forth`, which would ask which way it goes at each of its counts and at the change.
    fn step_back(&mut self) -> Result<(), Refusal>
        ensures { answer_of result self.new ≡ undone self.old }
    {
        self.check_open()?;
        if self.undoable == 0 {
            return Err(Refusal(NOTHING_OPEN));
        }
        let at = self.undoable - 1;
        let latest = self.changes[at];
        self.take_back(Change::from(latest));
        self.undoable = at;
        self.redoable += 1;
        Ok(())
    }

    // 1; 12: nothing redoable.
    fn step_forth(&mut self) -> Result<(), Refusal>
        ensures { answer_of result self.new ≡ redone self.old }
    {
        self.check_open()?;
        if self.redoable == 0 {
            return Err(Refusal(NOTHING_OPEN));
        }
        let at = self.undoable;
        let last = self.changes[at];
        self.make(Change::from(last));
        self.undoable = at + 1;
        self.redoable -= 1;
        Ok(())
    }

    // How many changes are undoable and redoable; 0 and 0 on a sheet not open.
    #[tactic(auto, unfolding(crate::specs::Calls::counted))]
    pub fn counts(self) -> Counted
        ensures { result ≡ counted self }
    {
        let (undoable, redoable) = if self.usable() {
            (self.undoable, self.redoable)
        } else {
            (0, 0)
        };
        Counted {
            undoable,
            redoable,
            sheet: self,
        }
    }

    // Gross and net; justified is 1 where the surveyor justifies the water ballast, else 0.
    pub fn report(self, justified: u8) -> Reported
        ensures { result ≡ reported self justified }
    {
        let figures = self.figures(justified);
        Reported {
            number: figures.number,
            gross: figures.gross,
            net: figures.net,
            sheet: self,
        }
    }

    // What that report tells, without the sheet, which need not be copied into the answer.
    pub fn figures(&self, justified: u8) -> Figures
        ensures { result ≡ figures_of self.now justified }
    {
        Figures::of(self.gross_and_net(justified))
    }

    // 1; 2: a mark that is neither 0 nor 1; 13; 14: ballast over 30%, and not justified; and 21.
    fn gross_and_net(&self, justified: u8) -> Result<(u64, u64), Refusal>
        ensures { told result ≡ figures_of self.now justified }
    {
        self.check_open()?;
        if 1 < justified {
            return Err(Refusal(OUTSIDE_ITS_RANGE));
        }
        let r = reckon(self.standing());
        if r.lengths != u64::from(self.length.0) {
            return Err(Refusal(LENGTHS_SHORT));
        }
        if r.needs_mark && justified == 0 {
            return Err(Refusal(NOT_JUSTIFIED));
        }
        if r.deductions_pass {
            return Err(Refusal(DEDUCTIONS_PASS));
        }
        Ok((r.gross, r.net))
    }
}

// 2 by a standing or a deck.
pub(crate) fn out_of_range(standing: u8, deck: u8) -> bool
    ensures { result ≡ out_of_range standing deck }
{
    GREATEST_STANDING < standing || GREATEST_DECK < deck
}
