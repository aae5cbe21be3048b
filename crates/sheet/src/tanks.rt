// The entry of a tank (T-01 of document 02): a room that follows the hull, measured in the U that it names.
ghost use Rattle.std.specs.Prelude.{◌≡◌, cond, ◌||◌, eqb};
ghost use Rattle.sheet.specs.Calls.{out_of_range};
ghost use Rattle.sheet.specs.Tanks.{tank_of, tank_measured, tank_entering};
ghost use Rattle.sheet.specs.Handed.{tank_answer};

use crate::calls::out_of_range;
use crate::changes::Change;
use crate::refusals::number_of;
use crate::sheet::Sheet;
use measure::kinds::ROOM;
use measure::offsets::Measured;
use measure::refusals::{NOT_THE_NUMBER_ASKED, OUTSIDE_ITS_RANGE, Refusal};
use measure::tanks::measure_tank;
use measure::units::Hundredths;
use spaces::row::Row;
use spaces::space::Space;
use standard::tanks::{tank_ruling, under_deck_with};

// A tank to be entered: `within` is the id of its U, `fore` the distance of its fore end along that.
#[repr(C)]
#[derive(Clone, Copy)]
pub struct Tank {
    pub id: u16,
    pub within: u16,
    pub standing: u8,
    pub deck: u8,
    pub length: Hundredths,
    pub fore: Hundredths,
}

// What entering a tank answers: with the change how many enclosing spaces were visited, refused or not; 0 on a sheet not open.
#[repr(C)]
#[derive(Clone, Copy)]
pub struct TankEntering {
    pub number: u8,
    pub visited: u8,
    pub sheet: Sheet,
}

impl Tank {
    // Measures the tank in the U that it names, among the spaces that stand; `whole` is the tonnage length.
    fn measured(self, whole: Hundredths, row: Row, depths: &[u32], breadths: &[u32]) -> Measured
        ensures { result ≡ tank_measured whole row.entry.spaces.now self depths.now breadths.now }
    {
        let u = under_deck_with(row, self.within);
        measure_tank(
            whole,
            u.length,
            u.m,
            self.length,
            self.fore,
            depths,
            breadths,
        )
    }

    // The first of its numbers: 2 by what it says; `measured`, where its measures are wrong; and `ruled`, by the spaces that stand.
    fn judged(self, measured: u8, ruled: u8) -> u8
        ensures { result ≡ cond (out_of_range self.standing self.deck) 2 (cond (eqb measured 2 || eqb measured 3) measured ruled) }
    {
        if out_of_range(self.standing, self.deck) {
            OUTSIDE_ITS_RANGE
        } else if ill_measured(measured) {
            measured
        } else {
            ruled
        }
    }

    // The record of a tank, with its tonnage.
    #[tactic(auto, unfolding(crate::specs::Tanks::tank_of))]
    fn space(self, tonnage: u32) -> Space
        ensures { result ≡ tank_of self tonnage }
    {
        Space {
            id: self.id,
            within: self.within,
            kind: ROOM,
            standing: self.standing,
            m: 0,
            deck: self.deck,
            tonnage,
            length: self.length,
        }
    }
}

impl Sheet {
    // Enters a tank from its sections, as `measure::tanks::measure_tank` takes them.
    pub fn enter_tank(self, tank: Tank, depths: &[u32], breadths: &[u32]) -> TankEntering
        ensures { result ≡ tank_entering self tank depths.now breadths.now }
    {
        let mut entering = TankEntering {
            number: 0,
            visited: 0,
            sheet: self,
        };
        let (outcome, visited) = entering.sheet.take_tank_in(tank, depths, breadths);
        entering.number = number_of(outcome);
        entering.visited = visited;
        entering
    }

    // What came of it, and how many enclosing spaces were visited.
    fn take_tank_in(
        &mut self,
        tank: Tank,
        depths: &[u32],
        breadths: &[u32],
    ) -> (Result<(), Refusal>, u8)
        ensures { tank_answer result.0 result.1 self.new ≡ tank_entering self.old tank depths.now breadths.now }
    {
        if let Err(refusal) = self.check_open() {
            return (Err(refusal), 0);
        }
        let whole = self.length;
        let measured = tank.measured(whole, self.standing(), depths, breadths);
        let x = tank.space(measured.tonnage);
        let ruling = tank_ruling(self.standing(), whole, x, tank.fore);
        let number = tank.judged(measured.number, ruling.number);
        (self.change(number, Change::Entered(x)), ruling.visited)
    }
}

// 2 or 3: its measures are outside their ranges, or not the number asked.
fn ill_measured(number: u8) -> bool
    ensures { result ≡ (eqb number 2 || eqb number 3) }
{
    number == OUTSIDE_ITS_RANGE || number == NOT_THE_NUMBER_ASKED
}
