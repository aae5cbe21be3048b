// When the entry of a tank is refused on the spaces that stand (T-01 of document 02): as a room's, and by the U that it names.
ghost use Rattle.std.specs.Prelude.{◌≡◌, not, ◌&&◌, ◌||◌, [], ◌∷◌, eqb};
ghost use Rattle.measure.specs.Refusals.{first_of};
ghost use Rattle.standard.specs.Rules.{entry_ruling};
ghost use Rattle.standard.specs.Tanks.{under_deck_in, under_deck_with, in_no_under_deck, past_end, measurable_in, without_m, tank_number};
ghost use Rattle.standard.specs.Handed.{misplaced_by, overfull_by};

use crate::rules::{EntryRuling, judged, misplaced, overfull, see};
use measure::kinds::UNDER_DECK;
use measure::refusals::NO_M;
use measure::tanks::{has_m, passes_end};
use measure::units::Hundredths;
use spaces::row::Row;
use spaces::space::{Space, empty};

// A space that was looked for, if it is a U; else an empty record, and no `Option`, as the definitions (specs/Tanks) have it.
fn under_deck_in(found: Option<Space>) -> Space
    ensures { result ≡ under_deck_in found }
{
    match found {
        Some(z) if z.kind == UNDER_DECK => z,
        _ => empty(),
    }
}

// The standing U with an id; an empty record where there is none.
#[tactic(auto, unfolding(crate::specs::Tanks::under_deck_with))]
pub fn under_deck_with(row: Row, id: u16) -> Space
    ensures { result ≡ under_deck_with id row.entry.spaces.now }
{
    under_deck_in(row.find(id))
}

// 6 of a tank: as of any room, and where the enclosing space isn't a U.
fn tank_misplaced(x: Space, found: Option<Space>) -> bool
    ensures { result ≡ (misplaced_by x found || in_no_under_deck found) }
{
    misplaced(x, found) || found.is_some_and(|z| z.kind != UNDER_DECK)
}

// 9: the tank passes an end of its U.
fn past_end(found: Option<Space>, x: Space, fore: Hundredths) -> bool
    ensures { result ≡ past_end found x fore }
{
    let u = under_deck_in(found);
    u.kind == UNDER_DECK && passes_end(u.length, x.length, fore)
}

// The tank has a tonnage to be judged by: its U has m, and it doesn't pass an end.
fn measurable_in(found: Option<Space>, x: Space, fore: Hundredths) -> bool
    ensures { result ≡ measurable_in found x fore }
{
    let u = under_deck_in(found);
    has_m(u.m) && !passes_end(u.length, x.length, fore)
}

// 9 of a tank: it passes an end of its U, or rooms would pass the U's tonnage.
fn tank_overfull(
    x: Space,
    tonnage_length: Hundredths,
    found: Option<Space>,
    beside: u64,
    fore: Hundredths,
) -> bool
    ensures { result ≡ (past_end found x fore || (measurable_in found x fore && overfull_by tonnage_length x found beside)) }
{
    past_end(found, x, fore)
        || (measurable_in(found, x, fore) && overfull(x, tonnage_length, found, beside))
}

// 29: the U has no m.
fn without_m(found: Option<Space>) -> bool
    ensures { result ≡ without_m found }
{
    let u = under_deck_in(found);
    u.kind == UNDER_DECK && !has_m(u.m)
}

// The number that the other tests gave, and 29 after them all. The ends of a U have their like in `sheet` (`judged_by_ends`): a function
// for both, of the test and its number, would be this one `if` again.
fn judged_by_m(number: u8, found: Option<Space>) -> u8
    ensures { result ≡ first_of ((not (eqb number 0), number) ∷ (without_m found, 29) ∷ []) }
{
    if number == 0 && without_m(found) {
        NO_M
    } else {
        number
    }
}

// The entry of a tank judged: 4 to 10, and 29. x is its record.
pub fn tank_ruling(row: Row, tonnage_length: Hundredths, x: Space, fore: Hundredths) -> EntryRuling
    ensures { result ≡ entry_ruling (tank_number tonnage_length row.entry.spaces.now x fore) row.entry.spaces.now x }
{
    let seen = see(row, x);
    let found = seen.found;
    let misplaced = tank_misplaced(x, found);
    let overfull = tank_overfull(x, tonnage_length, found, seen.around.beside, fore);
    let number = judged(x, seen, misplaced, overfull);
    EntryRuling {
        number: judged_by_m(number, found),
        visited: seen.around.levels,
    }
}
