// When an entry, a withdrawal and a mark are refused on the spaces that stand ("Numbers of refusal", 4 to 11): a
// function for each test, in the table's order.
ghost use Rattle.std.specs.Prelude.{◌≡◌, not, ◌&&◌, ◌||◌, ◌+◌, eqb, ltb, is_some, slice_get};
ghost use Rattle.spaces.specs.Space.{is_room, is_plain};
ghost use Rattle.spaces.specs.Row.{find, place_of, space_with};
ghost use Rattle.spaces.specs.Enclosure.{above, all_plain, below};
ghost use Rattle.standard.specs.Rules.{entry_number, entry_ruling, encloses_room, withdraw_number, withdraw_ruling, mark_number, mark_ruling};
ghost use Rattle.standard.specs.Handed.{overfull_by, judged_number, misplaced_by, entry_number_by, SeenAs};

use crate::refusals::{
    ENCLOSES_ROOM, ID_TAKEN, MISPLACED, NO_PLACE, NOT_STANDING, OFF_TWICE, OVERFULL, TOO_DEEP,
};
use crate::standings::may_take;
use measure::kinds::{HATCHWAY, ROOM, UNDER_DECK};
use measure::units::Hundredths;
use spaces::around::Around;
use spaces::enclosure::LEVELS;
use spaces::row::{PLACES, Row};
use spaces::space::{Space, empty};
use spaces::sums::Amount;

// Ids go from 1 to 9,999.
pub const GREATEST_ID: u16 = 9_999;

// An entry judged: the number with which it is refused, or 0, and how many enclosing spaces were visited, whatever the number. The
// paper's number and no `Result`, here and in the rulings below, since the definitions (specs/Rules) and the theorems on them have it so.
#[derive(Clone, Copy)]
pub struct EntryRuling {
    pub number: u8,
    pub visited: u8,
}

// A withdrawal or a mark judged: the number with which it is refused, or 0, and the space with its id and the place of that, from 0;
// an empty record and as many as stand where none has it, and no `Option`, as the definitions (`withdraw_ruling`, `mark_ruling`) have it.
#[derive(Clone, Copy)]
pub struct Ruling {
    pub number: u8,
    pub place: usize,
    pub space: Space,
}

// What an entry finds on the spaces that stand: its enclosing space, what else is around it, and whether 200 stand.
#[derive(Clone, Copy)]
pub(crate) struct Seen {
    pub(crate) found: Option<Space>,
    pub(crate) around: Around,
    pub(crate) full: bool,
}

// 4: new id outside its range or already standing.
fn id_refused(x: Space, taken: bool) -> bool
    ensures { result ≡ (ltb x.id 1 || ltb 9999 x.id || taken) }
{
    !(1..=GREATEST_ID).contains(&x.id) || taken
}

// 5: a room's enclosing id isn't standing.
fn unhoused(x: Space, found: Option<Space>) -> bool
    ensures { result ≡ (is_room x && not (is_some found)) }
{
    x.kind == ROOM && found.is_none()
}

// 6: kind can't take this standing, or the enclosing space is a hatchway.
pub(crate) fn misplaced(x: Space, found: Option<Space>) -> bool
    ensures { result ≡ misplaced_by x found }
{
    !may_take(x.kind, x.standing) || found.is_some_and(|z| z.kind == HATCHWAY)
}

// 8: not plain, and a space above isn't plain.
fn off_twice(x: Space, plain_above: bool) -> bool
    ensures { result ≡ (not (is_plain x) && not plain_above) }
{
    x.standing != 0 && !plain_above
}

// 9: rooms would pass the enclosing tonnage, or U lengths the tonnage length.
pub(crate) fn overfull(
    x: Space,
    tonnage_length: Hundredths,
    found: Option<Space>,
    beside: u64,
) -> bool
    ensures { result ≡ overfull_by tonnage_length x found beside }
{
    match found {
        Some(z) => passes(beside, x.tonnage, z.tonnage),
        None => x.kind == UNDER_DECK && passes(beside, x.length.0, tonnage_length.0),
    }
}

// Whether a sum passes a limit with some more.
fn passes(sum: u64, more: u32, limit: u32) -> bool
    ensures { result ≡ ltb limit (sum + more) }
{
    u64::from(limit) < sum.saturating_add(u64::from(more))
}

// The number with which x is refused, or 0 as `first_of` answers it, by what it finds and whether 6 and 9 apply.
#[tactic(auto, unfolding(crate::specs::Handed::judged_number))]
pub(crate) fn judged(x: Space, seen: Seen, misplaced: bool, overfull: bool) -> u8
    ensures { result ≡ judged_number x seen.found seen.around misplaced overfull seen.full }
{
    let around = seen.around;
    if id_refused(x, around.taken) {
        return ID_TAKEN;
    }
    if unhoused(x, seen.found) {
        return NOT_STANDING;
    }
    if misplaced {
        return MISPLACED;
    }
    if LEVELS <= around.levels {
        return TOO_DEEP;
    }
    if off_twice(x, around.plain) {
        return OFF_TWICE;
    }
    if overfull {
        return OVERFULL;
    }
    if seen.full {
        return NO_PLACE;
    }
    0
}

// The number with which an entry of x is refused, or 0, by what it finds.
pub(crate) fn judged_entry(x: Space, tonnage_length: Hundredths, seen: Seen) -> u8
    ensures { result ≡ entry_number_by tonnage_length x seen.found seen.around seen.full }
{
    let misplaced = misplaced(x, seen.found);
    let overfull = overfull(x, tonnage_length, seen.found, seen.around.beside);
    judged(x, seen, misplaced, overfull)
}

// The space at a place, from 0, if it is one of some spaces' places.
pub(crate) fn space_at(spaces: &[Space], place: usize) -> Option<Space>
    ensures { result ≡ slice_get spaces.now place }
{
    spaces.get(place).copied()
}

// What an entry of x finds.
pub(crate) fn see(row: Row, x: Space) -> Seen
    ensures { SeenAs row.entry.spaces.now x result }
{
    let around = row.around_space(x);
    Seen {
        found: space_at(row.spaces, around.home),
        around,
        full: PLACES <= row.spaces.len(),
    }
}

// An entry of x judged: 4 to 10.
pub fn entry_ruling(row: Row, tonnage_length: Hundredths, x: Space) -> EntryRuling
    ensures { result ≡ entry_ruling (entry_number tonnage_length row.entry.spaces.now x) row.entry.spaces.now x }
{
    let seen = see(row, x);
    EntryRuling {
        number: judged_entry(x, tonnage_length, seen),
        visited: seen.around.levels,
    }
}

// 11: withdrawal of a space that encloses a room.
fn encloses_room(row: Row, id: u16) -> bool
    ensures { result ≡ encloses_room row.entry.spaces.now id }
{
    0 < row.sum(Amount::Rooms(id))
}

// The space with an id, searched for once: its place, from 0, and itself; as many as stand and none where none has it.
#[derive(Clone, Copy)]
struct Sought {
    place: usize,
    found: Option<Space>,
}

impl Sought {
    #[tactic(auto, using(crate::proofs::Laws::Judged::found_there))]
    fn of(row: Row, id: u16) -> Self
        ensures { result ≡ record { place = place_of id row.entry.spaces.now; found = find id row.entry.spaces.now } }
    {
        let place = row.place_of(id);
        Sought {
            place,
            found: space_at(row.spaces, place),
        }
    }

    // A ruling on it.
    fn ruling(self, number: u8) -> Ruling
        ensures { result ≡ record { number = number; place = self.place; space = space_with self.found } }
    {
        Ruling {
            number,
            place: self.place,
            space: self.found.unwrap_or(empty()),
        }
    }
}

// A withdrawal judged: 5 and 11.
#[tactic(auto, unfolding(crate::specs::Rules::withdraw_ruling))]
pub fn withdraw_ruling(row: Row, id: u16) -> Ruling
    ensures { result ≡ withdraw_ruling row.entry.spaces.now id }
{
    let sought = Sought::of(row, id);
    sought.ruling(withdraw_number(row, id, sought.found))
}

// The number, or 0 as `first_of` answers it, by the space with the id, if it stands.
#[tactic(auto, unfolding(crate::specs::Rules::withdraw_number))]
fn withdraw_number(row: Row, id: u16, found: Option<Space>) -> u8
    requires { found ≡ find id row.spaces.now }
    ensures { result ≡ withdraw_number row.entry.spaces.now id }
{
    if found.is_none() {
        NOT_STANDING
    } else if encloses_room(row, id) {
        ENCLOSES_ROOM
    } else {
        0
    }
}

// 8 of a mark: not plain, and a space above or below isn't plain.
fn marked_twice(row: Row, z: Space, id: u16, standing: u8) -> bool
    ensures { result ≡ (not (eqb standing 0) && not (all_plain (above row.entry.spaces.now z) && all_plain (below id row.entry.spaces.now))) }
{
    standing != 0 && !(row.all_above(z).plain && row.plain_below(id))
}

// A mark judged in the same way: 5, 6 and 8.
#[tactic(auto, unfolding(crate::specs::Rules::mark_ruling))]
pub fn mark_ruling(row: Row, id: u16, standing: u8) -> Ruling
    ensures { result ≡ mark_ruling row.entry.spaces.now id standing }
{
    let sought = Sought::of(row, id);
    sought.ruling(mark_number(row, id, standing, sought.found))
}

// The number, or 0 as `first_of` answers it, by the space with the id, if it stands.
#[tactic(auto, unfolding(crate::specs::Rules::mark_number))]
fn mark_number(row: Row, id: u16, standing: u8, found: Option<Space>) -> u8
    requires { found ≡ find id row.spaces.now }
    ensures { result ≡ mark_number row.entry.spaces.now id standing }
{
    match found {
        None => NOT_STANDING,
        Some(z) if !may_take(z.kind, standing) => MISPLACED,
        Some(z) if marked_twice(row, z, id, standing) => OFF_TWICE,
        Some(_) => 0,
    }
}
