// Recorded spaces judged one after another, each as an entry with its recorded tonnage and length after those before it.
ghost use Rattle.std.specs.Prelude.{◌≡◌, cond, []};
ghost use Rattle.standard.specs.Records.{misrecorded as misrecorded_of, first_refused};
ghost use Rattle.standard.specs.Handed.{entry_number_by};

use crate::rules::{Seen, judged_entry, space_at};
use measure::kinds::{ROOM, kind_of};
use measure::ranges::length_fits;
use measure::refusals::OUTSIDE_ITS_RANGE;
use measure::units::Hundredths;
use spaces::row::Row;
use spaces::space::{GREATEST_DECK, Space};

// The number with which a record was refused and its position from 1; 0 and 0 where none was, as the definition (specs/Records) has it.
#[derive(Clone, Copy)]
pub struct RefusedRecord {
    pub number: u8,
    pub position: usize,
}

// The greatest tonnage that a record holds, in hundredths of a ton.
pub const GREATEST_TONNAGE: u32 = 100_000_000;

// A record whose own numbers no entry could have: a kind or number outside its range, or an enclosing id where there may
// be none.
fn misrecorded(x: Space) -> bool
    ensures { result ≡ misrecorded_of x }
{
    GREATEST_TONNAGE < x.tonnage
        || GREATEST_DECK < x.deck
        || !length_fits(kind_of(x.kind), x.length)
        || (x.kind != ROOM && x.within != 0)
}

// The number with which a record is refused, or 0 as `first_of` answers it, by what it finds among those before it.
fn record_number(x: Space, tonnage_length: Hundredths, seen: Seen) -> u8
    ensures { result ≡ cond (misrecorded_of x) 2 (entry_number_by tonnage_length x seen.found seen.around seen.full) }
{
    if misrecorded(x) {
        OUTSIDE_ITS_RANGE
    } else {
        judged_entry(x, tonnage_length, seen)
    }
}

// The first of the records that is refused: those before each are fewer than 200. By number, which the position and those before it are
// told by: a `zip` with what is around each would leave it standing.
pub fn first_refused(row: Row, tonnage_length: Hundredths) -> RefusedRecord
    ensures { result ≡ first_refused tonnage_length [] row.entry.spaces.now }
{
    let all = row.around_each();
    for (i, &x) in row.spaces.iter().enumerate() {
        let around = all[i];
        let seen = Seen {
            found: space_at(&row.spaces[..i], around.home),
            around,
            full: false,
        };
        let number = record_number(x, tonnage_length, seen);
        if number != 0 {
            return RefusedRecord {
                number,
                position: i + 1,
            };
        }
    }
    RefusedRecord {
        number: 0,
        position: 0,
    }
}
