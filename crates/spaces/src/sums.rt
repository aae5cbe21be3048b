// The sums that the paper takes over the standing spaces: what a space adds to each, one sum, and those of a report at once.
ghost use Rattle.std.specs.Prelude.{◌≡◌, ◌&&◌, ◌≤◌, ◌<◌, ◌^◌, eqb};
ghost use Rattle.spaces.specs.Space.{is_room, is_hull};
ghost use Rattle.spaces.specs.Row.{only, amount_of, sum_of, most_sum, totals_of, EachAtMost};

use crate::row::Row;
use crate::space::Space;
use measure::kinds::{BETWEEN_DECK, HATCHWAY, ROOM, SUPERSTRUCTURE, UNDER_DECK};

// Which sum. An enum and no closure of what a space adds, since the definitions (specs/Row `amount_of`, `sum_of`) and the theorems on
// sums speak of its cases.
#[derive(Clone, Copy)]
pub enum Amount {
    // The tonnages of the rooms directly inside the space with an id, and their number.
    Inside(u16),
    Rooms(u16),
    // The lengths of all U.
    Lengths,
    // T: the tonnages of all U, B and S. All H. Standing 1, 2, 3 and 4.
    Hull,
    Hatchways,
    Exempt,
    Ballast,
    Deducted,
    Machinery,
}

// The sums that a report works with.
#[derive(Clone, Copy)]
pub struct Totals {
    pub lengths: u64,
    pub hull: u64,
    pub hatchways: u64,
    pub exempt: u64,
    pub ballast: u64,
    pub deducted: u64,
    pub machinery: u64,
}

// n where a test holds, else 0: the definition's own word (specs/Row).
fn only(test: bool, n: u32) -> u64
    ensures { (result ≡ only test n) × (result < 2 ^ 32) }
{
    if test { u64::from(n) } else { 0 }
}

fn is_inside(x: Space, id: u16) -> bool
    ensures { result ≡ (is_room x && eqb x.within id) }
{
    x.kind == ROOM && x.within == id
}

fn is_hull(x: Space) -> bool
    ensures { result ≡ is_hull x }
{
    matches!(x.kind, UNDER_DECK | BETWEEN_DECK | SUPERSTRUCTURE)
}

// What a space adds to a sum.
pub(crate) fn share(which: Amount, x: Space) -> u64
    ensures { (result ≡ amount_of which x) × (result < 2 ^ 32) }
{
    match which {
        Amount::Inside(id) => only(is_inside(x, id), x.tonnage),
        Amount::Rooms(id) => only(is_inside(x, id), 1),
        Amount::Lengths => only(x.kind == UNDER_DECK, x.length.0),
        Amount::Hull => only(is_hull(x), x.tonnage),
        Amount::Hatchways => only(x.kind == HATCHWAY, x.tonnage),
        Amount::Exempt => only(x.standing == 1, x.tonnage),
        Amount::Ballast => only(x.standing == 2, x.tonnage),
        Amount::Deducted => only(x.standing == 3, x.tonnage),
        Amount::Machinery => only(x.standing == 4, x.tonnage),
    }
}

impl Row<'_> {
    pub fn sum(self, which: Amount) -> u64
        ensures total { result ≡ sum_of which self.entry.spaces.now }
        ensures bounded { result ≤ most_sum }
    {
        self.spaces.iter().map(|x| share(which, *x)).sum()
    }

    // The sums of a report.
    pub fn total_up(self) -> Totals
        ensures totals { result ≡ totals_of self.entry.spaces.now }
        ensures bounded { EachAtMost most_sum result }
    {
        Totals {
            lengths: self.sum(Amount::Lengths),
            hull: self.sum(Amount::Hull),
            hatchways: self.sum(Amount::Hatchways),
            exempt: self.sum(Amount::Exempt),
            ballast: self.sum(Amount::Ballast),
            deducted: self.sum(Amount::Deducted),
            machinery: self.sum(Amount::Machinery),
        }
    }
}
