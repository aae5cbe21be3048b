// A sheet of recorded spaces, as a file gives them back: each is judged in order as an entry with its recorded tonnage
// and length, and the sheet has no open changes.
ghost use Rattle.std.specs.Prelude.{◌≡◌, ◌≤◌, ◌++◌, length, drop};
ghost use Rattle.spaces.specs.Space.{all_recorded};
ghost use Rattle.sheet.specs.Resume.{refused, resumed};

use crate::sheet::Sheet;
use measure::ranges::tonnage_length_fits;
use measure::refusals::OUTSIDE_ITS_RANGE;
use measure::units::Hundredths;
use spaces::row::Row;
use spaces::space::Space;
use standard::records::first_refused;

// The number with which a record was refused and its position from 1; 0 and 0 where none was. The tonnage length outside
// its range is 2 with the position 0. A record and no `Result`, since the definition `resumed` (specs/Resume) answers it.
#[derive(Clone, Copy)]
pub struct Resumed {
    pub number: u8,
    pub position: usize,
    pub sheet: Sheet,
}

impl Resumed {
    fn refused(number: u8, position: usize) -> Resumed
        ensures { result ≡ refused number position }
    {
        Resumed {
            number,
            position,
            sheet: Sheet::closed(),
        }
    }
}

impl Sheet {
    // A sheet of these records.
    pub fn resume(length: Hundredths, vessel: u32, records: Row) -> Resumed
        ensures { result ≡ resumed length vessel records.entry.spaces.now }
    {
        if !tonnage_length_fits(length) {
            return Resumed::refused(OUTSIDE_ITS_RANGE, 0);
        }
        let refused = first_refused(records, length);
        if refused.number != 0 {
            return Resumed::refused(refused.number, refused.position);
        }
        let mut sheet = Sheet::blank(true, length, vessel);
        put_first(&mut sheet.spaces, records.spaces);
        sheet.count = records.spaces.len();
        Resumed {
            number: 0,
            position: 0,
            sheet,
        }
    }
}

// The spaces of some records in the first places, as the records give them back.
// What a lent array holds after a `zip` with its `iter_mut` has no name in a proof, so `enumerate` gives the places.
fn put_first(places: &mut [Space], records: &[Space])
    requires { length records.now ≤ length places.old }
    ensures { places.new ≡ all_recorded records.now ++ drop (length records.now) places.old }
{
    for (place, record) in records.iter().enumerate() {
        places[place] = Space { m: 0, ..*record };
    }
}
