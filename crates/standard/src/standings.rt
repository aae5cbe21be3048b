// The table of standings ("Standing").
ghost use Rattle.std.specs.Prelude.{◌≡◌};
ghost use Rattle.standard.specs.Standings.{may_take};

// Standings go from 0, plain, to 4, machinery.
pub const GREATEST_STANDING: u8 = 4;

// Which kind may have which standing: a row for each kind from 1, a column for each standing from 0.
const STANDINGS: [[bool; 5]; 5] = [
    [true, false, false, false, false],
    [true, true, false, false, false],
    [true, true, false, false, false],
    [true, false, false, false, false],
    [true, true, true, true, true],
];

// Whether a kind may have a standing; no, where one of them is outside the table. Kinds go from 1, so that by `get` it would be a
// subtraction that can fail and two places that can be missing, no plainer than the three tests.
#[tactic(auto, using(crate::proofs::Laws::Standings::table))]
pub fn may_take(kind: u8, standing: u8) -> bool
    ensures { result ≡ may_take kind standing }
{
    if kind < 1 || 5 < kind || GREATEST_STANDING < standing {
        return false;
    }
    STANDINGS[usize::from(kind - 1)][usize::from(standing)]
}
