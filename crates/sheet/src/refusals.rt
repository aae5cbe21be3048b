// The numbers of refusal that a sheet's own calls give ("Numbers of refusal"): numbers and no enum, since the definitions and the
// records for C speak of them, and 2 to 11 and 29 come up from the floors below.
ghost use Rattle.std.specs.Prelude.{◌≡◌, ◌≢◌, MatchResult};
ghost use Rattle.sheet.specs.Handed.{refusal, number_of};

use measure::refusals::Refusal;

// The paper's number of an outcome, 0 where accepted.
pub(crate) fn number_of<T: Copy>(outcome: Result<T, Refusal>) -> u8
    ensures { result ≡ number_of outcome }
{
    match outcome {
        Ok(_) => 0,
        Err(refusal) => refusal.0,
    }
}

// A number that a ruling gave: 0 is no refusal.
pub(crate) fn accepted(number: u8) -> Result<(), Refusal>
    ensures { MatchResult result (λ _. number ≡ 0) (λ r. (r ≡ refusal number) × (number ≢ 0)) }
{
    if number == 0 {
        Ok(())
    } else {
        Err(Refusal(number))
    }
}

// Sheet not open.
pub const NOT_OPEN: u8 = 1;

// Nothing undoable, or nothing redoable.
pub const NOTHING_OPEN: u8 = 12;

// U lengths don't add up to the tonnage length.
pub const LENGTHS_SHORT: u8 = 13;

// Ballast over 30%, not justified.
pub const NOT_JUSTIFIED: u8 = 14;

// A pointed end has area (T-02).
pub const POINTED_WITH_AREA: u8 = 19;

// Deductions pass gross (T-06).
pub const DEDUCTIONS_PASS: u8 = 21;
