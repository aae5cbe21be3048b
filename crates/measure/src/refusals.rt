// The numbers of refusal that measuring gives ("Numbers of refusal"), and a refusal as functions hand it on.

// Why a call is refused: the paper's number in a type of its own. No enum of variants: the definitions and the records, those for C too,
// speak of the number, and `sheet` and `dayfile` pass numbers on from the records of the floors below.
#[derive(Clone, Copy)]
pub struct Refusal(pub u8);

// A kind or measure outside its range. Every measure handed in is judged, surplus ones too.
pub const OUTSIDE_ITS_RANGE: u8 = 2;

// Stations, depths, heights or breadths not the number the rules ask.
pub const NOT_THE_NUMBER_ASKED: u8 = 3;

// A tank that passes an end of its U (T-01).
pub const PASSES_AN_END: u8 = 9;

// A tank in a U that has no m (T-01).
pub const NO_M: u8 = 29;
