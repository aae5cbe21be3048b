// The numbers of refusal that these rules give ("Numbers of refusal"). No enum, since the definitions (specs/Rules) and the rulings, which
// hold 0 where nothing is refused, speak of the numbers.

// New id outside its range or already standing.
pub const ID_TAKEN: u8 = 4;

// Id to withdraw or mark, or enclosing id, isn't standing.
pub const NOT_STANDING: u8 = 5;

// Kind can't take this standing, or the enclosing space is a hatchway.
pub const MISPLACED: u8 = 6;

// Level would pass 8.
pub const TOO_DEEP: u8 = 7;

// Not plain, and a space above or below isn't plain.
pub const OFF_TWICE: u8 = 8;

// Rooms would pass the enclosing tonnage, or U lengths the tonnage length.
pub const OVERFULL: u8 = 9;

// Entry where 200 spaces stand.
pub const NO_PLACE: u8 = 10;

// Withdrawal of a space that encloses a room.
pub const ENCLOSES_ROOM: u8 = 11;
