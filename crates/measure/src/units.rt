// The two scales of the paper, kept apart by their types: a third interval of a length cannot stand where one of a
// depth is asked.
// A length, breadth, depth or height, or a third interval of a depth, in hundredths of a foot (69.109(h)(4)(ii)).
#[repr(C)]
#[derive(Clone, Copy, PartialEq, Eq)]
pub struct Hundredths(pub u32);

// A third interval of a length, in thousandths of a foot (69.109(g)(2)): ten times a length, so twice as wide.
#[derive(Clone, Copy)]
pub struct Thousandths(pub u64);
