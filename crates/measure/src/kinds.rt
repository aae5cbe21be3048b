// The kinds of space and their codes ("Spaces", the table of kinds).
ghost use Rattle.std.specs.Prelude.{◌≡◌};
ghost use Rattle.measure.specs.Kinds.{kind_of, is_kind};

// The codes of the table. Numbers, beside the enum of the kinds, since the records that C and the file hold have a code (spaces/src/space.rt).
pub const UNDER_DECK: u8 = 1;

pub const BETWEEN_DECK: u8 = 2;

pub const SUPERSTRUCTURE: u8 = 3;

pub const HATCHWAY: u8 = 4;

pub const ROOM: u8 = 5;

#[derive(Clone, Copy)]
pub enum Kind {
    UnderDeck,
    BetweenDeck,
    Superstructure,
    Hatchway,
    Room,
    // Any other code. A variant and no `Option`, since what the public functions promise of such a code speaks of it (specs/Kinds).
    NoKind,
}

// The kind that a code stands for. A function and no `From`, since the theorems on codes hold it by its name (demands, NoSecondAnswer).
#[tactic(auto, unfolding(crate::specs::Kinds::kind_of))]
pub fn kind_of(code: u8) -> Kind
    ensures { result ≡ kind_of code }
{
    match code {
        UNDER_DECK => Kind::UnderDeck,
        BETWEEN_DECK => Kind::BetweenDeck,
        SUPERSTRUCTURE => Kind::Superstructure,
        HATCHWAY => Kind::Hatchway,
        ROOM => Kind::Room,
        _ => Kind::NoKind,
    }
}

// Whether a code stood for one of the five.
pub(crate) fn is_kind(kind: Kind) -> bool
    ensures { result ≡ is_kind kind }
{
    !matches!(kind, Kind::NoKind)
}
