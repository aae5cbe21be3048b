// The chain upward ("Enclosure"): walked one enclosing space at a time, for levels and for the standings above and below.
ghost use Rattle.std.specs.Prelude.{List, ◌≡◌, [], ◌≤◌, option_map};
ghost use Rattle.spaces.specs.Enclosure.{enclosing, upward, above, all_plain, among, below, walked};
ghost use Rattle.spaces.specs.declared.space.Space.{Space};
ghost use Rattle.spaces.specs.Handed.{past_of};

use crate::homes::Homes;
use crate::index::Index;
use crate::row::Row;
use crate::space::Space;
use crate::sums::Amount;
use measure::kinds::ROOM;

// What a walk upward met: how many spaces, and whether all are plain.
#[derive(Clone, Copy)]
pub struct Above {
    pub levels: u8,
    pub plain: bool,
}

// A space is at most at level 8.
pub const LEVELS: u8 = 8;

// What is above a space with nothing above it.
fn nothing() -> Above
    ensures { result ≡ walked [] }
{
    Above {
        levels: 0,
        plain: true,
    }
}

// A walk that goes past a space of a standing first.
fn past(standing: u8, further: Above) -> Above
    requires { further.levels ≤ 8 }
    ensures { result ≡ past_of standing further }
{
    Above {
        levels: further.levels + 1,
        plain: standing == 0 && further.plain,
    }
}

// Spaces among which a chain upward is walked. A row is told a space itself, which may stand or not, and searches for the enclosing one;
// the first of `Homes` are told one by its place, and find it at once, which 200 walks need.
pub(crate) trait Chains {
    type Told: Copy;

    ghost among: { Self → List Space };

    ghost told: { Self → Self.Told → Space };

    fn enclosing(&self, x: Self::Told) -> Option<Self::Told>
        ensures { option_map (told self.now) result ≡ enclosing (among self.now) (told self.now x) };

    fn space(&self, x: Self::Told) -> Space
        ensures { result ≡ told self.now x };
}

impl Chains for Row<'_> {
    type Told = Space;

    ghost among = { λ row. row.spaces.now };

    ghost told = { λ row x. x };

    fn enclosing(&self, x: Space) -> Option<Space> {
        if x.kind == ROOM {
            self.find(x.within)
        } else {
            None
        }
    }

    fn space(&self, x: Space) -> Space {
        x
    }
}

// From a space upward to level 1, with `left` levels left.
pub(crate) fn walk<C: Chains>(spaces: &C, x: C::Told, left: u8) -> Above
    requires { left ≤ 8 }
    ensures met { result ≡ walked (upward left (C.among spaces.now) (C.told spaces.now x)) }
    ensures short { result.levels ≤ left }
{
    if left == 0 {
        return nothing();
    }
    match spaces.enclosing(x) {
        Some(z) => past(spaces.space(z).standing, walk(spaces, z, left - 1)),
        None => nothing(),
    }
}

// Whether the chain upward from a space meets the one with an id, with `left` levels left. They are tested first, since a level less is
// reckoned behind that.
fn leads_to<C: Chains>(spaces: &C, x: C::Told, id: u16, left: u8) -> bool
    ensures { result ≡ among id (upward left (C.among spaces.now) (C.told spaces.now x)) }
{
    if left == 0 {
        return false;
    }
    match spaces.enclosing(x) {
        Some(z) => spaces.space(z).id == id || leads_to(spaces, z, id, left - 1),
        None => false,
    }
}

impl Row<'_> {
    // What is above a space, at most 8 levels of it.
    pub fn all_above(self, x: Space) -> Above
        ensures { result ≡ walked (above self.entry.spaces.now x) }
    {
        walk(&self, x, LEVELS)
    }

    // Whether all the spaces that the one with an id is above are plain: none is below where no room is directly inside.
    pub fn plain_below(self, id: u16) -> bool
        ensures { result ≡ all_plain (below id self.entry.spaces.now) }
    {
        self.sum(Amount::Rooms(id)) == 0 || self.plain_chains(id)
    }

    // The same by the chain upward from each space that isn't plain.
    fn plain_chains(self, id: u16) -> bool
        ensures { result ≡ all_plain (below id self.entry.spaces.now) }
    {
        let homes = Homes::of(&Index::of(self));
        let all = homes.first(self.spaces.len());
        self.spaces.iter().enumerate().all(|(at, y)| y.standing == 0
            || !leads_to(&all, at, id, LEVELS))
    }
}
