// The place of each space's enclosing space, laid down once a row: 200 chains are walked by it, and no walk searches.
ghost use Rattle.std.specs.Prelude.{◌≡◌, ◌≤◌, length, get_or, take};
ghost use Rattle.spaces.specs.Space.{empty_space};
ghost use Rattle.spaces.specs.Around.{enclosing_place};
ghost use Rattle.spaces.specs.Handed.{Homed};

use crate::enclosure::Chains;
use crate::index::Index;
use crate::row::{PLACES, Row};
use crate::space::{Space, empty};

// At each place of a row the place of its enclosing space; as many as stand where there is none, and where none stands.
#[derive(Drop)]
pub(crate) struct Homes<'a> {
    pub(crate) row: Row<'a>,
    places: [u8; PLACES],
    ghost homed: { Homed row.spaces.now places },
}

impl<'a> Homes<'a> {
    pub(crate) fn of(index: &Index<'a>) -> Homes<'a>
        ensures { result.row.spaces.now ≡ index.now.row.spaces.now }
    {
        let row = index.row;
        let mut places = [row.spaces.len() as u8; PLACES];
        for (at, x) in row.spaces.iter().enumerate() {
            places[at] = index.enclosing_place(*x) as u8;
        }
        Homes { row, places }
    }

    // The place of the enclosing space of the space at a place.
    #[tactic(auto, using(crate::proofs::Laws::Places::home_within))]
    pub(crate) fn place(&self, at: usize) -> usize
        ensures place { result ≡ enclosing_place self.now.row.spaces.now (get_or self.now.row.spaces.now at empty_space) }
        ensures within { result ≤ length self.now.row.spaces.now }
    {
        match self.places.get(at) {
            Some(place) => usize::from(*place),
            None => self.row.spaces.len(),
        }
    }

    // The first `most` of the spaces.
    pub(crate) fn first(&self, most: usize) -> First<'_>
        requires { most ≤ length self.now.row.spaces.now }
        ensures all { result.homes.now.row.spaces.now ≡ self.now.row.spaces.now }
        ensures so_many { result.most ≡ most }
    {
        First { homes: self, most }
    }
}

// The first of these spaces, each told by its place among all.
#[derive(Clone, Copy)]
pub(crate) struct First<'a> {
    homes: &'a Homes<'a>,
    most: usize,
    ghost within: { most ≤ length homes.now.row.spaces.now },
}

impl Chains for First<'_> {
    type Told = usize;

    ghost among = { λ first. take first.most first.homes.now.row.spaces.now };

    ghost told = { λ first at. get_or first.homes.now.row.spaces.now at empty_space };

    fn enclosing(&self, at: usize) -> Option<usize> {
        let home = self.homes.place(at);
        if home < self.most { Some(home) } else { None }
    }

    fn space(&self, at: usize) -> Space {
        let homes = self.homes;
        match homes.row.spaces.get(at) {
            Some(x) => *x,
            None => empty(),
        }
    }
}
