// The places of ids, found by an index instead of a search: for each id the place at which it stands.
ghost use Rattle.std.specs.Prelude.{◌≡◌, ◌≤◌, length};
ghost use Rattle.spaces.specs.Row.{place_of};
ghost use Rattle.spaces.specs.Around.{enclosing_place};
ghost use Rattle.spaces.specs.Handed.{Indexed};

use crate::row::Row;
use crate::space::Space;
use measure::kinds::ROOM;

// At each id that may stand, up to 9,999, the place at which it stands first; as many as stand where none has it, as `Row::place_of`
// answers it. An array by id and no map, since there is no heap.
#[derive(Drop)]
pub(crate) struct Index<'a> {
    pub(crate) row: Row<'a>,
    places: [u8; 10000],
    ghost indexed: { Indexed row.spaces.now places },
}

impl<'a> Index<'a> {
    // From the last space to the first, so that the first place of an id stays. By place, which is what is laid down: an `enumerate` turned
    // round would be no plainer.
    pub(crate) fn of(row: Row<'a>) -> Index<'a>
        ensures { result.row.spaces.now ≡ row.entry.spaces.now }
    {
        let mut places = [row.spaces.len() as u8; 10000];
        for place in (0..row.spaces.len()).rev() {
            let id = usize::from(row.spaces[place].id);
            if id < places.len() {
                places[id] = place as u8;
            }
        }
        Index { row, places }
    }

    // An id that the index doesn't reach is searched for: no sheet that calls can reach holds one.
    pub(crate) fn place_of(&self, id: u16) -> usize
        ensures { result ≡ place_of id self.now.row.spaces.now }
    {
        match self.places.get(usize::from(id)) {
            Some(place) => usize::from(*place),
            None => self.row.place_of(id),
        }
    }

    // The place of the enclosing space, from 0; as many as stand where there is none.
    #[tactic(auto, using(crate::proofs::Laws::Places::place_bounded))]
    pub(crate) fn enclosing_place(&self, x: Space) -> usize
        ensures place { result ≡ enclosing_place self.now.row.spaces.now x }
        ensures within { result ≤ length self.now.row.spaces.now }
    {
        if x.kind == ROOM {
            self.place_of(x.within)
        } else {
            self.row.spaces.len()
        }
    }
}
