// The row of standing spaces: made of the places of a sheet, and finding one by its id.
ghost use Rattle.std.specs.Prelude.{◌≡◌, ◌≤◌, length, take};
ghost use Rattle.spaces.specs.Row.{find, place_of, stands};

use crate::space::Space;

// Places for spaces on a sheet.
pub const PLACES: usize = 200;

// Spaces in order of entry, at most 200.
#[derive(Clone, Copy)]
pub struct Row<'a> {
    pub spaces: &'a [Space],
    ghost few: { length spaces.now ≤ 200 },
}

impl<'a> Row<'a> {
    // The spaces in the first `count` of 200 places; a count over 200 is all of them.
    pub fn of(places: &'a [Space; 200], count: usize) -> Row<'a>
        ensures { result.spaces.now ≡ take count places.now }
    {
        Row {
            spaces: &places[..count.min(PLACES)],
        }
    }

    pub fn find(self, id: u16) -> Option<Space>
        ensures { result ≡ find id self.entry.spaces.now }
    {
        self.spaces.iter().find(|x| x.id == id).copied()
    }

    // The place of the space with an id, from 0; as many as stand where none has it, and no `Option`, since the definition
    // (specs/Row `place_of`) and the theorems on it have it so.
    pub fn place_of(self, id: u16) -> usize
        ensures { result ≡ place_of id self.entry.spaces.now }
    {
        let found = self.spaces.iter().position(|x| x.id == id);
        found.unwrap_or(self.spaces.len())
    }

    pub fn stands(self, id: u16) -> bool
        ensures { result ≡ stands id self.entry.spaces.now }
    {
        self.find(id).is_some()
    }
}
