// What is around a space: among those that stand, and among recorded ones before it. An entry's rules ask nothing else of the row.
ghost use Rattle.std.specs.Prelude.{◌≡◌};
ghost use Rattle.spaces.specs.Around.{enclosing_place, beside_of, around_of, blank_around, each_around};

use crate::enclosure::{LEVELS, walk};
use crate::homes::Homes;
use crate::index::Index;
use crate::row::{PLACES, Row};
use crate::space::Space;
use crate::sums::{Amount, share};
use measure::kinds::ROOM;

#[derive(Clone, Copy)]
pub struct Around {
    // Its id stands already.
    pub taken: bool,
    // The place of its enclosing space, from 0; as many as stand where there is none, as the definition (specs/Around) has it.
    pub home: usize,
    // How many spaces are above it, and whether all are plain.
    pub levels: u8,
    pub plain: bool,
    // The tonnages of the rooms directly inside its enclosing space; where it has none, the lengths of all U.
    pub beside: u64,
}

// What is told of a free place.
fn blank_around() -> Around
    ensures { result ≡ blank_around }
{
    Around {
        taken: false,
        home: 0,
        levels: 0,
        plain: false,
        beside: 0,
    }
}

impl Row<'_> {
    // The place of the enclosing space, from 0; as many as stand where there is none.
    fn enclosing_place(self, x: Space) -> usize
        ensures { result ≡ enclosing_place self.entry.spaces.now x }
    {
        if x.kind == ROOM {
            self.place_of(x.within)
        } else {
            self.spaces.len()
        }
    }

    // What a space is added to, whose enclosing space is at a place.
    fn beside(self, x: Space, home: usize) -> u64
        ensures { result ≡ beside_of home self.entry.spaces.now x }
    {
        if home < self.spaces.len() {
            self.sum(Amount::Inside(x.within))
        } else {
            self.sum(Amount::Lengths)
        }
    }

    // What is around a space among those that stand.
    pub fn around_space(self, x: Space) -> Around
        ensures { result ≡ around_of self.entry.spaces.now x }
    {
        let home = self.enclosing_place(x);
        let up = self.all_above(x);
        Around {
            taken: self.stands(x.id),
            home,
            levels: up.levels,
            plain: up.plain,
            beside: self.beside(x, home),
        }
    }

    // What is around each of the spaces among those before it; a blank for each free place, as there is no heap. By an index and running
    // sums, so that no search and no sum is made twice: of the rooms inside each place (of none behind the last one), and of the lengths
    // of all U. What is answered is laid out first, so that the stack has it once.
    pub fn around_each(self) -> [Around; 200]
        ensures { result ≡ each_around self.entry.spaces.now }
    {
        let mut all = [blank_around(); 200];
        let index = Index::of(self);
        let homes = Homes::of(&index);
        let mut inside = [0u64; PLACES + 1];
        let mut lengths: u64 = 0;
        for (i, &x) in self.spaces.iter().enumerate() {
            let home = homes.place(i);
            let up = walk(&homes.first(i), i, LEVELS);
            let beside = if home < i { inside[home] } else { lengths };
            all[i] = Around {
                taken: index.place_of(x.id) < i,
                home: home.min(i),
                levels: up.levels,
                plain: up.plain,
                beside,
            };
            inside[home] += share(Amount::Inside(x.within), x);
            lengths += share(Amount::Lengths, x);
        }
        all
    }
}
