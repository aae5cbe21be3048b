// What an entry says of the ends of a U (T-02 of document 02): inner, upright or pointed, and a pointed end has no area.
ghost use Rattle.std.specs.Prelude.{◌≡◌, not, ◌&&◌, ◌||◌, [], ◌∷◌, eqb};
ghost use Rattle.measure.specs.Refusals.{first_of};
ghost use Rattle.measure.specs.Ends.{end_areas};
ghost use Rattle.sheet.specs.Ends.{is_end, is_pointed, has_ends, ends_fit, pointed_area, pointed_with_area};

use crate::calls::Entry;
use crate::refusals::POINTED_WITH_AREA;
use measure::ends::end_areas;
use measure::kinds::UNDER_DECK;
use measure::units::Hundredths;

// 1 inner (at a step), 2 upright, 3 pointed: codes and no enum, since C hands in any byte, and `ends_fit` tells those that are none.
const INNER: u8 = 1;

const POINTED: u8 = 3;

impl Entry {
    // Its ends are inner, upright or pointed; of another kind than a U they aren't looked at.
    #[tactic(auto, unfolding(crate::specs::Ends::ends_fit))]
    pub(crate) fn ends_fit(self) -> bool
        ensures { result ≡ ends_fit self }
    {
        self.kind != UNDER_DECK || (is_end(self.fore_end) && is_end(self.aft_end))
    }

    // A U with an end that is said to be pointed.
    fn has_pointed_end(self) -> bool
        ensures { result ≡ (has_ends self && (is_pointed self.fore_end || is_pointed self.aft_end)) }
    {
        self.kind == UNDER_DECK && (self.fore_end == POINTED || self.aft_end == POINTED)
    }

    // 19: a pointed end has area. `whole` is the tonnage length. The areas are worked out only where an end is said to be pointed.
    fn pointed_with_area(self, whole: Hundredths, depths: &[u32], breadths: &[u32]) -> bool
        ensures { result ≡ pointed_with_area self (end_areas whole self.length depths.now breadths.now) }
    {
        if !self.has_pointed_end() {
            return false;
        }
        let areas = end_areas(whole, self.length, depths, breadths);
        pointed_area(self.fore_end, areas.fore) || pointed_area(self.aft_end, areas.aft)
    }

    // The number that the other tests gave, and 19 after them all. 29 comes so after those of a tank (`standard`), but one function of
    // both would be handed the test and the number, and be an `if` with other names.
    pub(crate) fn judged_by_ends(
        self,
        number: u8,
        whole: Hundredths,
        depths: &[u32],
        breadths: &[u32],
    ) -> u8
        ensures { result ≡ first_of ((not (eqb number 0), number) ∷ (pointed_with_area self (end_areas whole self.length depths.now breadths.now), 19) ∷ []) }
    {
        if number == 0 && self.pointed_with_area(whole, depths, breadths) {
            POINTED_WITH_AREA
        } else {
            number
        }
    }
}

fn is_end(end: u8) -> bool
    ensures { result ≡ is_end end }
{
    (INNER..=POINTED).contains(&end)
}

fn pointed_area(end: u8, area: u32) -> bool
    ensures { result ≡ pointed_area end area }
{
    end == POINTED && area != 0
}
