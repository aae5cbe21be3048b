// The ends of a U (69.109(k)(1); T-02 of document 02): the areas of its first and its last section.
ghost use Rattle.std.specs.Prelude.{◌≡◌};
ghost use Rattle.measure.specs.Ends.{end_areas};

use crate::kinds::Kind;
use crate::offsets::{Offsets, middle_of};
use crate::parts::of_depth;
use crate::units::Hundredths;
use crate::volumes::section_areas;

// In products of a breadth and a third interval of depth.
#[derive(Clone, Copy)]
pub struct EndAreas {
    pub fore: u32,
    pub aft: u32,
}

// Of a U's offsets, as `measure::offsets::measure_offsets` takes them; 0 and 0 where that refuses them, as the definition has it.
#[tactic(auto, unfolding(crate::specs::Ends::end_areas), using(crate::proofs::Laws::Ends::ends_read))]
pub fn end_areas(
    tonnage_length: Hundredths,
    length: Hundredths,
    depths: &[u32],
    breadths: &[u32],
) -> EndAreas
    ensures { result ≡ end_areas tonnage_length length depths.now breadths.now }
{
    let offsets = Offsets {
        kind: Kind::UnderDeck,
        tonnage_length,
        length,
        heights: depths,
        breadths,
    };
    if !offsets.in_range() || !offsets.counted() {
        return EndAreas { fore: 0, aft: 0 };
    }
    let areas = section_areas(of_depth(middle_of(depths)), depths, breadths);
    EndAreas {
        fore: areas[0],
        aft: areas[depths.len() - 1],
    }
}
