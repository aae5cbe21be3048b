// "Nearest" means a half goes up ("Units and roundings"); and how far what is rounded lies from the fraction.
ghost use Rattle.std.specs.Prelude.{◌≡◌, ◌+◌, ◌*◌, ◌^◌, ◌≤◌, ◌<◌, pos, ◌-ℤ◌};
ghost use Rattle.measure.specs.Rounding.{nearest as nearest_of};

// a / b to the nearest whole number, and 0 where b is 0. The remainder decides, so that nothing is doubled and nothing can overflow.
#[tactic(auto, using(crate::proofs::Laws::Rounding::nearest_by_zero, crate::proofs::Laws::Rounding::nearest_down, crate::proofs::Laws::Rounding::nearest_up))]
pub fn nearest(a: u64, b: u64) -> u64
    ensures { result ≡ nearest_of a b }
{
    if b == 0 {
        return 0;
    }
    let rest = a % b;
    if rest < b - rest {
        return a / b;
    }
    a / b + 1
}

// How far `nearest` of a / b lies from a / b, in parts of 1 / b: above zero when rounded up, zero when exact, else below.
// The divisor is 3 times the parts, which are at most 16, and a is at most ten times a length.
#[tactic(auto, using(crate::proofs::Laws::Rounding::nearest_within))]
pub(crate) fn rounding(a: u64, b: u64) -> i8
    requires { (0 < b) × (b ≤ 48) × (a < 2 ^ 36) }
    ensures { result ≡ pos (b * nearest_of a b) -ℤ pos a }
{
    let rounded = b * nearest(a, b);
    difference(rounded, a)
}

// x - y of two numbers that are near each other.
fn difference(x: u64, y: u64) -> i8
    requires { (x < 2 ^ 63) × (y < 2 ^ 63) × (x ≤ y + 127) × (y ≤ x + 127) }
    ensures { result ≡ pos x -ℤ pos y }
{
    (x as i64 - y as i64) as i8
}
