// The hatchway allowance and the water ballast test ("Gross and net"), on sums of tonnages in hundredths of a ton.
ghost use Rattle.std.specs.Prelude.{◌≡◌};
ghost use Rattle.measure.specs.Allowances.{hatchway_allowance, hatchway_excess, ballast_over};

use crate::rounding::nearest;

// Half a percent: the allowance is G / 200, nearest (69.115(c)).
const HALF_A_PERCENT: u64 = 200;

// The hatchway allowance of G, which is taken without the hatchways.
#[tactic(auto, unfolding(crate::specs::Allowances::hatchway_allowance))]
pub fn hatchway_allowance(g: u64) -> u64
    ensures { result ≡ hatchway_allowance g }
{
    nearest(g, HALF_A_PERCENT)
}

// The sum of all hatchways less the allowance, or 0.
#[tactic(auto, unfolding(crate::specs::Allowances::hatchway_excess))]
pub fn hatchway_excess(g: u64, hatchways: u64) -> u64
    ensures { result ≡ hatchway_excess g hatchways }
{
    hatchways.saturating_sub(hatchway_allowance(g))
}

// Whether water ballast is more than 30% of a gross (69.117(f)(4)), exactly. Tenths are taken apart from the rest, so
// that no product can overflow.
#[tactic(auto, unfolding(crate::specs::Allowances::ballast_over), using(crate::proofs::Laws::Tests::same_test))]
pub fn ballast_over(ballast: u64, gross: u64) -> bool
    ensures { result ≡ ballast_over ballast gross }
{
    gross / 10 * 3 + gross % 10 * 3 / 10 < ballast
}
