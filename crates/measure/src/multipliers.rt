// The multipliers of 69.109(k)(3) and (l)(2), and sums over lists of measures.
ghost use Rattle.std.specs.Prelude.{◌≡◌, ◌≤◌, length};
ghost use Rattle.measure.specs.Multipliers.{multiplier as multiplier_of, weighted, total};

// The multiplier of the value numbered `number`, from 1, of a division into `parts`.
#[tactic(auto, unfolding(crate::specs::Multipliers::multiplier))]
pub(crate) fn multiplier(parts: usize, number: usize) -> u64
    requires { parts ≤ 16 }
    ensures { result ≡ multiplier_of parts number }
{
    if number == 1 || number == parts + 1 {
        1
    } else if number % 2 == 0 {
        4
    } else {
        2
    }
}

// The sum of the values, each with its multiplier.
#[tactic(auto, unfolding(crate::specs::Multipliers::weighted), using(crate::proofs::Laws::Multipliers::term_le, crate::proofs::Laws::Multipliers::weighted_step))]
pub(crate) fn weighted_sum(parts: usize, values: &[u32]) -> u64
    requires { (parts ≤ 16) × (length values.now ≤ 17) }
    ensures { result ≡ weighted parts values.now }
{
    let mut sum = 0;
    for (i, x) in values.iter().enumerate() {
        sum += multiplier(parts, i + 1) * u64::from(*x);
    }
    sum
}

// The plain sum of the values.
#[tactic(auto, using(crate::proofs::Laws::Multipliers::total_sum))]
pub(crate) fn plain_sum(values: &[u32]) -> u64
    requires { length values.now ≤ 17 }
    ensures { result ≡ total values.now }
{
    values.iter().map(|x| u64::from(*x)).sum()
}
