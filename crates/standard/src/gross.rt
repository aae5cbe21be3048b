// Gross and net ("Gross and net"), in hundredths of a ton.
ghost use Rattle.std.specs.Prelude.{◌≡◌, ◌*◌, ◌≤◌};
ghost use Rattle.spaces.specs.Row.{most_sum};
ghost use Rattle.standard.specs.Gross.{gross_over, reckoned};

use crate::machinery::engine_room_deduction;
use measure::allowances::{ballast_over, hatchway_excess};
use spaces::row::Row;

// What a report works out: the lengths of all U, gross, net, whether water ballast needs the mark 'justified', and whether deductions
// pass gross.
#[derive(Clone, Copy)]
pub struct Reckoning {
    pub lengths: u64,
    pub gross: u64,
    pub net: u64,
    pub needs_mark: bool,
    pub deductions_pass: bool,
}

pub fn reckon(row: Row) -> Reckoning
    ensures { result ≡ reckoned row.entry.spaces.now }
{
    let sums = row.total_up();
    let g = sums.hull.saturating_sub(sums.exempt + sums.ballast);
    let gross = gross_over(g, sums.hatchways);
    let deductions = sums.deducted + engine_room_deduction(sums.machinery, gross);
    let net = gross.saturating_sub(deductions);
    let with_ballast = gross_over(sums.hull.saturating_sub(sums.exempt), sums.hatchways);
    let needs_mark = ballast_over(sums.ballast, with_ballast);
    Reckoning {
        lengths: sums.lengths,
        gross,
        net,
        needs_mark,
        deductions_pass: gross < deductions,
    }
}

// G and the excess of the hatchways over its half percent.
#[tactic(auto, unfolding(crate::specs::Gross::gross_over, measure::specs::Allowances::hatchway_excess))]
fn gross_over(g: u64, hatchways: u64) -> u64
    requires { (g ≤ most_sum) × (hatchways ≤ most_sum) }
    ensures { (result ≡ gross_over g hatchways) × (result ≤ 2 * most_sum) }
{
    g + hatchway_excess(g, hatchways)
}
