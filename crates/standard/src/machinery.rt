// The engine room deduction of a vessel with screws (T-06 of document 02; 69.121(e)(2)), in hundredths of a ton.
ghost use Rattle.std.specs.Prelude.{◌≡◌, ◌*◌, ◌≤◌};
ghost use Rattle.spaces.specs.Row.{most_sum};
ghost use Rattle.standard.specs.Machinery.{engine_room_deduction};

use measure::rounding::nearest;

// 69.121(e)(2), in percents of gross: up to which the first class goes,
const FIRST_CLASS: u64 = 13;

// and from which the third begins.
const THIRD_CLASS: u64 = 20;

// The percents of gross that the second class deducts; the first as many thirteenths of the rooms.
const SHARE: u64 = 32;

// 1.75 times the rooms: seven quarters.
const QUARTERS: u64 = 7;

// The deduction from a gross for machinery rooms of so many tons, m.
#[tactic(auto, unfolding(measure::specs::Rounding::nearest), using(crate::proofs::Laws::Machinery::classes))]
pub(crate) fn engine_room_deduction(m: u64, gross: u64) -> u64
    requires { (m ≤ most_sum) × (gross ≤ 2 * most_sum) }
    ensures { (result ≡ engine_room_deduction m gross) × (result ≤ 4 * most_sum) }
{
    let of_rooms = 100 * m;
    if of_rooms <= FIRST_CLASS * gross {
        return nearest(SHARE * m, FIRST_CLASS);
    }
    let of_gross = nearest(SHARE * gross, 100);
    if of_rooms < THIRD_CLASS * gross {
        return of_gross;
    }
    of_gross.max(nearest(QUARTERS * m, 4))
}
