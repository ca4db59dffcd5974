// The one form of a number.
ghost use Rattle.std.specs.Prelude.{◌≡◌, ◌<◌, ◌≤◌, true, nat_le, unsigned_abs};
ghost use Rattle.rounding.specs.Digits.{Digits};
ghost use Rattle.scientific.specs.Forms.{with_zeros, is_full, lowest};
ghost use Rattle.scientific.specs.Numbers.{units, Formed};

use crate::number::{LEAST_SIGNIFICAND, Scientific};
use crate::tables::{digits, power};

// The most zeros behind a significand of eight digits: 10^7 with 103 zeros are 10^110 units.
const MOST_ZEROS: u32 = 103;

// The fewest zeros of a number that is not below 10^-40 in size: 10^7 with 23 zeros are 10^30 units.
const LEAST_ZEROS: u8 = 23;

// At most eight digits, followed by zeros within n or behind it, as a number; none above 10^40.
#[inline(always)]
#[tactic(auto, using(crate::proofs::FormResults::taken_fits, crate::proofs::FormResults::taken_narrow))]
pub fn exact_form(n: i64, zeros: u32) -> Option<Scientific>
    requires short { Digits 10 8 (unsigned_abs n) }
    requires few { zeros ≤ 600 }
    ensures { Formed (with_zeros n zeros) result }
{
    if n == 0 {
        return not_above(0, 0);
    }
    let count = digits(n.unsigned_abs());
    if count > 8 {
        let excess = count - 8;
        #[tactic(auto, using(crate::proofs::Casts::power_fits, crate::proofs::Tens::some_ten, crate::proofs::FormResults::cut_fits, crate::proofs::FormResults::cut_narrow, crate::proofs::FormResults::cut_full, crate::proofs::FormResults::cut_same))]
        return not_above((n / power(excess) as i64) as i32, zeros + excess);
    }
    let room = zeros.min(8 - count);
    not_above((n * power(room) as i64) as i32, zeros - room)
}

// The same, for what mostly has the one form already, so that its digits need not be counted.
#[inline(always)]
pub fn formed(n: i64, zeros: u32) -> Option<Scientific>
    requires short { Digits 10 8 (unsigned_abs n) }
    requires few { zeros ≤ 600 }
    ensures { Formed (with_zeros n zeros) result }
{
    let size = n.unsigned_abs();
    if size < 100_000_000 && (zeros == 0 || size >= 10_000_000) {
        return not_above(n as i32, zeros);
    }
    exact_form(n, zeros)
}

// A significand and zeros in the one form, as a number; none above 10^40.
#[tactic(auto, using(crate::proofs::Limits::over_by_zeros, crate::proofs::Limits::over_by_size, crate::proofs::Limits::small_by_zeros, crate::proofs::Limits::small_by_size))]
fn not_above(significand: i32, zeros: u32) -> Option<Scientific>
    requires { is_full (unsigned_abs significand) zeros ≡ true }
    ensures { Formed (with_zeros significand zeros) result }
{
    if zeros > MOST_ZEROS
        || (zeros == MOST_ZEROS && significand.unsigned_abs() > LEAST_SIGNIFICAND)
    {
        return None;
    }
    Some(Scientific {
        significand,
        zeros: zeros as u8,
    })
}

// Is the number at least 10^-40 in size?
#[tactic(auto, using(crate::proofs::ExactNumbers::lowest_by_zeros))]
pub fn not_below(x: Scientific) -> bool
    ensures { result ≡ nat_le lowest (unsigned_abs (units x)) }
{
    LEAST_ZEROS <= x.zeros
}
