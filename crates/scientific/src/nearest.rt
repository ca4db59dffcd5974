// Rounding to so many digits: to nearest, ties to the even significand.
ghost use Rattle.std.specs.Prelude.{◌≡◌, ◌*◌, ◌/◌, ◌^◌, ◌<◌, ◌≤◌, unsigned_abs};
ghost use Rattle.rounding.specs.Radix.{nearest as nearest_whole, rounding};
ghost use Rattle.scientific.specs.Forms.{with_zeros};

use crate::precision::Precision;
use crate::tables::{digits, divided, power};

// What was rounded to d digits: a significand with zeros behind it. Rounding up may give the significand 10^d.
#[derive(Clone, Copy)]
pub(crate) struct Rounded {
    pub(crate) significand: i64,
    pub(crate) zeros: u32,
}

// n / divisor rounded to as many digits as p has. There are as many zeros as its whole part has digits past those.
#[tactic(auto, using(crate::proofs::Tens::some_ten, crate::proofs::Tens::at_most_eight, crate::proofs::Counted::fits_64, crate::proofs::Counted::zeros_15, crate::proofs::Counted::short_size, crate::proofs::Counted::with_zeros_is, crate::proofs::Counted::rounding_plus, crate::proofs::Counted::rounding_minus, crate::proofs::Counted::minus_with))]
pub fn round_fraction(n: i64, divisor: u64, p: Precision) -> Rounded
    requires some { 0 < divisor }
    requires small { unsigned_abs n < 2 ^ 62 }
    ensures value { with_zeros result.significand result.zeros ≡ rounding 10 p.digits 1 n divisor }
    ensures short { unsigned_abs result.significand ≤ 10 ^ p.digits }
    ensures few { result.zeros ≤ 15 }
{
    let size = n.unsigned_abs();
    let zeros = digits(size / divisor).saturating_sub(p.digits as u32);
    let whole = divisor * power(zeros);
    let significand = nearest(size, whole, quotient_of(size, divisor, zeros)) as i64;
    Rounded {
        significand: if n < 0 { -significand } else { significand },
        zeros,
    }
}

// n / divisor without as many digits as there are zeros; by a product where nothing else is divided by.
#[inline(always)]
#[tactic(auto, using(crate::proofs::Tens::some_ten))]
fn quotient_of(n: u64, divisor: u64, zeros: u32) -> u64
    requires some { 0 < divisor }
    requires small { n < 2 ^ 62 }
    requires few { zeros ≤ 15 }
    requires fits { divisor * 10 ^ zeros < 2 ^ 64 }
    ensures { result ≡ n / (divisor * 10 ^ zeros) }
{
    if divisor == 1 {
        divided(n, zeros)
    } else {
        n / (divisor * power(zeros))
    }
}

// The whole number nearest to n / divisor, whose quotient is given; the even one of two at a tie.
#[inline(always)]
#[tactic(auto, using(crate::proofs::Counted::nearest_by_rest))]
fn nearest(n: u64, divisor: u64, quotient: u64) -> u64
    requires some { 0 < divisor }
    requires quotient { quotient ≡ n / divisor }
    ensures { result ≡ nearest_whole n divisor }
{
    let rest = n - quotient * divisor;
    let missing = divisor - rest;
    if missing < rest || (missing == rest && quotient % 2 == 1) {
        quotient + 1
    } else {
        quotient
    }
}
