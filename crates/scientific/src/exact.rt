// What is exact on the numbers: zero, one, the absolute value, the negative, comparisons, and the grains.
ghost use Rattle.std.specs.Prelude.{◌≡◌, ℕ, ◌+◌, ◌*◌, ◌^◌, ◌≤◌, pos, neg_ℤ, int_le, int_lt, unsigned_abs};
ghost use Rattle.rounding.specs.Value.{signed};
ghost use Rattle.arithmetic.specs.Meaning.{Number};
ghost use Rattle.arithmetic.specs.Operations.{in_limits, grain as grain_of, size as size_of};
ghost use Rattle.scientific.specs.Numbers.{units};
ghost use Rattle.scientific.specs.Patterns.{meaning};
ghost use Rattle.scientific.specs.declared.precision.Precision.{Precision};

use crate::forms::{exact_form, not_below};
use crate::number::{LEAST_SIGNIFICAND, Scientific, ZEROS_OF_ONE};
use crate::precision::Precision;

#[tactic(auto, using(crate::proofs::ExactNumbers::zero_number))]
pub fn zero() -> Scientific
    ensures answer { units result ≡ pos 0 }
    ensures number { (p : Precision) → Number (meaning p.digits) (units result) }
{
    Scientific {
        significand: 0,
        zeros: 0,
    }
}

// 10^7 with seven zeros fewer than those of one.
#[tactic(auto, using(crate::proofs::ExactNumbers::one_small, crate::proofs::TheRules::one_is))]
pub fn one() -> Scientific
    ensures answer { (d : ℕ) → units result ≡ pos (meaning d).Q }
    ensures number { (p : Precision) → Number (meaning p.digits) (units result) }
{
    Scientific {
        significand: LEAST_SIGNIFICAND as i32,
        zeros: 63,
    }
}

// The absolute value.
#[tactic(auto, using(crate::proofs::ExactNumbers::sign_number))]
pub fn size(a: Scientific) -> Scientific
    ensures answer { units result ≡ size_of (units a) }
    ensures number { (p : Precision) → Number (meaning p.digits) (units a) → Number (meaning p.digits) (units result) }
{
    Scientific {
        significand: a.significand.abs(),
        zeros: a.zeros,
    }
}

#[tactic(auto, using(crate::proofs::ExactNumbers::negative_number))]
pub fn negative(a: Scientific) -> Scientific
    ensures answer { units result ≡ neg_ℤ (units a) }
    ensures number { (p : Precision) → Number (meaning p.digits) (units a) → Number (meaning p.digits) (units result) }
{
    Scientific {
        significand: -a.significand,
        zeros: a.zeros,
    }
}

// A whole number that orders as the numbers do: more zeros are a larger size, since then the significand has all eight digits.
fn rank(a: Scientific) -> i64
    ensures { result ≡ signed (int_lt a.significand (pos 0)) (a.zeros * 10 ^ 8 + unsigned_abs a.significand) }
{
    let size = a.zeros as i64 * 100_000_000 + a.significand.unsigned_abs() as i64;
    if a.significand < 0 { -size } else { size }
}

// Whether a is at most b.
#[tactic(auto, using(crate::proofs::ExactNumbers::order_by_rank))]
pub fn at_most(a: Scientific, b: Scientific) -> bool
    ensures { result ≡ int_le (units a) (units b) }
{
    rank(a) <= rank(b)
}

// Whether a is zero, or from 10^-40 to 10^40 in size: no number is above that.
#[tactic(auto, using(crate::proofs::ExactNumbers::limits_by_lowest))]
pub fn is_in_limits(a: Scientific) -> bool
    ensures { (d : ℕ) → result ≡ in_limits (meaning d) (units a) }
{
    a.significand == 0 || not_below(a)
}

// The grain k u, which is exact: with d digits 5 k × 10^-d, so 5 k with 70 - d zeros behind it.
#[tactic(auto, using(crate::proofs::NumberOf::eight_digits, crate::proofs::GrainNumbers::grain_is, crate::proofs::GrainNumbers::grain_small, crate::proofs::GrainNumbers::grain_unchanged, crate::proofs::GrainNumbers::grain_bounded))]
pub fn grain(k: u8, p: Precision) -> Scientific
    requires { k ≤ 192 }
    ensures answer { units result ≡ grain_of (meaning p.digits) k }
    ensures number { Number (meaning p.digits) (units result) }
{
    exact_form(k as i64 * 5, ZEROS_OF_ONE - p.digits as u32).unwrap()
}
