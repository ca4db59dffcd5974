// Products, refused outside the limits unless a factor is zero.
ghost use Rattle.std.specs.Prelude.{◌≡◌, ◌^◌, ◌<◌, ◌≤◌, ◌*ℤ◌, unsigned_abs};
ghost use Rattle.arithmetic.specs.Meaning.{Number};
ghost use Rattle.arithmetic.specs.Operations.{product_split};
ghost use Rattle.arithmetic.specs.Setting.{split_valued, GivesBoth};
ghost use Rattle.rounding.specs.Digits.{Number as Digits};
ghost use Rattle.scientific.specs.Forms.{with_zeros};
ghost use Rattle.scientific.specs.Numbers.{units};
ghost use Rattle.scientific.specs.Patterns.{meaning};
ghost use Rattle.scientific.specs.Splits.{SplitInLimits, error};

use crate::exact::zero;
use crate::forms::not_below;
use crate::number::{Scientific, ZEROS_OF_ONE};
use crate::precision::Precision;
use crate::rounded::split_form;

// The rounded product and its error part. A product of so few zeros that it is no whole number of units is below the lower
// limit.
#[inline(always)]
#[tactic(auto, using(crate::proofs::ProductResults::zero_answer, crate::proofs::ProductResults::tiny_answer, crate::proofs::ProductResults::part_digits, crate::proofs::ProductResults::answer, crate::proofs::ProductResults::answer_numbers))]
pub fn split_product(a: Scientific, b: Scientific, p: Precision) -> Option<(Scientific, Scientific)>
    requires left { Number (meaning p.digits) (units a) }
    requires right { Number (meaning p.digits) (units b) }
    ensures answer { split_valued units result ≡ product_split (meaning p.digits) (units a) (units b) }
    ensures number { GivesBoth (meaning p.digits) units result }
{
    let n = significands(a, b);
    if n == 0 {
        return Some((zero(), zero()));
    }
    // those of both factors, less those of 1
    let zeros = (a.zeros as u32 + b.zeros as u32).checked_sub(ZEROS_OF_ONE)?;
    split_in_limits(n, zeros, p)
}

// n with zeros behind it, rounded, and its error part, which has to be a number; none where the former is out of the limits.
#[inline(always)]
fn split_in_limits(n: i64, zeros: u32, p: Precision) -> Option<(Scientific, Scientific)>
    requires near { zeros ≤ 500 }
    requires small { unsigned_abs n < 2 ^ 62 }
    requires part { Digits 10 p.digits (error p.digits (with_zeros n zeros)) }
    ensures { SplitInLimits p.digits (with_zeros n zeros) result }
{
    let (main, error) = split_form(n, zeros, p)?;
    if not_below(main) {
        Some((main, error))
    } else {
        None
    }
}

// The product of the significands.
#[inline(always)]
#[tactic(auto, using(crate::proofs::ProductResults::short_significands))]
fn significands(a: Scientific, b: Scientific) -> i64
    ensures value { result ≡ a.significand *ℤ b.significand }
    ensures small { unsigned_abs result < 2 ^ 62 }
{
    a.significand as i64 * b.significand as i64
}
