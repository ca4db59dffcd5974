// Whole numbers with zeros behind them, rounded and put into the one form.
ghost use Rattle.std.specs.Prelude.{◌^◌, ◌<◌, ◌≤◌, unsigned_abs};
ghost use Rattle.rounding.specs.Digits.{Number};
ghost use Rattle.scientific.specs.Forms.{with_zeros};
ghost use Rattle.scientific.specs.Splits.{SplitFormed, error};

use crate::exact::zero;
use crate::forms::{exact_form, formed};
use crate::nearest::round_fraction;
use crate::number::Scientific;
use crate::precision::Precision;
use crate::tables::power;

// n with zeros behind it, rounded, and its error part, which has to be a number; none where the former is above 10^40. The latter is
// no larger, so it is then a number too.
#[inline(always)]
pub fn split_form(n: i64, zeros: u32, p: Precision) -> Option<(Scientific, Scientific)>
    requires near { zeros ≤ 500 }
    requires small { unsigned_abs n < 2 ^ 62 }
    requires part { Number 10 p.digits (error p.digits (with_zeros n zeros)) }
    ensures { SplitFormed p.digits (with_zeros n zeros) result }
{
    let r = round_fraction(n, 1, p);
    let main = formed(r.significand, r.zeros + zeros)?;
    let error = exact_form(n - r.significand * power(r.zeros) as i64, zeros).unwrap_or(zero());
    Some((main, error))
}
