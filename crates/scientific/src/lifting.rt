// Lifts, by the unit roundoff of d digits, u = 1 / (2 × 10^(d-1)).
ghost use Rattle.std.specs.Prelude.{◌≡◌, ◌-◌, ◌*◌, ◌^◌, ◌≤◌, unsigned_abs};
ghost use Rattle.rounding.specs.Digits.{Digits};
ghost use Rattle.arithmetic.specs.Meaning.{Number};
ghost use Rattle.arithmetic.specs.Operations.{lift as lifted};
ghost use Rattle.arithmetic.specs.Setting.{valued, Gives};
ghost use Rattle.scientific.specs.Patterns.{meaning};
ghost use Rattle.scientific.specs.Forms.{with_zeros};
ghost use Rattle.scientific.specs.Numbers.{units, FormedInLimits};

use crate::forms::{formed, not_below};
use crate::nearest::round_fraction;
use crate::number::Scientific;
use crate::precision::Precision;
use crate::tables::power;

// a lifted by k: a / (1 - k u), rounded once. The zeros of a stay behind what its significand is lifted to.
#[tactic(auto, using(crate::proofs::LiftResults::short_eight))]
pub fn lift(a: Scientific, k: u8, p: Precision) -> Option<Scientific>
    requires few { k ≤ 192 }
    requires operand { Number (meaning p.digits) (units a) }
    ensures answer { valued units result ≡ lifted (meaning p.digits) (units a) k }
    ensures number { Gives (meaning p.digits) units result }
{
    if a.significand == 0 {
        #[tactic(auto, using(crate::proofs::LiftResults::zero_answer))]
        return Some(a);
    }
    let whole = roundoffs_in_one(p);
    #[tactic(auto, using(crate::proofs::LiftResults::product_fits, crate::proofs::LiftResults::product_small))]
    let r = round_fraction(a.significand as i64 * whole as i64, whole - k as u64, p);
    in_limits(r.significand, r.zeros + a.zeros as u32)
}

// n with zeros behind it as a number; none where it is out of the limits.
#[inline(always)]
fn in_limits(n: i64, zeros: u32) -> Option<Scientific>
    requires short { Digits 10 8 (unsigned_abs n) }
    requires few { zeros ≤ 600 }
    ensures { FormedInLimits (with_zeros n zeros) result }
{
    let x = formed(n, zeros)?;
    if not_below(x) { Some(x) } else { None }
}

// How many u make 1.
#[tactic(auto, using(crate::proofs::Tens::at_least_1000, crate::proofs::Tens::at_most_10000000))]
fn roundoffs_in_one(p: Precision) -> u64
    ensures value { result ≡ 2 * 10 ^ (p.digits - 1) }
    ensures many { 2000 ≤ result }
    ensures few { result ≤ 20000000 }
{
    2 * power(p.digits as u32 - 1)
}
