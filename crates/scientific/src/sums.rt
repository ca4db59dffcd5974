// Sums, refused above 10^40.
ghost use Rattle.std.specs.Prelude.{◌≡◌, ◌+◌, ◌^◌, ◌<◌, ◌≤◌, ◌+ℤ◌, unsigned_abs};
ghost use Rattle.arithmetic.specs.Meaning.{Number};
ghost use Rattle.arithmetic.specs.Operations.{sum_split};
ghost use Rattle.arithmetic.specs.Setting.{split_valued, GivesBoth};
ghost use Rattle.scientific.specs.Forms.{with_zeros};
ghost use Rattle.scientific.specs.Numbers.{units};
ghost use Rattle.scientific.specs.Patterns.{meaning};

use crate::number::Scientific;
use crate::precision::Precision;
use crate::rounded::split_form;
use crate::tables::power;

// By more zeros than these one number leaves another as it is. Zero has no zeros behind it, so it is never the first of two such.
const FAR: u8 = 10;

// The rounded sum and its error part.
#[inline(always)]
#[tactic(auto, using(crate::proofs::Meanings::split_turned))]
pub fn split_sum(a: Scientific, b: Scientific, p: Precision) -> Option<(Scientific, Scientific)>
    requires left { Number (meaning p.digits) (units a) }
    requires right { Number (meaning p.digits) (units b) }
    ensures answer { split_valued units result ≡ sum_split (meaning p.digits) (units a) (units b) }
    ensures number { GivesBoth (meaning p.digits) units result }
{
    if a.zeros < b.zeros {
        ordered_split(b, a, p)
    } else {
        ordered_split(a, b, p)
    }
}

// The rounded sum of two numbers and its error part, the first number with no fewer zeros.
#[inline(always)]
#[tactic(auto, using(crate::proofs::SumResults::far_answer, crate::proofs::SumResults::near_answer, crate::proofs::SumResults::near_part, crate::proofs::SumResults::near_numbers))]
fn ordered_split(
    coarse: Scientific,
    fine: Scientific,
    p: Precision,
) -> Option<(Scientific, Scientific)>
    requires left { Number (meaning p.digits) (units coarse) }
    requires right { Number (meaning p.digits) (units fine) }
    requires order { fine.zeros ≤ coarse.zeros }
    ensures answer { split_valued units result ≡ sum_split (meaning p.digits) (units coarse) (units fine) }
    ensures number { GivesBoth (meaning p.digits) units result }
{
    let gap = coarse.zeros - fine.zeros;
    if gap > FAR {
        return Some((coarse, fine));
    }
    split_form(exact_sum(coarse, fine, gap), fine.zeros as u32, p)
}

// The exact sum of two numbers, without the zeros of the second; the first has `gap` more, at most ten.
#[inline(always)]
#[tactic(auto, using(crate::proofs::SumResults::near_sum, crate::proofs::Casts::short))]
fn exact_sum(coarse: Scientific, fine: Scientific, gap: u8) -> i64
    requires apart { gap + fine.zeros ≡ coarse.zeros }
    requires near { gap ≤ 10 }
    ensures value { with_zeros result fine.zeros ≡ units coarse +ℤ units fine }
    ensures small { unsigned_abs result < 2 ^ 62 }
{
    shifted(coarse, gap) + fine.significand as i64
}

// The significand with so many zeros behind it.
#[inline(always)]
#[tactic(auto, using(crate::proofs::SumResults::product_fits, crate::proofs::SumResults::product_is, crate::proofs::SumResults::product_small))]
fn shifted(a: Scientific, gap: u8) -> i64
    requires { gap ≤ 10 }
    ensures value { result ≡ with_zeros a.significand gap }
    ensures small { unsigned_abs result ≤ 10 ^ 18 }
{
    a.significand as i64 * power(gap as u32) as i64
}
