// What is exact on the numbers: zero, one, the absolute value, the negative, and comparisons.
ghost use Rattle.std.specs.Prelude.{◌≡◌, pos, neg_ℤ, int_le};
ghost use Rattle.arithmetic.specs.Meaning.{Number};
ghost use Rattle.arithmetic.specs.Operations.{in_limits, size as size_of};
ghost use Rattle.binary64.specs.Patterns.{meaning};
ghost use Rattle.binary64.specs.Doubles.{units};

use crate::double::Double;
use crate::limits::{SIGN, in_range, is_zero};

#[tactic(auto, using(crate::proofs::BitTests::finite_bits, crate::specs::Written::nil_value, crate::proofs::Numbers::numbers))]
pub(crate) fn zero() -> Double
    ensures answer { units result ≡ pos 0 }
    ensures number { Number meaning (units result) }
{
    Double { x: 0.0 }
}

#[tactic(auto, using(crate::proofs::BitTests::finite_bits, crate::proofs::Numbers::one_value, crate::proofs::Numbers::numbers))]
pub(crate) fn one() -> Double
    ensures answer { units result ≡ pos meaning.Q }
    ensures number { Number meaning (units result) }
{
    Double { x: 1.0 }
}

// The absolute value: the sign's bit is cleared.
#[tactic(auto, using(crate::proofs::BitTests::finite_bits, crate::proofs::Signs::sizes, crate::proofs::Numbers::numbers))]
pub(crate) fn size(a: Double) -> Double
    ensures answer { units result ≡ size_of (units a) }
    ensures number { Number meaning (units result) }
{
    Double {
        x: f64::from_bits(a.x.to_bits() % SIGN),
    }
}

#[tactic(auto, using(crate::proofs::Signs::negatives, crate::proofs::Numbers::numbers))]
pub(crate) fn negative(a: Double) -> Double
    ensures answer { units result ≡ neg_ℤ (units a) }
    ensures number { Number meaning (units result) }
{
    Double { x: -a.x }
}

// Whether a is at most b.
#[tactic(auto, using(crate::proofs::Comparisons::le_is))]
pub(crate) fn at_most(a: Double, b: Double) -> bool
    ensures { result ≡ int_le (units a) (units b) }
{
    a.x <= b.x
}

// Whether a is zero, or from 2^-900 to 2^900 in size.
#[tactic(auto, using(crate::proofs::Comparisons::limits, crate::proofs::Numbers::numbers))]
pub(crate) fn is_in_limits(a: Double) -> bool
    ensures { result ≡ in_limits meaning (units a) }
{
    in_range(a.x) || is_zero(a.x)
}
