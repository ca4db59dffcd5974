// Tests of size. Without the sign, the bits of floats are in the order of their sizes, so a limit is one comparison of whole numbers.
ghost use Rattle.std.specs.Prelude.{◌≡◌, true, false, not, T, ◌⊎◌, ◌≢◌, is_nan};
ghost use Rattle.std.specs.Float.{binary64};
ghost use Rattle.std.specs.Float.Ieee.Scale.{finite};
ghost use Rattle.rounding.specs.Value.{magnitude};
ghost use Rattle.binary64.specs.Limits.{Small, InRange};

// the bits of 2^-900 and of 2^900
pub(crate) const LOW_BITS: u64 = 0x07b0_0000_0000_0000;

pub(crate) const HIGH_BITS: u64 = 0x7830_0000_0000_0000;
// the weight of the sign
pub(crate) const SIGN: u64 = 0x8000_0000_0000_0000;

// Whether x, which is no NaN, is finite and at most 2^900 in size.
#[tactic(auto, using(crate::specs::BitLimits::high_in, crate::specs::BitLimits::high_out))]
pub(crate) fn at_most_high(x: f64) -> bool
    requires { T (not (is_nan x)) }
    ensures yes { result ≡ true → (finite x ≡ true) × Small x }
    ensures no { result ≡ false → finite x ≡ true → Small x → ⊥ }
{
    x.to_bits() % SIGN <= HIGH_BITS
}

// Whether x, which is no NaN, is from 2^-900 to 2^900 in size.
#[tactic(auto, using(crate::specs::BitLimits::range_once_in, crate::specs::BitLimits::range_once_out))]
pub(crate) fn in_range(x: f64) -> bool
    requires { T (not (is_nan x)) }
    ensures yes { result ≡ true → InRange x }
    ensures no { result ≡ false → InRange x → ⊥ }
{
    (x.to_bits() % SIGN).wrapping_sub(LOW_BITS) <= HIGH_BITS - LOW_BITS
}

// Whether a finite x is zero, of either sign.
#[tactic(auto, using(crate::proofs::Comparisons::zero_yes, crate::proofs::Comparisons::zero_no))]
pub(crate) fn is_zero(x: f64) -> bool
    requires { finite x ≡ true }
    ensures yes { result ≡ true → magnitude binary64 x ≡ 0 }
    ensures no { result ≡ false → magnitude binary64 x ≢ 0 }
{
    x == 0.0
}

// Whether one of two finite floats is zero.
pub(crate) fn one_zero(x: f64, y: f64) -> bool
    requires left { finite x ≡ true }
    requires right { finite y ≡ true }
    ensures yes { result ≡ true → (magnitude binary64 x ≡ 0) ⊎ (magnitude binary64 y ≡ 0) }
    ensures left { result ≡ false → magnitude binary64 x ≢ 0 }
    ensures right { result ≡ false → magnitude binary64 y ≢ 0 }
{
    is_zero(x) || is_zero(y)
}
