// Grains and lifts, by the unit roundoff u = 2^-53.
ghost use Rattle.std.specs.Prelude.{◌≡◌, ◌≤◌};
ghost use Rattle.arithmetic.specs.Meaning.{Number};
ghost use Rattle.arithmetic.specs.Operations.{grain as grain_of, lift as lifted};
ghost use Rattle.arithmetic.specs.Setting.{valued, Gives};
ghost use Rattle.binary64.specs.Patterns.{meaning};
ghost use Rattle.binary64.specs.Doubles.{units};

use crate::double::Double;
use crate::exact::zero;
use crate::limits::{in_range, is_zero};
use crate::steps;

// The grain k u, which is exact.
#[tactic(auto, using(crate::proofs::GrainFloats::grains, crate::proofs::Numbers::numbers))]
pub(crate) fn grain(k: u8) -> Double
    requires few { k ≤ 192 }
    ensures answer { units result ≡ grain_of meaning k }
    ensures number { Number meaning (units result) }
{
    Double { x: steps::grain(k) }
}

// a lifted by k: a / (1 - k u), rounded once, since 1 - k u is exact.
#[tactic(auto, using(crate::proofs::LiftFloats::lifts, crate::proofs::Numbers::numbers))]
pub(crate) fn lift(a: Double, k: u8) -> Option<Double>
    requires few { k ≤ 192 }
    ensures answer { valued units result ≡ lifted meaning (units a) k }
    ensures number { Gives meaning units result }
{
    let x = steps::quotient(a.x, k);
    if in_range(x) {
        return Some(Double { x });
    }
    if is_zero(a.x) {
        return Some(zero());
    }
    None
}
