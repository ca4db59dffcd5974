// Sums, refused above 2^900.
ghost use Rattle.std.specs.Prelude.{◌≡◌};
ghost use Rattle.arithmetic.specs.Operations.{sum_split};
ghost use Rattle.arithmetic.specs.Setting.{split_valued, GivesBoth};
ghost use Rattle.binary64.specs.Patterns.{meaning};
ghost use Rattle.binary64.specs.Doubles.{units};

use crate::double::Double;
use crate::limits::at_most_high;
use crate::steps::two_sum;

// The rounded sum and its error part.
#[tactic(auto, using(crate::proofs::SumFloats::sums, crate::proofs::Numbers::numbers))]
pub(crate) fn split_sum(a: Double, b: Double) -> Option<(Double, Double)>
    ensures answer { split_valued units result ≡ sum_split meaning (units a) (units b) }
    ensures number { GivesBoth meaning units result }
{
    let (x, y) = two_sum(a.x, b.x);
    if !at_most_high(x) {
        return None;
    }
    Some((Double { x }, Double { x: y }))
}
