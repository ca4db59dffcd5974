// Products, refused outside the limits unless a factor is zero. The range is tested first: only where it fails is a zero factor looked for.
ghost use Rattle.std.specs.Prelude.{◌≡◌};
ghost use Rattle.arithmetic.specs.Operations.{product_split};
ghost use Rattle.arithmetic.specs.Setting.{split_valued, GivesBoth};
ghost use Rattle.binary64.specs.Patterns.{meaning};
ghost use Rattle.binary64.specs.Doubles.{units};

use crate::double::Double;
use crate::exact::zero;
use crate::limits::{in_range, one_zero};
use crate::steps::product_error;

// The rounded product and its error part, which is computed only where the product is in range.
#[tactic(auto, using(crate::proofs::ProductFloats::products, crate::proofs::Numbers::numbers))]
pub(crate) fn split_product(a: Double, b: Double) -> Option<(Double, Double)>
    ensures answer { split_valued units result ≡ product_split meaning (units a) (units b) }
    ensures number { GivesBoth meaning units result }
{
    let x = a.x * b.x;
    if in_range(x) {
        let y = product_error(a.x, b.x, x);
        return Some((Double { x }, Double { x: y }));
    }
    if one_zero(a.x, b.x) {
        return Some((Double { x }, zero()));
    }
    None
}
