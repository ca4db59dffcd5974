// The error-free transformations and the lift, step by step.
ghost use Rattle.std.specs.Prelude.{◌≡◌};
ghost use Rattle.std.specs.Float.Ieee.{add};
ghost use Rattle.std.specs.Float.{binary64};
ghost use Rattle.rounding.specs.ErrorFree.{rest, hi, lo, tail};
ghost use Rattle.binary64.specs.Steps.{grain_steps, lift_steps};

// 2^27 + 1
const SPLITTER: f64 = 134217729.0;
// the unit roundoff, 2^-53
const U: f64 = 1.1102230246251565e-16;

// TwoSum: the rounded sum and its error part.
pub(crate) fn two_sum(a: f64, b: f64) -> (f64, f64)
    ensures { (result.0 ≡ add binary64 a b) × (result.1 ≡ rest binary64 a b) }
{
    let s = a + b;
    let z = s - a;
    let y = (a - (s - z)) + (b - z);
    (s, y)
}

// Split: two halves of at most 26 bits each that add up to a.
fn halves(a: f64) -> (f64, f64)
    ensures { (result.0 ≡ hi binary64 a) × (result.1 ≡ lo binary64 a) }
{
    let c = SPLITTER * a;
    let x = c - (c - a);
    let y = a - x;
    (x, y)
}

// The error part of TwoProduct, x being the rounded product.
pub(crate) fn product_error(a: f64, b: f64, x: f64) -> f64
    ensures { result ≡ tail binary64 a b x }
{
    let (a1, a2) = halves(a);
    let (b1, b2) = halves(b);
    a2 * b2 - (((x - a1 * b1) - a2 * b1) - a1 * b2)
}

// k u
pub(crate) fn grain(k: u8) -> f64
    ensures { result ≡ grain_steps k }
{
    k as f64 * U
}

// a / (1 - k u)
pub(crate) fn quotient(a: f64, k: u8) -> f64
    ensures { result ≡ lift_steps a k }
{
    a / (1.0 - grain(k))
}
