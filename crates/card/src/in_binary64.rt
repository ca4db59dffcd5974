// A card in binary64: the zeros 1, 2 and 3, with some claims on the coefficient of order 1.
ghost use Rattle.std.specs.Float.{NotNan};

use calls::call::Call;
use patterns::Pattern;

// 2^900, the largest number. (`refusals` has it too; `binary64` keeps it by its bits, and a float of it there would be a third form.)
const LARGEST: f64 = 8.452712498170644e270;

// Adds a zero.
fn add(zero: f64) -> Call
    requires { NotNan zero }
{
    Call::Add(Pattern::of_binary64(zero))
}

// Examines a claim on an order.
fn examine(order: u8, claim: f64, tolerance: f64) -> Call
    requires claim { NotNan claim }
    requires tolerance { NotNan tolerance }
{
    Call::Examine {
        order,
        claim: Pattern::of_binary64(claim),
        tolerance: Pattern::of_binary64(tolerance),
    }
}

// The calls of the card, for a bench of highest order 3.
pub fn one_two_three() -> [Call; 14] {
    [
        add(1.0),
        add(2.0),
        add(3.0),
        Call::Ask(0),
        Call::Ask(1),
        Call::Ask(2),
        Call::Ask(3),
        examine(1, -6.0, 0.5),
        examine(1, -5.0, 0.5),
        examine(1, -6.5, 0.5),
        // a tolerance below 0
        examine(1, -6.0, -1.0),
        // the product of 2^900 and 11 leaves the range
        add(LARGEST),
        // the row's highest order is 3
        Call::Ask(4),
        Call::Clear,
    ]
}
