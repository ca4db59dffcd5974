// Cards in decimal, with eight digits and with four. A number M × 10^e is given as (M, e), with as many digits in M.
use calls::call::Call;
use patterns::Pattern;

const ZERO: (i32, i16) = (0, 0);

fn pattern((m, e): (i32, i16)) -> Pattern {
    Pattern::of_decimal(m, e)
}

// Adds a zero.
fn add(zero: (i32, i16)) -> Call {
    Call::Add(pattern(zero))
}

// Examines a claim on an order.
fn examine(order: u8, claim: (i32, i16), tolerance: (i32, i16)) -> Call {
    Call::Examine {
        order,
        claim: pattern(claim),
        tolerance: pattern(tolerance),
    }
}

// With eight digits the zeros 1, 2 and 3, for a bench of highest order 3. Binary64 answers the same coefficients with bounds of 0, so both
// bounds together leave no room for a difference.
pub fn one_two_three() -> [Call; 7] {
    [
        add((10_000_000, -7)),
        add((20_000_000, -7)),
        add((30_000_000, -7)),
        Call::Ask(0),
        Call::Ask(1),
        Call::Ask(2),
        Call::Ask(3),
    ]
}

// With eight digits the zero 1.0000001 twice, for a bench of highest order 2, and claims on the coefficient of order 2.
pub fn square() -> [Call; 6] {
    [
        add((10_000_001, -7)),
        add((10_000_001, -7)),
        Call::Ask(2),
        // 1.0000002, which it is rounded to, with no tolerance and with 2 × 10^-14
        examine(2, (10_000_002, -7), ZERO),
        examine(2, (10_000_002, -7), (20_000_000, -21)),
        // 1.0000003 with no tolerance
        examine(2, (10_000_003, -7), ZERO),
    ]
}

// With eight digits the zeros 10^10, 45, 45, -10^10 and 1.2345678, for a bench of highest order 5, where 10^10 cancels in order 1.
pub fn cancelled() -> [Call; 6] {
    [
        add((10_000_000, 3)),
        add((45_000_000, -6)),
        add((45_000_000, -6)),
        add((-10_000_000, 3)),
        add((12_345_678, -7)),
        Call::Ask(1),
    ]
}

// With four digits the zeros 1.234, 5.678 and 9.012, for a bench of highest order 3, and claims on the coefficient of order 1. That is -15.924,
// of which four digits hold -15.92; the bound says what is lost.
pub fn four_digits() -> [Call; 9] {
    [
        add((1_234, -3)),
        add((5_678, -3)),
        add((9_012, -3)),
        Call::Ask(1),
        Call::Ask(2),
        Call::Ask(3),
        // -15.92 with no tolerance and with 0.01
        examine(1, (-1_592, -2), ZERO),
        examine(1, (-1_592, -2), (1_000, -5)),
        // -15.93 with no tolerance
        examine(1, (-1_593, -2), ZERO),
    ]
}

// With eight digits the same zeros, for a bench of highest order 3, and order 1.
pub fn eight_digits() -> [Call; 4] {
    [
        add((12_340_000, -7)),
        add((56_780_000, -7)),
        add((90_120_000, -7)),
        Call::Ask(1),
    ]
}
