// The cell of one order, and the operations by which an addition makes it anew.
ghost use Rattle.std.specs.Prelude.{◌≡◌};
ghost use Rattle.row.specs.Operations.{operation_number};

// Three plain values, without an invariant, as a row keeps them; or the three numbers that they read as.
#[derive(Clone, Copy)]
pub struct Cell<T> {
    // the rounded sum S
    pub sum: T,
    // the correction C of its rounding errors
    pub correction: T,
    // the sum E of the sizes of what the corrections added
    pub errors: T,
}

// The nine operations that make the cell of order j from the zero x and the old cells j and j − 1 (S₀, C₀ and E₀ are those of
// cell j − 1).
#[derive(Clone, Copy, PartialEq, Eq, Debug)]
pub enum Operation {
    // p and β: x S₀, with its error part
    ProductSplit = 1,
    // S′ and σ: S + p, with its error part
    SumSplit = 2,
    // w: β + σ, the rounding error of the new sum
    LocalError = 3,
    // g: C + w
    CorrectionSum = 4,
    // h: x C₀
    CorrectionProduct = 5,
    // C′: g + h
    Correction = 6,
    // f: E + |w|
    ErrorsSum = 7,
    // t: |x| E₀
    ErrorsProduct = 8,
    // E′: f + t
    Errors = 9,
}

impl Operation {
    // The number of an operation, from 1 to 9.
    pub fn number(self) -> u8
        ensures { result ≡ operation_number self }
    {
        self as u8
    }
}

// The first operation of an addition that left its range, and the order at which it did.
#[derive(Clone, Copy, PartialEq, Eq, Debug)]
pub struct OutOfRange {
    pub order: usize,
    pub operation: Operation,
}
