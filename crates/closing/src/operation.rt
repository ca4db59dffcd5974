// The operations of closing an order, each of which may leave its range.
ghost use Rattle.std.specs.Prelude.{◌≡◌};
ghost use Rattle.closing.specs.Operations.{closing_number};

// The six operations that close an order with the cell S, C and E, where n zeros are held.
#[derive(Clone, Copy, PartialEq, Eq, Debug)]
pub enum ClosingOperation {
    // v and c: S + C, with its error part
    ValueSplit = 1,
    // γ: the grain 2(n − 1) lifted by 2(n − 1)
    Gamma = 2,
    // γ E
    GammaProduct = 3,
    // that lifted by 3n
    LiftedProduct = 4,
    // the size of c, and the last, added
    BoundSum = 5,
    // the bound: that sum lifted by 2
    Bound = 6,
}

impl ClosingOperation {
    // The number of an operation, from 1 to 6.
    pub fn number(self) -> u8
        ensures { result ≡ closing_number self }
    {
        self as u8
    }
}
