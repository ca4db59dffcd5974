// Why eight bytes are no number of an arithmetic.
ghost use Rattle.std.specs.Prelude.{◌≡◌};
ghost use Rattle.arithmetic.specs.Causes.{cause_number};

#[derive(Clone, Copy, PartialEq, Eq, Debug)]
pub enum Cause {
    // an infinity or a NaN
    NotFinite = 1,
    // a number of the format whose size is above the arithmetic's upper limit
    TooLarge = 2,
    // a second way to write a number that has one form
    NotInOneForm = 3,
}

impl Cause {
    // The number of a cause.
    pub fn number(self) -> u8
        ensures { result ≡ cause_number self }
    {
        self as u8
    }
}
