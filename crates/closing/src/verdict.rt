// The verdict on a claim, and the operations that come before it.
ghost use Rattle.std.specs.Prelude.{◌≡◌, ◌≤◌, Some, length};
ghost use Rattle.closing.specs.Operations.{judging_number};
ghost use Rattle.closing.specs.Words.{verdict_word};

use std::fmt;

#[derive(Clone, Copy, PartialEq, Eq, Debug)]
pub enum Verdict {
    // within the tolerance of the exact coefficient
    Right,
    // further from it than the tolerance
    Wrong,
    // not decided
    Open,
}

impl Verdict {
    // The word that it is shown by.
    pub fn word(self) -> &'static str
        ensures word { result.now ≡ verdict_word self }
        ensures short { length result.now ≤ 5 }
    {
        match self {
            Verdict::Right => "right",
            Verdict::Wrong => "wrong",
            Verdict::Open => "open",
        }
    }
}

impl fmt::Display for Verdict {
    ghost output = { λ v. Some (verdict_word v) };

    fn fmt<W: fmt::Write>(&self, f: &mut fmt::Formatter<W>) -> fmt::Result {
        f.write_str(self.word())
    }
}

// The five operations of judging, for a claim on a value with the bound b, and the tolerance T.
#[derive(Clone, Copy, PartialEq, Eq, Debug)]
pub enum JudgingOperation {
    // the claim less the value, whose size is d
    Difference = 1,
    // d + b
    NearSum = 2,
    // near: that sum lifted by 3
    Near = 3,
    // T + b
    FarSum = 4,
    // far: that sum lifted by 3
    Far = 5,
}

impl JudgingOperation {
    // The number of an operation, from 1 to 5.
    pub fn number(self) -> u8
        ensures { result ≡ judging_number self }
    {
        self as u8
    }
}
