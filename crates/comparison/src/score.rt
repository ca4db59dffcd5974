// How many answers agree with the expected ones, of those that were compared. The counts stop at the largest of their type.
ghost use Rattle.std.specs.Prelude.{◌≡◌, ◌++◌, Some, codes, decimal, IsTrue, ◌↔◌};
ghost use Rattle.comparison.specs.Scores.{no_answers, counted, gathered};

use std::fmt;

#[derive(Clone, Copy, Debug, PartialEq, Eq)]
pub struct Score {
    pub agree: u32,
    pub compared: u32,
}

impl Score {
    pub fn new() -> Score
        ensures { result ≡ no_answers }
    {
        Score {
            agree: 0,
            compared: 0,
        }
    }

    // Counts one answer.
    pub fn note(&mut self, agrees: bool)
        ensures { self.new ≡ counted self.old agrees }
    {
        self.compared = self.compared.saturating_add(1);
        if agrees {
            self.agree = self.agree.saturating_add(1);
        }
    }

    // Counts what another score has counted.
    pub fn gather(&mut self, other: Score)
        ensures { self.new ≡ gathered self.old other }
    {
        self.agree = self.agree.saturating_add(other.agree);
        self.compared = self.compared.saturating_add(other.compared);
    }

    // Whether all agree.
    pub fn is_whole(self) -> bool
        ensures { IsTrue result ↔ (self.agree ≡ self.compared) }
    {
        self.agree == self.compared
    }
}

impl fmt::Display for Score {
    ghost output = { λ s. Some (decimal s.agree ++ (codes " of " ++ (decimal s.compared ++ codes " agree"))) };

    fn fmt<W: fmt::Write>(&self, f: &mut fmt::Formatter<W>) -> fmt::Result {
        write!(f, "{} of {} agree", self.agree, self.compared)
    }
}
