// What a call answers, refused or not: answers of both kinds are shown and compared alike, so it is no `Result`; `outcome` is one.
ghost use Rattle.std.specs.Prelude.{◌≡◌, ◌<◌, ◌≤◌, ◌∷◌, ◌++◌, Some, codes, decimal};
ghost use Rattle.arrayvec.specs.ArrayString.{array_string_len};
ghost use Rattle.calls.specs.Lines.{answer_text};
ghost use Rattle.calls.specs.Outcomes.{outcome_of};

use arrayvec::ArrayString;
use bench::refusal::Refusal;
use closing::verdict::Verdict;
use itoa::Buffer;
use patterns::Pattern;
use std::fmt;

#[derive(Clone, Copy, PartialEq, Eq, Debug)]
pub enum Answer {
    // the number of the zero that was added
    Added(u8),
    Asked {
        order: u8,
        value: Pattern,
        bound: Pattern,
    },
    Examined {
        order: u8,
        verdict: Verdict,
    },
    Cleared,
    Refused(Refusal),
}

// A letter for the call, then a count.
fn headed(letter: char, count: u8) -> ArrayString<47>
    requires { letter < 128 }
    ensures text { result.bytes ≡ letter ∷ (codes " " ++ decimal count) }
    ensures short { array_string_len result ≤ 5 }
{
    let mut text = ArrayString::new();
    text.push(letter);
    text.push(' ');
    text.push_str(Buffer::new().format(count));
    text
}

impl Answer {
    // Why the call is refused, if it is.
    pub fn outcome(self) -> Result<(), Refusal>
        ensures { result ≡ outcome_of self }
    {
        match self {
            Answer::Refused(refusal) => Err(refusal),
            _ => Ok(()),
        }
    }

    // A letter for the call, and what it answers.
    pub fn text(&self) -> ArrayString<47>
        ensures { result.bytes ≡ answer_text self.now }
    {
        match self {
            Answer::Added(number) => headed('Z', *number),
            Answer::Asked {
                order,
                value,
                bound,
            } => {
                let mut text = headed('K', *order);
                text.push(' ');
                text.push_str(value.text().as_str());
                text.push(' ');
                text.push_str(bound.text().as_str());
                text
            }
            Answer::Examined { order, verdict } => {
                let mut text = headed('M', *order);
                text.push(' ');
                text.push_str(verdict.word());
                text
            }
            Answer::Cleared => {
                let mut text = ArrayString::new();
                text.push('C');
                text
            }
            Answer::Refused(refusal) => {
                let mut text = ArrayString::new();
                text.push_str("R ");
                text.push_str(refusal.text().as_str());
                text
            }
        }
    }
}

impl fmt::Display for Answer {
    ghost output = { λ a. Some (answer_text a) };

    fn fmt<W: fmt::Write>(&self, f: &mut fmt::Formatter<W>) -> fmt::Result {
        f.write_str(self.text().as_str())
    }
}
