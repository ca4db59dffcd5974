// What an operation answers, refused or not: answers of all kinds are shown and compared alike, so it is no `Result`.
ghost use Rattle.std.specs.Prelude.{Some};
ghost use Rattle.operations.specs.Texts.{answer_text};

use arithmetic::cause::Cause;
use patterns::Pattern;
use std::fmt;

#[derive(Clone, Copy, PartialEq, Eq, Debug)]
pub enum Answer {
    Number(Pattern),
    // a rounded result and its error part
    Split(Pattern, Pattern),
    Truth(bool),
    Refused,
    // the first operand that is no number is none for this cause
    NotAdmitted(Cause),
    // numbers are lifted by 0 to 192 alone
    NotLifted,
}

impl fmt::Display for Answer {
    ghost output = { λ a. Some (answer_text a) };

    fn fmt<W: fmt::Write>(&self, f: &mut fmt::Formatter<W>) -> fmt::Result {
        match self {
            Answer::Number(number) => write!(f, "{number}"),
            Answer::Split(main, error) => write!(f, "{main} {error}"),
            Answer::Truth(true) => write!(f, "yes"),
            Answer::Truth(false) => write!(f, "no"),
            Answer::Refused => write!(f, "-"),
            Answer::NotAdmitted(cause) => write!(f, "!{}", cause.number()),
            Answer::NotLifted => write!(f, "not lifted"),
        }
    }
}
