// Why a call is refused: the first of its questions that is answered no.
ghost use Rattle.std.specs.Prelude.{◌≡◌, ◌≤◌, ◌+◌, ◌++◌, Some};
ghost use Rattle.arrayvec.specs.ArrayString.{array_string_len};
ghost use Rattle.bench.specs.Refusals.{refusal_number, details_of, detail_text, refusal_text};
ghost use Rattle.bench.specs.declared.refusal.Refusal.TheVariants.{AddingOutOfRange, ClosingOutOfRange, JudgingOutOfRange, NotAdmitted};

use arithmetic::cause::Cause;
use arrayvec::ArrayString;
use closing::operation::ClosingOperation;
use closing::verdict::JudgingOperation;
use itoa::Buffer;
use row::cell::OutOfRange;
use std::fmt;

#[derive(Clone, Copy, PartialEq, Eq, Debug)]
pub enum Refusal {
    // 1: the row has not 2 to 65 cells
    RowLength,
    // 2: a question is out
    QuestionOut,
    // 3: 64 zeros are held
    Full,
    // 4: the zero is neither 0 nor from low to high in size
    ZeroOutOfLimits,
    // 5: an operation of the addition leaves its range
    AddingOutOfRange(OutOfRange),
    // 6: the order is above the row's highest
    OrderAboveRow,
    // 7: the order is above the count of zeros held
    OrderAboveZeros,
    // 8: an operation of the closing leaves its range
    ClosingOutOfRange(ClosingOperation),
    // 9: 32 questions are out
    TooManyOut,
    // 10: the question has another bench number, or none is out
    NotOut,
    // 11: the tolerance is below 0
    ToleranceBelowZero,
    // 12: an operation of the verdict leaves its range
    JudgingOutOfRange(JudgingOperation),
    // 17: eight bytes are no number
    NotAdmitted(Cause),
}

impl From<Cause> for Refusal {
    ghost from_gives = { λ c r. r ≡ NotAdmitted c };

    fn from(cause: Cause) -> Refusal {
        Refusal::NotAdmitted(cause)
    }
}

impl From<OutOfRange> for Refusal {
    ghost from_gives = { λ e r. r ≡ AddingOutOfRange e };

    fn from(at: OutOfRange) -> Refusal {
        Refusal::AddingOutOfRange(at)
    }
}

impl From<ClosingOperation> for Refusal {
    ghost from_gives = { λ o r. r ≡ ClosingOutOfRange o };

    fn from(operation: ClosingOperation) -> Refusal {
        Refusal::ClosingOutOfRange(operation)
    }
}

impl From<JudgingOperation> for Refusal {
    ghost from_gives = { λ o r. r ≡ JudgingOutOfRange o };

    fn from(operation: JudgingOperation) -> Refusal {
        Refusal::JudgingOutOfRange(operation)
    }
}

// The details of a refusal that has some.
#[derive(Clone, Copy, PartialEq, Eq, Debug)]
pub enum Details {
    // the order and the operation at which an addition left its range
    Adding(OutOfRange),
    Closing(ClosingOperation),
    Judging(JudgingOperation),
    Admitting(Cause),
}

impl Refusal {
    // The number of a refusal. (By a match: a variant with fields has no number of its own.)
    pub fn number(self) -> u8
        ensures { result ≡ refusal_number self }
    {
        match self {
            Refusal::RowLength => 1,
            Refusal::QuestionOut => 2,
            Refusal::Full => 3,
            Refusal::ZeroOutOfLimits => 4,
            Refusal::AddingOutOfRange(_) => 5,
            Refusal::OrderAboveRow => 6,
            Refusal::OrderAboveZeros => 7,
            Refusal::ClosingOutOfRange(_) => 8,
            Refusal::TooManyOut => 9,
            Refusal::NotOut => 10,
            Refusal::ToleranceBelowZero => 11,
            Refusal::JudgingOutOfRange(_) => 12,
            Refusal::NotAdmitted(_) => 17,
        }
    }

    // Its details, if it has any.
    pub fn details(self) -> Option<Details>
        ensures { result ≡ details_of self }
    {
        let details = match self {
            Refusal::AddingOutOfRange(at) => Details::Adding(at),
            Refusal::ClosingOutOfRange(operation) => Details::Closing(operation),
            Refusal::JudgingOutOfRange(operation) => Details::Judging(operation),
            Refusal::NotAdmitted(cause) => Details::Admitting(cause),
            _ => return None,
        };
        Some(details)
    }
}

// Appends a detail, after a space.
pub fn push_detail<const CAPACITY: usize>(text: &mut ArrayString<CAPACITY>, detail: usize)
    requires { array_string_len text.old + 21 ≤ CAPACITY }
    ensures detail { text.new.bytes ≡ text.old.bytes ++ detail_text detail }
    ensures room { array_string_len text.new ≤ array_string_len text.old + 21 }
{
    text.push(' ');
    text.push_str(Buffer::new().format(detail));
}

impl Refusal {
    // Its number, then its details, with one space between two of them.
    pub fn text(self) -> ArrayString<45>
        ensures { result.bytes ≡ refusal_text self }
    {
        let mut text = ArrayString::new();
        text.push_str(Buffer::new().format(self.number()));
        match self.details() {
            None => {}
            Some(Details::Adding(at)) => {
                push_detail(&mut text, at.order);
                push_detail(&mut text, at.operation.number().into());
            }
            Some(Details::Closing(operation)) => push_detail(&mut text, operation.number().into()),
            Some(Details::Judging(operation)) => push_detail(&mut text, operation.number().into()),
            Some(Details::Admitting(cause)) => push_detail(&mut text, cause.number().into()),
        }
        text
    }
}

impl fmt::Display for Refusal {
    ghost output = { λ r. Some (refusal_text r) };

    fn fmt<W: fmt::Write>(&self, f: &mut fmt::Formatter<W>) -> fmt::Result {
        f.write_str(self.text().as_str())
    }
}
