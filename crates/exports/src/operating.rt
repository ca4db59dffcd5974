// The operations of each arithmetic, for a caller outside. A pattern is the number of 64 bits whose bytes, the highest first, are the
// pattern's.
ghost use Rattle.std.specs.Prelude.{◌≡◌};
ghost use Rattle.std.specs.Int.{w64, to_be_bytes, from_be_bytes};
ghost use Rattle.operations.specs.Answers.{lift_answer};
ghost use Rattle.exports.specs.Operations.{no_number, outside, operated, operate_in};

use arithmetic::Arithmetic;
use binary64::Binary64;
use decimal::Decimal;
use formats::Format;
use operations::answer::Answer;
use operations::{admission, at_most, lift, split_product, split_sum};
use patterns::Pattern;

// What an operation answers. `outcome` is 0 for an answer, 1 to 3 for the cause for which an operand is no number (of the first such
// operand), 4 for a refusal, and 5 where no format or no operation has the number, or a number would be lifted by more than 192; where it is
// not 0 the other two are 0. `error` is 0 but for splits.
#[repr(C)]
#[derive(Clone, Copy)]
pub struct OutsideAnswer {
    pub outcome: u8,
    // the pattern of the rounded result; of a comparison 1 for yes and 0 for no
    pub main: u64,
    // the pattern of the error part
    pub error: u64,
}

const REFUSED: u8 = 4;

const NO_OPERATION: u8 = 5;

// An answer without a number.
fn without_number(outcome: u8) -> OutsideAnswer
    ensures { result ≡ no_number outcome }
{
    OutsideAnswer {
        outcome,
        main: 0,
        error: 0,
    }
}

// The pattern that is a number of 64 bits.
fn pattern(a: u64) -> Pattern
    ensures { result.bytes ≡ to_be_bytes w64 a }
{
    Pattern {
        bytes: a.to_be_bytes(),
    }
}

// The number of 64 bits that is a pattern.
fn bits(pattern: Pattern) -> u64
    ensures { result ≡ from_be_bytes w64 pattern.bytes }
{
    u64::from_be_bytes(pattern.bytes)
}

impl From<Answer> for OutsideAnswer {
    ghost from_gives = { λ a r. r ≡ outside a };

    fn from(answer: Answer) -> OutsideAnswer {
        match answer {
            Answer::Number(main) => OutsideAnswer {
                outcome: 0,
                main: bits(main),
                error: 0,
            },
            Answer::Split(main, error) => OutsideAnswer {
                outcome: 0,
                main: bits(main),
                error: bits(error),
            },
            Answer::Truth(truth) => OutsideAnswer {
                outcome: 0,
                main: truth as u64,
                error: 0,
            },
            Answer::Refused => without_number(REFUSED),
            Answer::NotAdmitted(cause) => without_number(cause.number()),
            Answer::NotLifted => without_number(NO_OPERATION),
        }
    }
}

// A number lifted by k, which may be larger than a byte.
fn lift_by<A: Arithmetic>(arith: &mut A, a: Pattern, k: u64) -> Answer
    requires law { A.lawful arith.old }
    ensures { result ≡ lift_answer (A.setting arith.old).meaning a k }
{
    match u8::try_from(k) {
        Ok(k) => lift(arith, a, k),
        Err(_) => Answer::NotLifted,
    }
}

// The operation with a number: 1 the split of a + b, 2 that of a b, 3 a lifted by b (here a number and no pattern), 4 what a is admitted
// as, 5 whether a is at most b.
fn work<A: Arithmetic>(arith: &mut A, operation: u8, a: u64, b: u64) -> OutsideAnswer
    requires law { A.lawful arith.old }
    ensures { result ≡ operated (A.setting arith.old).meaning operation a b }
{
    match operation {
        1 => split_sum(arith, pattern(a), pattern(b)).into(),
        2 => split_product(arith, pattern(a), pattern(b)).into(),
        3 => lift_by(arith, pattern(a), b).into(),
        4 => admission(arith, pattern(a)).into(),
        5 => at_most(arith, pattern(a), pattern(b)).into(),
        _ => without_number(NO_OPERATION),
    }
}

// The same in the arithmetic of the format with a number.
#[unsafe(no_mangle)]
pub extern "C" fn coef_operate(format: u8, operation: u8, a: u64, b: u64) -> OutsideAnswer
    ensures { result ≡ operate_in format operation a b }
{
    match Format::of_number(format) {
        Some(Format::Binary64) => work(&mut Binary64, operation, a, b),
        Some(Format::Decimal(precision)) => work(&mut Decimal::from(precision), operation, a, b),
        None => without_number(NO_OPERATION),
    }
}
