// The operations of an arithmetic, on patterns: what each answers, for programs that have numbers as patterns alone.
#![tactic(auto)]

ghost use Rattle.std.specs.Prelude.{◌≡◌};
ghost use Rattle.arithmetic.specs.Setting.{Stays, Gives, GivesBoth, valued, split_valued};
ghost use Rattle.operations.specs.Answers.{told, told_parts, AreOperands, sum_answer, split_sum_answer, product_answer, split_product_answer, lift_answer, admission_answer, comparison_answer};

use answer::Answer;
use arithmetic::Arithmetic;
use arithmetic::cause::Cause;
use patterns::Pattern;

pub mod answer;

// The pattern of a rounded result.
fn rounded<A: Arithmetic>(arith: &A, result_of: Option<A::Number>) -> Answer
    requires law { A.lawful arith.now }
    requires number { Gives (A.setting arith.now).meaning A.value result_of }
    ensures { result ≡ told (A.setting arith.now).meaning (valued A.value result_of) }
{
    match result_of {
        Some(number) => Answer::Number(Pattern {
            bytes: arith.pattern(number),
        }),
        None => Answer::Refused,
    }
}

// The patterns of a rounded result and of its error part.
fn in_parts<A: Arithmetic>(arith: &A, parts: Option<(A::Number, A::Number)>) -> Answer
    requires law { A.lawful arith.now }
    requires numbers { GivesBoth (A.setting arith.now).meaning A.value parts }
    ensures { result ≡ told_parts (A.setting arith.now).meaning (split_valued A.value parts) }
{
    match parts {
        Some((main, error)) => Answer::Split(
            Pattern {
                bytes: arith.pattern(main),
            },
            Pattern {
                bytes: arith.pattern(error),
            },
        ),
        None => Answer::Refused,
    }
}

// The numbers that two patterns are admitted as, or the cause for which the first one that is not admitted is none.
fn operands<A: Arithmetic>(
    arith: &A,
    a: Pattern,
    b: Pattern,
) -> Result<(A::Number, A::Number), Cause>
    requires law { A.lawful arith.now }
    ensures { AreOperands (A.setting arith.now).meaning A.value a b result }
{
    Ok((arith.admit(&a.bytes)?, arith.admit(&b.bytes)?))
}

// The rounded sum.
#[tactic(auto, using(crate::proofs::Told::no_operands, crate::proofs::Told::two_operands))]
pub fn sum<A: Arithmetic>(arith: &mut A, a: Pattern, b: Pattern) -> Answer
    requires law { A.lawful arith.old }
    ensures answer { result ≡ sum_answer (A.setting arith.old).meaning a b }
    ensures arith { Stays A.setting A.lawful arith.old arith.new }
{
    match operands(arith, a, b) {
        Ok((x, y)) => {
            let sum = arith.sum(x, y);
            rounded(arith, sum)
        }
        Err(cause) => Answer::NotAdmitted(cause),
    }
}

// The rounded sum and its error part.
#[tactic(auto, using(crate::proofs::Told::no_operands, crate::proofs::Told::two_operands))]
pub fn split_sum<A: Arithmetic>(arith: &mut A, a: Pattern, b: Pattern) -> Answer
    requires law { A.lawful arith.old }
    ensures answer { result ≡ split_sum_answer (A.setting arith.old).meaning a b }
    ensures arith { Stays A.setting A.lawful arith.old arith.new }
{
    match operands(arith, a, b) {
        Ok((x, y)) => {
            let parts = arith.split_sum(x, y);
            in_parts(arith, parts)
        }
        Err(cause) => Answer::NotAdmitted(cause),
    }
}

// The rounded product.
#[tactic(auto, using(crate::proofs::Told::no_operands, crate::proofs::Told::two_operands))]
pub fn product<A: Arithmetic>(arith: &mut A, a: Pattern, b: Pattern) -> Answer
    requires law { A.lawful arith.old }
    ensures answer { result ≡ product_answer (A.setting arith.old).meaning a b }
    ensures arith { Stays A.setting A.lawful arith.old arith.new }
{
    match operands(arith, a, b) {
        Ok((x, y)) => {
            let product = arith.product(x, y);
            rounded(arith, product)
        }
        Err(cause) => Answer::NotAdmitted(cause),
    }
}

// The rounded product and its error part.
#[tactic(auto, using(crate::proofs::Told::no_operands, crate::proofs::Told::two_operands))]
pub fn split_product<A: Arithmetic>(arith: &mut A, a: Pattern, b: Pattern) -> Answer
    requires law { A.lawful arith.old }
    ensures answer { result ≡ split_product_answer (A.setting arith.old).meaning a b }
    ensures arith { Stays A.setting A.lawful arith.old arith.new }
{
    match operands(arith, a, b) {
        Ok((x, y)) => {
            let parts = arith.split_product(x, y);
            in_parts(arith, parts)
        }
        Err(cause) => Answer::NotAdmitted(cause),
    }
}

// A number lifted by k, if k is one that numbers are lifted by.
pub fn lift<A: Arithmetic>(arith: &mut A, a: Pattern, k: u8) -> Answer
    requires law { A.lawful arith.old }
    ensures answer { result ≡ lift_answer (A.setting arith.old).meaning a k }
    ensures arith { Stays A.setting A.lawful arith.old arith.new }
{
    if k > 192 {
        return Answer::NotLifted;
    }
    match arith.admit(&a.bytes) {
        Ok(x) => {
            let lifted = arith.lift(x, k);
            rounded(arith, lifted)
        }
        Err(cause) => Answer::NotAdmitted(cause),
    }
}

// What a pattern is admitted as.
pub fn admission<A: Arithmetic>(arith: &A, a: Pattern) -> Answer
    requires law { A.lawful arith.now }
    ensures { result ≡ admission_answer (A.setting arith.now).meaning a }
{
    match arith.admit(&a.bytes) {
        Ok(x) => Answer::Number(Pattern {
            bytes: arith.pattern(x),
        }),
        Err(cause) => Answer::NotAdmitted(cause),
    }
}

// Whether a is at most b.
#[tactic(auto, using(crate::proofs::Told::no_operands, crate::proofs::Told::two_operands))]
pub fn at_most<A: Arithmetic>(arith: &A, a: Pattern, b: Pattern) -> Answer
    requires law { A.lawful arith.now }
    ensures { result ≡ comparison_answer (A.setting arith.now).meaning a b }
{
    match operands(arith, a, b) {
        Ok((x, y)) => Answer::Truth(arith.at_most(x, y)),
        Err(cause) => Answer::NotAdmitted(cause),
    }
}
