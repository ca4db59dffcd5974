// The calls of a bench, worked with patterns for numbers.
ghost use Rattle.std.specs.Prelude.{◌≡◌, ◌+◌, ◌<◌};
ghost use Rattle.arithmetic.specs.Setting.{Stays};
ghost use Rattle.coefficients.specs.Calls.{add as add_call, ask as ask_call, clear as clear_call, withdraw as withdraw_call, withdrawn};
ghost use Rattle.bench.specs.Benches.{AnswersCall, Keeps};
ghost use Rattle.calls.specs.Entries.{alone, settling, examination, entries};
ghost use Rattle.calls.specs.Works.{Answers, GoesOn};

use crate::answer::Answer;
use crate::call::Call;
use arithmetic::Arithmetic;
use bench::Bench;
use bench::question::{GivenBack, Question};
use patterns::Pattern;

// Adds a zero.
#[tactic(auto, using(crate::proofs::Leaving::addition_goes_on))]
pub fn add<A: Arithmetic>(bench: &mut Bench<'_, A>, arith: &mut A, zero: &[u8; 8]) -> Answer
    requires law { A.lawful arith.old }
    ensures answer { Answers (A.setting arith.old) bench.old (alone (add_call zero.now)) result }
    ensures goes_on { GoesOn (A.setting arith.old) bench.old bench.new (alone (add_call zero.now)) }
    ensures counts { bench.new.out ≡ bench.old.out }
    ensures arith { Stays A.setting A.lawful arith.old arith.new }
{
    match bench.add(arith, zero) {
        Ok(number) => Answer::Added(number),
        Err(refusal) => Answer::Refused(refusal),
    }
}

// Asks an order.
#[tactic(auto, using(crate::proofs::Leaving::same_left))]
pub fn ask<A: Arithmetic>(bench: &Bench<'_, A>, arith: &mut A, order: u8) -> Answer
    requires law { A.lawful arith.old }
    ensures answer { Answers (A.setting arith.old) bench.now (alone (ask_call order)) result }
    ensures goes_on { GoesOn (A.setting arith.old) bench.now bench.now (alone (ask_call order)) }
    ensures arith { Stays A.setting A.lawful arith.old arith.new }
{
    match bench.ask(arith, order) {
        Ok((value, bound)) => Answer::Asked {
            order,
            value: Pattern {
                bytes: arith.pattern(value),
            },
            bound: Pattern {
                bytes: arith.pattern(bound),
            },
        },
        Err(refusal) => Answer::Refused(refusal),
    }
}

// Clears the bench.
#[tactic(auto, using(crate::proofs::Leaving::clearing_left))]
pub fn clear<A: Arithmetic>(bench: &mut Bench<'_, A>, arith: &A) -> Answer
    requires law { A.lawful arith.now }
    ensures answer { Answers (A.setting arith.now) bench.old (alone clear_call) result }
    ensures goes_on { GoesOn (A.setting arith.now) bench.old bench.new (alone clear_call) }
{
    match bench.clear(arith) {
        Ok(()) => Answer::Cleared,
        Err(refusal) => Answer::Refused(refusal),
    }
}

// Withdraws a question of this bench.
pub fn withdraw<A: Arithmetic>(bench: &mut Bench<'_, A>, arith: &A, question: Question)
    requires law { A.lawful arith.now }
    requires own { question.bench ≡ bench.old.number }
    requires out { 0 < bench.old.out }
    ensures called { AnswersCall (A.setting arith.now) bench.old bench.new (withdraw_call question.bench question.order) withdrawn }
    ensures keeps { Keeps (A.setting arith.now) bench.old bench.new }
    ensures cells { bench.new.row.now ≡ bench.old.row.now }
    ensures counts { bench.new.out + 1 ≡ bench.old.out }
{
    match bench.withdraw(arith, question) {
        Ok(()) => {}
        Err(_) => unreachable!(),
    }
}

// Marks a claim by a question of this bench; where the marking is refused, the question is withdrawn.
#[tactic(auto, using(crate::proofs::Leaving::same_left))]
fn settle<A: Arithmetic>(
    bench: &mut Bench<'_, A>,
    arith: &mut A,
    question: Question,
    claim: &[u8; 8],
    tolerance: &[u8; 8],
) -> Answer
    requires law { A.lawful arith.old }
    requires own { question.bench ≡ bench.old.number }
    requires out { 0 < bench.old.out }
    ensures answer { Answers (A.setting arith.old) bench.old (settling question.order claim.now tolerance.now) result }
    ensures goes_on { GoesOn (A.setting arith.old) bench.old bench.new (settling question.order claim.now tolerance.now) }
    ensures cells { bench.new.row.now ≡ bench.old.row.now }
    ensures arith { Stays A.setting A.lawful arith.old arith.new }
{
    let order = question.order();
    match bench.mark(arith, question, claim, tolerance) {
        Ok(verdict) => Answer::Examined { order, verdict },
        Err(back) => {
            let GivenBack { question, refusal } = back;
            withdraw(bench, arith, question);
            Answer::Refused(refusal)
        }
    }
}

// Issues a question of an order, and marks a claim by it.
#[tactic(auto, using(crate::proofs::Leaving::same_left))]
pub fn examine<A: Arithmetic>(
    bench: &mut Bench<'_, A>,
    arith: &mut A,
    order: u8,
    claim: &[u8; 8],
    tolerance: &[u8; 8],
) -> Answer
    requires law { A.lawful arith.old }
    ensures answer { Answers (A.setting arith.old) bench.old (examination order claim.now tolerance.now) result }
    ensures goes_on { GoesOn (A.setting arith.old) bench.old bench.new (examination order claim.now tolerance.now) }
    ensures arith { Stays A.setting A.lawful arith.old arith.new }
{
    match bench.issue(arith, order) {
        Ok(question) => settle(bench, arith, question, claim, tolerance),
        Err(refusal) => Answer::Refused(refusal),
    }
}

// Works a call.
pub fn work<A: Arithmetic>(bench: &mut Bench<'_, A>, arith: &mut A, call: Call) -> Answer
    requires law { A.lawful arith.old }
    ensures answer { Answers (A.setting arith.old) bench.old (entries call) result }
    ensures goes_on { GoesOn (A.setting arith.old) bench.old bench.new (entries call) }
    ensures arith { Stays A.setting A.lawful arith.old arith.new }
{
    match call {
        Call::Add(zero) => add(bench, arith, &zero.bytes),
        Call::Ask(order) => ask(bench, arith, order),
        Call::Examine {
            order,
            claim,
            tolerance,
        } => examine(bench, arith, order, &claim.bytes, &tolerance.bytes),
        Call::Clear => clear(bench, arith),
    }
}
