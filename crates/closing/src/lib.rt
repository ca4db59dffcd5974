// Closing an order of a row to its value and error bound, and the verdict on a claim. Generic over the arithmetic.
#![tactic(auto)]

ghost use Rattle.std.specs.Prelude.{◌≡◌, ◌≤◌};
ghost use Rattle.arithmetic.specs.Meaning.{Number as IsNumber};
ghost use Rattle.arithmetic.specs.Setting.{Stays};
ghost use Rattle.coefficients.specs.Exact.{signed};
ghost use Rattle.coefficients.specs.Closing.{closed, close as close_of, verdict as verdict_of};
ghost use Rattle.row.specs.Reading.{reading, values, AreNumbers};
ghost use Rattle.closing.specs.Closings.{closed_values, closing, judging, GivesNumbers};

use arithmetic::Arithmetic;
use operation::ClosingOperation;
use row::cell::Cell;
use row::read;
use verdict::{JudgingOperation, Verdict};

pub mod operation;
pub mod verdict;

// v for even k, its negative for odd k.
#[tactic(auto, using(crate::proofs::Signs::signed_even, crate::proofs::Signs::signed_odd))]
fn with_sign<A: Arithmetic>(arith: &A, v: A::Number, k: u8) -> A::Number
    requires law { A.lawful arith.now }
    requires number { IsNumber (A.setting arith.now).meaning (A.value v) }
    ensures answer { A.value result ≡ signed k (A.value v) }
    ensures number { IsNumber (A.setting arith.now).meaning (A.value result) }
{
    if k % 2 == 1 { arith.negative(v) } else { v }
}

// The six operations for an order k, where n zeros are held: the value and the bound, or the operation that left its range.
#[inline(always)]
#[tactic(auto, unfolding(coefficients::specs::Closing::closed))]
fn close_numbers<A: Arithmetic>(
    arith: &mut A,
    cell: Cell<A::Number>,
    n: u8,
    k: u8,
) -> Result<(A::Number, A::Number), ClosingOperation>
    requires law { A.lawful arith.old }
    requires numbers { AreNumbers (A.setting arith.old).meaning A.value cell }
    requires few { n ≤ 64 }
    ensures answer { closing A.value result ≡ closed (A.setting arith.old).meaning (values A.value cell) n k }
    ensures number { GivesNumbers (A.setting arith.old).meaning A.value result }
    ensures arith { Stays A.setting A.lawful arith.old arith.new }
{
    let (v, c) = arith
        .split_sum(cell.sum, cell.correction)
        .ok_or(ClosingOperation::ValueSplit)?;
    let m = 2 * n.saturating_sub(1);
    let gamma = arith
        .lift(arith.grain(m), m)
        .ok_or(ClosingOperation::Gamma)?;
    let e = arith
        .product(gamma, cell.errors)
        .ok_or(ClosingOperation::GammaProduct)?;
    let alpha = arith.lift(e, 3 * n).ok_or(ClosingOperation::LiftedProduct)?;
    let s = arith
        .sum(arith.size(c), alpha)
        .ok_or(ClosingOperation::BoundSum)?;
    let bound = arith.lift(s, 2).ok_or(ClosingOperation::Bound)?;
    Ok((with_sign(arith, v, k), bound))
}

// Closes the order k, whose cell is given, where n zeros are held: the value and the bound, or the operation that left its range.
// Order 0 is 1 with the bound 0.
#[inline(always)]
pub fn close<A: Arithmetic>(
    arith: &mut A,
    cell: Cell<A::Plain>,
    n: u8,
    k: u8,
) -> Result<(A::Number, A::Number), ClosingOperation>
    requires law { A.lawful arith.old }
    requires few { n ≤ 64 }
    ensures answer { closing A.value result ≡ close_of (A.setting arith.old).meaning (reading (A.setting arith.old) cell) n k }
    ensures number { GivesNumbers (A.setting arith.old).meaning A.value result }
    ensures arith { Stays A.setting A.lawful arith.old arith.new }
{
    if k == 0 {
        return Ok((arith.one(), arith.zero()));
    }
    let numbers = read(arith, cell);
    close_numbers(arith, numbers, n, k)
}

// The verdict on a claim within a tolerance, from a value and its bound; or the operation that left its range. All five operations
// come before the verdict.
#[tactic(auto, unfolding(coefficients::specs::Closing::verdict))]
pub fn judge<A: Arithmetic>(
    arith: &mut A,
    coefficient: (A::Number, A::Number),
    claim: A::Number,
    tolerance: A::Number,
) -> Result<Verdict, JudgingOperation>
    requires law { A.lawful arith.old }
    requires value { IsNumber (A.setting arith.old).meaning (A.value coefficient.0) }
    requires bound { IsNumber (A.setting arith.old).meaning (A.value coefficient.1) }
    requires claim { IsNumber (A.setting arith.old).meaning (A.value claim) }
    requires tolerance { IsNumber (A.setting arith.old).meaning (A.value tolerance) }
    ensures answer { judging result ≡ verdict_of (A.setting arith.old).meaning (closed_values A.value coefficient) (A.value claim) (A.value tolerance) }
    ensures arith { Stays A.setting A.lawful arith.old arith.new }
{
    let (value, bound) = coefficient;
    let difference = arith
        .sum(claim, arith.negative(value))
        .ok_or(JudgingOperation::Difference)?;
    let d = arith.size(difference);
    let a = arith.sum(d, bound).ok_or(JudgingOperation::NearSum)?;
    let near = arith.lift(a, 3).ok_or(JudgingOperation::Near)?;
    let b = arith.sum(tolerance, bound).ok_or(JudgingOperation::FarSum)?;
    let far = arith.lift(b, 3).ok_or(JudgingOperation::Far)?;
    if arith.at_most(near, tolerance) {
        return Ok(Verdict::Right);
    }
    if arith.at_most(d, far) {
        return Ok(Verdict::Open);
    }
    Ok(Verdict::Wrong)
}
