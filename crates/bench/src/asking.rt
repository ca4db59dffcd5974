// Asking an order.
ghost use Rattle.std.specs.Prelude.{◌≡◌, ◌-◌, ◌<◌, length, slice_index_or};
ghost use Rattle.arithmetic.specs.Setting.{Stays};
ghost use Rattle.coefficients.specs.Row.{cell as cell_of};
ghost use Rattle.coefficients.specs.Closing.{close as close_of};
ghost use Rattle.coefficients.specs.Calls.{ask as ask_call};
ghost use Rattle.row.specs.Reading.{readings};
ghost use Rattle.closing.specs.Closings.{closing, GivesNumbers};
ghost use Rattle.bench.specs.Answers.{told_asked};
ghost use Rattle.bench.specs.Asking.{order_outcome};
ghost use Rattle.bench.specs.Benches.{AnswersCall};

use crate::bench::Bench;
use crate::refusal::Refusal;
use arithmetic::Arithmetic;
use closing::close;
use closing::operation::ClosingOperation;
use row::cell::Cell;

// The cell of order k.
fn cell_at<P: Copy>(row: &[Cell<P>], k: usize) -> Cell<P>
    requires { k < length row.now }
    ensures { result ≡ slice_index_or row.now k result }
{
    row[k]
}

impl<'r, A: Arithmetic> Bench<'r, A> {
    // Questions 6 and 7: is k at most K, and at most the count of zeros held?
    pub(crate) fn check_order(&self, k: u8) -> Result<(), Refusal>
        ensures { result ≡ order_outcome (length self.now.row.now - 1) self.now.held k }
    {
        if (k as usize) > self.row.len() - 1 {
            return Err(Refusal::OrderAboveRow);
        }
        if k > self.held {
            return Err(Refusal::OrderAboveZeros);
        }
        Ok(())
    }

    // The value and the error bound of an order that is in the row, or the operation that left its range.
    #[inline(always)]
    #[tactic(auto, using(crate::proofs::Cells::closed_in_row))]
    pub(crate) fn close_order(
        &self,
        arith: &mut A,
        k: u8,
    ) -> Result<(A::Number, A::Number), ClosingOperation>
        requires law { A.lawful arith.old }
        requires within { k < length self.now.row.now }
        ensures answer { closing A.value result ≡ close_of (A.setting arith.old).meaning (cell_of (readings (A.setting arith.old) self.now.row.now) k) self.now.held k }
        ensures numbers { GivesNumbers (A.setting arith.old).meaning A.value result }
        ensures arith { Stays A.setting A.lawful arith.old arith.new }
    {
        let cell = cell_at(self.row, k as usize);
        close(arith, cell, self.held, k)
    }

    // The value and the error bound of the coefficient of order k. Refusals: 6, 7, 8.
    #[inline(always)]
    #[tactic(auto, using(crate::proofs::Law::law_at), unfolding(coefficients::specs::Calls::step))]
    pub fn ask(&self, arith: &mut A, k: u8) -> Result<(A::Number, A::Number), Refusal>
        requires law { A.lawful arith.old }
        ensures called { AnswersCall (A.setting arith.old) self.now self.now (ask_call k) (told_asked A.value result) }
        ensures numbers { GivesNumbers (A.setting arith.old).meaning A.value result }
        ensures arith { Stays A.setting A.lawful arith.old arith.new }
    {
        self.check_order(k)?;
        Ok(self.close_order(arith, k)?)
    }
}
