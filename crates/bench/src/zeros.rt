// Making a bench, adding zeros to it, and clearing it.
ghost use Rattle.std.specs.Prelude.{◌≡◌, suc, ◌-◌, ◌≤◌, min, map, length, ◌==◌};
ghost use Rattle.arithmetic.specs.Setting.{Stays};
ghost use Rattle.coefficients.specs.Row.{new_row};
ghost use Rattle.coefficients.specs.Calls.{new_bench, add as add_call, clear as clear_call};
ghost use Rattle.coefficients.specs.Book.{accepted};
ghost use Rattle.coefficients.specs.Law.{BookLaw};
ghost use Rattle.row.specs.Reading.{plain_cell, AreCanonical};
ghost use Rattle.bench.specs.Answers.{told_added, told_cleared};
ghost use Rattle.bench.specs.Benches.{making_of, state_of, AnswersCall, Keeps, AdditionLeaves, ClearingLeaves};

use crate::bench::Bench;
use crate::refusal::Refusal;
use arithmetic::Arithmetic;
use row::cell::Cell;
use row::renew;

impl<'r, A: Arithmetic> Bench<'r, A> {
    // A new bench over a row of 2 to 65 cells, which may hold anything: every cell is written. It carries the law over books.
    #[tactic(auto, using(crate::proofs::Making::made, crate::proofs::Making::stands_new, crate::proofs::Making::book))]
    pub fn make(arith: &A, row: &'r mut [Cell<A::Plain>], number: u16) -> Bench<'r, A>
        requires law { A.lawful arith.now }
        requires cells { 2 ≤ length row.old }
        requires few { length row.old ≤ 65 }
        ensures made { making_of (A.setting arith.now) result ≡ record { meaning = (A.setting arith.now).meaning; bench_number = number; K = length row.old - 1 } }
        ensures state { state_of (A.setting arith.now) result ≡ new_bench (making_of (A.setting arith.now) result) }
        ensures cells { result.row.now ≡ map (plain_cell (A.setting arith.now)) (new_row (A.setting arith.now).meaning (length row.old - 1)) }
        ensures plain { AreCanonical (A.setting arith.now) result.row.now }
        ensures lender { result.row.ghost_name ≡ row.entry.ghost_name }
        ensures book { BookLaw }
    {
        renew(arith, row);
        Bench {
            row,
            number,
            held: 0,
            out: 0,
        }
    }

    // Whether no question is out.
    fn is_free(&self) -> bool
        ensures { result ≡ (self.now.out == 0) }
    {
        self.out == 0
    }

    // The number of the zero that is added next.
    fn next_number(&self) -> u8
        ensures { result ≡ suc self.now.held }
    {
        self.held + 1
    }

    // Adds a zero, given by its eight bytes, and answers its number. Refusals: 17, 2, 3, 4, 5.
    #[tactic(auto, using(crate::proofs::Law::law_at, crate::proofs::Adding::adding, crate::proofs::Plain::kept_plain))]
    pub fn add(&mut self, arith: &mut A, bytes: &[u8; 8]) -> Result<u8, Refusal>
        requires law { A.lawful arith.old }
        ensures called { AnswersCall (A.setting arith.old) self.old self.new (add_call bytes.now) (told_added result) }
        ensures cells { AdditionLeaves (A.setting arith.old) (min (suc self.old.held) (length self.old.row.now - 1)) (accepted (told_added result)) self.old.row.now self.new.row.now }
        ensures keeps { Keeps (A.setting arith.old) self.old self.new }
        ensures counts { self.new.out ≡ self.old.out }
        ensures arith { Stays A.setting A.lawful arith.old arith.new }
    {
        let x = arith.admit(bytes)?;
        if !self.is_free() {
            return Err(Refusal::QuestionOut);
        }
        let number = self.next_number();
        if number > 64 {
            return Err(Refusal::Full);
        }
        let fits = arith.is_in_limits(x);
        if !fits {
            return Err(Refusal::ZeroOutOfLimits);
        }
        row::add(arith, x, self.row, number as usize)?;
        self.held = number;
        Ok(number)
    }

    // Makes the row new and forgets the zeros. Refusal: 2.
    #[tactic(auto, using(crate::proofs::Law::law_at), unfolding(coefficients::specs::Calls::step))]
    pub fn clear(&mut self, arith: &A) -> Result<(), Refusal>
        requires law { A.lawful arith.now }
        ensures called { AnswersCall (A.setting arith.now) self.old self.new clear_call (told_cleared result) }
        ensures cells { ClearingLeaves (A.setting arith.now) (accepted (told_cleared result)) self.old.row.now self.new.row.now }
        ensures keeps { Keeps (A.setting arith.now) self.old self.new }
        ensures counts { self.new.out ≡ self.old.out }
    {
        if !self.is_free() {
            return Err(Refusal::QuestionOut);
        }
        renew(arith, self.row);
        self.held = 0;
        Ok(())
    }
}
