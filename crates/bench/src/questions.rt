// Issuing questions, marking claims by them, and withdrawing them.
ghost use Rattle.std.specs.Prelude.{◌≡◌, ◌-◌, ◌<◌, ◌≤◌, IfOk};
ghost use Rattle.arithmetic.specs.Meaning.{Number as IsNumber};
ghost use Rattle.arithmetic.specs.Setting.{Stays};
ghost use Rattle.coefficients.specs.Calls.{step, mark_numbers, issue as issue_call, mark as mark_call, withdraw as withdraw_call};
ghost use Rattle.bench.specs.Answers.{told_issued, told_marked, told_withdrawn, GivesBack, IssuedFor, WithdrawnIf, OneMore, OneLess};
ghost use Rattle.bench.specs.Asking.{question_out, marking_step, JudgedOut};
ghost use Rattle.bench.specs.Benches.{making_of, state_of, AnswersCall, JudgesCall, Keeps};

use crate::bench::Bench;
use crate::question::{GivenBack, Question};
use crate::refusal::Refusal;
use arithmetic::Arithmetic;
use closing::judge;
use closing::verdict::Verdict;

impl<'r, A: Arithmetic> Bench<'r, A> {
    // Question 10: has the question this bench's number, and is one out?
    fn is_out(&self, question: &Question) -> bool
        ensures { result ≡ question_out question.now.bench self.now.number self.now.out }
    {
        question.bench == self.number && self.out > 0
    }

    // Issues a question of order k. Refusals: 6, 7, 9.
    #[tactic(auto, using(crate::proofs::Law::law_at, crate::proofs::Issuing::issue_step))]
    pub fn issue(&mut self, arith: &A, k: u8) -> Result<Question, Refusal>
        requires law { A.lawful arith.now }
        ensures called { AnswersCall (A.setting arith.now) self.old self.new (issue_call k) (told_issued result) }
        ensures cells { self.new.row.now ≡ self.old.row.now }
        ensures keeps { Keeps (A.setting arith.now) self.old self.new }
        ensures question { IssuedFor self.old.number k result }
        ensures lasting { IfOk result (λ q. q.order ≤ 64) }
        ensures counts { OneMore result self.old.out self.new.out }
    {
        self.check_order(k)?;
        if self.out >= 32 {
            return Err(Refusal::TooManyOut);
        }
        self.out += 1;
        Ok(Question {
            bench: self.number,
            order: k,
        })
    }

    // Marks a question with a claim and a tolerance, given by their eight bytes. Refusals: 17, 10, 6, 7, 11, 8, 12; each gives the
    // question back.
    pub fn mark(
        &mut self,
        arith: &mut A,
        question: Question,
        claim: &[u8; 8],
        tolerance: &[u8; 8],
    ) -> Result<Verdict, GivenBack>
        requires law { A.lawful arith.old }
        ensures called { AnswersCall (A.setting arith.old) self.old self.new (mark_call question.bench question.order claim.now tolerance.now) (told_marked result) }
        ensures back { GivesBack question result }
        ensures cells { self.new.row.now ≡ self.old.row.now }
        ensures keeps { Keeps (A.setting arith.old) self.old self.new }
        ensures counts { OneLess result self.old.out self.new.out }
        ensures arith { Stays A.setting A.lawful arith.old arith.new }
    {
        match self.judge_claim(arith, &question, claim, tolerance) {
            Ok(verdict) => {
                question.spend();
                self.out -= 1;
                Ok(verdict)
            }
            Err(refusal) => Err(GivenBack { question, refusal }),
        }
    }

    // The verdict on a claim; the claim and the tolerance are given by their eight bytes.
    #[tactic(auto, using(crate::proofs::Law::law_at), unfolding(coefficients::specs::Calls::step))]
    fn judge_claim(
        &self,
        arith: &mut A,
        question: &Question,
        claim: &[u8; 8],
        tolerance: &[u8; 8],
    ) -> Result<Verdict, Refusal>
        requires law { A.lawful arith.old }
        ensures called { JudgesCall (A.setting arith.old) self.now (mark_call question.now.bench question.now.order claim.now tolerance.now) result }
        ensures out { JudgedOut result self.now.out }
        ensures arith { Stays A.setting A.lawful arith.old arith.new }
    {
        let claimed = arith.admit(claim)?;
        let allowed = arith.admit(tolerance)?;
        self.judge_numbers(arith, question, claimed, allowed)
    }

    // The verdict on a claim; the claim and the tolerance are numbers. Questions 10, 6, 7, 11, 8, 12.
    fn judge_numbers(
        &self,
        arith: &mut A,
        question: &Question,
        claim: A::Number,
        tolerance: A::Number,
    ) -> Result<Verdict, Refusal>
        requires law { A.lawful arith.old }
        requires claim { IsNumber (A.setting arith.old).meaning (A.value claim) }
        requires tolerance { IsNumber (A.setting arith.old).meaning (A.value tolerance) }
        ensures step { marking_step (state_of (A.setting arith.old) self.now) result ≡ mark_numbers (making_of (A.setting arith.old) self.now) (state_of (A.setting arith.old) self.now) question.now.bench question.now.order (A.value claim) (A.value tolerance) }
        ensures out { JudgedOut result self.now.out }
        ensures arith { Stays A.setting A.lawful arith.old arith.new }
    {
        if !self.is_out(question) {
            return Err(Refusal::NotOut);
        }
        let k = question.order;
        self.check_order(k)?;
        let natural = arith.at_most(arith.zero(), tolerance);
        if !natural {
            return Err(Refusal::ToleranceBelowZero);
        }
        let coefficient = self.close_order(arith, k)?;
        Ok(judge(arith, coefficient, claim, tolerance)?)
    }

    // Withdraws a question. Refusal: 10, which gives the question back.
    #[tactic(auto, using(crate::proofs::Law::law_at), unfolding(coefficients::specs::Calls::step))]
    pub fn withdraw(&mut self, arith: &A, question: Question) -> Result<(), GivenBack>
        requires law { A.lawful arith.now }
        ensures called { AnswersCall (A.setting arith.now) self.old self.new (withdraw_call question.bench question.order) (told_withdrawn result) }
        ensures back { GivesBack question result }
        ensures cells { self.new.row.now ≡ self.old.row.now }
        ensures keeps { Keeps (A.setting arith.now) self.old self.new }
        ensures spent { WithdrawnIf (question_out question.bench self.old.number self.old.out) result }
        ensures counts { OneLess result self.old.out self.new.out }
    {
        if !self.is_out(&question) {
            return Err(GivenBack {
                question,
                refusal: Refusal::NotOut,
            });
        }
        question.spend();
        self.out -= 1;
        Ok(())
    }
}
