// Shows each refusal that a bench can give, by its number and details, and that of a report call, in binary64; and that of making decimal.
#![tactic(auto)]

ghost use Rattle.std.specs.Prelude.{◌≡◌};
ghost use Rattle.std.specs.Float.{NotNan};

use bench::question::GivenBack;
use bench::refusal::Refusal;
use bench::{Bench, check_row};
use binary64::Binary64;
use calls::work::{add, ask, examine, withdraw};
use decimal::Decimal;
use patterns::Pattern;
use reporting::of_report;
use row::empty;
use std::io;

mod reporting;

// 2^900, the largest number (`card` has it too), and 2^901
const LARGEST: f64 = 8.452712498170644e270;

const TOO_LARGE: f64 = 1.6905424996341288e271;

// 2^-800, 2^-860 and 2^-901
const SMALL: f64 = 1.499696813895631e-241;

const SMALLER: f64 = 1.3007796349561859e-259;

const TOO_SMALL: f64 = 5.915260930833874e-272;

// An addition, with the refusal if it is refused.
fn added(bench: &mut Bench<Binary64>, zero: f64) -> Result<(), Refusal>
    requires { NotNan zero }
    ensures number { bench.new.number ≡ bench.old.number }
    ensures out { bench.new.out ≡ bench.old.out }
{
    add(bench, &mut Binary64, &Pattern::of_binary64(zero).bytes).outcome()
}

// An asking.
fn asked(bench: &Bench<Binary64>, order: u8) -> Result<(), Refusal> {
    ask(bench, &mut Binary64, order).outcome()
}

// An examination.
fn examined(
    bench: &mut Bench<Binary64>,
    order: u8,
    claim: f64,
    tolerance: f64,
) -> Result<(), Refusal>
    requires claim { NotNan claim }
    requires tolerance { NotNan tolerance }
{
    let claim = Pattern::of_binary64(claim).bytes;
    let tolerance = Pattern::of_binary64(tolerance).bytes;
    examine(bench, &mut Binary64, order, &claim, &tolerance).outcome()
}

// 2: an addition while a question is out.
fn added_while_out(bench: &mut Bench<Binary64>) -> Result<(), Refusal> {
    let question = bench.issue(&Binary64, 0)?;
    let outcome = added(bench, 1.0);
    withdraw(bench, &Binary64, question);
    outcome
}

// 3: one zero more than 64.
fn added_65(bench: &mut Bench<Binary64>) -> Result<(), Refusal> {
    for _ in 0..64 {
        added(bench, 0.0)?;
    }
    added(bench, 0.0)
}

// 9: questions are issued until one is refused, and then all are withdrawn. (By recursion: the check takes no
// `Vec` of questions, since even an empty one could not be dropped.)
fn issued_33(bench: &mut Bench<Binary64>, more: u8) -> Result<(), Refusal>
    ensures number { bench.new.number ≡ bench.old.number }
    ensures out { bench.new.out ≡ bench.old.out }
{
    let question = bench.issue(&Binary64, 0)?;
    let outcome = if more == 0 {
        Ok(())
    } else {
        issued_33(bench, more - 1)
    };
    withdraw(bench, &Binary64, question);
    outcome
}

// 10: a question of another bench, which is then withdrawn where it was issued.
fn withdrawn_elsewhere(
    bench: &mut Bench<Binary64>,
    other: &mut Bench<Binary64>,
) -> Result<(), Refusal> {
    let question = other.issue(&Binary64, 0)?;
    match bench.withdraw(&Binary64, question) {
        Ok(()) => Ok(()),
        Err(back) => {
            let GivenBack { question, refusal } = back;
            withdraw(other, &Binary64, question);
            Err(refusal)
        }
    }
}

// Prints a refusal, or that there was none.
fn show(rt: &HostRuntime, outcome: Result<(), Refusal>) -> io::Result<()> {
    match outcome {
        Ok(()) => println!(rt; "accepted"),
        Err(refusal) => println!(rt; "R {refusal}"),
    }
}

// Refusals of a bench of highest order 3.
fn of_order_3(rt: &HostRuntime) -> io::Result<()> {
    let mut row = [empty(&Binary64); 4];
    let mut bench = Bench::make(&Binary64, &mut row, 1);
    show(rt, added_while_out(&mut bench))?;
    show(rt, added_65(&mut bench))?;
    let mut row = [empty(&Binary64); 4];
    let mut bench = Bench::make(&Binary64, &mut row, 1);
    show(rt, added(&mut bench, TOO_SMALL))?;
    show(rt, added(&mut bench, f64::INFINITY))?;
    show(rt, added(&mut bench, TOO_LARGE))?;
    show(rt, asked(&bench, 4))?;
    // two zeros are held: order 3, which the row has, is refused by 7
    show(rt, added(&mut bench, 1.0))?;
    show(rt, added(&mut bench, 1.0))?;
    show(rt, asked(&bench, 3))?;
    show(rt, examined(&mut bench, 1, 1.0, -1.0))?;
    show(rt, issued_33(&mut bench, 32))
}

// Refusals of benches of highest order 1, by range.
fn of_range(rt: &HostRuntime) -> io::Result<()> {
    let mut row = [empty(&Binary64); 2];
    let mut bench = Bench::make(&Binary64, &mut row, 1);
    let mut other_row = [empty(&Binary64); 2];
    let mut other = Bench::make(&Binary64, &mut other_row, 2);
    show(rt, withdrawn_elsewhere(&mut bench, &mut other))?;
    // the sum of two zeros of 2^900
    show(rt, added(&mut bench, LARGEST))?;
    show(rt, added(&mut bench, LARGEST))?;
    // the distance of the claim 2^900 from the coefficient -2^900
    show(rt, examined(&mut bench, 1, LARGEST, 0.0))?;
    // the error bound of 2^-800 + 2^-860
    show(rt, added(&mut other, SMALL))?;
    show(rt, added(&mut other, SMALLER))?;
    show(rt, asked(&other, 1))
}

// 20: decimal is made with four to eight digits.
fn show_making(rt: &HostRuntime, digits: u8) -> io::Result<()> {
    match Decimal::new(digits) {
        Ok(_) => println!(rt; "accepted"),
        Err(refusal) => println!(rt; "R {}", refusal.number()),
    }
}

fn main(rt: HostRuntime) -> io::Result<()> {
    show(&rt, check_row(&[empty(&Binary64); 1]))?;
    of_order_3(&rt)?;
    of_range(&rt)?;
    of_report(&rt)?;
    show_making(&rt, 3)?;
    show_making(&rt, 4)?;
    show_making(&rt, 8)?;
    show_making(&rt, 9)
}
