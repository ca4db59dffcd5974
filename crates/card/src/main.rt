// A card is the work on one filter: its zeros, and the calls on its bench. This program works a card in binary64, and some in decimal with eight
// digits and with four, each on a bench of its own, asks coefficients, examines claims, and prints a heading for each card and a line for each
// call. One bench is then handed decimal with another count of digits.
#![tactic(auto)]

use arithmetic::Arithmetic;
use bench::{Bench, check_row};
use binary64::Binary64;
use calls::answer::Answer;
use calls::call::Call;
use calls::work::work;
use decimal::Decimal;
use figures::worked_figures;
use formats::Format;
use rounding::rounding_laws;
use row::cell::Cell;
use row::empty;
use scientific::precision::Precision;
use scientific::ties_to_even;
use std::io;

mod figures;
mod in_binary64;
mod in_decimal;

// Works calls on a bench, and prints a line for each.
fn work_calls<A: Arithmetic>(
    rt: &HostRuntime,
    bench: &mut Bench<'_, A>,
    arith: &mut A,
    calls: &[Call],
) -> io::Result<()>
    requires law { A.lawful arith.old }
{
    for &call in calls {
        let answer = work(bench, arith, call);
        println!(rt; "{answer}")?;
    }
    Ok(())
}

// Works the calls of a card on a new bench over a row. Prints the format and the highest order, and then a line for each call.
fn work_card<A: Arithmetic>(
    rt: &HostRuntime,
    format: Format,
    arith: &mut A,
    row: &mut [Cell<A::Plain>],
    calls: &[Call],
) -> io::Result<()>
    requires law { A.lawful arith.old }
{
    if let Err(refusal) = check_row(row) {
        return println!(rt; "{}", Answer::Refused(refusal));
    }
    println!(rt; "card {format} {}", row.len() - 1)?;
    let mut bench = Bench::make(arith, row, 1);
    work_calls(rt, &mut bench, arith, calls)
}

// Works the cards in decimal with eight digits.
fn work_eight_digit_cards(rt: &HostRuntime, precision: Precision) -> io::Result<()> {
    let format = Format::Decimal(precision);
    let decimal = &mut Decimal::from(precision);
    let mut row = [empty(decimal); 4];
    work_card(rt, format, decimal, &mut row, &in_decimal::one_two_three())?;
    let mut row = [empty(decimal); 3];
    work_card(rt, format, decimal, &mut row, &in_decimal::square())?;
    let mut row = [empty(decimal); 6];
    work_card(rt, format, decimal, &mut row, &in_decimal::cancelled())?;
    let mut row = [empty(decimal); 4];
    work_card(rt, format, decimal, &mut row, &in_decimal::eight_digits())
}

// Works the card in decimal with four digits.
fn work_four_digit_card(rt: &HostRuntime, precision: Precision) -> io::Result<()> {
    let decimal = &mut Decimal::from(precision);
    let mut row = [empty(decimal); 4];
    work_card(
        rt,
        Format::Decimal(precision),
        decimal,
        &mut row,
        &in_decimal::four_digits(),
    )
}

// Asks order 2 of a bench by decimal with so many digits.
fn ask_by(
    rt: &HostRuntime,
    bench: &mut Bench<'_, Decimal>,
    precision: Precision,
) -> io::Result<()> {
    println!(rt; "handed {}", Format::Decimal(precision))?;
    work_calls(rt, bench, &mut Decimal::from(precision), &[Call::Ask(2)])
}

// Adds 1.0000001 twice in decimal with eight digits, and asks order 2 by decimal with four digits, and then with eight again. Each call reads
// the cells by the arithmetic that it is handed: what eight digits have written is mostly no number of four, and reads as 0.
fn hand_other_digits(rt: &HostRuntime, eight: Precision, four: Precision) -> io::Result<()> {
    let decimal = &mut Decimal::from(eight);
    let mut row = [empty(decimal); 3];
    let mut bench = Bench::make(decimal, &mut row, 1);
    println!(rt; "card {} 2", Format::Decimal(eight))?;
    work_calls(rt, &mut bench, decimal, &in_decimal::square()[..2])?;
    ask_by(rt, &mut bench, four)?;
    ask_by(rt, &mut bench, eight)
}

// Works the cards in decimal.
fn work_decimal_cards(rt: &HostRuntime) -> io::Result<()> {
    let eight = Precision { digits: 8 };
    let four = Precision { digits: 4 };
    work_eight_digit_cards(rt, eight)?;
    work_four_digit_card(rt, four)?;
    hand_other_digits(rt, eight, four)
}

fn main(rt: HostRuntime) -> io::Result<()> {
    rounding_laws();
    worked_figures();
    ties_to_even();
    let mut row = [empty(&Binary64); 4];
    work_card(
        &rt,
        Format::Binary64,
        &mut Binary64,
        &mut row,
        &in_binary64::one_two_three(),
    )?;
    work_decimal_cards(&rt)
}
