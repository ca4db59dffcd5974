// A card worked on a bench of its own: its zeros added, and then its orders asked.
ghost use Rattle.std.specs.Prelude.{◌≡◌, ◌-◌, ◌≤◌, length};
ghost use Rattle.arithmetic.specs.Setting.{Stays};
ghost use Rattle.coefficients.specs.Calls.{ask as ask_call, step};
ghost use Rattle.bench.specs.Benches.{making_of, state_of, Keeps};
ghost use Rattle.exports.specs.Cards.{after_zeros, asked_or, Asked, Worked, CardIn};

use arithmetic::Arithmetic;
use bench::Bench;
use binary64::Binary64;
use decimal::Decimal;
use formats::Format;
use row::cell::Cell;
use row::empty;

// Adds zeros to a bench; one that is refused changes nothing.
fn add_zeros<A: Arithmetic>(bench: &mut Bench<'_, A>, arith: &mut A, zeros: &[u64])
    requires law { A.lawful arith.old }
    ensures state { state_of (A.setting arith.old) bench.new ≡ after_zeros (making_of (A.setting arith.old) bench.old) (state_of (A.setting arith.old) bench.old) zeros.now }
    ensures keeps { Keeps (A.setting arith.old) bench.old bench.new }
    ensures arith { Stays A.setting A.lawful arith.old arith.new }
{
    for zero in zeros {
        let _ = bench.add(arith, &zero.to_be_bytes());
    }
}

// The patterns of the value and the bound of an order; where the order is refused, what is given in their place.
fn ask_order<A: Arithmetic>(
    bench: &Bench<'_, A>,
    arith: &mut A,
    order: u8,
    otherwise: [u64; 2],
) -> [u64; 2]
    requires law { A.lawful arith.old }
    ensures answer { result ≡ asked_or (A.setting arith.old).meaning otherwise (step (making_of (A.setting arith.old) bench.now) (state_of (A.setting arith.old) bench.now) (ask_call order)).answer }
    ensures arith { Stays A.setting A.lawful arith.old arith.new }
{
    match bench.ask(arith, order) {
        Ok((value, bound)) => [
            u64::from_be_bytes(arith.pattern(value)),
            u64::from_be_bytes(arith.pattern(bound)),
        ],
        Err(_) => otherwise,
    }
}

// Asks the orders from 0 up, as many as there is room for, at most 65.
fn ask_orders<A: Arithmetic>(bench: &Bench<'_, A>, arith: &mut A, answers: &mut [[u64; 2]])
    requires law { A.lawful arith.old }
    ensures answers { Asked (making_of (A.setting arith.old) bench.now) (state_of (A.setting arith.old) bench.now) 65 answers.old answers.new }
    ensures arith { Stays A.setting A.lawful arith.old arith.new }
{
    for order in 0..answers.len().min(65) {
        answers[order] = ask_order(bench, arith, order as u8, answers[order]);
    }
}

// Works a card on a bench whose row is given.
fn work<A: Arithmetic>(
    arith: &mut A,
    cells: &mut [Cell<A::Plain>],
    zeros: &[u64],
    answers: &mut [[u64; 2]],
)
    requires law { A.lawful arith.old }
    requires least { 2 ≤ length cells.old }
    requires most { length cells.old ≤ 65 }
    ensures { Worked (A.setting arith.old).meaning (length cells.old - 1) zeros.now answers.old answers.new }
{
    let mut bench = Bench::make(arith, cells, 1);
    add_zeros(&mut bench, arith, zeros);
    ask_orders(&bench, arith, answers);
}

// Works a card in the arithmetic of the format with a number. The highest order of its bench is the count of its zeros, but at least 1 and at
// most 64. Answer k is the value and the bound of order k; where that is refused it is left as it was, and all are where no format has the number.
#[unsafe(no_mangle)]
pub extern "C" fn coef_card(format: u8, zeros: &[u64], answers: &mut [[u64; 2]])
    ensures { CardIn format zeros.now answers.old answers.new }
{
    let highest_order = zeros.len().max(1).min(64);
    match Format::of_number(format) {
        Some(Format::Binary64) => {
            let mut cells = [empty(&Binary64); 65];
            work(&mut Binary64, &mut cells[..=highest_order], zeros, answers)
        }
        Some(Format::Decimal(precision)) => {
            let mut decimal = Decimal::from(precision);
            let mut cells = [empty(&decimal); 65];
            work(&mut decimal, &mut cells[..=highest_order], zeros, answers)
        }
        None => {}
    }
}
