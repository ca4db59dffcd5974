// The row of a bench: reading a cell, adding one zero, and making the row new. Generic over the arithmetic.
#![tactic(auto)]

ghost use Rattle.std.specs.Prelude.{◌≡◌, ◌-◌, ◌<◌, ◌≤◌, min, ◌∷◌, length, replicate, Ok, slice_index_or};
ghost use Rattle.arithmetic.specs.Meaning.{Number as IsNumber};
ghost use Rattle.arithmetic.specs.Setting.{Stays};
ghost use Rattle.coefficients.specs.Row.{no_cell, new_cell, row_after};
ghost use Rattle.row.specs.Reading.{reading, readings, values, plain_cell, AreNumbers};
ghost use Rattle.row.specs.Answers.{tried, WritesPlain, Tells, Added, Renewed};

use arithmetic::Arithmetic;
use cell::{Cell, Operation, OutOfRange};

pub mod cell;

// The numbers of a cell.
pub fn read<A: Arithmetic>(arith: &A, cell: Cell<A::Plain>) -> Cell<A::Number>
    requires law { A.lawful arith.now }
    ensures answer { values A.value result ≡ reading (A.setting arith.now) cell }
    ensures number { AreNumbers (A.setting arith.now).meaning A.value result }
{
    Cell {
        sum: arith.read(cell.sum),
        correction: arith.read(cell.correction),
        errors: arith.read(cell.errors),
    }
}

// Cell j after the zero x, from the numbers of the old cells j and j − 1, or the operation that left its range.
#[inline(always)]
#[tactic(auto, unfolding(coefficients::specs::Row::new_cell))]
fn update<A: Arithmetic>(
    arith: &mut A,
    x: A::Number,
    old: Cell<A::Number>,
    before: Cell<A::Number>,
) -> Result<Cell<A::Plain>, Operation>
    requires law { A.lawful arith.old }
    requires number { IsNumber (A.setting arith.old).meaning (A.value x) }
    requires old { AreNumbers (A.setting arith.old).meaning A.value old }
    requires before { AreNumbers (A.setting arith.old).meaning A.value before }
    ensures answer { tried (A.setting arith.old) result ≡ new_cell (A.setting arith.old).meaning (A.value x) (values A.value old) (values A.value before) }
    ensures plain { WritesPlain (A.setting arith.old) result }
    ensures arith { Stays A.setting A.lawful arith.old arith.new }
{
    let (p, beta) = arith
        .split_product(x, before.sum)
        .ok_or(Operation::ProductSplit)?;
    let (s, sigma) = arith.split_sum(old.sum, p).ok_or(Operation::SumSplit)?;
    let w = arith.sum(beta, sigma).ok_or(Operation::LocalError)?;
    let g = arith
        .sum(old.correction, w)
        .ok_or(Operation::CorrectionSum)?;
    let h = arith
        .product(x, before.correction)
        .ok_or(Operation::CorrectionProduct)?;
    let c = arith.sum(g, h).ok_or(Operation::Correction)?;
    let f = arith
        .sum(old.errors, arith.size(w))
        .ok_or(Operation::ErrorsSum)?;
    let t = arith
        .product(arith.size(x), before.errors)
        .ok_or(Operation::ErrorsProduct)?;
    let e = arith.sum(f, t).ok_or(Operation::Errors)?;
    Ok(Cell {
        sum: arith.plain(s),
        correction: arith.plain(c),
        errors: arith.plain(e),
    })
}

// Tries the orders n down to 1 of an addition, and writes none. The numbers of cell j are carried over to the next order, so each
// cell is read once.
#[tactic(auto, using(crate::proofs::Trying::nothing_refused, crate::proofs::Trying::refused_first, crate::proofs::Cells::reads_in_row))]
fn try_orders<A: Arithmetic>(
    arith: &mut A,
    x: A::Number,
    row: &[Cell<A::Plain>],
    n: usize,
) -> Result<(), OutOfRange>
    requires law { A.lawful arith.old }
    requires number { IsNumber (A.setting arith.old).meaning (A.value x) }
    requires within { n < length row.now }
    ensures answer { Tells result (row_after (A.setting arith.old).meaning (A.value x) (readings (A.setting arith.old) row.now) n) }
    ensures arith { Stays A.setting A.lawful arith.old arith.new }
{
    let mut old = read(arith, row[n]);
    for order in (1..=n).rev() {
        let before = read(arith, row[order - 1]);
        update(arith, x, old, before).map_err(|operation| OutOfRange { order, operation })?;
        old = before;
    }
    Ok(())
}

// The cell of an order, from the cell of order 0 and those that follow it.
fn cell_of<P: Copy>(first: Cell<P>, rest: &[Cell<P>], order: usize) -> Cell<P>
    requires { order ≤ length rest.now }
    ensures { result ≡ slice_index_or (first ∷ rest.now) order first }
{
    if order == 0 { first } else { rest[order - 1] }
}

// Writes the orders n down to 1 of an addition that was tried and not refused. Order k stands at rest[k − 1]; the cell of order 0 is
// given beside them, to be read. (A loop of its own: one function with a closure for each new cell would have to take the row to be
// written for a trial too, and to state what the closure does with each cell.)
#[tactic(auto, using(crate::proofs::Writing::begins, crate::proofs::Writing::ends, crate::proofs::Cells::reads_in_row))]
fn write_orders<A: Arithmetic>(
    arith: &mut A,
    x: A::Number,
    first: Cell<A::Plain>,
    rest: &mut [Cell<A::Plain>],
    n: usize,
)
    requires law { A.lawful arith.old }
    requires number { IsNumber (A.setting arith.old).meaning (A.value x) }
    requires within { n ≤ length rest.old }
    requires tried { Tells (Ok tt) (row_after (A.setting arith.old).meaning (A.value x) (readings (A.setting arith.old) (first ∷ rest.old)) n) }
    ensures cells { Added (A.setting arith.old) (A.value x) n (Ok tt) (first ∷ rest.old) (first ∷ rest.new) }
    ensures arith { Stays A.setting A.lawful arith.old arith.new }
{
    let mut old = read(arith, cell_of(first, rest, n));
    for order in (1..=n).rev() {
        let before = read(arith, cell_of(first, rest, order - 1));
        rest[order - 1] = update(arith, x, old, before).unwrap();
        old = before;
    }
}

// Adds the zero x as zero number `number`: to the orders 1 to min(number, K), where the row has K + 1 cells. The row is tried whole
// before a cell is written; then the part that starts at cell 1 is lent on to be written, so cell 0 stays.
#[tactic(auto, using(crate::proofs::Trying::refused))]
pub fn add<A: Arithmetic>(
    arith: &mut A,
    x: A::Number,
    row: &mut [Cell<A::Plain>],
    number: usize,
) -> Result<(), OutOfRange>
    requires law { A.lawful arith.old }
    requires number { IsNumber (A.setting arith.old).meaning (A.value x) }
    requires some { 0 < length row.old }
    ensures cells { Added (A.setting arith.old) (A.value x) (min number (length row.old - 1)) result row.old row.new }
    ensures arith { Stays A.setting A.lawful arith.old arith.new }
{
    let n = number.min(row.len() - 1);
    try_orders(arith, x, row, n)?;
    write_orders(arith, x, row[0], &mut row[1..], n);
    Ok(())
}

// Writes one value into every place. The slice's own `fill` asks for a `clone` that cannot fail, which `Copy` does not say.
fn fill<T: Copy>(row: &mut [T], value: T)
    ensures { row.new ≡ replicate (length row.old) value }
{
    row.fill_with(|| value);
}

// A cell of zeros, as the arithmetic writes them.
pub fn empty<A: Arithmetic>(arith: &A) -> Cell<A::Plain>
    requires law { A.lawful arith.now }
    ensures plain { result ≡ plain_cell (A.setting arith.now) no_cell }
    ensures reads { reading (A.setting arith.now) result ≡ no_cell }
{
    let zero = arith.plain(arith.zero());
    Cell {
        sum: zero,
        correction: zero,
        errors: zero,
    }
}

// Makes a row new, whatever it held.
#[tactic(auto, using(crate::proofs::Renewal::renewed_cells, crate::proofs::Renewal::renewed_reads, crate::proofs::Renewal::first_set_long))]
pub fn renew<A: Arithmetic>(arith: &A, row: &mut [Cell<A::Plain>])
    requires law { A.lawful arith.now }
    requires some { 0 < length row.old }
    ensures { Renewed (A.setting arith.now) row.old row.new }
{
    let zeros = empty(arith);
    fill(row, zeros);
    row[0] = Cell {
        sum: arith.plain(arith.one()),
        ..zeros
    };
}
