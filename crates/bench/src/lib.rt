// A bench over a lent row of cells: whether a row will do, making, and its six calls, adding, clearing, asking, issuing, marking and
// withdrawing. Generic over the arithmetic, which is handed to each call.
#![tactic(auto)]

ghost use Rattle.std.specs.Prelude.{◌≡◌, length};
ghost use Rattle.coefficients.specs.Calls.{row_refusal};
ghost use Rattle.bench.specs.Answers.{told_row};

pub use bench::Bench;
use refusal::Refusal;
use row::cell::Cell;

mod asking;
pub mod bench;
pub mod question;
mod questions;
pub mod refusal;
mod zeros;

// Question 1, asked before a making: has the row 2 to 65 cells?
pub fn check_row<P>(row: &[Cell<P>]) -> Result<(), Refusal>
    ensures { told_row result ≡ row_refusal (length row.now) }
{
    if row.len() < 2 || row.len() > 65 {
        return Err(Refusal::RowLength);
    }
    Ok(())
}
