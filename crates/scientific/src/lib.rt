// Numbers in scientific notation, M × 10^e with up to eight digits, and their operations: every sum, product and lift is rounded once to
// d digits, to nearest, ties to even.
#![tactic(auto)]

ghost use Rattle.scientific.specs.Ties.{TiesToEvenM};

pub mod bytes;
pub mod exact;
mod forms;
pub mod lifting;
mod nearest;
pub mod number;
pub mod precision;
pub mod products;
mod rounded;
pub mod sums;
mod tables;
pub mod written;

// Where another number of d digits is as near to a fraction as its rounding, the rounding is written with an even M.
#[tactic(auto, using(crate::proofs::EvenTies::ties_to_even_M))]
pub fn ties_to_even()
    ensures { TiesToEvenM }
{}
