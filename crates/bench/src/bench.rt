// A bench.
ghost use Rattle.std.specs.Prelude.{◌≤◌, length};

use arithmetic::Arithmetic;
use row::cell::Cell;

// The row that the caller lends, the caller's number for the bench, the count of zeros held and of questions out.
#[derive(Drop)]
pub struct Bench<'r, A: Arithmetic> {
    pub(crate) row: &'r mut [Cell<A::Plain>],
    pub(crate) number: u16,
    pub(crate) held: u8,
    pub(crate) out: u8,
    ghost some_cells: { 2 ≤ length row.now },
    ghost few_cells: { length row.now ≤ 65 },
    ghost few_held: { held ≤ 64 },
    ghost few_out: { out ≤ 32 },
}
