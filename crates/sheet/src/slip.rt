// A slip and its fields, which are parts of the sheet.
use crate::place::Place;

// N bytes of the sheet, and where they begin.
#[derive(Clone, Copy)]
pub struct Field<'s, const N: usize> {
    pub bytes: &'s [u8; N],
    pub place: Place,
}

// What is asked of an order.
#[derive(Clone, Copy)]
pub enum Task<'s> {
    Ask {
        order: Field<'s, 1>,
    },
    Examine {
        order: Field<'s, 1>,
        claim: Field<'s, 8>,
        tolerance: Field<'s, 8>,
    },
}

// A zero to be added, and a task; a slip that has neither clears.
#[derive(Clone, Copy)]
pub struct Slip<'s> {
    pub zero: Option<Field<'s, 8>>,
    pub task: Option<Task<'s>>,
}
