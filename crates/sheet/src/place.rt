// A place in a sheet.

// The number of a slip, from 1, or 0 for the header; and a byte of the sheet, from 0.
#[derive(Clone, Copy, PartialEq, Eq, Debug)]
pub struct Place {
    pub slip: usize,
    pub byte: usize,
}
