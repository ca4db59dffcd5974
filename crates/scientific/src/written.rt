// M and e as they are kept in a cell: plain values, which stand for M × 10^e where they are in the one form of their arithmetic.
#[derive(Clone, Copy)]
pub struct Written {
    pub m: i32,
    pub e: i16,
}
