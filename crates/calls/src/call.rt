// What may be asked of a bench.
use patterns::Pattern;

#[derive(Clone, Copy, PartialEq, Eq, Debug)]
pub enum Call {
    // adds a zero
    Add(Pattern),
    // asks an order
    Ask(u8),
    // issues a question of an order, and marks a claim with a tolerance by it
    Examine {
        order: u8,
        claim: Pattern,
        tolerance: Pattern,
    },
    Clear,
}
