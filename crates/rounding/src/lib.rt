// Rounding in any radix, and the error-free transformations of sums and products in radix 2.
#![tactic(auto)]

ghost use Rattle.rounding.specs.Laws.{RoundingLaws};

// The laws of rounding, for every radix, every number of digits and every scale.
pub fn rounding_laws()
    ensures { RoundingLaws }
{}
