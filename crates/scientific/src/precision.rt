// How many digits the numbers of an arithmetic have.
ghost use Rattle.std.specs.Prelude.{◌≡◌, ◌≤◌, option_map};
ghost use Rattle.scientific.specs.Precisions.{precision};

// From four to eight digits.
#[derive(Clone, Copy, PartialEq, Eq, Debug)]
pub struct Precision {
    pub digits: u8,
    ghost least: { 4 ≤ digits },
    ghost most: { digits ≤ 8 },
}

impl Precision {
    // So many digits; none exactly where they are not from four to eight.
    pub fn new(digits: u8) -> Option<Precision>
        ensures { option_map (λ p. p.digits) result ≡ precision digits }
    {
        if (4..=8).contains(&digits) {
            Some(Precision { digits })
        } else {
            None
        }
    }
}
