// Decimal as an arithmetic: the numbers of so many digits, at most 10^40 in size, with the operations of the crate `scientific`.
#![tactic(auto)]

ghost use Rattle.std.specs.Prelude.{◌≡◌};
ghost use Rattle.scientific.specs.Patterns.{setting as setting_of};
ghost use Rattle.scientific.specs.Numbers.{units};
ghost use Rattle.scientific.proofs.TheRules;
ghost use Rattle.scientific.proofs.PlainValues;
ghost use Rattle.decimal.specs.Making.{making_answer, told_making};

use arithmetic::Arithmetic;
use arithmetic::cause::Cause;
use refusal::Refusal;
use scientific::number::Scientific;
use scientific::precision::Precision;
use scientific::written::Written;
use scientific::{bytes, exact, lifting, products, sums};

pub mod refusal;

// Decimal with as many digits as its precision says.
#[derive(Clone, Copy)]
pub struct Decimal {
    precision: Precision,
}

impl Decimal {
    // Decimal with so many digits, four to eight; refused with 20 for any other count.
    pub fn new(digits: u8) -> Result<Decimal, Refusal>
        ensures { told_making result ≡ making_answer digits }
    {
        let precision = Precision::new(digits).ok_or(Refusal::Digits)?;
        Ok(precision.into())
    }
}

// Where there is a count of digits that is from four to eight, nothing is left to be refused.
impl From<Precision> for Decimal {
    ghost from_gives = { λ p r. r.precision ≡ p };

    fn from(precision: Precision) -> Decimal {
        Decimal { precision }
    }
}

impl Arithmetic for Decimal {
    type Number = Scientific;
    // M and e
    type Plain = Written;

    ghost setting = { λ s. setting_of s.precision.digits };

    ghost value = { units };

    ghost lawful = { λ _. Unit {0} };

    ghost rules = { λ s h. TheRules.rules s.precision };

    ghost plain_values = { λ s h p. PlainValues.zero_or_written s.precision p };

    #[inline(always)]
    fn split_sum(&mut self, a: Scientific, b: Scientific) -> Option<(Scientific, Scientific)> {
        sums::split_sum(a, b, self.precision)
    }

    #[inline(always)]
    fn split_product(&mut self, a: Scientific, b: Scientific) -> Option<(Scientific, Scientific)> {
        products::split_product(a, b, self.precision)
    }

    fn lift(&mut self, a: Scientific, k: u8) -> Option<Scientific> {
        lifting::lift(a, k, self.precision)
    }

    fn grain(&self, k: u8) -> Scientific {
        exact::grain(k, self.precision)
    }

    fn size(&self, a: Scientific) -> Scientific {
        exact::size(a)
    }

    fn negative(&self, a: Scientific) -> Scientific {
        exact::negative(a)
    }

    fn at_most(&self, a: Scientific, b: Scientific) -> bool {
        exact::at_most(a, b)
    }

    fn is_in_limits(&self, a: Scientific) -> bool {
        exact::is_in_limits(a)
    }

    fn zero(&self) -> Scientific {
        exact::zero()
    }

    fn one(&self) -> Scientific {
        exact::one()
    }

    fn read(&self, p: Written) -> Scientific {
        bytes::read(p, self.precision)
    }

    #[inline(always)]
    fn plain(&self, a: Scientific) -> Written {
        bytes::plain(a, self.precision)
    }

    fn admit(&self, bytes: &[u8; 8]) -> Result<Scientific, Cause> {
        bytes::admit(bytes, self.precision)
    }

    fn pattern(&self, a: Scientific) -> [u8; 8] {
        bytes::pattern(a, self.precision)
    }
}
