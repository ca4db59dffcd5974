// Binary64 as an arithmetic: IEEE 754 doubles at most 2^900 in size, every operation rounded once to nearest, ties to even.
#![tactic(auto)]

ghost use Rattle.binary64.specs.Patterns.{setting as setting_of};
ghost use Rattle.binary64.specs.Doubles.{units};
ghost use Rattle.binary64.specs.TheRules;
ghost use Rattle.binary64.specs.PlainValues;

use crate::double::Double;
use arithmetic::Arithmetic;
use arithmetic::cause::Cause;

mod bytes;
pub mod double;
mod exact;
mod lifting;
mod limits;
mod products;
mod steps;
mod sums;

#[derive(Clone, Copy)]
pub struct Binary64;

// Each method is one call: the bodies stand by topic in the modules, and are proved there from lemmas over floats.
impl Arithmetic for Binary64 {
    type Number = Double;
    // the 64 bits
    type Plain = u64;

    ghost setting = { λ _. setting_of };

    ghost value = { units };

    ghost lawful = { λ _. Unit {0} };

    ghost rules = { λ s h. TheRules.rules };

    ghost plain_values = { λ s h p. PlainValues.zero_or_written p };

    fn split_sum(&mut self, a: Double, b: Double) -> Option<(Double, Double)> {
        sums::split_sum(a, b)
    }

    fn split_product(&mut self, a: Double, b: Double) -> Option<(Double, Double)> {
        products::split_product(a, b)
    }

    fn lift(&mut self, a: Double, k: u8) -> Option<Double> {
        lifting::lift(a, k)
    }

    fn grain(&self, k: u8) -> Double {
        lifting::grain(k)
    }

    fn size(&self, a: Double) -> Double {
        exact::size(a)
    }

    fn negative(&self, a: Double) -> Double {
        exact::negative(a)
    }

    fn at_most(&self, a: Double, b: Double) -> bool {
        exact::at_most(a, b)
    }

    fn is_in_limits(&self, a: Double) -> bool {
        exact::is_in_limits(a)
    }

    fn zero(&self) -> Double {
        exact::zero()
    }

    fn one(&self) -> Double {
        exact::one()
    }

    fn read(&self, p: u64) -> Double {
        bytes::read(p)
    }

    fn plain(&self, a: Double) -> u64 {
        bytes::plain(a)
    }

    fn admit(&self, bytes: &[u8; 8]) -> Result<Double, Cause> {
        bytes::admit(bytes)
    }

    fn pattern(&self, a: Double) -> [u8; 8] {
        bytes::pattern(a)
    }
}
