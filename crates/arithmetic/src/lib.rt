// What an arithmetic is: the trait that a binary or decimal format implements, and over which the bench is written once.
#![tactic(auto)]

ghost use Rattle.std.specs.Prelude.{◌≡◌, ◌≤◌, ℤ, pos, neg_ℤ, int_le};
ghost use Rattle.arithmetic.specs.Meaning.{Number as IsNumber};
ghost use Rattle.arithmetic.specs.Operations.{in_limits, sum as rounded_sum, product as rounded_product, sum_split, product_split, lift as lifted, grain as grain_of, size as size_of};
ghost use Rattle.arithmetic.specs.Rules.{Rules};
ghost use Rattle.arithmetic.specs.Setting.{Setting, ZeroOrWritten, Rounds, Splits, Admits, admission};

use cause::Cause;

pub mod cause;

// The five rounded operations take `&mut self`: an arithmetic may count what it is asked. The others are exact. So each of them, and
// each function above that calls them, promises that the arithmetic is set as before (`Stays`): no type says what stays behind `&mut`.
// Which values of `Number` are numbers of the arithmetic depends on its own value, so operands are required to be numbers: no invariant
// of their type could say it.
pub trait Arithmetic: Sized {
    type Number: Copy;
    // what a cell keeps of a number
    type Plain: Copy;

    // all that depends on the arithmetic's own value: its meaning, and how plain values are read and written
    ghost setting: { Self → Setting Self.Plain };
    // the multiple of 1/Q that a number stands for
    ghost value: { Self.Number → ℤ };
    // the arithmetic's limits are lawful: a condition on its value and no invariant of its type, as the project's rules have it
    ghost lawful: { Self → Type 0 };

    // The rounded sum.
    #[inline(always)]
    #[tactic(auto, using(crate::proofs::Mains::sum_refused, crate::proofs::Mains::sum_given))]
    fn sum(&mut self, a: Self::Number, b: Self::Number) -> Option<Self::Number>
        requires law { lawful self.old }
        requires left { IsNumber (setting self.old).meaning (value a) }
        requires right { IsNumber (setting self.old).meaning (value b) }
        ensures { Rounds setting lawful value self.old self.new result (rounded_sum (setting self.old).meaning (value a) (value b)) }
    {
        let (main, _) = self.split_sum(a, b)?;
        Some(main)
    }

    // The rounded product.
    #[inline(always)]
    #[tactic(auto, using(crate::proofs::Mains::product_refused, crate::proofs::Mains::product_given))]
    fn product(&mut self, a: Self::Number, b: Self::Number) -> Option<Self::Number>
        requires law { lawful self.old }
        requires left { IsNumber (setting self.old).meaning (value a) }
        requires right { IsNumber (setting self.old).meaning (value b) }
        ensures { Rounds setting lawful value self.old self.new result (rounded_product (setting self.old).meaning (value a) (value b)) }
    {
        let (main, _) = self.split_product(a, b)?;
        Some(main)
    }

    // The rounded sum and its error part.
    fn split_sum(
        &mut self,
        a: Self::Number,
        b: Self::Number,
    ) -> Option<(Self::Number, Self::Number)>
        requires law { lawful self.old }
        requires left { IsNumber (setting self.old).meaning (value a) }
        requires right { IsNumber (setting self.old).meaning (value b) }
        ensures { Splits setting lawful value self.old self.new result (sum_split (setting self.old).meaning (value a) (value b)) };

    // The rounded product and its error part.
    fn split_product(
        &mut self,
        a: Self::Number,
        b: Self::Number,
    ) -> Option<(Self::Number, Self::Number)>
        requires law { lawful self.old }
        requires left { IsNumber (setting self.old).meaning (value a) }
        requires right { IsNumber (setting self.old).meaning (value b) }
        ensures { Splits setting lawful value self.old self.new result (product_split (setting self.old).meaning (value a) (value b)) };

    // a lifted by k: a / (1 − k u), rounded. (k is at most 192; a type for it would ask the same where a k is made.)
    fn lift(&mut self, a: Self::Number, k: u8) -> Option<Self::Number>
        requires law { lawful self.old }
        requires number { IsNumber (setting self.old).meaning (value a) }
        requires few { k ≤ 192 }
        ensures { Rounds setting lawful value self.old self.new result (lifted (setting self.old).meaning (value a) k) };

    // The grain k u.
    fn grain(&self, k: u8) -> Self::Number
        requires law { lawful self.now }
        requires few { k ≤ 192 }
        ensures answer { value result ≡ grain_of (setting self.now).meaning k }
        ensures number { IsNumber (setting self.now).meaning (value result) };

    fn size(&self, a: Self::Number) -> Self::Number
        requires law { lawful self.now }
        requires number { IsNumber (setting self.now).meaning (value a) }
        ensures answer { value result ≡ size_of (value a) }
        ensures number { IsNumber (setting self.now).meaning (value result) };

    fn negative(&self, a: Self::Number) -> Self::Number
        requires law { lawful self.now }
        requires number { IsNumber (setting self.now).meaning (value a) }
        ensures answer { value result ≡ neg_ℤ (value a) }
        ensures number { IsNumber (setting self.now).meaning (value result) };

    // Whether a is at most b.
    fn at_most(&self, a: Self::Number, b: Self::Number) -> bool
        requires law { lawful self.now }
        requires left { IsNumber (setting self.now).meaning (value a) }
        requires right { IsNumber (setting self.now).meaning (value b) }
        ensures { result ≡ int_le (value a) (value b) };

    // Whether a is zero, or from low to high in size.
    fn is_in_limits(&self, a: Self::Number) -> bool
        requires law { lawful self.now }
        requires number { IsNumber (setting self.now).meaning (value a) }
        ensures { result ≡ in_limits (setting self.now).meaning (value a) };

    fn zero(&self) -> Self::Number
        requires law { lawful self.now }
        ensures answer { value result ≡ pos 0 }
        ensures number { IsNumber (setting self.now).meaning (value result) };

    fn one(&self) -> Self::Number
        requires law { lawful self.now }
        ensures answer { value result ≡ pos (setting self.now).meaning.Q }
        ensures number { IsNumber (setting self.now).meaning (value result) };

    // The number that a plain value stands for; 0 where it stands for none.
    fn read(&self, p: Self::Plain) -> Self::Number
        requires law { lawful self.now }
        ensures answer { value result ≡ (setting self.now).reads p }
        ensures number { IsNumber (setting self.now).meaning (value result) };

    // The plain value of a number, which reads as that number.
    fn plain(&self, a: Self::Number) -> Self::Plain
        requires law { lawful self.now }
        requires number { IsNumber (setting self.now).meaning (value a) }
        ensures answer { result ≡ (setting self.now).plain (value a) }
        ensures back { (setting self.now).reads result ≡ value a };

    // The number that eight bytes are admitted as, or the cause.
    fn admit(&self, bytes: &[u8; 8]) -> Result<Self::Number, Cause>
        requires law { lawful self.now }
        ensures answer { admission value result ≡ (setting self.now).meaning.admit bytes.now }
        ensures number { Admits (setting self.now).meaning value result };

    // The eight bytes that a number is written as.
    fn pattern(&self, a: Self::Number) -> [u8; 8]
        requires law { lawful self.now }
        requires number { IsNumber (setting self.now).meaning (value a) }
        ensures { result ≡ (setting self.now).meaning.pattern (value a) };

    ghost rules: { (s : Self) → lawful s → Rules (setting s).meaning };

    // a plain value that is none of those that the arithmetic writes reads as 0
    ghost plain_values: { (s : Self) → lawful s → (p : Self.Plain) → ZeroOrWritten (setting s) p };
}
