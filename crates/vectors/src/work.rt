// What a vector is worked to in an arithmetic.
ghost use Rattle.std.specs.Prelude.{◌≡◌};
ghost use Rattle.arithmetic.specs.Setting.{Stays};
ghost use Rattle.vectors.specs.Workings.{worked};

use crate::tally::Operation;
use crate::vector::Vector;
use arithmetic::Arithmetic;
use operations::answer::Answer;
use operations::{admission, at_most, lift, product, split_product, split_sum, sum};

// The answer that stands in the whole of its result, and for a vector with an error part also that of the
// rounded operation, which stands in the result's first word.
#[derive(Clone, Copy)]
pub struct Worked {
    pub rounded: Option<(Operation, Answer)>,
    pub whole: (Operation, Answer),
}

pub fn work<A: Arithmetic>(arith: &mut A, vector: Vector) -> Worked
    requires law { A.lawful arith.old }
    ensures answers { result ≡ worked (A.setting arith.old).meaning vector }
    ensures arith { Stays A.setting A.lawful arith.old arith.new }
{
    match vector {
        Vector::Sum(a, b) => Worked {
            rounded: Some((Operation::Sum, sum(arith, a, b))),
            whole: (Operation::SplitSum, split_sum(arith, a, b)),
        },
        Vector::Product(a, b) => Worked {
            rounded: Some((Operation::Product, product(arith, a, b))),
            whole: (Operation::SplitProduct, split_product(arith, a, b)),
        },
        Vector::Lift(a, k) => Worked {
            rounded: None,
            whole: (Operation::Lift, lift(arith, a, k)),
        },
        Vector::Admit(a) => Worked {
            rounded: None,
            whole: (Operation::Admission, admission(arith, a)),
        },
        Vector::AtMost(a, b) => Worked {
            rounded: None,
            whole: (Operation::Comparison, at_most(arith, a, b)),
        },
    }
}
