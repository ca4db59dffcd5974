// How many answers agree with the outside library's, for each operation.
ghost use Rattle.std.specs.Prelude.{◌≡◌};
ghost use Rattle.vectors.specs.Tallies.{no_vectors, noted};

use comparison::score::Score;
use std::fmt;

#[derive(Clone, Copy)]
pub enum Operation {
    Sum,
    SplitSum,
    Product,
    SplitProduct,
    Lift,
    Admission,
    Comparison,
}

// A count for each, by name, as what is counted is defined; an array of them would only add an index to prove.
#[derive(Clone, Copy)]
pub struct Tally {
    sum: Score,
    split_sum: Score,
    product: Score,
    split_product: Score,
    lift: Score,
    admission: Score,
    comparison: Score,
}

impl Tally {
    pub fn new() -> Tally
        ensures { result ≡ no_vectors }
    {
        Tally {
            sum: Score::new(),
            split_sum: Score::new(),
            product: Score::new(),
            split_product: Score::new(),
            lift: Score::new(),
            admission: Score::new(),
            comparison: Score::new(),
        }
    }

    // Counts one answer of an operation.
    pub fn note(&mut self, operation: Operation, agrees: bool)
        ensures { self.new ≡ noted self.old operation agrees }
    {
        match operation {
            Operation::Sum => self.sum.note(agrees),
            Operation::SplitSum => self.split_sum.note(agrees),
            Operation::Product => self.product.note(agrees),
            Operation::SplitProduct => self.split_product.note(agrees),
            Operation::Lift => self.lift.note(agrees),
            Operation::Admission => self.admission.note(agrees),
            Operation::Comparison => self.comparison.note(agrees),
        }
    }
}

// A line for each operation.
impl fmt::Display for Tally {
    fn fmt<W: fmt::Write>(&self, f: &mut fmt::Formatter<W>) -> fmt::Result {
        let Tally {
            sum,
            split_sum,
            product,
            split_product,
            lift,
            admission,
            comparison,
        } = *self;
        writeln!(f, "rounded sum: {sum}")?;
        writeln!(f, "sum split: {split_sum}")?;
        writeln!(f, "rounded product: {product}")?;
        writeln!(f, "product split: {split_product}")?;
        writeln!(f, "lift: {lift}")?;
        writeln!(f, "admission: {admission}")?;
        write!(f, "comparison: {comparison}")
    }
}
