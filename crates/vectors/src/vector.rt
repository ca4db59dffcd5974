// The vectors as they are read.
ghost use Rattle.std.specs.Prelude.{[], ◌∷◌};
ghost use Rattle.comparison.specs.Words.{words};
ghost use Rattle.vectors.specs.Questions.{IsVectorOf};

use comparison::{first_words, read_count, read_pattern};
use patterns::Pattern;

#[derive(Clone, Copy)]
pub enum Vector {
    Sum(Pattern, Pattern),
    Product(Pattern, Pattern),
    // a number, and what it is lifted by
    Lift(Pattern, u8),
    Admit(Pattern),
    AtMost(Pattern, Pattern),
}

// The vector that a name and one operand tell.
#[tactic(auto, using(crate::proofs::Reading::admit_unread, crate::proofs::Reading::other_one))]
fn of_one(name: &str, operand: &str) -> Option<Vector>
    ensures { IsVectorOf (name.now ∷ operand.now ∷ []) result }
{
    match name {
        "admit" => Some(Vector::Admit(read_pattern(operand)?)),
        _ => None,
    }
}

// The vector that a name and two operands tell.
#[tactic(auto, using(crate::proofs::Reading::first_unread, crate::proofs::Reading::other_two, crate::proofs::Reading::sum_unread, crate::proofs::Reading::product_unread, crate::proofs::Reading::lift_unread, crate::proofs::Reading::at_most_unread))]
fn of_two(name: &str, first: &str, second: &str) -> Option<Vector>
    ensures { IsVectorOf (name.now ∷ first.now ∷ second.now ∷ []) result }
{
    let a = read_pattern(first)?;
    match name {
        "sum" => Some(Vector::Sum(a, read_pattern(second)?)),
        "product" => Some(Vector::Product(a, read_pattern(second)?)),
        "lift" => Some(Vector::Lift(a, read_count(second)?)),
        "at-most" => Some(Vector::AtMost(a, read_pattern(second)?)),
        _ => None,
    }
}

// The vector that the words of a line tell; none where they have another form.
#[tactic(auto, using(crate::proofs::Reading::no_name, crate::proofs::Reading::no_operand, crate::proofs::Reading::too_many, crate::proofs::Reading::one_operand, crate::proofs::Reading::two_operands))]
pub fn parse(question: &str) -> Option<Vector>
    ensures { IsVectorOf (words question.now) result }
{
    let (name, first, second, third, _) = first_words(question);
    let name = name?;
    let first = first?;
    match second {
        None => of_one(name, first),
        Some(second) => match third {
            None => of_two(name, first, second),
            Some(_) => None,
        },
    }
}
