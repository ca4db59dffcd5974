// The calls of a card, and its lines, as they are read.
ghost use Rattle.std.specs.Prelude.{[], ◌∷◌};
ghost use Rattle.comparison.specs.Words.{words};
ghost use Rattle.cards.specs.Questions.{IsCallOf, IsToldBy};

use calls::call::Call;
use comparison::{first_words, read_count, read_pattern};

// The call that a name and one operand tell.
#[tactic(auto, using(crate::proofs::Reading::add_unread, crate::proofs::Reading::ask_unread, crate::proofs::Reading::other_one))]
fn of_one(name: &str, operand: &str) -> Option<Call>
    ensures { IsCallOf (name.now ∷ operand.now ∷ []) result }
{
    match name {
        "add" => Some(Call::Add(read_pattern(operand)?)),
        "ask" => Some(Call::Ask(read_count(operand)?)),
        _ => None,
    }
}

// The call that a name and three operands tell.
#[tactic(auto, using(crate::proofs::Reading::order_unread, crate::proofs::Reading::claim_unread, crate::proofs::Reading::tolerance_unread, crate::proofs::Reading::other_three))]
fn of_three(name: &str, order: &str, claim: &str, tolerance: &str) -> Option<Call>
    ensures { IsCallOf (name.now ∷ order.now ∷ claim.now ∷ tolerance.now ∷ []) result }
{
    match name {
        "mark" => Some(Call::Examine {
            order: read_count(order)?,
            claim: read_pattern(claim)?,
            tolerance: read_pattern(tolerance)?,
        }),
        _ => None,
    }
}

// The call that the words of a line tell; none where they have another form.
#[tactic(auto, using(crate::proofs::Reading::no_name, crate::proofs::Reading::no_operand, crate::proofs::Reading::no_third, crate::proofs::Reading::too_many, crate::proofs::Reading::one_operand, crate::proofs::Reading::three_operands))]
fn parse(question: &str) -> Option<Call>
    ensures { IsCallOf (words question.now) result }
{
    let (name, first, second, third, fourth) = first_words(question);
    let name = name?;
    let first = first?;
    match second {
        None => of_one(name, first),
        Some(second) => {
            let third = third?;
            match fourth {
                None => of_three(name, first, second, third),
                Some(_) => None,
            }
        }
    }
}

// The call that a line tells before its first ` = `, and what is expected after it; none where the line has another form.
#[tactic(auto, using(crate::proofs::Telling::no_parts, crate::proofs::Telling::no_call))]
pub fn told(line: &str) -> Option<(Call, &str)>
    ensures { IsToldBy line.now result }
{
    let (question, expected) = line.split_once(" = ")?;
    let call = parse(question)?;
    Some((call, expected))
}
