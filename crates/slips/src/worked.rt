// What the calls of a slip answered.
use calls::answer::Answer;

#[derive(Clone, Copy, PartialEq, Eq, Debug)]
pub struct Worked {
    // to its zero, if it has one
    pub zero: Option<Answer>,
    // to its order, or to the clearing of a slip that has neither
    pub task: Option<Answer>,
}
