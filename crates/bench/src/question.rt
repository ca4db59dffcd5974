// A question that a bench has issued.
ghost use Rattle.std.specs.Prelude.{◌≡◌, ◌<◌};

use crate::refusal::Refusal;

// The bench number and the order. A question is made by issuing alone, and must be marked or withdrawn: it cannot be copied, and
// to let one go needs an order above 64, which no issued question has.
pub struct Question {
    pub(crate) bench: u16,
    pub(crate) order: u8,
}

impl Drop for Question {
    fn drop(self)
        requires { 64 < self.order }
    {
        let Question { bench: _, order: _ } = self;
    }
}

impl Question {
    // The order that it is for.
    pub fn order(&self) -> u8
        ensures { result ≡ self.now.order }
    {
        self.order
    }

    // Ends a question that is marked or withdrawn.
    pub(crate) fn spend(self) {
        let Question { bench: _, order: _ } = self;
    }
}

// A refusal that gives the question back.
pub struct GivenBack {
    pub question: Question,
    pub refusal: Refusal,
}
