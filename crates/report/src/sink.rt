// Where the lines of a report go.
ghost use Rattle.std.specs.Prelude.{List, ℕ, [], ◌++◌};
ghost use Rattle.report.specs.Puts.{Puts};

// What takes bytes one after the other, and may refuse.
pub trait Sink {
    // Why it refuses. Code that is written over every sink cannot make one: it has those alone that `put` answers.
    type Refusal;

    // From one state to another it has taken just these bytes.
    ghost takes: { Self → Self → List ℕ → Type 0 };

    // Takes some bytes; or refuses, and has taken a beginning of them.
    fn put(&mut self, bytes: &[u8]) -> Result<(), Self::Refusal>
        ensures { Puts takes self.old self.new bytes.now result };

    ghost nothing: { (s : Self) → takes s s [] };

    ghost in_turn: { (r s t : Self) (xs ys : List ℕ) → takes r s xs → takes s t ys → takes r t (xs ++ ys) };
}
