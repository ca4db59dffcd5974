// How many cards and calls agree with the expected ones.
ghost use Rattle.std.specs.Prelude.{◌≡◌};
ghost use Rattle.cards.specs.Tallies.{no_cards, noted, no_tallies, noted_of};

use comparison::score::Score;
use formats::Format;
use std::fmt;

// The cards and the calls of an arithmetic. A card agrees if each of its calls does.
#[derive(Clone, Copy)]
pub struct Tally {
    cards: Score,
    calls: Score,
}

impl Tally {
    pub fn new() -> Tally
        ensures { result ≡ no_cards }
    {
        Tally {
            cards: Score::new(),
            calls: Score::new(),
        }
    }

    // Counts a card, given the score of its calls.
    pub fn note(&mut self, calls: Score)
        ensures { self.new ≡ noted self.old calls }
    {
        self.cards.note(calls.is_whole());
        self.calls.gather(calls);
    }
}

impl fmt::Display for Tally {
    fn fmt<W: fmt::Write>(&self, f: &mut fmt::Formatter<W>) -> fmt::Result {
        write!(f, "cards: {}\ncalls: {}", self.cards, self.calls)
    }
}

// A tally for binary64, and one for decimal with any count of digits.
#[derive(Clone, Copy)]
pub struct Tallies {
    binary64: Tally,
    decimal: Tally,
}

impl Tallies {
    pub fn new() -> Tallies
        ensures { result ≡ no_tallies }
    {
        Tallies {
            binary64: Tally::new(),
            decimal: Tally::new(),
        }
    }

    // Counts a card of a format, given the score of its calls.
    pub fn note(&mut self, format: Format, calls: Score)
        ensures { self.new ≡ noted_of self.old format calls }
    {
        match format {
            Format::Binary64 => self.binary64.note(calls),
            Format::Decimal(_) => self.decimal.note(calls),
        }
    }
}

impl fmt::Display for Tallies {
    fn fmt<W: fmt::Write>(&self, f: &mut fmt::Formatter<W>) -> fmt::Result {
        writeln!(f, "{}\n{}", Format::Binary64, self.binary64)?;
        write!(f, "decimal with any count of digits\n{}", self.decimal)
    }
}
