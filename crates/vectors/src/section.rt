// A section of vectors: those that are worked through the arithmetic of one format.
ghost use Rattle.std.specs.Prelude.{◌≡◌, IfOk};
ghost use Rattle.comparison.specs.Words.{words};
ghost use Rattle.formats.specs.Formats.{meaning_of};
ghost use Rattle.formats.specs.Words.{told_format};
ghost use Rattle.vectors.specs.Tallies.{no_vectors};
ghost use Rattle.vectors.specs.Sections.{IsWorkingOf, first_word_of, NotesAnswer, NotesBoth};

use crate::tally::{Operation, Tally};
use crate::vector::parse;
use crate::work::{Worked, work};
use binary64::Binary64;
use comparison::compare;
use decimal::Decimal;
use formats::Format;
use operations::answer::Answer;
use std::fmt;

// The format that it names, and what is counted of its vectors.
#[derive(Drop)]
pub struct Section {
    format: Format,
    tally: Tally,
}

impl fmt::Display for Section {
    fn fmt<W: fmt::Write>(&self, f: &mut fmt::Formatter<W>) -> fmt::Result {
        write!(f, "{}\n{}", self.format, self.tally)
    }
}

impl Section {
    pub fn new(format: Format) -> Section
        ensures { (result.format ≡ format) × (result.tally ≡ no_vectors) }
    {
        Section {
            format,
            tally: Tally::new(),
        }
    }

    // Works a question through the arithmetic of the section; none where it is no vector.
    pub fn work(&self, question: &str) -> Option<Worked>
        ensures { IsWorkingOf (meaning_of (told_format self.now.format)) (words question.now) result }
    {
        let vector = parse(question)?;
        Some(match self.format {
            Format::Binary64 => work(&mut Binary64, vector),
            Format::Decimal(precision) => work(&mut Decimal::from(precision), vector),
        })
    }

    // Compares an answer with the expected one, and counts it.
    fn compare(
        &mut self,
        rt: &HostRuntime,
        answered: (Operation, Answer),
        expected: &str,
        line: &str,
    ) -> anyhow::Result<()>
        ensures counts { IfOk result (λ _. NotesAnswer self.old.tally answered expected.now self.new.tally) }
        ensures format { self.new.format ≡ self.old.format }
    {
        let (operation, answer) = answered;
        self.tally
            .note(operation, compare(rt, &answer, expected, line)?);
        Ok(())
    }

    // Compares what a line was worked to with what stands after its ` = `.
    pub fn settle(
        &mut self,
        rt: &HostRuntime,
        worked: Worked,
        expected: &str,
        line: &str,
    ) -> anyhow::Result<()>
        ensures counts { IfOk result (λ _. NotesBoth self.old.tally worked expected.now self.new.tally) }
        ensures format { self.new.format ≡ self.old.format }
    {
        if let Some(rounded) = worked.rounded {
            self.compare(rt, rounded, first_word(expected), line)?;
        }
        self.compare(rt, worked.whole, expected, line)
    }
}

// The first word of an answer.
fn first_word(answer: &str) -> &str
    ensures { result.now ≡ first_word_of answer.now }
{
    answer.split_once(' ').map_or(answer, |(first, _)| first)
}
