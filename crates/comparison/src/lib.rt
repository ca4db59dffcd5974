// What the programs share that compare answers with those of outside libraries: what is read, answers that agree, and scores.
#![tactic(auto)]

ghost use Rattle.std.specs.Prelude.{◌≡◌, ◌↔◌, IsTrue, IfOk, IfSome};
ghost use Rattle.comparison.specs.Words.{Counts, IsWordAt, ReadsPattern};

use patterns::Pattern;
use std::fmt::Display;

pub mod score;

// The first five words of a line, which are parted by spaces; none at the places past its last word.
pub fn first_words(
    line: &str,
) -> (
    Option<&str>,
    Option<&str>,
    Option<&str>,
    Option<&str>,
    Option<&str>,
)
    ensures first { IsWordAt line.now 0 result.0 }
    ensures second { IsWordAt line.now 1 result.1 }
    ensures third { IsWordAt line.now 2 result.2 }
    ensures fourth { IsWordAt line.now 3 result.3 }
    ensures fifth { IsWordAt line.now 4 result.4 }
{
    let mut words = line.split(' ');
    let first = words.next();
    let second = words.next();
    let third = words.next();
    let fourth = words.next();
    let fifth = words.next();
    (first, second, third, fourth, fifth)
}

// The pattern that a word is read as; none where it is read as none.
#[tactic(auto, using(patterns::proofs::Reading::not_both))]
pub fn read_pattern(word: &str) -> Option<Pattern>
    ensures { ReadsPattern word.now result }
{
    word.parse().ok()
}

// The number below 256 that a word writes in decimal digits; none where it is no such word.
pub fn read_count(word: &str) -> Option<u8>
    ensures { Counts word.now result }
{
    word.parse::<u8>().ok()
}

// Whether an answer is shown as the expected one; prints the line and the answer where it is not.
pub fn compare<T: Display>(
    rt: &HostRuntime,
    answer: &T,
    expected: &str,
    line: &str,
) -> anyhow::Result<bool>
    ensures { IfOk result (λ agrees. IfSome (T.output answer.now) (λ shown. IsTrue agrees ↔ (shown ≡ expected.now))) }
{
    let shown = answer.to_string(rt.alloc())?;
    let agrees = shown.as_str() == expected;
    if !agrees {
        println!(rt; "differs: {line}: {shown}")?;
    }
    Ok(agrees)
}
