// Works whole cards through benches, and compares each answer with that of an outside library, read from standard input.
//
// A line `card binary64 3` or `card decimal8 3` opens a card of highest order 3, in binary64 or in decimal with eight digits (`decimal4` to
// `decimal7` are those of fewer). Its lines are `add X = Z 1`, with the number of the zero; `ask 2 = K 2 V B`, with the value and the bound;
// `mark 1 C T = M 1 right`, `wrong` or `open`, with a claim and a tolerance. A refused call has `R`, the number of the refusal and its details.
// Lines that begin with `#` are comments.
#![tactic(auto)]

ghost use Rattle.std.specs.Prelude.{◌≡◌, ◌<◌, ◌==◌, ◌↔◌, IsTrue, IfOk};
ghost use Rattle.std.specs.List.{before_first, after_first};
ghost use Rattle.arithmetic.specs.Setting.{Stays};
ghost use Rattle.bench.specs.Benches.{making_of, state_of, Keeps};
ghost use Rattle.cards.specs.Checks.{Agrees, LeadsTo};
ghost use Rattle.cards.specs.Cards.{is_comment as comment, IsCardScore, IsHeadedBy, NotesCard};

use arithmetic::Arithmetic;
use bench::Bench;
use binary64::Binary64;
use call::told;
use calls::work::work;
use comparison::score::Score;
use comparison::{compare, read_count};
use decimal::Decimal;
use formats::Format;
use row::empty;
use std::io;
use tally::Tallies;

mod call;
mod tally;

// Works the call of a line, and answers whether what it answers is what the line expects. Prints a line that does not agree, or that tells no call.
fn check<A: Arithmetic>(
    rt: &HostRuntime,
    bench: &mut Bench<A>,
    arith: &mut A,
    line: &str,
) -> anyhow::Result<bool>
    requires law { A.lawful arith.old }
    ensures agrees { IfOk result (λ agrees. IsTrue agrees ↔ Agrees (making_of (A.setting arith.old) bench.old) (state_of (A.setting arith.old) bench.old) line.now) }
    ensures leads { LeadsTo (making_of (A.setting arith.old) bench.old) (state_of (A.setting arith.old) bench.old) line.now (state_of (A.setting arith.old) bench.new) }
    ensures keeps { Keeps (A.setting arith.old) bench.old bench.new }
    ensures arith { Stays A.setting A.lawful arith.old arith.new }
{
    let Some((call, expected)) = told(line) else {
        println!(rt; "not a call: {line}")?;
        return Ok(false);
    };
    let answer = work(bench, arith, call);
    compare(rt, &answer, expected, line)
}

// Whether a line is a comment.
fn is_comment(line: &str) -> bool
    ensures { result ≡ comment line.now }
{
    line.starts_with('#')
}

// Works the lines of a card of highest order k, given its text, but for its comments, and answers their score; there is none of order 0 or above 64.
fn work_card<A: Arithmetic>(
    rt: &HostRuntime,
    arith: &mut A,
    k: u8,
    text: &str,
) -> anyhow::Result<Score>
    requires law { A.lawful arith.old }
    ensures { IfOk result (λ score. IsCardScore (A.setting arith.old).meaning k text.now score) }
{
    let mut score = Score::new();
    if k == 0 || k > 64 {
        println!(rt; "no highest order: {k}")?;
        score.note(false);
        return Ok(score);
    }
    let mut row = vec![in rt.alloc(); empty(arith); k as usize + 1]?;
    let mut bench = Bench::make(arith, &mut row, 1);
    for line in text.lines() {
        if !is_comment(line) {
            score.note(check(rt, &mut bench, arith, line)?);
        }
    }
    Ok(score)
}

// What stands before the first such character of a text, and what stands after it; all of the text, and nothing, where it has none.
fn parted(text: &str, delimiter: char) -> (&str, &str)
    requires { delimiter < 128 }
    ensures before { result.0.now ≡ before_first (λ c. c == delimiter) text.now }
    ensures after { result.1.now ≡ after_first (λ c. c == delimiter) text.now }
{
    text.split_once(delimiter).unwrap_or((text, ""))
}

// The format and the highest order that a heading names; none where it has another form.
#[tactic(auto, using(crate::proofs::Headings::no_format, crate::proofs::Headings::no_order))]
fn read_heading(heading: &str) -> Option<(Format, u8)>
    ensures { IsHeadedBy heading.now result }
{
    let (name, order) = parted(heading, ' ');
    Some((name.parse().ok()?, read_count(order)?))
}

// Works a card, given by the text after its word `card`, and notes its score; prints a heading that has another form.
#[tactic(auto, using(crate::proofs::Headings::counted_card))]
fn check_card(rt: &HostRuntime, tallies: &mut Tallies, card: &str) -> anyhow::Result<()>
    ensures { IfOk result (λ done. NotesCard tallies.old card.now tallies.new) }
{
    let (heading, text) = parted(card, '\n');
    let Some((format, k)) = read_heading(heading) else {
        println!(rt; "not a card: {heading}")?;
        return Ok(());
    };
    let score = match format {
        Format::Binary64 => work_card(rt, &mut Binary64, k, text)?,
        Format::Decimal(precision) => work_card(rt, &mut Decimal::from(precision), k, text)?,
    };
    tallies.note(format, score);
    Ok(())
}

fn run(rt: &HostRuntime) -> anyhow::Result<()> {
    let text = io::read_to_string(rt.alloc(), rt.stdin())?;
    let mut tallies = Tallies::new();
    for card in text.as_str().split("\ncard ") {
        if !card.starts_with('#') {
            check_card(rt, &mut tallies, card)?;
        }
    }
    println!(rt; "{tallies}")?;
    Ok(())
}

fn main(rt: HostRuntime) -> anyhow::Result<()> {
    run(&rt)
}
