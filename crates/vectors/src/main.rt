// Compares the operations of the arithmetics with those of outside libraries, whose results are read from standard input.
//
// A line `binary64`, or `decimal4` to `decimal8`, opens a section. Its lines are `sum A B = R E` and `product A B = R E`, with the rounded
// result and its error part; `lift A m = R`; `admit A = N`; `at-most A B = yes` or `no`. A refused operation has `-` for its results, a pattern
// that is not admitted `!` and the number of the cause. Lines that begin with `#` are comments.
#![tactic(auto)]

use section::Section;
use std::io::{BufRead, BufReader};

mod section;
mod tally;
mod vector;
mod work;

// Works a line and compares it; prints one that is no vector of a section.
fn check(rt: &HostRuntime, section: Option<&mut Section>, line: &str) -> anyhow::Result<()> {
    if let Some(section) = section
        && let Some((question, expected)) = line.split_once(" = ")
        && let Some(worked) = section.work(question)
    {
        return section.settle(rt, worked, expected, line);
    }
    println!(rt; "not a vector: {line}")?;
    Ok(())
}

// Prints what was counted in a section.
fn report(rt: &HostRuntime, section: Option<Section>) -> anyhow::Result<()> {
    if let Some(section) = section {
        println!(rt; "{section}")?;
    }
    Ok(())
}

fn run(rt: &HostRuntime) -> anyhow::Result<()> {
    let mut section = None;
    for line in BufReader::new(rt.alloc(), rt.stdin())?.lines(rt.alloc()) {
        let line = line?;
        let text = line.as_str();
        if text.starts_with('#') {
            continue;
        }
        if let Ok(format) = text.parse() {
            report(rt, section)?;
            section = Some(Section::new(format));
        } else {
            check(rt, section.as_mut(), text)?;
        }
    }
    report(rt, section)
}

fn main(rt: HostRuntime) -> anyhow::Result<()> {
    run(&rt)
}
