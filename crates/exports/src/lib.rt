// What a program in C or in Rust can call: the report of a sheet, the operations of each arithmetic on patterns, and a card.
// A static library, over the crates below it.
#![tactic(auto)]

mod card;
mod operating;
mod reporting;
