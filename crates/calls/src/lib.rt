// The calls of a bench in any arithmetic, with patterns for numbers, and what is answered.
#![tactic(auto)]

pub mod answer;
pub mod call;
pub mod work;
