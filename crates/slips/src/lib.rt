// The slips of a sheet worked on a bench, one at a time, and what their calls answer.
#![tactic(auto)]

pub mod work;
pub mod worked;
