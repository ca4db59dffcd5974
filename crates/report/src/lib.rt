// The report of a sheet: its slips are worked on a bench, one at a time, and what they tell is written in lines.
#![tactic(auto)]

pub use report::Report;
pub use sink::Sink;
pub use whole::report_sheet;

mod filling;
mod lines;
pub mod printer;
pub mod refusal;
pub mod region;
pub mod report;
pub mod sink;
pub mod whole;
