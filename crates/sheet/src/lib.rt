// A sheet of bytes: its header, and its slips, read one at a time. Nothing is copied out of it.
#![tactic(auto)]

pub use sheet::{Reader, Sheet};

pub mod fault;
mod fields;
pub mod opening;
pub mod place;
pub mod reader;
pub mod sheet;
pub mod slip;
