//! Judging a trace: whether it is the text of a history that is legal and fits the script whole, and else its first
//! fault; and the line that says so.
#![tactic(auto)]

mod check;
mod cursor;
mod due;
mod judge;
mod refusal;
mod same;

pub use check::{Legal, check_trace};
pub use refusal::write_refusal;
