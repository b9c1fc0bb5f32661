//! What is told of refused bytes or words, by the line with which the program refused them.
#![tactic(auto)]

mod refusal;

pub use refusal::explain;
