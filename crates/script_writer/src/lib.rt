//! Writes the script of a number.
#![tactic(auto)]

mod generator;

pub use generator::generate;
