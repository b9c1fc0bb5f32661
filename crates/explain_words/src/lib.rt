//! Why the words behind `./pico` were refused.
#![tactic(auto)]

mod explained;
mod given;
mod modes;
mod seeds;

pub use explained::explain_words;
pub use given::{Given, Placed};
pub use modes::Mode;
