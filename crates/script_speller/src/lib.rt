//! Spells a script: the text that reads as it.
#![tactic(auto)]

mod calls;
mod text;
mod words;

pub use text::script_text;
