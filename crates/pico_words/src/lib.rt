//! The words behind the program's name, and what they ask for.
#![tactic(auto)]

mod words;

pub use words::{Options, Request, request_of};
