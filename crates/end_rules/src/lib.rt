//! A process ends where its parent's deed is, and what was held for a name is released once that has come.
#![tactic(auto)]

mod ends;
mod fitting;
mod parents;
mod releasing;
mod taking;

pub use releasing::release;
pub use taking::{hold_any, take_exit, take_left};
