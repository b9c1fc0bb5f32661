//! Why a trace was refused. The program's line says where, and which of three causes; what is at fault is found here.
#![tactic(auto)]

mod due;
mod entry;
mod errors;
mod fields;
mod judged;
mod replies;
mod totals;
mod wakes;
mod walk;
mod written;

pub use judged::{explain_trace, trace_line};
