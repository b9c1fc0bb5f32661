//! The text of a history: written line by line, and read back; and the text of a run's events.
#![tactic(auto)]

mod calls;
mod entries;
mod expected;
mod fault;
mod fields;
mod grammar;
mod names;
mod print;
mod print_calls;
mod print_entries;
mod print_queues;
mod print_replies;
mod print_semaphores;
mod read;
mod replies;
mod steps;
mod text;
mod totals;

pub use entries::{entry_in, is_line};
pub use expected::{behind_call, is_end};
pub use fault::CheckFault;
pub use fields::push_values;
pub use grammar::{is_call, is_outcome, is_reply};
pub use names::push_set;
pub use print::{push_entries, write_trace};
pub use print_calls::push_call;
pub use print_entries::push_outcome;
pub use print_replies::push_reply;
pub use read::{MAX_TRACE, begins_like_totals, fits, next_line, read_trace};
pub use steps::write_steps;
pub use text::{push, push_byte, push_number, push_quoted, push_signed};
pub use totals::{
    Tally, push_entries_total, push_not_ready_total, push_processes_total, push_refused_total,
    push_tally, write_totals,
};
