//! What is wrong with the words of a call, in a script's line or in a trace's.
#![tactic(auto)]

mod calls;
mod forms;
mod front;
mod lists;
mod names;
mod needs;
mod numbers;
mod plain;
mod signals;
mod texts;

pub use calls::fault_of;
pub use forms::Form;
pub use front::{Call, FRONT_FORM, front_fault};
pub use lists::but_for_capitals;
pub use names::{Queues, is_call};
pub use numbers::{GREATEST, Range, block_name, count_of, is_block_name, is_variable, number};
pub use plain::{Told, other, others, plain_wrong, text_at};
pub use signals::{is_signal, signal, signal_set};
pub use texts::text as message_text;
