//! The fields of a call's text, read from the front: numbers, names, texts, operations, values and sets. What the
//! trace's printer writes of a field is read as that field, with what follows it left.
#![tactic(auto)]

mod lists;
mod names;
mod numbers;
mod texts;

pub use lists::{set_front, steps_front, values_front};
pub use names::{
    action_front, argument_front, error_front, flag_front, how_front, signal_front, word_front,
};
pub use numbers::{number_front, signed_front};
pub use texts::text_front;
