//! One message: its type and its text.
ghost use Rattle.std.specs.Prelude.{◌≡◌};

use pico_base::{Bytes, Reply};
use std::marker::Model;

/// A message: its type, which POSIX calls `mtype` and which is at least 1 in a queue, and its text.
#[derive(Debug, PartialEq, Eq, Drop)]
pub struct Message {
    pub class: i32,
    pub text: Bytes,
}

impl Model for Message {
    ghost use Rattle.kernel_model.specs.Queue.{Message as Value_};

    ghost Value = { Value_ };

    ghost view = { λ m. record { class = m.class; text = m.text } };

    ghost inverse = { λ m. record { class = m.class; text = m.text } };
}

impl Message {
    /// The message as msgrcv replies it.
    pub fn into_reply(self) -> Reply
        ensures { result ≡ Reply.Message self.class self.text }
    {
        let Message { class, text } = self;
        Reply::Message { class, text }
    }
}
