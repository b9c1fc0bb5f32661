//! A System V message queue at which callers wait: messages of a type and a text are sent last, and received first or
//! by their type; a send for which there is no room, and a receive for which there is no message, waits until a change
//! of the queue lets it go on.
#![tactic(auto)]

mod awaiting;
mod calls;
mod fault;
mod held;
mod links;
mod message;
mod pack;
mod packed;
mod queue;
mod reading;
mod room;
mod store;
mod tail;
mod unpack;

pub use fault::{ReceiveFault, SendFault};
pub use held::HeldQueue;
pub use message::Message;
pub use queue::Queue;
