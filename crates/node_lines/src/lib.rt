//! A node's streams with the other nodes: it looks for frames on them, one after the other, and sends frames.
#![tactic(auto)]

mod end;
mod line;
mod looks;
mod sends;

pub use end::{End, Ends};
pub use line::{Line, Lines};
pub use looks::{are_silent, look_at_each, note_silences};
pub use sends::{may_send, send_each};
