//! Several sandboxes in one input: each has a name and a script, and the first fault is that of the whole input. Their
//! traces make one text.
#![tactic(auto)]

mod fault;
mod heading;
mod part;
mod read;
mod text;

pub use fault::{BoxFault, BoxStop};
// The definitions speak of it.
pub use heading::Heading;
pub use read::{Boxes, Sandbox, read_boxes};
pub use text::{Journals, boxes_text, push_named_trace};
