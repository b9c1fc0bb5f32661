//! Images of a world as text: a script, and the events that led from its opening world to where it was frozen. They are
//! written, and read back in the order in which they happened.
#![tactic(auto)]

mod fault;
mod freezing;
mod image;
mod lines;
mod numbers;
mod order;
mod parts;
mod placed;
mod reading;

pub use fault::{ImageFault, ImageStop};
pub use freezing::freeze;
pub use image::{Said, read_image};
pub use placed::Placed;
