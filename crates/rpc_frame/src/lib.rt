//! The frames that picoprocesses send each other. They share no memory: what one of them knows of another, a frame
//! told it.
#![tactic(auto)]

mod asked;
mod deed;
mod frame;

pub use asked::Asked;
pub use deed::{PackedDeed, PackedDeeds, Parcel};
pub use frame::{Frame, Frames};
