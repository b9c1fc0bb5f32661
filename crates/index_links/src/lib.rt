//! Values of a class each, in one list: in the order in which they came, with the first of each class and the lowest
//! class at hand, and each taken out from where it stands. What is kept of them is linked by index.
#![tactic(auto)]

mod kept;
mod keys;
mod links;
mod places;

pub use links::{Links, Slot};
