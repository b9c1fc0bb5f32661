//! Deeds: the right to carry out calls on a name, together with the state of what it names. Each name has one deed, and
//! the node that holds it is the name's owner.
#![tactic(auto)]

mod deed;
mod deeds;
mod packing;
mod shared;

pub use deed::Deed;
pub use deeds::Deeds;
pub use shared::Shared;
