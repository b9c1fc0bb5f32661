//! The leader sends calls to where they can be carried out, a node takes a frame about a call of another's process, and
//! a signal interrupts a call that waits.
#![tactic(auto)]

mod calls;
mod cancels;
mod keys;
mod moving;
mod routing;

pub use calls::{take_ask, take_bounce, take_forward, take_request};
pub use cancels::{strike, take_cancel};
pub use moving::{hold_item, recall_from};
pub use routing::{may_route, route_call, route_held};
