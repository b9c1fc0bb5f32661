//! New numbers, what a node gives them to, and the frames that bring more of them.
#![tactic(auto)]

mod forking;
mod making;
mod numbers;
mod ranges;

pub use making::{make, new_queue, new_set};
pub use numbers::{may_take_number, take_number};
pub use ranges::{take_lease, take_lease_ask, take_placed};
