//! What the leader holds for a name that is on its way.
use rpc_frame::{Asked, Parcel};

/// What the leader holds for a name until its deed has come.
#[derive(Debug, PartialEq, Eq, Drop)]
pub enum Held {
    /// A call on the name.
    Request(Asked),
    /// The end of a child of this process.
    Ending(Parcel),
}
