//! Where a call on a name goes.
use pico_base::Node;

/// Where the leader sends a call on a name.
#[derive(Clone, Copy, Debug, PartialEq, Eq)]
pub enum Route {
    /// To this node, which owns the name or will.
    At(Node),
    /// Nowhere yet: the name's deed is on its way to the leader.
    Coming,
    /// To this node, which may have given the name out: its number is in a range of this node.
    Range(Node),
    /// Nowhere: there is no such name.
    Nobody,
}
