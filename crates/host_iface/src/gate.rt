//! The gate that the turns of nodes pass.
use pico_base::Node;

/// What a node's thread passes before each of its turns. A test's gate may hold a node there; a gate
/// tells nothing, so that no answer depends on it.
pub trait Gate: Sync {
    /// Is called before each turn of a node. `turn` counts that node's turns from 1.
    fn pass(&self, node: Node, turn: u64);

    /// Is called after each turn in which a node did an event. `event` counts these from 1.
    fn did(&self, node: Node, event: u64);
}

/// The gate that holds nobody: it returns at once.
#[derive(Clone, Copy, Debug, PartialEq, Eq)]
pub struct OpenGate;

impl Gate for OpenGate {
    fn pass(&self, _node: Node, _turn: u64) {}

    fn did(&self, _node: Node, _event: u64) {}
}
