//! The gate of one sandbox among several.
ghost use Rattle.std.specs.Prelude.{◌≡◌, ◌+◌, ◌≤◌};

use host_iface::Gate;
use pico_base::Node;

/// A gate that counts nodes over all sandboxes, seen from one of them, before which others have so many nodes.
#[derive(Drop)]
pub(crate) struct Shifted<'a, G> {
    pub gate: &'a G,
    pub before: u8,
}

/// The number over all sandboxes of a node behind so many of others. There are at most 32.
pub(crate) fn node_behind(before: u8, node: Node) -> Node
    ensures { before + node ≤ 32 → result ≡ before + node }
{
    Node(before.saturating_add(node.0).min(32))
}

impl<'a, G: Gate> Gate for Shifted<'a, G> {
    fn pass(&self, node: Node, turn: u64) {
        self.gate.pass(node_behind(self.before, node), turn);
    }

    fn did(&self, node: Node, event: u64) {
        self.gate.did(node_behind(self.before, node), event);
    }
}
