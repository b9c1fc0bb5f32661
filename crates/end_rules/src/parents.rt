//! The parent of a process that ends, where it is a node's own process.
ghost use Rattle.std.specs.Prelude.{◌≡◌, false};
ghost use Rattle.std.specs.Option.{option_copied, option_map, option_map_or};
ghost use Rattle.node_model.specs.Serving.{child_strikes};
ghost use Rattle.node_serve.specs.Bodies.{row_of};
ghost use Rattle.node_serve.specs.Ending.{parked_for};
ghost use Rattle.world_model.specs.Ends.{is_struck_by_end, parked_parent, waits_for_child};
ghost use Rattle.node_state.specs.State.{node_of};

use node_serve::Row;
use node_state::State;
use pico_base::{Call, Pid, Sig};

/// The children that a `waitpid` waits for that doesn't return at once, where this call is one.
fn waits_for_child(call: Option<&Call>) -> Option<Option<Pid>>
    ensures { parked_for result ≡ waits_for_child (option_copied call.entry) }
{
    match call {
        Some(
            Call::WaitPid {
                child,
                nohang: false,
            },
        ) => Some(*child),
        _ => None,
    }
}

/// The children that the parent waits for, where it is this node's own process and waits in a `waitpid`.
pub(crate) fn parked_parent(node: &State, parent: Pid) -> Option<Option<Pid>>
    ensures { parked_for result ≡ parked_parent (node_of node.now) parent }
{
    if parent != node.pid {
        return None;
    }
    waits_for_child(node.caller.under_way())
}

/// Whether the end of a child strikes the parent with this row, where there is one.
fn child_strikes(row: Option<&Row>) -> bool
    ensures { result ≡ option_map_or child_strikes (option_map row_of (option_copied row.entry)) false }
{
    match row {
        Some(row) => !row.signals.ignores(Sig::Chld) && row.signals.arrives(Sig::Chld),
        None => false,
    }
}

/// Whether it is the end of this node's own child, by which a signal strikes its process.
pub(crate) fn is_struck_by_end(node: &State, parent: Pid) -> bool
    ensures { result ≡ is_struck_by_end (node_of node.now) parent }
{
    parent == node.pid && child_strikes(node.own_row())
}
