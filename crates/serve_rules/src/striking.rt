//! Whether a call is a signal that strikes the node's own process.
ghost use Rattle.std.specs.Prelude.{◌≡◌, false};
ghost use Rattle.std.specs.Option.{option_copied, option_map, option_map_or};
ghost use Rattle.waiting_model.specs.Marks.{strikes};
ghost use Rattle.world_model.specs.Serving.{is_struck};
ghost use Rattle.node_serve.specs.Bodies.{row_of};
ghost use Rattle.node_state.specs.State.{node_of};
ghost use Rattle.serve_rules.specs.Sent.{sent_by};

use node_serve::Row;
use node_state::State;
use pico_base::{Call, Name, Sig, SigArg};

/// The signal that the call sends.
fn sent_by(call: &Call) -> Option<Sig>
    ensures { result ≡ sent_by call.now }
{
    match call {
        Call::Kill {
            sig: SigArg::Is(sig),
            ..
        } => Some(*sig),
        _ => None,
    }
}

/// Whether the signal strikes the process with this row, where there is one.
fn strikes(row: Option<&Row>, sig: Sig) -> bool
    ensures { result
        ≡ option_map_or (λ at. strikes at.signals sig) (option_map row_of (option_copied row.entry)) false }
{
    match row {
        Some(row) => row.signals.arrives(sig),
        None => false,
    }
}

/// Whether the call is a signal to this node's own process, which it strikes.
#[inline(always)]
pub(crate) fn is_struck(node: &State, name: &Name, call: &Call) -> bool
    ensures { result ≡ is_struck (node_of node.now) name.now call.now }
{
    match sent_by(call) {
        Some(sig) => *name == Name::Proc(node.pid) && strikes(node.own_row(), sig),
        None => false,
    }
}
