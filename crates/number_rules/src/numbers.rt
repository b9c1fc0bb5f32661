//! The next number of a node's lease.
ghost use Rattle.std.specs.Prelude.{◌≡◌, ◌+◌, ◌<◌, ◌^◌, ◌&&◌, IfOk, OnOk, Some, None, [], false, not};
ghost use Rattle.node_model.specs.Directory.{has_more, upcoming};
ghost use Rattle.node_model.specs.Kinds.{for_kind};
ghost use Rattle.node_model.specs.Leases.{lease_of};
ghost use Rattle.world_model.specs.Numbers.{knows_any, take_number};
ghost use Rattle.node_state.specs.State.{node_of};
ghost use Rattle.number_rules.specs.Taking.{taken};

use node_state::forms::name_of;
use node_state::{LEADER, Leader, State, unreached};
use pico_base::{Kind, Memory};
use pid_space::LEASE;

/// Whether one of the eight numbers from the first on is known as a name.
fn knows_any(leader: &Leader, kind: Kind, first: u32) -> bool
    requires { first + 7 < 2 ^ 32 }
    ensures { result ≡ knows_any leader.now.directory kind (lease_of first) }
{
    if leader.directory.is_past(kind, first) {
        return false;
    }
    for place in 0..LEASE {
        if leader.knows(name_of(kind, first + place)) {
            return true;
        }
    }
    false
}

/// Whether the leader can give itself a further range, none of whose numbers is known as a name.
fn may_take_next(leader: &Leader, kind: Kind) -> bool
    ensures { result ≡ (has_more leader.now.directory kind
        && not (knows_any leader.now.directory kind (lease_of (upcoming leader.now.directory kind)))) }
{
    leader.directory.more(kind) && !knows_any(leader, kind, leader.directory.upcoming(kind))
}

/// Whether the node has a number of the kind to give; the leader's lease never ends.
pub fn may_take_number(node: &State, kind: Kind) -> bool
    ensures { result ≡ false → take_number (node_of node.now) kind ≡ None }
{
    !node.leases.is_used_up(kind) || node.is_leader() && may_take_next(&node.leader, kind)
}

/// The leader gives itself a further range, of which the next number is taken then. Memory, too, where it can't, or the
/// node isn't the leader.
fn take_range(node: &mut State, kind: Kind) -> Result<(), Memory>
    requires { for_kind node.old.leases kind ≡ [] }
    ensures { OnOk result (take_number (node_of node.old) kind ≡ take_number (node_of node.new) kind) }
{
    if !node.is_leader() || !may_take_next(&node.leader, kind) {
        return Err(unreached());
    }
    let first = node.leader.directory.next_range(kind, LEADER)?;
    node.leases.refill(kind, first);
    Ok(())
}

/// The next number of the node's lease. The leader gives itself a further range where it is used up. Memory, too, where
/// there is none to give.
pub fn take_number(node: &mut State, kind: Kind) -> Result<u32, Memory>
    ensures { IfOk result
        (λ number. take_number (node_of node.old) kind ≡ Some (taken number (node_of node.new))) }
{
    if node.leases.is_used_up(kind) {
        take_range(node, kind)?;
    }
    node.leases.take(kind).ok_or(unreached())
}
