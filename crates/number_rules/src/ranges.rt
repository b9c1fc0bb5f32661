//! A node takes a frame about new numbers.
ghost use Rattle.std.specs.Prelude.{◌≡◌, ◌+◌, ◌<◌, ◌^◌, OnOk};
ghost use Rattle.std.specs.List.{list_any};
ghost use Rattle.std.specs.Option.{option_copied};
ghost use Rattle.kernel_model.specs.Script.{IsSoundScript};
ghost use Rattle.node_model.specs.Directory.{place_name};
ghost use Rattle.node_model.specs.Leases.{lease_of};
ghost use Rattle.node_serve.specs.Bodies.{body_of};
ghost use Rattle.world_model.specs.Ranges.{is_listed_here, is_there, lists_child, may_lease, take_lease, take_lease_ask, take_placed};
ghost use Rattle.node_state.specs.Leader.{leader_of};
ghost use Rattle.node_state.specs.State.{node_of};
ghost use Rattle.node_state.specs.Turning.{IsFresh, Turns};
ghost use Rattle.number_rules.specs.Taking.{may_note, taking};

use crate::making::{make, may_make};
use node_serve::Body;
use node_state::forms::{is_node, name_of, takes_number};
use node_state::{Growing, LEADER, Leader, State, TurnFault};
use pico_base::{Call, Kind, Memory, Name, Node, Pid, Script};
use pid_space::LEASE;
use rpc_frame::Frame;

/// The LeaseAsk rule: the next range of the kind is the asking node's.
pub fn take_lease_ask(step: &mut Growing, from: Node, kind: Kind) -> Result<(), TurnFault>
    requires fresh { IsFresh step.old }
    ensures { Turns (take_lease_ask (node_of step.old.node) from kind) step.old step.new result }
{
    if !step.node.is_to_leader(from) || !step.node.leader.directory.more(kind) {
        return Err(TurnFault::NotAllowed);
    }
    let first = step.node.leader.directory.next_range(kind, from)?;
    step.send(from, Frame::Lease { kind, first })?;
    Ok(())
}

/// Whether the process lives and lists the child.
fn lists_child(process: &(u32, Body), child: Pid) -> bool
    ensures { result ≡ lists_child child (process.now.0, body_of process.now.1) }
{
    match &process.1 {
        Body::Living(row) => row.family.lists(child),
        _ => false,
    }
}

/// Whether one of the processes lists the child.
fn any_lists(processes: &[(u32, Body)], child: Pid) -> bool
    ensures { result ≡ list_any (λ process. lists_child child (process.0, body_of process.1)) processes.now }
{
    processes.iter().any(|process| lists_child(process, child))
}

/// Whether the number is one of a child of a process that is held here.
fn is_listed_here(node: &State, kind: Kind, number: u32) -> bool
    ensures { result ≡ is_listed_here (node_of node.now) kind number }
{
    match kind {
        Kind::Proc => any_lists(node.deeds.processes(), Pid(number)),
        Kind::Msg | Kind::Sem => false,
    }
}

/// Whether the number names something here already, or a child of a process that is held here.
fn is_there(node: &State, kind: Kind, number: u32) -> bool
    ensures { result ≡ is_there (node_of node.now) kind number }
{
    node.holds(name_of(kind, number)) || is_listed_here(node, kind, number)
}

/// Whether one of the eight numbers from the first on names something here already.
fn is_any_there(node: &State, kind: Kind, first: u32) -> bool
    requires { first + 7 < 2 ^ 32 }
    ensures { result ≡ list_any (is_there (node_of node.now) kind) (lease_of first) }
{
    for place in 0..LEASE {
        if is_there(node, kind, first + place) {
            return true;
        }
    }
    false
}

/// Whether the node may have the numbers from the first on: its own are used up, and none of them names what is here
/// already.
fn may_lease(node: &State, kind: Kind, first: u32) -> bool
    ensures { result ≡ may_lease (node_of node.now) kind first }
{
    node.leases.is_used_up(kind)
        && first > 0
        && first <= u32::MAX - 7
        && !is_any_there(node, kind, first)
}

/// The call under way, where it takes a number of the kind that can be given to what it makes.
fn call_taking(node: &State, kind: Kind) -> Option<&Call>
    ensures { option_copied result ≡ taking (node_of node.now) kind (node_of node.now).caller.under_way }
{
    match node.caller.under_way() {
        Some(call) if takes_number(kind, call) && may_make(node, call) => Some(call),
        _ => None,
    }
}

/// The Lease rule: the call under way takes the first number.
pub fn take_lease(
    step: &mut Growing,
    script: &Script,
    from: Node,
    kind: Kind,
    first: u32,
) -> Result<(), TurnFault>
    requires fresh { IsFresh step.old }
    requires sound { IsSoundScript script.now }
    ensures { Turns (take_lease script.now (node_of step.old.node) from kind first) step.old step.new result }
{
    if from != LEADER || !may_lease(&step.node, kind, first) {
        return Err(TurnFault::NotAllowed);
    }
    let Some(call) = call_taking(&step.node, kind) else {
        return Err(TurnFault::NotAllowed);
    };
    let call = call.try_copy(step.node.alloc)?;
    step.node.leases.refill(kind, first);
    Ok(make(step, script, call, kind)?)
}

/// The leader notes a name's place, where it has none yet.
fn note_place(leader: &mut Leader, name: &Name, at: Node) -> Result<(), Memory>
    ensures { OnOk result (leader_of leader.new
        ≡ record (leader_of leader.old) { directory = place_name leader.old.directory name.now at }) }
{
    let _ = leader.directory.place(*name, at)?;
    Ok(())
}

/// Whether the leader can note this place of the name.
fn may_note(node: &State, script: &Script, from: Node, name: &Name, at: Node) -> bool
    ensures { result ≡ may_note script.now (node_of node.now) from name.now at }
{
    node.is_to_leader(from) && is_node(script, at) && at != LEADER && !node.leases.holds(*name)
}

/// The Placed rule: the leader notes where a new name is.
pub fn take_placed(
    step: &mut Growing,
    script: &Script,
    from: Node,
    name: Name,
    node: Node,
) -> Result<(), TurnFault>
    requires fresh { IsFresh step.old }
    ensures { Turns (take_placed script.now (node_of step.old.node) from name node) step.old step.new result }
{
    if !may_note(&step.node, script, from, &name, node) {
        return Err(TurnFault::NotAllowed);
    }
    note_place(&mut step.node.leader, &name, node)?;
    Ok(())
}
