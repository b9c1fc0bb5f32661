//! A node takes a frame about a queue or set that moves.
ghost use Rattle.std.specs.Prelude.{◌≡◌, ◌&&◌, IfOk, IsTrue, OnOk, Some, unwrap_or};
ghost use Rattle.std.specs.Bool.{OnTrue};
ghost use Rattle.std.specs.List.{list_all};
ghost use Rattle.std.specs.Option.{option_and_then, option_map};
ghost use Rattle.kernel_model.specs.Script.{IsSoundScript};
ghost use Rattle.node_model.specs.Kinds.{get_named, is_object};
ghost use Rattle.node_model.specs.Directory.{arrive, bound_for, held_for, is_coming, place_of, stays};
ghost use Rattle.node_model.specs.Spelling.{read_deed};
ghost use Rattle.node_serve.specs.Bodies.{body_of};
ghost use Rattle.world_model.specs.Node.{holds, is_leader, is_node};
ghost use Rattle.world_model.specs.Calls.{is_from_leader, is_to_leader};
ghost use Rattle.world_model.specs.Step.{with_directory, with_node};
ghost use Rattle.world_model.specs.Moves.{come_back, give_back, goes_on_to, has_nodes, is_at, is_new_here, pass_on};
ghost use Rattle.world_model.specs.Moves.{receive_deed};
ghost use Rattle.world_model.specs.Releases.{release};
ghost use Rattle.world_model.specs.Moves.{suggest, take_give_back, take_grant, take_recall, take_suggest};
ghost use Rattle.node_state.specs.State.{node_of, step_of};
ghost use Rattle.node_state.specs.Turning.{IsFresh, Turns};
ghost use Rattle.move_rules.specs.Coming.{IsDeed, IsUnawaited, TellsDeed, come_unread, deed_of, passed_unread, sent_on};

use deed_box::Shared;
use end_rules::release;
use lease_leader::HeldList;
use node_serve::{Body, callers, is_unawaited};
use node_state::forms::{is_node, is_object};
use node_state::{Growing, LEADER, State, TurnFault, unreached};
use pico_base::{Memory, Name, Node, Script, UnpackFault};
use route_rules::recall_from;
use rpc_frame::{Frame, PackedDeed};
use std::alloc::Global;

/// Whether the leader takes such a Suggest.
fn may_suggest(node: &State, script: &Script, from: Node, name: &Name, to: Node) -> bool
    ensures { result ≡ (is_to_leader (node_of node.now) from && (is_node script.now to && is_object name.now)) }
{
    node.is_to_leader(from) && is_node(script, to) && is_object(name)
}

/// Whether the name is still at the node that suggests it, and the one that it suggests stays.
fn is_worth_it(node: &State, from: Node, name: &Name, to: Node) -> bool
    ensures { result ≡ (is_at from (place_of node.now.leader.directory name.now)
        && stays node.now.leader.directory to) }
{
    node.leader.is_at(*name, from) && node.leader.directory.stays(to)
}

/// The name is asked back for the node, if it is still at the one that suggests it and the node stays.
fn suggest(step: &mut Growing, from: Node, name: Name, to: Node) -> Result<(), Memory>
    requires fresh { IsFresh step.old }
    ensures { OnOk result (step_of step.new ≡ suggest (node_of step.old.node) from name to) }
{
    if !is_worth_it(&step.node, from, &name, to) {
        return Ok(());
    }
    recall_from(step, name, Some(to), from)
}

/// The Suggest rule: the name is asked back for the node, if it is still at the one that suggests it and the node
/// stays.
pub fn take_suggest(
    step: &mut Growing,
    script: &Script,
    from: Node,
    name: Name,
    to: Node,
) -> Result<(), TurnFault>
    requires fresh { IsFresh step.old }
    ensures { Turns (take_suggest script.now (node_of step.old.node) from name to) step.old step.new result }
{
    if !may_suggest(&step.node, script, from, &name, to) {
        return Err(TurnFault::NotAllowed);
    }
    Ok(suggest(step, from, name, to)?)
}

/// Whether a node takes a Recall of such a name, if it holds that.
fn may_recall(node: &State, from: Node, name: &Name) -> bool
    ensures { result ≡ (is_from_leader (node_of node.now) from && is_object name.now) }
{
    node.is_from_leader(from) && is_object(name)
}

/// Whether the name's deed is held here.
fn holds(node: &State, name: &Name) -> bool
    ensures { result ≡ holds (node_of node.now) name.now }
{
    node.holds(*name)
}

/// The deed of a name that is held here goes back to the leader. Memory, too, where the name isn't held.
fn give_back(step: &mut Growing, name: Name) -> Result<(), Memory>
    requires fresh { IsFresh step.old }
    ensures { OnOk result (option_map (give_back (node_of step.old.node) name)
        (get_named (node_of step.old.node).deeds name) ≡ Some (step_of step.new)) }
{
    let deed = step.node.take_deed(name)?;
    step.send(LEADER, Frame::GiveBack { deed })
}

/// The Recall rule: the deed goes back to the leader.
pub fn take_recall(step: &mut Growing, from: Node, name: Name) -> Result<(), TurnFault>
    requires fresh { IsFresh step.old }
    ensures { Turns (take_recall (node_of step.old.node) from name) step.old step.new result }
{
    if !may_recall(&step.node, from, &name) || !holds(&step.node, &name) {
        return Err(TurnFault::NotAllowed);
    }
    Ok(give_back(step, name)?)
}

/// Whether a deed of this name may come: it is of a queue or set that isn't here and whose number isn't still to be
/// given out.
fn is_new_here(node: &State, name: &Name) -> bool
    ensures { result ≡ is_new_here (node_of node.now) name.now }
{
    is_object(name) && !node.holds(*name) && !node.leases.holds(*name)
}

/// The body of these bytes that goes with the name, where they are such a body's.
fn read(alloc: Global, name: Name, bytes: &[u8]) -> Result<Option<Body>, Memory>
    ensures { IfOk result (TellsDeed (deed_of name bytes.now)) }
{
    match <Body as Shared>::unpack(alloc, name, bytes) {
        Ok(body) => Ok(Some(body)),
        Err(UnpackFault::NotABody) => Ok(None),
        Err(UnpackFault::Memory) => Err(Memory),
    }
}

/// The body of the deed, where its bytes are those of one that goes with its name.
fn read_deed(alloc: Global, deed: &PackedDeed) -> Result<Option<Body>, Memory>
    ensures { IfOk result (TellsDeed deed.now) }
{
    read(alloc, deed.name, deed.body.as_slice())
}

/// Whether all of these are nodes of the script.
fn are_nodes(script: &Script, nodes: &[Node]) -> bool
    ensures { result ≡ list_all (is_node script.now) nodes.now }
{
    nodes.iter().all(|node| is_node(script, *node))
}

/// Whether those who wait at the body have nodes of the script.
fn has_nodes(alloc: Global, script: &Script, body: &Body) -> Result<bool, Memory>
    ensures { IfOk result (λ yes. yes ≡ has_nodes script.now (body_of body.now)) }
{
    let nodes = callers(alloc, body)?;
    Ok(are_nodes(script, nodes.as_slice()))
}

/// The node that the deed of a coming name goes on to: where it is bound for, if that stays and isn't node 1.
fn goes_on_to(node: &State, name: &Name) -> Option<Node>
    ensures { result ≡ goes_on_to node.now.leader.directory (bound_for node.now.leader.directory name.now) }
{
    let to = node.leader.directory.bound_for(*name)?;
    if to != LEADER && node.leader.directory.stays(to) {
        Some(to)
    } else {
        None
    }
}

/// The place of a name whose deed goes on to the node, or is kept by the leader.
fn place_after(to: &Option<Node>) -> Node
    ensures { result ≡ unwrap_or to.now 1 }
{
    match to {
        Some(to) => *to,
        None => LEADER,
    }
}

/// What was held for a name that was on its way, which is at the node from now on. Memory, too, where it wasn't on its
/// way.
fn arrive(step: &mut Growing, name: &Name, node: Node) -> Result<HeldList, Memory>
    ensures held { IfOk result (λ items. items ≡ held_for step.old.node.leader.directory name.now) }
    ensures arrived { OnOk result (step_of step.new ≡ with_node (step_of step.old) (with_directory
        (node_of step.old.node) (arrive step.old.node.leader.directory name.now node))) }
{
    if !step.node.leader.is_coming(*name) {
        return Err(unreached());
    }
    Ok(step.node.leader.directory.arrive(*name, node))
}

/// What has come is sent on to the node, or kept by the leader. Memory, too, where its name is held already.
fn send_on(step: &mut Growing, deed: PackedDeed, body: Body, to: Option<Node>) -> Result<(), Memory>
    requires deed { IsDeed deed body }
    ensures { OnOk result (step_of step.new ≡ sent_on (step_of step.old) deed.name to (body_of body)) }
{
    match to {
        Some(to) => step.send(to, Frame::Grant { deed }),
        None => step.node.create(deed.name, body),
    }
}

/// What has come is kept by the leader, or goes on to the node, which is its name's place from now on: what was held
/// for the name. Memory, too, where the name isn't on its way.
fn pass_on(
    step: &mut Growing,
    deed: PackedDeed,
    body: Body,
    to: Option<Node>,
) -> Result<HeldList, Memory>
    requires fresh { IsFresh step.old }
    requires deed { IsDeed deed body }
    ensures held { IfOk result (λ items. items ≡ held_for step.old.node.leader.directory deed.name) }
    ensures passed { OnOk result
        (step_of step.new ≡ pass_on (node_of step.old.node) deed.name (body_of body) to) }
{
    let name = deed.name;
    let items = arrive(step, &name, place_after(&to))?;
    send_on(step, deed, body, to)?;
    Ok(items)
}

/// The deed has come: it goes on, or the leader keeps it, and what was held for its name is released. Memory, too,
/// where one of the items has no rule.
fn come_back(
    step: &mut Growing,
    script: &Script,
    deed: PackedDeed,
    body: Body,
) -> Result<(), Memory>
    requires fresh { IsFresh step.old }
    requires sound { IsSoundScript script.now }
    requires deed { IsDeed deed body }
    requires nodes { IsTrue (has_nodes script.now (body_of body)) }
    ensures { OnOk result (come_back script.now (node_of step.old.node) deed.name (body_of body)
        ≡ Some (step_of step.new)) }
{
    let name = deed.name;
    let to = goes_on_to(&step.node, &name);
    let items = pass_on(step, deed, body, to)?;
    release(step, script, items)
}

/// Only where the deed is read as a body at which nobody waits is it true. It takes no memory.
fn comes_alone(deed: &PackedDeed) -> bool
    ensures { OnTrue result (IsUnawaited deed.now) }
{
    is_unawaited(deed.name, deed.body.as_slice())
}

/// The deed has come and goes on to the node, unread: what was held for its name. Memory, too, where the name isn't on
/// its way.
fn pass_unread(step: &mut Growing, deed: PackedDeed, to: Node) -> Result<HeldList, Memory>
    requires fresh { IsFresh step.old }
    ensures held { IfOk result (λ items. items ≡ held_for step.old.node.leader.directory deed.name) }
    ensures passed { OnOk result (step_of step.new ≡ passed_unread (node_of step.old.node) deed to) }
{
    let items = arrive(step, &deed.name, to)?;
    step.send(to, Frame::Grant { deed })?;
    Ok(items)
}

/// The deed has come and goes on to the node, unread, and what was held for its name is released. Memory, too, where
/// one of the items has no rule.
fn come_unread(
    step: &mut Growing,
    script: &Script,
    deed: PackedDeed,
    to: Node,
) -> Result<(), Memory>
    requires fresh { IsFresh step.old }
    requires sound { IsSoundScript script.now }
    ensures { OnOk result (come_unread script.now (node_of step.old.node) deed to ≡ Some (step_of step.new)) }
{
    let items = pass_unread(step, deed, to)?;
    release(step, script, items)
}

/// The deed has come back and is read.
fn come_read(step: &mut Growing, script: &Script, deed: PackedDeed) -> Result<(), TurnFault>
    requires fresh { IsFresh step.old }
    requires sound { IsSoundScript script.now }
    ensures { Turns (option_and_then (come_back script.now (node_of step.old.node) deed.name) (read_deed deed))
        step.old step.new result }
{
    let Some(body) = read_deed(step.node.alloc, &deed)? else {
        return Err(TurnFault::NotAllowed);
    };
    if !has_nodes(step.node.alloc, script, &body)? {
        return Err(TurnFault::NotAllowed);
    }
    Ok(come_back(step, script, deed, body)?)
}

/// The deed has come back. Where it goes on and nobody waits it isn't read, as whoever gets it reads it.
fn receive_back(step: &mut Growing, script: &Script, deed: PackedDeed) -> Result<(), TurnFault>
    requires fresh { IsFresh step.old }
    requires sound { IsSoundScript script.now }
    ensures { Turns (option_and_then (come_back script.now (node_of step.old.node) deed.name) (read_deed deed))
        step.old step.new result }
{
    match goes_on_to(&step.node, &deed.name) {
        Some(to) if comes_alone(&deed) => Ok(come_unread(step, script, deed, to)?),
        _ => come_read(step, script, deed),
    }
}

/// Whether the leader takes a deed of this name that is given back.
fn may_come_back(node: &State, name: &Name) -> bool
    ensures { result ≡ (is_leader (node_of node.now)
        && (is_coming node.now.leader.directory name.now && is_new_here (node_of node.now) name.now)) }
{
    node.is_leader() && node.leader.is_coming(*name) && is_new_here(node, name)
}

/// The GiveBack rule: the deed goes on to the node that it is bound for, if that stays, or the leader keeps it; then
/// what was held for it is released. NotAllowed, too, where who waits there has no node of the script; Memory, too,
/// where one of the items has no rule.
pub fn take_give_back(
    step: &mut Growing,
    script: &Script,
    from: Node,
    deed: PackedDeed,
) -> Result<(), TurnFault>
    requires fresh { IsFresh step.old }
    requires sound { IsSoundScript script.now }
    ensures { Turns (take_give_back script.now (node_of step.old.node) from deed) step.old step.new result }
{
    let name = deed.name;
    if !may_come_back(&step.node, &name) {
        return Err(TurnFault::NotAllowed);
    }
    receive_back(step, script, deed)
}

/// The deed has come, and is kept. NotAllowed, with nothing changed, where its bytes spell no body that goes with its
/// name, or who waits there has no node of the script; Memory, too, where its name is held already.
fn receive(step: &mut Growing, script: &Script, deed: &PackedDeed) -> Result<(), TurnFault>
    requires fresh { IsFresh step.old }
    ensures { Turns (option_and_then (receive_deed script.now (node_of step.old.node) deed.now.name)
        (read_deed deed.now)) step.old step.new result }
{
    let Some(body) = read_deed(step.node.alloc, deed)? else {
        return Err(TurnFault::NotAllowed);
    };
    if !has_nodes(step.node.alloc, script, &body)? {
        return Err(TurnFault::NotAllowed);
    }
    Ok(step.node.create(deed.name, body)?)
}

/// The Grant rule: the deed is kept.
pub fn take_grant(
    step: &mut Growing,
    script: &Script,
    from: Node,
    deed: PackedDeed,
) -> Result<(), TurnFault>
    requires fresh { IsFresh step.old }
    ensures { Turns (take_grant script.now (node_of step.old.node) from deed) step.old step.new result }
{
    let name = deed.name;
    if !step.node.is_from_leader(from) || !is_new_here(&step.node, &name) {
        return Err(TurnFault::NotAllowed);
    }
    receive(step, script, &deed)
}
