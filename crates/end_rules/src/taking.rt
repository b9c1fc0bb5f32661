//! A node takes the parcel of a process that ends.
ghost use Rattle.std.specs.Prelude.{◌≡◌, ◌∷◌, [], IsTrue, OnOk, Some};
ghost use Rattle.std.specs.List.{list_all, list_any};
ghost use Rattle.kernel_model.specs.Script.{IsSoundScript};
ghost use Rattle.node_model.specs.declared.held.Held.TheVariants.{Ending};
ghost use Rattle.node_model.specs.Directory.{is_leaving, route, with_left};
ghost use Rattle.node_model.specs.Leases.{leases_hold};
ghost use Rattle.pico_base.specs.declared.numbers.Name.TheVariants.{Proc};
ghost use Rattle.world_model.specs.Lives.{is_free_to_end, may_take, take_exit, take_left};
ghost use Rattle.world_model.specs.Releases.{release};
ghost use Rattle.node_state.specs.State.{node_of, step_of};
ghost use Rattle.node_state.specs.Turning.{IsFresh, Turns};
ghost use Rattle.end_rules.specs.Ending.{with_places};
ghost use Rattle.end_rules.specs.Taking.{may_end_by, may_take_exit};

use crate::ends::{exit_fitting, lets_end};
use crate::fitting::fits;
use crate::releasing::release;
use lease_leader::{Directory, HeldList};
use node_model::{Held, Route};
use node_state::{Growing, Leases, State, TurnFault};
use pico_base::{Memory, Name, Node, Script};
use rpc_frame::{PackedDeed, Parcel};

/// Whether the deed's name is on its way, and no parcel that is held has it.
fn is_free_to_end(directory: &Directory, deed: &PackedDeed) -> bool
    ensures { result ≡ is_free_to_end directory.now deed.now.name }
{
    matches!(directory.route(deed.name), Route::Coming) && !directory.in_parcel(deed.name)
}

/// Whether that is so of all deeds of the parcel.
fn are_free_to_end(directory: &Directory, parcel: &Parcel) -> bool
    ensures { result ≡ list_all (λ deed. is_free_to_end directory.now deed.name) parcel.now.deeds }
{
    let deeds = parcel.deeds.as_slice();
    deeds.iter().all(|deed| is_free_to_end(directory, deed))
}

/// Whether the leader may take a Left: the node is leaving, each name of the parcel is on its way and in no parcel that
/// is held, and the parent is known.
fn may_take(node: &State, from: Node, parcel: &Parcel) -> bool
    ensures { result ≡ may_take (node_of node.now) from parcel.now }
{
    if !node.leader.directory.is_leaving(from) {
        return false;
    }
    are_free_to_end(&node.leader.directory, parcel) && node.leader.knows(Name::Proc(parcel.parent))
}

/// Whether the end rule applies to a parcel that fits, by the parent's place.
fn may_end(node: &State, parcel: &Parcel) -> bool
    ensures { result ≡ may_end_by node.now.deeds.bodies (node_of node.now).number parcel.now
        (route node.now.leader.directory (Proc parcel.now.parent)) }
{
    match node.leader.directory.route(Name::Proc(parcel.parent)) {
        Route::At(owner) => owner != node.number() || lets_end(&node.deeds, parcel),
        Route::Coming => true,
        Route::Range(_) | Route::Nobody => false,
    }
}

/// The node has left, and its process comes to its end.
fn end_left(step: &mut Growing, script: &Script, from: Node, parcel: Parcel) -> Result<(), Memory>
    requires leaving { IsTrue (is_leaving step.old.node.leader.directory from) }
    requires sound { IsSoundScript script.now }
    ensures { OnOk result (release script.now (Ending parcel ∷ []) (with_places (step_of step.old)
        (with_left step.old.node.leader.directory from)) ≡ Some (step_of step.new)) }
{
    step.node.leader.directory.left(from);
    let mut items = HeldList::new(step.node.alloc);
    items.push(Held::Ending(parcel))?;
    release(step, script, items)
}

/// The Left rule: the node has left, and its process's end goes to where the parent is.
pub fn take_left(
    step: &mut Growing,
    script: &Script,
    from: Node,
    parcel: Parcel,
) -> Result<(), TurnFault>
    requires fresh { IsFresh step.old }
    requires sound { IsSoundScript script.now }
    ensures { Turns (take_left script.now (node_of step.old.node) from parcel) step.old step.new result }
{
    if !step.node.is_leader() || !may_take(&step.node, from, &parcel) {
        return Err(TurnFault::NotAllowed);
    }
    if !may_end(&step.node, &parcel) {
        return Err(TurnFault::NotAllowed);
    }
    if !fits(step.node.alloc, &step.node.deeds, &parcel)? {
        return Err(TurnFault::NotAllowed);
    }
    Ok(end_left(step, script, from, parcel)?)
}

/// Whether a number of the parcel's deeds is still to be given here. It takes no memory.
pub fn hold_any(leases: &Leases, parcel: &Parcel) -> bool
    ensures { result ≡ list_any (λ deed. leases_hold leases.now deed.name) parcel.now.deeds }
{
    let deeds = parcel.deeds.as_slice();
    deeds.iter().any(|deed| leases.holds(deed.name))
}

/// Whether a node may take an ExitTo: it is from the leader, and no number of the parcel is still to be given here.
fn may_take_exit(node: &State, from: Node, parcel: &Parcel) -> bool
    ensures { result ≡ may_take_exit (node_of node.now) from parcel.now }
{
    node.is_from_leader(from) && !hold_any(&node.leases, parcel)
}

/// The ExitTo rule: the exit is carried out here.
pub fn take_exit(
    step: &mut Growing,
    script: &Script,
    from: Node,
    parcel: Parcel,
) -> Result<(), TurnFault>
    requires fresh { IsFresh step.old }
    requires sound { IsSoundScript script.now }
    ensures { Turns (take_exit script.now (node_of step.old.node) from parcel) step.old step.new result }
{
    if !may_take_exit(&step.node, from, &parcel) {
        return Err(TurnFault::NotAllowed);
    }
    if !lets_end(&step.node.deeds, &parcel) {
        return Err(TurnFault::NotAllowed);
    }
    if !fits(step.node.alloc, &step.node.deeds, &parcel)? {
        return Err(TurnFault::NotAllowed);
    }
    Ok(exit_fitting(step, script, parcel)?)
}
