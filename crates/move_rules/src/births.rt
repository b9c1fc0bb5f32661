//! A node is born.
ghost use Rattle.std.specs.Prelude.{◌≡◌, ◌&&◌, IfOk, OnOk, Some};
ghost use Rattle.std.specs.Option.{option_and_then, option_map};
ghost use Rattle.node_calls.specs.Caller.{are_rising, rise_from};
ghost use Rattle.node_model.specs.Caller.{new_caller};
ghost use Rattle.node_model.specs.Spelling.{read_deed};
ghost use Rattle.node_serve.specs.Bodies.{body_of, row_of};
ghost use Rattle.world_model.specs.Lives.{be_born, born_with, is_forked_by, is_new_row, is_of_process, take_checkpoint};
ghost use Rattle.world_model.specs.Node.{is_unborn};
ghost use Rattle.node_state.specs.State.{node_of};
ghost use Rattle.node_state.specs.Turning.{IsFresh, Turns};
ghost use Rattle.move_rules.specs.Coming.{deed_of};
ghost use Rattle.move_rules.specs.Births.{is_of_new_process, is_read_as_new, with_caller, with_only};

use deed_box::{Deeds, Shared};
use node_calls::Caller;
use node_serve::{Body, Row};
use node_state::forms::is_forked_by;
use node_state::{Growing, Stage, State, TurnFault, unreached};
use pico_base::{Memory, Name, Node, Pid, Script, UnpackFault, Var, Vars};
use rpc_frame::PackedDeed;
use std::alloc::Global;

/// Whether the row is a new process's: it isn't doomed, and has no children.
fn is_new_row(row: &Row) -> bool
    ensures { result ≡ is_new_row (row_of row.now) }
{
    row.signals.doom().is_none() && row.family.count() == 0
}

/// Whether the body is a new process's.
fn is_of_new_process(body: &Body) -> bool
    ensures { result ≡ is_of_new_process (body_of body.now) }
{
    match body {
        Body::Living(row) => is_new_row(row),
        _ => false,
    }
}

/// Whether the bytes are those of a new process's body under this name.
fn are_of_new_process(alloc: Global, name: Name, bytes: &[u8]) -> Result<bool, Memory>
    ensures { IfOk result (λ yes. yes ≡ is_read_as_new (read_deed (deed_of name bytes.now))) }
{
    match <Body as Shared>::unpack(alloc, name, bytes) {
        Ok(body) => Ok(is_of_new_process(&body)),
        Err(UnpackFault::NotABody) => Ok(false),
        Err(UnpackFault::Memory) => Err(Memory),
    }
}

/// Whether the deed is a new process's.
fn is_new_deed(alloc: Global, deed: &PackedDeed) -> Result<bool, Memory>
    ensures { IfOk result (λ yes. yes ≡ is_read_as_new (read_deed deed.now)) }
{
    are_of_new_process(alloc, deed.name, deed.body.as_slice())
}

/// Whether these variables rise, and all are past the last one.
fn rise_from(first: Var, vars: &[(Var, u32)]) -> bool
    ensures { result ≡ rise_from first vars.now }
{
    let mut last = first;
    for (variable, _) in vars {
        if last.0 >= variable.0 {
            return false;
        }
        last = *variable;
    }
    true
}

/// Whether the variables rise.
fn are_rising(vars: &[(Var, u32)]) -> bool
    ensures { result ≡ are_rising vars.now }
{
    match vars.split_first() {
        Some((first, rest)) => rise_from(first.0, rest),
        None => true,
    }
}

/// Whether a node may be born by such a Checkpoint.
fn may_be_born(node: &State, script: &Script, from: Node, pid: Pid, name: &Name) -> bool
    ensures { result ≡ (is_unborn (node_of node.now).stage
        && (is_forked_by script.now from (node_of node.now).number && is_of_process pid name.now)) }
{
    !node.is_born() && is_forked_by(script, from, node.number()) && *name == Name::Proc(pid)
}

/// The deed is the only one that is held here from now on. Memory, too, where its bytes spell no body that goes with
/// its name.
fn hold_only(node: &mut State, deed: PackedDeed) -> Result<(), Memory>
    ensures { OnOk result (option_map (with_only (node_of node.old) deed.name) (read_deed deed)
        ≡ Some (node_of node.new)) }
{
    node.deeds = Deeds::new(node.alloc)?;
    if node.keep(deed)? {
        Ok(())
    } else {
        Err(unreached())
    }
}

/// The process is at the first line of its block. Memory where the variables don't rise.
fn begin(node: &mut State, vars: Vars) -> Result<(), Memory>
    ensures { OnOk result (node_of node.new ≡ with_caller (node_of node.old) (new_caller vars)) }
{
    if !are_rising(vars.as_slice()) {
        return Err(unreached());
    }
    node.caller = Caller::new(node.alloc, node.number(), vars);
    Ok(())
}

/// The node is born, as the process of the deed. Memory, too, where the variables don't rise, or the deed's bytes spell
/// no body that goes with its name.
fn be_born(
    node: &mut State,
    from: Node,
    pid: Pid,
    parent: Pid,
    deed: PackedDeed,
    vars: Vars,
) -> Result<(), Memory>
    requires named { deed.name ≡ Name.Proc pid }
    ensures { OnOk result (option_map (be_born (node_of node.old) from pid parent vars) (read_deed deed)
        ≡ Some (node_of node.new)) }
{
    begin(node, vars)?;
    hold_only(node, deed)?;
    node.stage = Stage::Living;
    node.pid = pid;
    node.parent = parent;
    node.parent_node = from;
    Ok(())
}

/// The node is born by the deed of its process. NotAllowed, with nothing changed, where that isn't a new process's;
/// Memory, too, where the variables don't rise.
fn take_own_deed(
    step: &mut Growing,
    from: Node,
    pid: Pid,
    parent: Pid,
    deed: PackedDeed,
    vars: Vars,
) -> Result<(), TurnFault>
    requires fresh { IsFresh step.old }
    requires named { deed.name ≡ Name.Proc pid }
    ensures { Turns (option_and_then (born_with (node_of step.old.node) from pid parent vars) (read_deed deed))
        step.old step.new result }
{
    if !is_new_deed(step.node.alloc, &deed)? {
        return Err(TurnFault::NotAllowed);
    }
    Ok(be_born(&mut step.node, from, pid, parent, deed, vars)?)
}

/// The Checkpoint rule: the node is born, as the process that its block is forked by. Memory, too, where the variables
/// don't rise.
pub fn take_checkpoint(
    step: &mut Growing,
    script: &Script,
    from: Node,
    pid: Pid,
    parent: Pid,
    deed: PackedDeed,
    vars: Vars,
) -> Result<(), TurnFault>
    requires fresh { IsFresh step.old }
    ensures { Turns (take_checkpoint script.now (node_of step.old.node) from pid parent deed vars) step.old step.new
        result }
{
    let name = deed.name;
    if !may_be_born(&step.node, script, from, pid, &name) {
        return Err(TurnFault::NotAllowed);
    }
    take_own_deed(step, from, pid, parent, deed, vars)
}
