//! A fork: a number is given to a child.
ghost use Rattle.std.specs.Prelude.{◌≡◌, IfOk, OnOk, Some};
ghost use Rattle.pico_base.specs.declared.call.Call.TheVariants as calls;
ghost use Rattle.pico_base.specs.declared.numbers.Name.TheVariants.{Proc};
ghost use Rattle.kernel_model.specs.Row.{child_row};
ghost use Rattle.kernel_model.specs.Script.{IsSoundScript};
ghost use Rattle.node_model.specs.Bodies as model;
ghost use Rattle.node_model.specs.Serving.{parent_body};
ghost use Rattle.node_model.specs.Spelling.{pack};
ghost use Rattle.node_serve.specs.Bodies.{body_of, row_of};
ghost use Rattle.world_model.specs.Numbers.{make_with};
ghost use Rattle.node_state.specs.State.{node_of, step_of};
ghost use Rattle.number_rules.specs.Taking.{IsForked, IsForkedBody};

use crate::making::tell_place;
use deed_box::Deed;
use fork_wait::Family;
use node_serve::{Body, Row, spelled_bodies_are_read};
use node_state::{Growing, State, unreached};
use pico_base::{Call, Memory, Name, Node, Pid, Reply, Script};
use rpc_frame::{Frame, PackedDeed};
use std::alloc::Global;

/// How many children a process can have.
const MOST_CHILDREN: usize = 31;

/// The row of a new child, which its parent's row lists from now on. Memory, too, where the child's number is 0 or that
/// of a child, or the parent has as many children as it can have.
fn fork_row(alloc: Global, row: &mut Row, child: Pid) -> Result<Row, Memory>
    ensures made { IfOk result (λ made. row_of made ≡ child_row (row_of row.old)) }
    ensures parent { OnOk result (model.Living (row_of row.new) ≡ parent_body (row_of row.old) child) }
{
    if child.0 == 0 || row.family.is_child(child) || row.family.count() >= MOST_CHILDREN {
        return Err(unreached());
    }
    let family = Family::new(alloc)?;
    let signals = row.signals.inherit();
    row.family.add(child);
    Ok(Row { signals, family })
}

/// The row of a new child, which its parent's body lists. Memory, too, where the parent doesn't live or can't have the
/// child.
fn fork_body(alloc: Global, body: &mut Body, child: Pid) -> Result<Row, Memory>
    ensures { IfOk result (λ made. IsForkedBody (body_of body.old) child (body_of body.new) (row_of made)) }
{
    match body {
        Body::Living(row) => fork_row(alloc, row, child),
        _ => Err(unreached()),
    }
}

/// The row of a new child of this node's process, which lists it from now on. Memory, too, where the process isn't
/// here, doesn't live, or can't have the child.
fn fork_here(node: &mut State, child: Pid) -> Result<Row, Memory>
    ensures { IfOk result (λ made. IsForked (node_of node.old) child (node_of node.new) (row_of made)) }
{
    let alloc = node.alloc;
    match node.deeds.get_mut(Name::Proc(node.pid)) {
        Some(body) => fork_body(alloc, body, child),
        None => Err(unreached()),
    }
}

/// The deed of a new process, packed because it leaves at once.
fn packed_row(alloc: Global, pid: Pid, row: Row) -> Result<PackedDeed, Memory>
    ensures { IfOk result (λ deed. deed ≡ pack (Proc pid) (model.Living (row_of row))) }
{
    let body = Body::Living(row);
    let deed = Deed::create_packed(alloc, Name::Proc(pid), &body)?;
    spelled_bodies_are_read();
    Ok(deed)
}

/// A fork is carried out with this number: the child's deed and its variables go to its node. Memory, too, where the
/// call's line isn't there, or the process can't have the child.
pub(crate) fn fork_with(
    step: &mut Growing,
    script: &Script,
    block: Node,
    number: u32,
) -> Result<(), Memory>
    requires sound { IsSoundScript script.now }
    ensures { OnOk result
        (make_with script.now (step_of step.old) (calls.Fork block) number ≡ Some (step_of step.new)) }
{
    if !step.node.caller.has_line(script) {
        return Err(unreached());
    }
    let child = Pid(number);
    let parent = step.node.pid;
    let vars = step.node.caller.child_vars(script)?;
    let row = fork_here(&mut step.node, child)?;
    let deed = packed_row(step.node.alloc, child, row)?;
    let asked = step.node.asked_here(Call::Fork { block });
    step.carry_out(script, asked, Reply::Num(number))?;
    let frame = Frame::Checkpoint {
        pid: child,
        parent,
        deed,
        vars,
    };
    step.send(block, frame)?;
    tell_place(step, Name::Proc(child), block)
}
