//! A name moves to the node that reads it.
ghost use Rattle.std.specs.Prelude.{◌≡◌, ◌∷◌, [], IfOk, OnOk, Some, if◌then◌else◌};
ghost use Rattle.node_model.specs.Directory.{stays};
ghost use Rattle.node_model.specs.Watches.{last_move, later, with_reads};
ghost use Rattle.world_model.specs.Serving.{grant, move_to, note_reads};
ghost use Rattle.node_state.specs.State.{step_of};
ghost use Rattle.serve_rules.specs.Held.{nodes_with};

use node_state::{Growing, LEADER, Watches, unreached};
use pico_base::{Memory, Name, Node};
use rpc_frame::Frame;
use std::alloc::Global;

/// The leader sends a deed that it holds to a node, which is the name's place from now on.
fn grant_held(step: &mut Growing, name: &Name, to: Node) -> Result<(), Memory>
    ensures { OnOk result (step_of step.new ≡ grant (step_of step.old) name.now to) }
{
    let deed = step.node.take_deed(*name)?;
    if !step.node.leader.is_placed(*name) {
        return Err(unreached());
    }
    step.node.leader.move_to(*name, to);
    step.send(to, Frame::Grant { deed })
}

/// The same, where the deed is held.
fn grant(step: &mut Growing, name: &Name, to: Node) -> Result<(), Memory>
    ensures { OnOk result (step_of step.new ≡ grant (step_of step.old) name.now to) }
{
    if step.node.holds(*name) {
        grant_held(step, name, to)
    } else {
        Ok(())
    }
}

/// The leader moves the name at once if the node stays.
fn grant_if_stays(step: &mut Growing, name: &Name, to: Node) -> Result<(), Memory>
    ensures { OnOk result (step_of step.new
        ≡ (if stays (step_of step.old).node.leader.directory to then grant (step_of step.old) name.now to
        else step_of step.old)) }
{
    if step.node.leader.directory.stays(to) {
        grant(step, name, to)
    } else {
        Ok(())
    }
}

/// The name would be better at another node: an owner tells the leader, and the leader moves it at once if that node
/// stays.
fn move_to(step: &mut Growing, name: &Name, to: Node) -> Result<(), Memory>
    ensures { OnOk result (step_of step.new ≡ move_to (step_of step.old) name.now (Some to)) }
{
    if step.node.is_leader() {
        grant_if_stays(step, name, to)
    } else {
        step.send(
            LEADER,
            Frame::Suggest {
                name: *name,
                node: to,
            },
        )
    }
}

/// The watch notes the node that read.
#[inline(always)]
fn note_read(step: &mut Growing, name: &Name, reader: Node) -> Result<(), Memory>
    ensures { OnOk result (step_of step.new ≡ note_reads (step_of step.old) name.now (reader ∷ [])) }
{
    let owner = step.node.number();
    match step.node.watches.read(owner, *name, reader)? {
        Some(to) => move_to(step, name, to),
        None => Ok(()),
    }
}

/// The later of two nodes to which a name would move.
fn later(to: Option<Node>, before: Option<Node>) -> Option<Node>
    ensures { result ≡ later to before }
{
    match to {
        Some(node) => Some(node),
        None => before,
    }
}

/// Nodes read a name that this node owns, one after another. The node to which it moves then.
fn read_all(
    watches: &mut Watches,
    owner: Node,
    name: &Name,
    readers: &[Node],
) -> Result<Option<Node>, Memory>
    ensures moves { IfOk result (λ to. to ≡ last_move watches.old owner name.now readers.now) }
    ensures noted { OnOk result (watches.new ≡ with_reads watches.old owner name.now readers.now) }
{
    match readers {
        [] => Ok(None),
        [reader, rest @ ..] => {
            let to = watches.read(owner, *name, *reader)?;
            let next = read_all(watches, owner, name, rest)?;
            Ok(later(next, to))
        }
    }
}

/// The watch notes these nodes, one after another.
fn note_all(step: &mut Growing, name: &Name, readers: &[Node]) -> Result<(), Memory>
    ensures { OnOk result (step_of step.new ≡ note_reads (step_of step.old) name.now readers.now) }
{
    let owner = step.node.number();
    match read_all(&mut step.node.watches, owner, name, readers)? {
        Some(to) => move_to(step, name, to),
        None => Ok(()),
    }
}

/// The node, and behind it the others.
fn all_readers(alloc: Global, caller: Node, readers: &[Node]) -> Result<Vec<Node>, Memory>
    ensures { IfOk result (λ nodes. nodes.items ≡ caller ∷ readers.now) }
{
    let mut nodes = Vec::new(alloc);
    nodes.push(caller)?;
    nodes.extend_from_slice(readers)?;
    Ok(nodes)
}

/// The watch notes the caller's node, if its call reads.
#[inline(always)]
pub(crate) fn note_caller(
    step: &mut Growing,
    name: &Name,
    caller: Node,
    reads: bool,
) -> Result<(), Memory>
    ensures { OnOk result (step_of step.new ≡ note_reads (step_of step.old) name.now (nodes_with caller reads [])) }
{
    if reads {
        note_read(step, name, caller)
    } else {
        Ok(())
    }
}

/// The watch notes the nodes that read: the caller's, if its call does, and then those of the woken.
pub(crate) fn note_reads(
    step: &mut Growing,
    name: &Name,
    caller: Node,
    reads: bool,
    readers: &[Node],
) -> Result<(), Memory>
    ensures { OnOk result
        (step_of step.new ≡ note_reads (step_of step.old) name.now (nodes_with caller reads readers.now)) }
{
    if readers.len() == 0 {
        return note_caller(step, name, caller, reads);
    }
    if !reads {
        return note_all(step, name, readers);
    }
    let nodes = all_readers(step.node.alloc, caller, readers)?;
    note_all(step, name, nodes.as_slice())
}
