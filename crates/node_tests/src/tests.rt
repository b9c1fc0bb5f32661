//! Where a frame has a rule: each kind of frame, at each moment of a node's life, from the leader, from another node
//! and from the node itself; and frames that are wrong in one thing.
//!
//! A node is offered frames that no run brings it. It takes a frame exactly where the frame's rule says so. Everywhere
//! else it tells NotAllowed and is as it was: a node that is offered all that it refuses, at each moment of its life,
//! makes the same turns as one that is left alone. In short the rules ask this:
//!
//! | Frame | Is taken |
//! |---|---|
//! | Ask | by the leader, from another node, for a call by a key, on a name or that removes one |
//! | Bounce | the same but by a key, for a node of the script |
//! | LeaseAsk | by the leader, from another node |
//! | Placed | the same, where the name is at another node than the leader |
//! | Suggest | the same, of a queue or set, for a node of the script |
//! | Forward | by another node than the leader, once born, from the leader, for a call on a name or that removes one |
//! | Request | by a node that is born, from another node, for a call on a name |
//! | Answer | where its ticket is that of the call under way, which others carry out |
//! | NotOwner | the same for a call on a name |
//! | Lease | from the leader, while the call under way waits for numbers of its kind, if none of them is in use here |
//! | Checkpoint | by a node that isn't born, from the node whose block forks it, with a new process's deed |
//! | Recall | by another node than the leader, from the leader, if it holds the deed of this queue or set |
//! | GiveBack | by the leader, if the queue or set is on its way to it |
//! | Grant | by another node than the leader, once born, from the leader, if it doesn't hold the queue or set |
//! | Leaving | by the leader, from another node that stays, for two processes |
//! | RecallAll | from the leader, by a node that leaves |
//! | Left | by the leader, from a node that leaves, with a parcel of names that are all on their way |
//! | ExitTo | by another node than the leader, from the leader, if the parent is here and lists the child |
//! | Cancel | by a node that is born, of a call on a queue or set |
//!
//! No frame outside the limits of frames is taken, and no withdrawal is asked for but by Cancel. A deed has to have
//! bytes of a body that goes with its name, and its number isn't one that the receiver is still to give; those who wait
//! there are on nodes of the script, and none of them could go on. A parcel stands by rising number, with its own
//! process's deed, which lives, and else with those of processes that have ended; its call ends the process.
ghost use Rattle.std.specs.Prelude.{◌≤◌, length};
ghost use Rattle.kernel_model.specs.Script.{IsSoundScript};

mod lives;
mod offers;
mod scripts;
mod wires;

use lives::{CHILD_LIFE, LEADER_LIFE, Moment, Next};
use node_core::{Input, PicoNode, Turn, TurnFault};
use offers::{
    BEYOND, CHILD_BIRTHS, CHILD_CALLS, CHILD_ENDS, CHILD_KINDS, CHILD_MOVES, CHILD_NUMBERS,
    LEADER_CALLS, LEADER_ENDS, LEADER_KINDS, LEADER_LEAVINGS, LEADER_MOVES, NEW, P2, Row,
};
use pico_base::{Node, Script, Var};
use rpc_frame::Frame;
use scripts::forks_twice;
use std::alloc::Global;
use std::mem::ManuallyDrop;
use std::process::Abort;
use std::test::Fail;
use wires::{C, Q, Who, Wire, checkpoint_of, frame_of, node_of};

/// A node that is never taken apart, so that its owners are cheaper to prove.
type Kept = ManuallyDrop<PicoNode>;

/// The node at its opening.
fn opening(alloc: Global, script: &Script, number: Node) -> Result<Kept, Fail>
    requires block { number ≤ length script.now.blocks }
{
    Ok(ManuallyDrop::new(PicoNode::new(alloc, script, number)?))
}

/// The turn that a node makes next in its life, if there is one.
fn goes_on(
    alloc: Global,
    script: &Script,
    node: &mut PicoNode,
    moment: &Moment,
) -> Result<Option<Turn>, Fail>
    requires sound { IsSoundScript script.now }
{
    let input = match moment.next {
        Next::Run => Input::Run,
        Next::Take(from, wire) => Input::Take {
            from: node_of(from),
            frame: frame_of(alloc, wire, moment.started)?,
        },
        Next::Rest => return Ok(None),
    };
    Ok(Some(node.turn(script, input)?))
}

/// The node lives through so many moments.
fn live(
    alloc: Global,
    script: &Script,
    node: &mut PicoNode,
    life: &[Moment],
    count: usize,
) -> Result<(), Fail>
    requires sound { IsSoundScript script.now }
{
    for moment in life.iter().take(count) {
        goes_on(alloc, script, node, moment)?;
    }
    Ok(())
}

/// The node after so many moments of its life.
fn node_at(
    alloc: Global,
    script: &Script,
    number: Node,
    life: &[Moment],
    count: usize,
) -> Result<Kept, Fail>
    requires sound { IsSoundScript script.now }
    requires block { number ≤ length script.now.blocks }
{
    let mut node = opening(alloc, script, number)?;
    live(alloc, script, &mut *node, life, count)?;
    Ok(node)
}

/// Whether the node takes the frame. If it doesn't, it tells NotAllowed.
fn takes(node: &mut PicoNode, script: &Script, from: Who, frame: Frame) -> Result<bool, Fail>
    requires sound { IsSoundScript script.now }
{
    let input = Input::Take {
        from: node_of(from),
        frame,
    };
    match node.turn(script, input) {
        Ok(_) => Ok(true),
        Err(TurnFault::NotAllowed) => Ok(false),
        Err(fault) => Err(fault.into()),
    }
}

/// Whether the node takes this frame, which is made for it alone: to own one beside another step is dear.
fn takes_wire(
    alloc: Global,
    script: &Script,
    node: &mut PicoNode,
    from: Who,
    wire: Wire,
    started: u32,
) -> Result<bool, Fail>
    requires sound { IsSoundScript script.now }
{
    let frame = frame_of(alloc, wire, started)?;
    takes(node, script, from, frame)
}

/// Whether one of the texts has the word.
fn has(texts: &[&str], wanted: &str) -> bool {
    for text in texts {
        for word in text.split_whitespace() {
            if word == wanted {
                return true;
            }
        }
    }
    false
}

/// From whom frames are offered, by number.
const SENDERS: [Who; 3] = [Who::Leader, Who::Child, Who::Third];

/// The node refuses each frame of the table that it doesn't take at this moment.
fn refuses(
    rt: &impl Abort,
    alloc: Global,
    script: &Script,
    node: &mut PicoNode,
    moment: &Moment,
    table: &[Row],
) -> Result<(), Fail>
    requires sound { IsSoundScript script.now }
{
    for (from, taken) in SENDERS.iter().zip(moment.takes.iter()) {
        for (name, wire) in table {
            if !has(taken, name) {
                let took = takes_wire(alloc, script, node, *from, *wire, moment.started)?;
                assert!(rt; !took, "{name} from {from:?}");
            }
        }
    }
    Ok(())
}

/// Whether the node takes the frame after so many moments of its life. If it doesn't, it tells NotAllowed.
fn takes_after(
    alloc: Global,
    script: &Script,
    number: Node,
    life: &[Moment],
    count: usize,
    from: Who,
    wire: Wire,
    started: u32,
) -> Result<bool, Fail>
    requires sound { IsSoundScript script.now }
    requires block { number ≤ length script.now.blocks }
{
    let mut node = node_at(alloc, script, number, life, count)?;
    takes_wire(alloc, script, &mut *node, from, wire, started)
}

/// The node, after so many moments of its life, takes each frame of the table that the next moment names.
fn takes_named(
    rt: &impl Abort,
    alloc: Global,
    script: &Script,
    number: Node,
    life: &[Moment],
    count: usize,
    table: &[Row],
) -> Result<(), Fail>
    requires sound { IsSoundScript script.now }
    requires block { number ≤ length script.now.blocks }
{
    let moment = life.get(count).ok_or("no such moment")?;
    for (from, taken) in SENDERS.iter().zip(moment.takes.iter()) {
        for (name, wire) in table {
            if has(taken, name) {
                let started = moment.started;
                let took = takes_after(alloc, script, number, life, count, *from, *wire, started)?;
                assert!(rt; took, "{name} from {from:?} after {count}");
            }
        }
    }
    Ok(())
}

/// Two nodes of one number: one that is left alone, and one that is offered what it refuses.
#[derive(Drop)]
struct Twins {
    calm: Kept,
    vexed: Kept,
}

/// Two nodes at their opening.
fn opening_twins(alloc: Global, script: &Script, number: Node) -> Result<Twins, Fail>
    requires block { number ≤ length script.now.blocks }
{
    Ok(Twins {
        calm: opening(alloc, script, number)?,
        vexed: opening(alloc, script, number)?,
    })
}

/// Both nodes make the same next turn.
fn go_on_alike(
    rt: &impl Abort,
    alloc: Global,
    script: &Script,
    nodes: &mut Twins,
    at: usize,
    moment: &Moment,
) -> Result<(), Fail>
    requires sound { IsSoundScript script.now }
{
    let turn = ManuallyDrop::new(goes_on(alloc, script, &mut *nodes.calm, moment)?);
    let again = ManuallyDrop::new(goes_on(alloc, script, &mut *nodes.vexed, moment)?);
    assert!(rt; *turn == *again, "after {at}");
    Ok(())
}

/// At each moment of their life both nodes make the same turn, though one is offered what it refuses.
fn go_alike(
    rt: &impl Abort,
    alloc: Global,
    script: &Script,
    nodes: &mut Twins,
    life: &[Moment],
    tables: &[&[Row]],
) -> Result<(), Fail>
    requires sound { IsSoundScript script.now }
{
    for (at, moment) in life.iter().enumerate() {
        for table in tables {
            refuses(rt, alloc, script, &mut *nodes.vexed, moment, table)?;
        }
        go_on_alike(rt, alloc, script, nodes, at, moment)?;
    }
    Ok(())
}

/// A node that is offered these frames at each moment of its life takes those that the moment names, and no others; and
/// where it refuses them it goes on as one that isn't offered any.
fn goes_through(
    rt: &impl Abort,
    alloc: Global,
    number: Node,
    life: &[Moment],
    tables: &[&[Row]],
) -> Result<(), Fail>
    requires block { number ≤ 3 }
{
    let script = forks_twice(alloc)?;
    for count in 0..life.len() {
        for table in tables {
            takes_named(rt, alloc, &script, number, life, count, table)?;
        }
    }
    let mut nodes = opening_twins(alloc, &script, number)?;
    go_alike(rt, alloc, &script, &mut nodes, life, tables)
}

#[test]
fn a_child_takes_what_has_a_rule(rt: HostRuntime) -> Result<(), Fail> {
    let tables: [&[Row]; 7] = [
        &BEYOND,
        &CHILD_KINDS,
        &CHILD_CALLS,
        &CHILD_NUMBERS,
        &CHILD_BIRTHS,
        &CHILD_MOVES,
        &CHILD_ENDS,
    ];
    goes_through(&rt, rt.alloc(), Node(2), &CHILD_LIFE, &tables)
}

#[test]
fn the_leader_takes_what_has_a_rule(rt: HostRuntime) -> Result<(), Fail> {
    let tables: [&[Row]; 6] = [
        &BEYOND,
        &LEADER_KINDS,
        &LEADER_CALLS,
        &LEADER_MOVES,
        &LEADER_LEAVINGS,
        &LEADER_ENDS,
    ];
    goes_through(&rt, rt.alloc(), Node(1), &LEADER_LIFE, &tables)
}

/// Whether the node is born by these variables.
fn is_born_by(
    alloc: Global,
    node: &mut PicoNode,
    script: &Script,
    vars: &[Var],
) -> Result<bool, Fail>
    requires sound { IsSoundScript script.now }
{
    let frame = checkpoint_of(alloc, 2, &(P2, NEW), vars)?;
    takes(node, script, Who::Leader, frame)
}

/// Whether node 2 as it opens refuses a birth by these variables, and is born by others afterwards.
fn refuses_birth(alloc: Global, script: &Script, vars: &[Var]) -> Result<bool, Fail>
    requires sound { IsSoundScript script.now }
    requires block { 2 ≤ length script.now.blocks }
{
    let mut node = opening(alloc, script, Node(2))?;
    Ok(
        !is_born_by(alloc, &mut *node, script, vars)?
            && is_born_by(alloc, &mut *node, script, &[C, Q])?,
    )
}

/// A birth that no node sends, by variables that don't rise, is refused, and the node waits for the next one.
#[test]
fn variables_that_do_not_rise_bear_nobody(rt: HostRuntime) -> Result<(), Fail> {
    let alloc = rt.alloc();
    let script = forks_twice(alloc)?;
    for vars in [[Q, C], [C, C]] {
        assert!(rt; refuses_birth(alloc, &script, &vars)?);
    }
    Ok(())
}
