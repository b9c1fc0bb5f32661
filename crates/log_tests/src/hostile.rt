//! A node whose stream brings what no node sends: its turn has a fault, and so has each later one, while the other node
//! comes to rest.
ghost use Rattle.std.specs.Prelude.{◌≡◌};
ghost use Rattle.kernel_model.specs.Script.{IsSoundScript};
ghost use Rattle.world_model.specs.World.{node_count};
ghost use Rattle.log_tests.specs.Two.{AreTwo};

use crate::two::{Planted, Two};
use log_model::TurnAnswer;
use pico_base::{Memory, Script};
use script_reader::read_script;
use std::alloc::Global;
use std::mem::ManuallyDrop;
use std::sync::Wait;
use std::test::Fail;

const SCRIPT: &[u8] =
    b"proc main\nq = msgget private\nfork child\nend\nproc child\nmsgrcv $q 0 8 nowait\nend\n";

/// The Checkpoint of the child, whose variable `q` is 1.
const CHECKPOINT: &[u8] =
    b"\0\0\0T\x0a\0\0\0\x02\0\0\0\x01\x01\0\0\0\x02\0\0\0:\x01\0\0\0\0\0\0\0\0\0\0\0\0\0\0\0\0\0\0\0\0\0\0\
\0\0\0\0\0\0\0\0\0\0\0\0\0\0\0\0\0\0\0\0\0\0\0\0\0\0\0\0\0\0\0\0\0\0\0\0\x01\x06\xf0\0\0\0\x01";

/// It and a RecallAll in one piece.
const TWO_FRAMES: &[u8] =
    b"\0\0\0T\x0a\0\0\0\x02\0\0\0\x01\x01\0\0\0\x02\0\0\0:\x01\0\0\0\0\0\0\0\0\0\0\0\0\0\0\0\0\0\0\0\0\0\0\
\0\0\0\0\0\0\0\0\0\0\0\0\0\0\0\0\0\0\0\0\0\0\0\0\0\0\0\0\0\0\0\0\0\0\0\0\x01\x06\xf0\0\0\0\x01\0\0\0\
\x01\x10";

/// A Recall of queue 1, which node 2 never holds.
const RECALL: &[u8] = b"\0\0\0\x06\x0c\x02\0\0\0\x01";

/// The last stamp that an event may have.
const LAST: u64 = (1 << 63) - 1;

static BORN: Planted = &[(1, CHECKPOINT)];

/// What stands in the stream to node 2, and what its turn answers then.
static HOSTILE: [(&str, Planted, TurnAnswer); 9] = [
    (
        "a frame of length 0",
        &[(1, b"\0\0\0\0")],
        TurnAnswer::BadFrame,
    ),
    (
        "a frame that is too long",
        &[(1, b"\0\x04\0\x01")],
        TurnAnswer::BadFrame,
    ),
    (
        "a frame of kind 20",
        &[(1, b"\0\0\0\x01\x14")],
        TurnAnswer::BadFrame,
    ),
    (
        "a Recall before it is born",
        &[(1, RECALL)],
        TurnAnswer::BadFrame,
    ),
    (
        "a Recall of what isn't held",
        &[(1, CHECKPOINT), (2, RECALL)],
        TurnAnswer::BadFrame,
    ),
    (
        "a second Checkpoint",
        &[(1, CHECKPOINT), (2, CHECKPOINT)],
        TurnAnswer::BadFrame,
    ),
    (
        "two frames in one piece",
        &[(1, TWO_FRAMES)],
        TurnAnswer::BadFrame,
    ),
    (
        "the last stamp",
        &[(LAST, CHECKPOINT)],
        TurnAnswer::StampEnd { last: LAST },
    ),
    (
        "a stamp above it",
        &[(u64::MAX, CHECKPOINT)],
        TurnAnswer::StampEnd { last: u64::MAX },
    ),
];

/// What the first turn of node 2 that isn't one of a sound node answers.
fn fault_of<R: Wait>(rt: &R, two: &mut Two, script: &Script) -> TurnAnswer
    requires sound { IsSoundScript script.now }
    requires two { AreTwo script.now two.old.lock two.old.first.value two.old.second.value }
    ensures { AreTwo script.now two.new.lock two.new.first.value two.new.second.value }
{
    for _ in 0..10 {
        match two.turn(rt, script, false) {
            TurnAnswer::Did | TurnAnswer::Piece | TurnAnswer::Idle => {}
            fault => return fault,
        }
    }
    TurnAnswer::Idle
}

/// Whether twenty turns of node 2 answer this, one between two of the other node.
fn is_for_good<R: Wait>(rt: &R, two: &mut Two, script: &Script, fault: TurnAnswer) -> bool
    requires sound { IsSoundScript script.now }
    requires two { AreTwo script.now two.old.lock two.old.first.value two.old.second.value }
    ensures { AreTwo script.now two.new.lock two.new.first.value two.new.second.value }
{
    for _ in 0..20 {
        if two.turn(rt, script, false) != fault {
            return false;
        }
        let _ = two.turn(rt, script, true);
    }
    true
}

/// Whether node 2 has this fault for good, and then node 1 has made all its events.
fn is_faulty<R: Wait>(rt: &R, two: &mut Two, script: &Script, fault: TurnAnswer) -> bool
    requires sound { IsSoundScript script.now }
    requires two { AreTwo script.now two.old.lock two.old.first.value two.old.second.value }
{
    fault_of(rt, two, script) == fault
        && is_for_good(rt, two, script, fault)
        && two.turn(rt, script, true) == TurnAnswer::Idle
}

/// Whether that is so where these bytes stand in the stream to node 2. It alone owns the nodes.
fn is_refused<R: Wait>(
    rt: &R,
    alloc: Global,
    script: &Script,
    planted: Planted,
    fault: TurnAnswer,
) -> Result<bool, Memory>
    requires sound { IsSoundScript script.now }
    requires two { node_count script.now ≡ 2 }
{
    let mut two = ManuallyDrop::new(Two::new(rt, alloc, script, planted)?);
    Ok(is_faulty(rt, &mut two, script, fault))
}

#[test]
fn a_fault_lasts_and_the_other_rests(rt: HostRuntime) -> Result<(), Fail> {
    let script = read_script(rt.alloc(), SCRIPT)?;
    assert_eq!(rt; script.blocks.len(), 2);
    for (what, planted, fault) in &HOSTILE {
        assert!(rt;
            is_refused(&rt, rt.alloc(), &script, planted, *fault)?,
            "{what}"
        );
    }
    Ok(())
}

/// A Checkpoint alone is none of that: the node is born, and asks for its queue.
#[test]
fn a_checkpoint_alone_is_taken(rt: HostRuntime) -> Result<(), Fail> {
    let script = read_script(rt.alloc(), SCRIPT)?;
    assert_eq!(rt; script.blocks.len(), 2);
    let mut two = ManuallyDrop::new(Two::new(&rt, rt.alloc(), &script, BORN)?);
    assert!(rt; two.turn(&rt, &script, false) == TurnAnswer::Did);
    Ok(())
}
