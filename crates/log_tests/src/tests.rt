//! The turns of two nodes, one after the other.
ghost use Rattle.std.specs.Prelude.{◌≡◌};
ghost use Rattle.kernel_model.specs.Script.{IsSoundScript};
ghost use Rattle.world_model.specs.World.{node_count};
ghost use Rattle.log_tests.specs.Two.{AreTwo};

use crate::two::Two;
use journal_core::Journal;
use log_model::TurnAnswer;
use pico_base::{Entries, Memory, Script};
use script_reader::read_script;
use std::alloc::Global;
use std::sync::Wait;
use std::test::Fail;
use trace_text::write_trace;

// Both look into the same empty queue.
const BOTH_LOOK: &str = concat!(
    "proc main\nq = msgget private\nmsgrcv $q 0 8 nowait\nfork child\nend\n",
    "proc child\nmsgrcv $q 0 8 nowait\nend\n"
);

// The nodes of its twelve events where each is made behind the one before.
const ORDER: [u8; 12] = [1, 1, 1, 2, 1, 2, 1, 2, 2, 1, 2, 1];

const TRACE: &str = concat!(
    "1 msgget private = 1 by 1\n1 msgrcv 1 0 8 nowait = ENOMSG by 1\n1 fork child = 2 by 1\n1 exit 0 = ended by 1\n",
    "2 msgrcv 1 0 8 nowait = ENOMSG by 1\n2 exit 0 = ended by 1\n",
    "totals entries 6 processes 2 notready 2 refused 0\n"
);

/// Whether each of the twelve turns is Did, and both nodes are Idle behind them.
fn all_turn<R: Wait>(rt: &R, two: &mut Two, script: &Script) -> bool
    requires sound { IsSoundScript script.now }
    requires two { AreTwo script.now two.old.lock two.old.first.value two.old.second.value }
    ensures { AreTwo script.now two.new.lock two.new.first.value two.new.second.value }
{
    for node in ORDER {
        if two.turn(rt, script, node == 1) != TurnAnswer::Did {
            return false;
        }
    }
    two.turn(rt, script, true) == TurnAnswer::Idle
        && two.turn(rt, script, false) == TurnAnswer::Idle
}

/// Whether the turns are those, and the journal behind them. It alone owns the nodes.
fn turns_and_journal<R: Wait>(
    rt: &R,
    alloc: Global,
    script: &Script,
) -> Result<(bool, Journal), Memory>
    requires sound { IsSoundScript script.now }
    requires two { node_count script.now ≡ 2 }
{
    let mut two = Two::new(rt, alloc, script, &[])?;
    let all = all_turn(rt, &mut two, script);
    Ok((all, two.close(alloc, script)?))
}

// What each turn of a node answers, and what stands in the journal then.
#[test]
fn two_nodes_make_twelve_turns_on_one_thread(rt: HostRuntime) -> Result<(), Fail> {
    let alloc = rt.alloc();
    let script = read_script(alloc, BOTH_LOOK.as_bytes())?;
    assert_eq!(rt; script.blocks.len(), 2);
    let (all, journal) = turns_and_journal(&rt, alloc, &script)?;
    assert!(rt; all);
    let mut entries = Entries::new(alloc);
    for line in journal.into_vec() {
        entries.push(line.entry)?;
    }
    let trace = write_trace(alloc, &script, &entries)?;
    assert!(rt; trace.as_slice() == TRACE.as_bytes());
    Ok(())
}
