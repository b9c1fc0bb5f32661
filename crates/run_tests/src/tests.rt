//! Runs under gates.
ghost use Rattle.std.specs.Prelude.{IsSome};

use crate::gates::{
    BothAtWork, BothSandboxesAtWork, Counts, FirstIsLate, InOrder, OtherLeaves, Words,
};
use boxes_run::run_all;
use host_iface::Gate;
use pico_base::{Bytes, Node};
use pico_run::{Rested, run};
use sandbox_set::read_boxes;
use script_reader::read_script;
use std::alloc::Global;
use std::sync::Wait;
use std::test::Fail;
use std::thread::Threads;
use trace_check::check_trace;
use trace_text::write_trace;

// Both look into the same empty queue.
const BOTH_LOOK: &str = concat!(
    "proc main\nq = msgget private\nmsgrcv $q 0 8 nowait\nfork child\nend\n",
    "proc child\nmsgrcv $q 0 8 nowait\nend\n"
);

// Its trace where one event is made after the other: node 2 is born before node 1 goes on.
const TRACE: &str = concat!(
    "1 msgget private = 1 by 1\n1 msgrcv 1 0 8 nowait = ENOMSG by 1\n1 fork child = 2 by 1\n1 exit 0 = ended by 1\n",
    "2 msgrcv 1 0 8 nowait = ENOMSG by 1\n2 exit 0 = ended by 1\n",
    "totals entries 6 processes 2 notready 2 refused 0\n"
);

// What is looked at of a run: its trace, how many entries it has by the judge of traces, and what each thread left: how
// many events it made, and how many turns behind its last one.
#[derive(Drop)]
struct Seen {
    trace: Bytes,
    entries: u32,
    left: [Option<(usize, u64)>; 2],
}

// What the thread of a node left.
fn left_by(rested: &Rested, place: usize) -> Option<(usize, u64)> {
    let parting = rested.partings.as_slice().get(place)?;
    Some((parting.log().len(), parting.quiet()))
}

// Looks at a run; a fault where its trace isn't legal.
fn look_at(alloc: Global, rested: &Rested) -> Result<Seen, Fail>
    requires { IsSome rested.now.world }
{
    let script = read_script(alloc, BOTH_LOOK.as_bytes())?;
    let trace = write_trace(alloc, &script, rested.world.journal())?;
    let entries = check_trace(alloc, &script, trace.as_slice(), 1)?.entries;
    Ok(Seen {
        trace,
        entries,
        left: [left_by(rested, 0), left_by(rested, 1)],
    })
}

// Runs the script under a gate. It alone owns what a run leaves.
fn see_run<R: Threads + Wait + Sync, G: Gate>(
    rt: &R,
    alloc: Global,
    gate: &G,
) -> Result<Seen, Fail> {
    let script = read_script(alloc, BOTH_LOOK.as_bytes())?;
    let rested = run(rt, alloc, script, gate)?;
    look_at(alloc, &rested)
}

// How often a run under a gate that has two nodes at work at once is made.
const ROUNDS: u32 = 10;

#[test]
fn two_threads_are_at_work_at_once(rt: HostRuntime) -> Result<(), Fail> {
    for _ in 0..ROUNDS {
        let gate = BothAtWork {
            words: Words::new(),
        };
        let seen = see_run(&rt, rt.alloc(), &gate)?;
        assert_eq!(rt; gate.words.read(), (1, 1, 0));
        assert_eq!(rt; seen.entries, 6);
    }
    Ok(())
}

#[test]
fn twelve_turns_one_after_the_other(rt: HostRuntime) -> Result<(), Fail> {
    let gate = InOrder {
        words: Words::new(),
    };
    let seen = see_run(&rt, rt.alloc(), &gate)?;
    assert_eq!(rt; gate.words.read(), (12, 0, 0));
    assert_eq!(rt; seen.trace.as_slice(), TRACE.as_bytes());
    Ok(())
}

#[test]
fn what_threads_leave_is_stepped(rt: HostRuntime) -> Result<(), Fail> {
    let gate = FirstIsLate {
        words: Words::new(),
    };
    let seen = see_run(&rt, rt.alloc(), &gate)?;
    assert_eq!(rt; gate.words.read().2, 0);
    assert_eq!(rt; seen.left[1].map(|left| left.0), Some(0));
    assert_eq!(rt; seen.entries, 6);
    Ok(())
}

#[test]
fn the_other_leaves_behind_each_event(rt: HostRuntime) -> Result<(), Fail> {
    for events in 0..10 {
        let gate = OtherLeaves {
            counts: Counts::new(),
            words: Words::new(),
            events,
        };
        let seen = see_run(&rt, rt.alloc(), &gate)?;
        assert_eq!(rt; gate.words.read().2, 0);
        assert_eq!(rt; seen.entries, 6);
    }
    Ok(())
}

#[test]
fn partings_are_what_the_gate_counts(rt: HostRuntime) -> Result<(), Fail> {
    let gate = Counts::new();
    let seen = see_run(&rt, rt.alloc(), &gate)?;
    for (left, node) in seen.left.into_iter().zip([Node(1), Node(2)]) {
        let (_, events, quiet) = gate.of(node);
        assert_eq!(rt; left, Some((events as usize, quiet)));
        assert!(rt; quiet >= 100_000);
    }
    Ok(())
}

// Process 2 sends once, and both receive: one of them waits for good.
const ONE_WAITS: &str = concat!(
    "proc main\nq = msgget private\nfork child\nmsgrcv $q 0 8\nend\n",
    "proc child\nmsgsnd $q 1 \"x\"\nmsgrcv $q 0 8\nend\n"
);

// Runs a script, and says whether processes wait for good then. It alone owns what the run leaves.
fn is_left_stalled<R: Threads + Wait + Sync>(
    rt: &R,
    alloc: Global,
    script: &str,
) -> Result<bool, Fail> {
    let gate = Counts::new();
    let script = read_script(alloc, script.as_bytes())?;
    let rested = run(rt, alloc, script, &gate)?;
    Ok(rested.world.is_stalled())
}

#[test]
fn who_waits_for_good_is_seen(rt: HostRuntime) -> Result<(), Fail> {
    assert!(rt; is_left_stalled(&rt, rt.alloc(), ONE_WAITS)?);
    assert!(rt; !is_left_stalled(&rt, rt.alloc(), BOTH_LOOK)?);
    Ok(())
}

// Two sandboxes of one process each.
const TWO_SANDBOXES: &str = concat!(
    "sandbox a\nproc main\nq = msgget private\nmsgrcv $q 0 8 nowait\nend\nendsandbox\n",
    "sandbox b\nproc main\ngetpid\nend\nendsandbox\n"
);

// What the thread of a sandbox's first node left.
fn left_in(rested: &[Rested], place: usize) -> Option<(usize, u64)> {
    left_by(rested.get(place)?, 0)
}

// Runs both sandboxes under a gate, and looks at what the threads of both left. It alone owns what the runs leave.
fn see_sandboxes<R: Threads + Wait + Sync, G: Gate>(
    rt: &R,
    alloc: Global,
    gate: &G,
) -> Result<[Option<(usize, u64)>; 2], Fail> {
    let boxes = read_boxes(alloc, TWO_SANDBOXES.as_bytes())?;
    let rested = run_all(rt, alloc, boxes, gate)?;
    Ok([left_in(rested.as_slice(), 0), left_in(rested.as_slice(), 1)])
}

#[test]
fn two_sandboxes_are_at_work_at_once(rt: HostRuntime) -> Result<(), Fail> {
    for _ in 0..ROUNDS {
        let gate = BothSandboxesAtWork {
            words: Words::new(),
        };
        let left = see_sandboxes(&rt, rt.alloc(), &gate)?;
        assert_eq!(rt; gate.words.read(), (1, 1, 0));
        assert_eq!(rt; left.map(|one| one.map(|it| it.0)), [Some(3), Some(2)]);
    }
    Ok(())
}

// The first sandbox is held before its first turn until the second one's thread has left.
#[test]
fn a_sandbox_comes_to_rest_while_another_is_held(rt: HostRuntime) -> Result<(), Fail> {
    let gate = OtherLeaves {
        counts: Counts::new(),
        words: Words::new(),
        events: 0,
    };
    let left = see_sandboxes(&rt, rt.alloc(), &gate)?;
    assert_eq!(rt; gate.words.read().2, 0);
    // the gate counts nodes over both
    assert_eq!(rt;
        (gate.counts.of(Node(1)).1, gate.counts.of(Node(2)).1),
        (3, 2)
    );
    assert_eq!(rt; left.map(|one| one.map(|it| it.0)), [Some(3), Some(2)]);
    Ok(())
}
