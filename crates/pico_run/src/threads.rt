//! A thread's work: turns of its node, until it is quiet.
ghost use Rattle.std.specs.Prelude.{◌≡◌, ◌≢◌, ℕ, ◌+◌, ◌<◌, ◌≤◌, false, length, slice_index_or, None};
ghost use Rattle.kernel_model.specs.Script.{IsSoundScript};
ghost use Rattle.log_model.specs.Views.{LoggedNode};
ghost use Rattle.pico_run.specs.Opened.{AreReady};
ghost use Rattle.pico_run.specs.Turning.{CanTurn, IsTurning, IsWorked};

use crate::beds::Beds;
use crate::grid::node_at;
use host_iface::Gate;
use journal_core::JournalLock;
use logged_laws::turns_keep_logs;
use node_log::{Logged, TurnAnswer};
use pico_base::{Node, Script};
use std::sync::Wait;
use std::thread;
use std::thread::{Threads, for_each_mut};

/// After so many idle turns in a row a thread leaves.
const QUIET: u64 = 100_000;

/// After each so many idle turns in a row a thread lets the others on, at first: there may be more of them than
/// processors.
const FEW: u64 = 64;

/// After so many it sleeps for the first time: an answer comes sooner at most times.
const FIRST: u64 = 512;

/// And again after each so many more.
const SOME: u64 = 4096;

/// A thread whose node has left waits for nothing: it makes its idle turns at once, while others are at work, but for
/// so many, between which it sleeps. For half a second somebody may still ask it for what it doesn't hold any more.
const LAST: u64 = 12;

/// After each so many events of its node a thread lets the others on: who waits for an answer of another node may wait
/// for this processor.
const MANY: u64 = 64;

/// How many turns a thread has made, and in how many of them its node made an event.
#[derive(Drop)]
struct Counts {
    turns: u64,
    events: u64,
}

/// How many more idle turns a thread makes before it rests, after so many in a row.
fn turns_to_rest(quiet: u64) -> u64 {
    if quiet < FIRST {
        FEW - quiet % FEW
    } else if quiet < QUIET - LAST {
        (SOME - (quiet - FIRST) % SOME).min(QUIET - LAST - quiet)
    } else {
        1
    }
}

/// Sleeps until something is sent to the node, if it is time to; else the others are let on.
#[cold]
fn sleep_if_due<R: Wait>(rt: &R, beds: &Beds, node: Node, logged: &Logged) {
    let quiet = logged.quiet();
    let is_late = quiet >= QUIET - LAST;
    if (is_late || quiet % SOME == FIRST) && logged.has_left() == is_late {
        beds.sleep(rt, node);
    } else {
        thread::yield_now();
    }
}

/// Whether a thread rests after so many idle turns in a row.
#[inline(always)]
fn is_restful(quiet: u64) -> bool {
    quiet != 0 && quiet % FEW == 0 && (quiet <= FIRST || quiet % SOME == FIRST)
        || quiet >= QUIET - LAST
}

/// Rests after some of the turns that found nothing.
#[inline(always)]
fn rest_at_times<R: Wait>(rt: &R, beds: &Beds, node: Node, logged: &Logged) {
    if is_restful(logged.quiet()) {
        sleep_if_due(rt, beds, node, logged);
    }
}

/// Lets the others on after some of the events.
#[inline(always)]
fn let_on_at_times(events: u64) {
    if events % MANY == 0 {
        thread::yield_now();
    }
}

/// Makes turns that find nothing up to the next rest, or one that finds something. The gate is passed before each turn,
/// and told of each event. Whether the node makes turns yet.
#[inline(always)]
fn turn_on<R: Wait, G: Gate>(
    rt: &R,
    lock: &JournalLock,
    script: &Script,
    gate: &G,
    beds: &Beds,
    node: Node,
    counts: &mut Counts,
    logged: &mut Logged,
) -> bool
    requires sound { IsSoundScript script.now }
    requires ready { CanTurn script.now lock.now logged.old }
    ensures turning { IsTurning script.now lock.now logged.old logged.new }
    ensures faulty { result ≡ false → logged.new.fault ≢ None }
{
    turns_keep_logs();
    let most = turns_to_rest(logged.quiet());
    let waited = logged.wait(gate, counts.turns, most);
    counts.turns = counts.turns.saturating_add(waited);
    if waited == most {
        return true;
    }
    counts.turns = counts.turns.saturating_add(1);
    match logged.turn(rt, lock, script) {
        TurnAnswer::Did => {
            counts.events = counts.events.saturating_add(1);
            gate.did(node, counts.events);
            beds.goes_on();
            let_on_at_times(counts.events);
            true
        }
        TurnAnswer::Piece => true,
        TurnAnswer::Idle => true,
        _ => false,
    }
}

/// Makes turns of a node until it is quiet, or a turn has a fault. After some idle turns in a row it sleeps until
/// something is sent to the node.
fn turn_until_quiet<R: Wait, G: Gate>(
    rt: &R,
    lock: &JournalLock,
    script: &Script,
    gate: &G,
    beds: &Beds,
    node: Node,
    logged: &mut Logged,
)
    requires sound { IsSoundScript script.now }
    requires ready { CanTurn script.now lock.now logged.old }
    ensures { IsWorked script.now logged.old logged.new }
{
    let mut counts = Counts {
        turns: 0,
        events: 0,
    };
    for _ in rt.forever() {
        if !turn_on(rt, lock, script, gate, beds, node, &mut counts, logged) {
            return;
        }
        if logged.quiet() >= QUIET {
            return;
        }
        rest_at_times(rt, beds, node, logged);
    }
    unreachable!()
}

/// Makes turns of a node until it is quiet, in the company of the others.
fn work<R: Wait, G: Gate>(
    rt: &R,
    lock: &JournalLock,
    script: &Script,
    gate: &G,
    beds: &Beds,
    node: Node,
    logged: &mut Logged,
)
    requires sound { IsSoundScript script.now }
    requires ready { CanTurn script.now lock.now logged.old }
    ensures { IsWorked script.now logged.old logged.new }
{
    turn_until_quiet(rt, lock, script, gate, beds, node, logged);
    beds.leave();
}

/// Makes turns of all nodes, each in a thread of its own, until all are quiet.
pub(crate) fn turn_all<R: Threads + Wait + Sync, G: Gate>(
    rt: &R,
    lock: &JournalLock,
    script: &Script,
    gate: &G,
    beds: &Beds,
    nodes: &mut [Logged],
)
    requires sound { IsSoundScript script.now }
    requires count { (1 ≤ length nodes.old) × (length nodes.old ≤ 32) }
    requires ready { AreReady script.now lock.now 1 nodes.old }
    ensures count { length nodes.new ≡ length nodes.old }
    ensures worked { (k : ℕ) (d : LoggedNode) → k < length nodes.old
        → IsWorked script.now (slice_index_or nodes.old k d) (slice_index_or nodes.new k d) }
{
    let count = nodes.len();
    for_each_mut(
        rt,
        nodes,
        count,
        &|place: usize, logged: &mut Logged|
            requires sound { IsSoundScript script.now }
            requires place { place < 32 }
            requires ready { CanTurn script.now lock.now logged.now }
            ensures { IsWorked script.entry.now logged.entry.now logged.exit.now }
        { work(rt, lock, script, gate, beds, node_at(place), logged) },
    );
}
