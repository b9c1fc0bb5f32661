//! Gates of the tests. Each wait has an end, and a gate notes that it gave up there.
ghost use Rattle.std.specs.Prelude.{◌<◌};

use host_iface::Gate;
use pico_base::Node;
use std::sync::atomic::{AtomicU64, Ordering};
use std::thread;

/// As many looks at most before a wait gives up. Others are let on between them, so they take minutes, and a wait gives
/// up on no machine for being slow.
const LOOKS: u64 = 200_000_000;

/// As many looks take some tenths of a second.
const MORE_LOOKS: u64 = 1_000_000;

/// Words that gates raise and wait for, and how many waits gave up.
#[derive(Drop)]
pub struct Words {
    first: AtomicU64,
    second: AtomicU64,
    gave_up: AtomicU64,
}

impl Words {
    pub fn new() -> Words {
        Words {
            first: AtomicU64::new(0),
            second: AtomicU64::new(0),
            gave_up: AtomicU64::new(0),
        }
    }

    /// The two words, and how many waits gave up.
    pub fn read(&self) -> (u64, u64, u64) {
        (
            self.first.load(Ordering::SeqCst),
            self.second.load(Ordering::SeqCst),
            self.gave_up.load(Ordering::SeqCst),
        )
    }

    /// Waits until the word is at least that, for so many looks at most.
    fn wait_for(&self, word: &AtomicU64, least: u64) {
        for _ in 0..LOOKS {
            if word.load(Ordering::SeqCst) >= least {
                return;
            }
            thread::yield_now();
        }
        self.gave_up.fetch_add(1, Ordering::SeqCst);
    }

    /// Looks for some tenths of a second, in which the other thread makes the turn that it has passed the gate for.
    fn look_on(&self) {
        for _ in 0..MORE_LOOKS {
            let _ = self.first.load(Ordering::SeqCst);
            thread::yield_now();
        }
    }

    /// Waits until so many turns of node 2 came behind its last event.
    fn wait_for_turns(&self, counts: &Counts, least: u64) {
        for _ in 0..LOOKS {
            if counts.of(Node(2)).2 >= least {
                return;
            }
            thread::yield_now();
        }
        self.gave_up.fetch_add(1, Ordering::SeqCst);
    }
}

/// The nodes of the twelve events of a run of two nodes, in their order.
const ORDER: [u8; 12] = [1, 1, 1, 2, 1, 2, 1, 2, 2, 1, 2, 1];

/// One event after the other, in that order: a node makes a turn when the next event is its own. Behind the last one
/// each node may go on.
#[derive(Drop)]
pub struct InOrder {
    pub words: Words,
}

impl Gate for InOrder {
    fn pass(&self, node: Node, _turn: u64) {
        for _ in 0..LOOKS {
            let place = self.words.first.load(Ordering::SeqCst) as usize;
            if ORDER.get(place).is_none_or(|next| *next == node.0) {
                return;
            }
            thread::yield_now();
        }
        self.words.gave_up.fetch_add(1, Ordering::SeqCst);
    }

    fn did(&self, _node: Node, _event: u64) {
        self.words.first.fetch_add(1, Ordering::SeqCst);
    }
}

/// Node 1, once it has forked, goes on when node 2 has taken its Checkpoint, and node 2 makes its first turn when node
/// 1 has forked. So two threads are at work at once, or a wait gives up.
#[derive(Drop)]
pub struct BothAtWork {
    pub words: Words,
}

impl Gate for BothAtWork {
    fn pass(&self, node: Node, turn: u64) {
        if node == Node(2) && turn == 1 {
            self.words.wait_for(&self.words.first, 1);
        }
    }

    fn did(&self, node: Node, event: u64) {
        if node == Node(1) && event == 3 {
            self.words.first.store(1, Ordering::SeqCst);
            self.words.wait_for(&self.words.second, 1);
        } else if node == Node(2) && event == 1 {
            self.words.second.store(1, Ordering::SeqCst);
        }
    }
}

/// Nodes 1 and 2 are each the first of a sandbox, and go on behind their first events when the other has made its own.
/// So two sandboxes are at work at once, or a wait gives up.
#[derive(Drop)]
pub struct BothSandboxesAtWork {
    pub words: Words,
}

impl Gate for BothSandboxesAtWork {
    fn pass(&self, _node: Node, _turn: u64) {}

    fn did(&self, node: Node, event: u64) {
        if event != 1 {
            return;
        }
        if node == Node(1) {
            self.words.first.store(1, Ordering::SeqCst);
            self.words.wait_for(&self.words.second, 1);
        } else {
            self.words.second.store(1, Ordering::SeqCst);
            self.words.wait_for(&self.words.first, 1);
        }
    }
}

/// Node 1 makes its first turn when node 2 has made 100,000, and so has left: what is left is stepped by the caller.
#[derive(Drop)]
pub struct FirstIsLate {
    pub words: Words,
}

impl Gate for FirstIsLate {
    fn pass(&self, node: Node, turn: u64) {
        if node == Node(2) {
            self.words.first.store(turn, Ordering::SeqCst);
        } else if turn == 1 {
            self.words.wait_for(&self.words.first, 100_000);
            self.words.look_on();
        }
    }

    fn did(&self, _node: Node, _event: u64) {}
}

/// Node 1 goes on behind so many of its events when node 2 has made 100,000 turns behind its own last event, and so has
/// left.
#[derive(Drop)]
pub struct OtherLeaves {
    pub counts: Counts,
    pub words: Words,
    pub events: u64,
}

impl Gate for OtherLeaves {
    fn pass(&self, node: Node, turn: u64) {
        self.counts.pass(node, turn);
        let (_, events, _) = self.counts.of(Node(1));
        if node == Node(1) && events == self.events {
            self.words.wait_for_turns(&self.counts, 100_000);
        }
    }

    fn did(&self, node: Node, event: u64) {
        self.counts.did(node, event);
    }
}

/// The turns and the events of nodes 1 and 2, and the turn of each one's last event.
#[derive(Drop)]
pub struct Counts {
    turns: [AtomicU64; 2],
    events: [AtomicU64; 2],
    last: [AtomicU64; 2],
}

/// The place of node 1 or 2 in the counts.
fn place_of(node: Node) -> usize
    ensures { result < 2 }
{
    if node == Node(1) { 0 } else { 1 }
}

impl Counts {
    pub fn new() -> Counts {
        Counts {
            turns: [AtomicU64::new(0), AtomicU64::new(0)],
            events: [AtomicU64::new(0), AtomicU64::new(0)],
            last: [AtomicU64::new(0), AtomicU64::new(0)],
        }
    }

    /// How many turns and events node 1 or 2 made, and how many turns came behind its last event.
    pub fn of(&self, node: Node) -> (u64, u64, u64) {
        let place = place_of(node);
        let turns = self.turns[place].load(Ordering::SeqCst);
        let last = self.last[place].load(Ordering::SeqCst);
        (
            turns,
            self.events[place].load(Ordering::SeqCst),
            turns.wrapping_sub(last),
        )
    }
}

impl Gate for Counts {
    fn pass(&self, node: Node, turn: u64) {
        self.turns[place_of(node)].store(turn, Ordering::SeqCst);
    }

    fn did(&self, node: Node, event: u64) {
        let place = place_of(node);
        self.events[place].store(event, Ordering::SeqCst);
        let turn = self.turns[place].load(Ordering::SeqCst);
        self.last[place].store(turn, Ordering::SeqCst);
    }
}
