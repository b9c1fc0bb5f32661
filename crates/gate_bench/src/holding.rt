//! The gate that holds nodes by a plan. Each wait has an end, and that one gave up is noted.
use crate::plan::Plan;
use host_iface::Gate;
use pico_base::Node;
use std::sync::atomic::{AtomicU64, Ordering};
use std::thread;

/// As many looks at most before a wait gives up.
const LOOKS: u64 = 1_000_000_000;

/// The turns of a node among which a generator holds some.
const EARLY: u64 = 512;

/// A gate that holds nodes by a plan.
#[derive(Drop)]
pub struct Holding {
    plan: Plan,
    // How many turns passed: of one node, or of all.
    passed: AtomicU64,
    gave_up: AtomicU64,
}

/// The next number of a generator (splitmix64).
fn mixed(number: u64) -> u64 {
    let first = number.wrapping_add(0x9e37_79b9_7f4a_7c15);
    let second = (first ^ (first >> 30)).wrapping_mul(0xbf58_476d_1ce4_e5b9);
    let third = (second ^ (second >> 27)).wrapping_mul(0x94d0_49bb_1331_11eb);
    third ^ (third >> 31)
}

/// What the generator gives for a count of a node's.
fn drawn(seed: u64, node: Node, count: u64) -> u64 {
    mixed(mixed(seed ^ (u64::from(node.0) << 56)).wrapping_add(count))
}

/// How many looks a turn is held for: each eighth one of the early ones for less than 64, and the first for less than
/// 4096.
fn looks_before(seed: u64, node: Node, turn: u64) -> u64 {
    if turn > EARLY {
        return 0;
    }
    let number = drawn(seed, node, turn.wrapping_mul(2));
    if turn == 1 {
        number >> 52
    } else if number & 7 == 0 {
        number >> 58
    } else {
        0
    }
}

/// How many looks a node is held for behind an event: behind most for none, behind some for less than 64, and behind
/// few for less than 4096 or 32768.
fn looks_behind(seed: u64, node: Node, event: u64) -> u64 {
    let number = drawn(seed, node, event.wrapping_mul(2).wrapping_add(1));
    match number & 31 {
        0..=5 => number >> 58,
        6 | 7 => number >> 52,
        8 => number >> 49,
        _ => 0,
    }
}

/// Which of so many nodes is held where so many turns passed. None: there are no nodes, or each is held for none.
fn held_after(passed: u64, nodes: u64, passes: u64) -> Option<u64> {
    passed
        .checked_div(passes)?
        .checked_rem(nodes)?
        .checked_add(1)
}

/// Lets the others on at each so many looks.
const SOME: u64 = 64;

/// Lets the others on behind some looks: there may be more of them than processors.
fn let_on_at_times(look: u64) {
    if look % SOME == SOME - 1 {
        thread::yield_now();
    }
}

impl Holding {
    /// A gate that hasn't held anybody.
    pub fn new(plan: Plan) -> Holding {
        Holding {
            plan,
            passed: AtomicU64::new(0),
            gave_up: AtomicU64::new(0),
        }
    }

    /// Whether a wait had no end of its own.
    pub fn has_given_up(&self) -> bool {
        self.gave_up.load(Ordering::SeqCst) > 0
    }

    /// Looks so many times.
    fn look_on(&self, looks: u64) {
        for look in 0..looks {
            let _ = self.passed.load(Ordering::SeqCst);
            let_on_at_times(look);
        }
    }

    /// Waits until so many turns passed.
    fn wait_for(&self, turns: u64) {
        for look in 0..LOOKS {
            if self.passed.load(Ordering::SeqCst) >= turns {
                return;
            }
            let_on_at_times(look);
        }
        self.gave_up.fetch_add(1, Ordering::SeqCst);
    }

    /// Holds a node while it is its time. Its looks count as turns, so that its time ends where it is alone.
    fn wait_in_turn(&self, node: Node, nodes: u64, passes: u64) {
        for look in 0..LOOKS {
            let passed = self.passed.fetch_add(1, Ordering::SeqCst);
            if held_after(passed, nodes, passes) != Some(u64::from(node.0)) {
                return;
            }
            let_on_at_times(look);
        }
        self.gave_up.fetch_add(1, Ordering::SeqCst);
    }
}

impl Gate for Holding {
    fn pass(&self, node: Node, turn: u64) {
        match self.plan {
            Plan::Open => {}
            Plan::Hold { other, .. } if node.0 == other => self
                .passed
                .store(turn, Ordering::SeqCst),
            Plan::Hold {
                node: held,
                turn: turns,
                ..
            } => {
                if node.0 == held && turn == 1 {
                    self.wait_for(turns);
                }
            }
            Plan::Each { nodes, passes } => self.wait_in_turn(node, nodes, passes),
            Plan::Random { seed } => self.look_on(looks_before(seed, node, turn)),
        }
    }

    fn did(&self, node: Node, event: u64) {
        if let Plan::Random { seed } = self.plan {
            self.look_on(looks_behind(seed, node, event));
        }
    }
}
