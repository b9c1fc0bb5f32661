//! Numbers with names of their own: nodes, processes, identifiers, keys.
ghost use Rattle.std.specs.Prelude.{◌≡◌, ◌≤◌, ℕ};

use std::marker::Model;

/// A picoprocess, which is a block of the script: 1 to 32. Node 1 is the leader.
#[derive(Clone, Copy, Debug, PartialEq, Eq, PartialOrd, Ord)]
pub struct Node(pub u8);

impl Model for Node {
    ghost Value = { ℕ };

    ghost view = { λ n. n.0 };

    ghost invariant = { λ n. (1 ≤ n.0) × (n.0 ≤ 32) };

    ghost inverse = { λ n. record { 0 = n } };
}

/// A process number. Process 1 is there at first, and 0 names no process.
#[derive(Clone, Copy, Debug, PartialEq, Eq, PartialOrd, Ord, Hash)]
pub struct Pid(pub u32);

impl Model for Pid {
    ghost Value = { ℕ };

    ghost view = { λ p. p.0 };

    ghost inverse = { λ n. record { 0 = n } };
}

/// No process.
impl Default for Pid {
    ghost is_default = { λ p. p ≡ 0 };

    fn default() -> Self {
        Pid(0)
    }
}

/// The identifier of a message queue or of a semaphore set. 0 names none.
#[derive(Clone, Copy, Debug, PartialEq, Eq, PartialOrd, Ord, Hash)]
pub struct Id(pub u32);

impl Model for Id {
    ghost Value = { ℕ };

    ghost view = { λ i. i.0 };

    ghost inverse = { λ n. record { 0 = n } };
}

/// A key of `msgget` or `semget`, at least 1. IPC_PRIVATE is no key: a call without one is private.
#[derive(Clone, Copy, Debug, PartialEq, Eq, PartialOrd, Ord)]
pub struct Key(pub u32);

impl Model for Key {
    ghost Value = { ℕ };

    ghost view = { λ k. k.0 };

    ghost inverse = { λ n. record { 0 = n } };
}

/// The three kinds of things that have numbers of their own.
#[derive(Clone, Copy, Debug, PartialEq, Eq)]
pub enum Kind {
    Proc,
    Msg,
    Sem,
}

/// What a call may be carried out on: a process, a message queue or a semaphore set.
#[derive(Clone, Copy, Debug, PartialEq, Eq, Hash)]
pub enum Name {
    Proc(Pid),
    Msg(Id),
    Sem(Id),
}
