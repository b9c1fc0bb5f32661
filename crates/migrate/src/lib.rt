//! The watch over who reads a name, which says when the name moves to another node.
#![tactic(auto)]

ghost use Rattle.std.specs.Prelude.{◌≡◌};
ghost use Rattle.migrate.specs.Watching.{FourthMoves, move_at, run_with, watching_after, watching_anew};

use pico_base::Node;
use std::marker::Model;

/// The read in a row by one node other than the owner at which the name moves there.
const MOVES_AT: u8 = 4;

/// The reads of one name: its owner, the last other node that read it, and how often in a row. A
/// read is a receive that gave a message or a `semop` that took from a semaphore.
///
/// The profile's own: POSIX.1-2017 has no owners.
#[derive(Debug, Drop)]
pub struct Watch {
    owner: Node,
    reader: Option<Node>,
    run: u8,
}

impl Model for Watch {
    ghost use Rattle.std.specs.Prelude.{◌<◌};
    ghost use Rattle.migrate.specs.Watching.{Watching};

    ghost Value = { Watching };

    ghost view = { λ w. record { owner = w.owner; reader = w.reader; run = w.run } };

    ghost invariant = { λ w. w.run < 4 };
}

impl Watch {
    /// A watch over a name that this node owns and that nobody has read yet.
    pub fn new(owner: Node) -> Watch
        ensures { result ≡ watching_anew owner }
    {
        Watch {
            owner,
            reader: None,
            run: 0,
        }
    }

    /// Notes that the node read the name. It answers the node exactly where this is its fourth read in
    /// a row and it isn't the owner, and then counts from 0.
    pub fn note(&mut self, node: Node) -> Option<Node>
        ensures fourth { result ≡ move_at self.old node }
        ensures counted { self.new ≡ watching_after self.old node }
    {
        let run = self.run_with(node);
        if run == 0 || run == MOVES_AT {
            self.reader = None;
            self.run = 0;
        } else {
            self.reader = Some(node);
            self.run = run;
        }
        (run == MOVES_AT).then_some(node)
    }

    /// How long the run of this node is once it reads again.
    fn run_with(&self, node: Node) -> u8
        ensures { result ≡ run_with self.now node }
    {
        if node == self.owner {
            0
        } else if self.reader == Some(node) {
            self.run + 1
        } else {
            1
        }
    }
}

/// Over any reads from the watch's beginning on, a node that doesn't own the name is answered exactly
/// at its fourth read in a row.
pub fn fourth_in_a_row()
    ensures { FourthMoves }
{}
