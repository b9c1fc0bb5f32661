//! What a node that logs leaves.
ghost use Rattle.std.specs.Prelude.{◌≡◌};

use journal_core::JSeat;
use node_core::PicoNode;
use node_lines::Ends;
use pico_base::{Event, Node, Sequence};
use stamp_merge::Stamped;
use std::marker::Model;

/// Events of one node with their stamps, which rise.
pub type Log = Sequence<Stamped<Event>>;

/// What a node's turns came to: `Logged::finish` alone makes it.
#[derive(Drop)]
pub struct Parting {
    pub(crate) node: Node,
    pub(crate) quiet: u64,
    pub(crate) log: Log,
}

impl Model for Parting {
    ghost use Rattle.log_model.specs.Views.{Parting as PartingValue};

    ghost Value = { PartingValue };

    ghost view = { λ p. record { node = p.node; quiet = p.quiet; log = p.log } };
}

impl Parting {
    /// The node.
    pub fn node(&self) -> Node
        ensures { result ≡ self.now.node }
    {
        self.node
    }

    /// How many turns in a row, up to its last one, found nothing and ran no line.
    pub fn quiet(&self) -> u64
        ensures { result ≡ self.now.quiet }
    {
        self.quiet
    }

    /// Its events, with their stamps.
    pub fn log(&self) -> &Log
        ensures { result.now ≡ self.now.log }
    {
        &self.log
    }
}

/// The parts of a node that has made its last turn.
#[derive(Drop)]
pub struct Finished {
    pub node: PicoNode,
    pub parting: Parting,
    pub ends: Ends,
    pub seat: JSeat,
}
