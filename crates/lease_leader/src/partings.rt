//! The nodes that leave or have left.
ghost use Rattle.std.specs.Prelude.{◌≡◌, [], is_none};
ghost use Rattle.number_maps.specs.Maps.{get, put};
ghost use Rattle.node_model.specs.Directory.{HasLeft, IsLeaving, is_leaving_as};
ghost use Rattle.lease_leader.specs.Stages.{parting_of};

use pico_base::Node;
use std::marker::Model;

/// How many nodes there are at most.
const NODES: usize = 32;

/// What a node has told of its parting.
#[derive(Clone, Copy, Debug, PartialEq, Eq)]
pub(crate) enum Stage {
    /// Nothing.
    Stays,
    /// That it leaves.
    Leaving,
    /// That it has handed over all that it held.
    Left,
}

/// A stage for each node, which contracts see as a finite map from the nodes that part.
#[derive(Drop)]
pub(crate) struct Partings {
    // node 1's comes first
    stages: [Stage; NODES],
}

impl Model for Partings {
    ghost use Rattle.std.specs.Prelude.{◌≡◌, length};
    ghost use Rattle.number_maps.specs.Maps.{Numbered};
    ghost use Rattle.node_model.specs.Directory.{Parting};
    ghost use Rattle.lease_leader.specs.Stages.{partings_from};

    ghost Value = { Numbered Parting };

    ghost view = { λ p. partings_from 1 p.stages };

    ghost invariant = { λ p. length p.stages ≡ 32 };
}

impl Partings {
    /// Every node stays.
    pub(crate) fn none() -> Partings
        ensures { result ≡ [] }
    {
        Partings {
            stages: [Stage::Stays; NODES],
        }
    }

    fn stage(&self, node: Node) -> Stage
        ensures { parting_of result ≡ get self.now node }
    {
        self.stages[node.0 as usize - 1]
    }

    /// Whether the node is neither leaving nor has left.
    pub(crate) fn stays(&self, node: Node) -> bool
        ensures { result ≡ is_none (get self.now node) }
    {
        match self.stage(node) {
            Stage::Stays => true,
            Stage::Leaving | Stage::Left => false,
        }
    }

    /// Whether the node is leaving and hasn't left.
    pub(crate) fn is_leaving(&self, node: Node) -> bool
        ensures { result ≡ is_leaving_as (get self.now node) }
    {
        match self.stage(node) {
            Stage::Leaving => true,
            Stage::Stays | Stage::Left => false,
        }
    }

    /// The node is leaving.
    pub(crate) fn note_leaving(&mut self, node: Node)
        ensures { self.new ≡ put self.old node IsLeaving }
    {
        self.stages[node.0 as usize - 1] = Stage::Leaving;
    }

    /// The node has left.
    pub(crate) fn note_left(&mut self, node: Node)
        ensures { self.new ≡ put self.old node HasLeft }
    {
        self.stages[node.0 as usize - 1] = Stage::Left;
    }
}
