//! Which node was given which range of numbers.
ghost use Rattle.std.specs.Prelude.{◌≡◌, ◌∷◌, ◌++◌, [], OnOk, OnErr, IfOk, length};
ghost use Rattle.node_model.specs.Kinds.{for_kind, kind_of, number_of, with_kind};
ghost use Rattle.node_model.specs.Directory.{maker_in};

use pico_base::{Kind, Memory, Name, Node};
use std::alloc::Global;
use std::marker::Model;

/// How many numbers a range has.
pub(crate) const RANGE: u32 = 8;

/// For each kind the nodes that were given a range, in order: numbers 1 to 8, then 9 to 16, and so on.
#[derive(Drop)]
pub(crate) struct Ranges {
    processes: Vec<Node>,
    queues: Vec<Node>,
    sets: Vec<Node>,
}

impl Model for Ranges {
    ghost use Rattle.std.specs.Prelude.{List, ℕ};
    ghost use Rattle.node_model.specs.Kinds.{PerKind};

    ghost Value = { PerKind (List ℕ) };

    ghost view = { λ r. record { processes = r.processes.items; queues = r.queues.items; sets = r.sets.items } };
}

/// The node that was given the range of a number.
fn maker_in(ranges: &[Node], number: u32) -> Option<Node>
    ensures { result ≡ maker_in ranges.now number }
{
    if number == 0 {
        return None;
    }
    ranges.get(((number - 1) / RANGE) as usize).copied()
}

impl Ranges {
    /// The first range of processes is node 1's, and no other was given out.
    pub(crate) fn new(alloc: Global) -> Result<Ranges, Memory>
        ensures { IfOk result (λ ranges. ranges ≡ record { processes = 1 ∷ []; queues = []; sets = [] }) }
    {
        let mut processes = Vec::new(alloc);
        processes.push(Node(1))?;
        Ok(Ranges {
            processes,
            queues: Vec::new(alloc),
            sets: Vec::new(alloc),
        })
    }

    /// How many ranges of the kind were given out.
    pub(crate) fn count(&self, kind: Kind) -> usize
        ensures { result ≡ length (for_kind self.now kind) }
    {
        match kind {
            Kind::Proc => self.processes.len(),
            Kind::Msg => self.queues.len(),
            Kind::Sem => self.sets.len(),
        }
    }

    /// The node that was given the range of the name's number.
    pub(crate) fn maker(&self, name: &Name) -> Option<Node>
        ensures { result ≡ maker_in (for_kind self.now (kind_of name.now)) (number_of name.now) }
    {
        match name {
            Name::Proc(pid) => maker_in(self.processes.as_slice(), pid.0),
            Name::Msg(id) => maker_in(self.queues.as_slice(), id.0),
            Name::Sem(id) => maker_in(self.sets.as_slice(), id.0),
        }
    }

    /// The next range is the node's. A refusal for want of memory changes nothing.
    pub(crate) fn give(&mut self, kind: Kind, node: Node) -> Result<(), Memory>
        ensures ok { OnOk result (self.new ≡ with_kind self.old kind (for_kind self.old kind ++ node ∷ [])) }
        ensures err { OnErr result (self.new ≡ self.old) }
    {
        match kind {
            Kind::Proc => self.processes.push(node)?,
            Kind::Msg => self.queues.push(node)?,
            Kind::Sem => self.sets.push(node)?,
        }
        Ok(())
    }
}
