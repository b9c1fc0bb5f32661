//! How many events of each node may come next. It is kept beside the nodes, so that to choose an event is to look at
//! one node.
ghost use Rattle.std.specs.Prelude.{◌≡◌, ◌<◌, ◌≤◌, ◌++◌, [], ◌∷◌, length, set, get_or, IfOk, OnOk, IfSome, IsSome};
ghost use Rattle.std.specs.List.{sum};
ghost use Rattle.world_core.specs.Counts.{IsNext, events_at, counts_of};
ghost use Rattle.world_core.specs.State.{AreSeats};

use crate::inbox::Inbox;
use node_core::PicoNode;
use pico_base::Memory;
use std::alloc::Global;
use std::marker::Model;

/// How many events of each node may come next, of at most 32 nodes, each with at most 33. How many there are in all is
/// kept beside them, and which nodes have one, a bit for each at its place.
#[derive(Drop)]
pub(crate) struct Counts {
    by_node: Vec<u8>,
    all: u32,
    busy: u32,
}

impl Model for Counts {
    ghost use Rattle.std.specs.Prelude.{List, ℕ};
    ghost use Rattle.world_core.specs.Counts.{AreSummed};

    ghost Value = { List ℕ };

    ghost view = { λ c. c.by_node.items };

    ghost invariant = { λ c. AreSummed c.all c.busy c.by_node.items };
}

impl Counts {
    /// Of no node.
    pub(crate) fn new(alloc: Global) -> Counts
        ensures { result ≡ [] }
    {
        Counts {
            by_node: Vec::new(alloc),
            all: 0,
            busy: 0,
        }
    }

    /// One node more has no event.
    fn push_idle(&mut self) -> Result<(), Memory>
        requires { length self.old < 32 }
        ensures { OnOk result (self.new ≡ self.old ++ 0 ∷ []) }
    {
        self.by_node.push(0)?;
        Ok(())
    }

    /// The node at this place has so many events now.
    pub(crate) fn set(&mut self, at: usize, count: u8)
        requires there { at < length self.old }
        requires few { count ≤ 33 }
        ensures { self.new ≡ set self.old at count }
    {
        let old = self.by_node[at];
        self.all = self.all - u32::from(old) + u32::from(count);
        self.by_node[at] = count;
        let busy = self.busy;
        let bit = 1 << at;
        if count > 0 {
            self.busy = busy | bit;
        } else {
            self.busy = busy & !bit;
        }
    }

    /// One node more has so many events.
    fn push(&mut self, count: u8) -> Result<(), Memory>
        requires room { length self.old < 32 }
        requires few { count ≤ 33 }
        ensures { OnOk result (self.new ≡ self.old ++ count ∷ []) }
    {
        let at = self.by_node.len();
        self.push_idle()?;
        self.set(at, count);
        Ok(())
    }

    /// How many events the node at this place has.
    pub(crate) fn at(&self, at: usize) -> u8
        requires { at < length self.now }
        ensures { result ≡ get_or self.now at 0 }
    {
        self.by_node[at]
    }

    /// How many events there are in all.
    pub(crate) fn all(&self) -> u32
        ensures { result ≡ sum self.now }
    {
        self.all
    }

    /// The first place from this one on whose node has an event, if there is one.
    pub(crate) fn next(&self, from: usize) -> Option<usize>
        ensures next { IsNext self.now from result }
        ensures few { IfSome result (λ at. at < 32) }
    {
        let busy = self.busy;
        if from >= 32 {
            return None;
        }
        let behind = busy >> from;
        if behind == 0 {
            return None;
        }
        Some(from + behind.trailing_zeros() as usize)
    }
}

/// How many events of a node may come next: the frames that it may take, and its run.
pub(crate) fn count_of(pico: &PicoNode, inbox: &Inbox) -> u8
    requires whole { IsSome pico.now }
    ensures count { result ≡ events_at pico.now inbox.now }
    ensures few { result ≤ 33 }
{
    let takes = inbox.count(pico.born()) as u8;
    if pico.can_run() { takes + 1 } else { takes }
}

/// The counts of all nodes, in order.
pub(crate) fn count_all(
    alloc: Global,
    nodes: &[PicoNode],
    inboxes: &[Inbox],
) -> Result<Counts, Memory>
    requires { AreSeats nodes.now inboxes.now }
    ensures { IfOk result (λ counts. counts ≡ counts_of nodes.now inboxes.now) }
{
    let mut counts = Counts::new(alloc);
    for at in 0..nodes.len() {
        counts.push(count_of(&nodes[at], &inboxes[at]))?;
    }
    Ok(counts)
}
