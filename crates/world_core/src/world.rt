//! A world as callers see it, with its whole journal.
ghost use Rattle.std.specs.Prelude.{◌≡◌, ◌↔◌, ◌≤◌, true, length, slice_get, Some, None, IfOk, OnOk, OnErr, IfSome, IsSome, IsErr, IsTrue};
ghost use Rattle.kernel_model.specs.Script.{IsSoundScript};
ghost use Rattle.waiting_model.specs.Fitting.{Fits, FitsWhole};
ghost use Rattle.waiting_model.specs.History.{IsLegal};
ghost use Rattle.world_model.specs.World.{World as MachineWorld, size, opening_world, is_enabled};
ghost use Rattle.world_model.specs.Run.{IsRunOf, IsAtRest, is_stalled};
ghost use Rattle.world_model.specs.Schedule.{enabled_events, in_turn};
ghost use Rattle.rest_laws.specs.Laws.{IsQuiet};
ghost use Rattle.world_core.specs.Stepped.{IsStepped};

use crate::streaming::StreamingWorld;
use pico_base::{Entries, Event, Memory, Node, Script};
use rest_laws::{rest_is_quiet, rest_is_whole};
use run_laws::journals_are_legal;
use std::alloc::Global;
use std::marker::Model;

/// A world of picoprocesses that runs a script. Contracts see a world of the machine, which a run of the script has led
/// to, or none where the world is spent: an allocation was refused in the middle of a step.
#[derive(Drop)]
pub struct World {
    streaming: StreamingWorld,
}

impl Model for World {
    ghost use Rattle.std.specs.Prelude.{Option};
    ghost use Rattle.world_model.specs.World.{World as MachineWorld};

    ghost Value = { Option MachineWorld };

    ghost use Rattle.world_core.specs.World.{IsSoundWorld};

    ghost view = { λ w. w.streaming };

    ghost invariant = { λ w. IsSoundWorld w.streaming };
}

impl World {
    /// The script's world before any event: node 1 is born with process 1, and nothing was carried out. An `Err` says
    /// that an allocation was refused.
    pub fn start(alloc: Global, script: Script) -> Result<World, Memory>
        requires sound { IsSoundScript script }
        ensures { IfOk result (λ w. w ≡ Some (opening_world script)) }
    {
        Ok(World {
            streaming: StreamingWorld::start(alloc, script)?,
        })
    }

    /// Whether the event may come next.
    pub fn enabled(&self, event: Event) -> bool
        requires whole { IsSome self.now }
        ensures { IfSome self.now (λ w. result ≡ is_enabled w event) }
    {
        self.streaming.enabled(event)
    }

    /// How many events may come next.
    pub fn count(&self) -> u32
        requires whole { IsSome self.now }
        ensures { IfSome self.now (λ w. result ≡ length (enabled_events w)) }
    {
        self.streaming.count()
    }

    /// The event at this place of those that may come next, from 0: node after node, each node's takes by rising sender
    /// and then its run. None where there are no more than `index`.
    pub fn nth(&self, index: u32) -> Option<Event>
        requires whole { IsSome self.now }
        ensures { IfSome self.now (λ w. result ≡ slice_get (enabled_events w) index) }
    {
        self.streaming.nth(index)
    }

    /// The first event that may come next, round the nodes: of the nodes behind `after`, and then of those up to it.
    /// None at rest.
    pub fn in_turn(&self, after: Node) -> Option<Event>
        requires whole { IsSome self.now }
        requires there { IfSome self.now (λ w. after ≤ size w) }
        ensures { IfSome self.now (λ w. result ≡ in_turn w after) }
    {
        self.streaming.in_turn(after)
    }

    /// Whether no event may come next. At rest the journal has each process's calls to its end, or to the call in which
    /// it waits; nothing is on its way, the leader holds nothing, and each node has left, or was never born, or a call
    /// of its process waits, but node 1, which goes on.
    pub fn at_rest(&self) -> bool
        requires whole { IsSome self.now }
        ensures rest { IfSome self.now (λ w. IsTrue result ↔ IsAtRest w) }
        ensures ended { IfSome self.now (λ w. IsTrue result → FitsWhole w.script w.journal) }
        ensures quiet { IfSome self.now (λ w. IsTrue result → IsQuiet w.script w) }
    {
        rest_is_whole();
        rest_is_quiet();
        self.streaming.at_rest()
    }

    /// Whether a process that lives has a call under way. At rest it waits for good, and nothing lets it go on.
    pub fn is_stalled(&self) -> bool
        requires whole { IsSome self.now }
        ensures { IfSome self.now (λ w. result ≡ is_stalled w) }
    {
        self.streaming.is_stalled()
    }

    /// All that was carried out so far, in order: one history of a single POSIX kernel, in which each process's calls
    /// stand once and in its order.
    pub fn journal(&self) -> &Entries
        requires whole { IsSome self.now }
        ensures journal { IfSome self.now (λ w. result.now ≡ w.journal) }
        ensures legal { IsLegal result.now }
        ensures fits { IfSome self.now (λ w. Fits w.script result.now) }
    {
        journals_are_legal();
        self.streaming.recent()
    }

    /// The script that the world runs.
    pub fn script(&self) -> &Script
        requires whole { IsSome self.now }
        ensures { IfSome self.now (λ w. result.now ≡ w.script) }
    {
        self.streaming.script()
    }

    /// Carries out an event that may come next. After an `Err` the world is spent: an allocation was refused, or it was
    /// spent before.
    pub fn step(&mut self, event: Event) -> Result<(), Memory>
        requires enabled { IfSome self.old (λ w. is_enabled w event ≡ true) }
        ensures ok { OnOk result (IsStepped self.old event self.new) }
        ensures err { OnErr result (self.new ≡ None) }
        ensures spent { self.old ≡ None → IsErr result }
    {
        self.streaming.step(event)
    }

    /// The world of a script after these events, of which each may come when it comes. An `Err` says that an allocation
    /// was refused.
    pub fn of_logs(alloc: Global, script: Script, events: &[Event]) -> Result<World, Memory>
        requires sound { IsSoundScript script }
        requires run { (w : MachineWorld) × IsRunOf script events.now w }
        ensures run { IfOk result (λ w. IfSome w (IsRunOf script events.now)) }
        ensures whole { IfOk result (λ w. IsSome w) }
    {
        let mut world = World::start(alloc, script)?;
        for event in events {
            world.step(*event)?;
        }
        Ok(world)
    }
}
