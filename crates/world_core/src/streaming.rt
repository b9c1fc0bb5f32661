//! A world that lets go of entries of its journal once they were told, and that a refused allocation spends.
ghost use Rattle.std.specs.Prelude.{◌≡◌, ◌↔◌, ◌≤◌, true, length, slice_get, Some, None, IfOk, OnOk, OnErr, IfSome, IsSome, IsErr, IsTrue};
ghost use Rattle.std.specs.Option.{option_map};
ghost use Rattle.kernel_model.specs.Script.{IsSoundScript};
ghost use Rattle.world_model.specs.World.{size, opening_world, is_enabled};
ghost use Rattle.world_model.specs.Run.{IsAtRest, is_stalled};
ghost use Rattle.world_model.specs.Schedule.{enabled_events, in_turn};
ghost use Rattle.world_core.specs.Behind.{without_journal};
ghost use Rattle.world_core.specs.State.{IsAlive, world_of};
ghost use Rattle.world_core.specs.Stepped.{IsStepped};

use crate::state::State;
use pico_base::{Entries, Event, Memory, Node, Script};
use std::alloc::Global;
use std::marker::Model;

/// A world of picoprocesses that runs a script, and that keeps of its journal no more than its caller wants: `recent`
/// shows what was carried out since `let_go`. Contracts see a world of the machine whose journal is what is kept: a run
/// has led to it behind the entries that were let go. They see none where the world is spent: an allocation was refused
/// in the middle of a step.
#[derive(Drop)]
pub struct StreamingWorld {
    state: Option<State>,
}

impl Model for StreamingWorld {
    ghost use Rattle.std.specs.Prelude.{Option};
    ghost use Rattle.world_model.specs.World.{World as MachineWorld};

    ghost Value = { Option MachineWorld };

    ghost use Rattle.world_core.specs.World.{world_in, IsSoundState};

    ghost view = { λ w. world_in w.state };

    ghost invariant = { λ w. IsSoundState w.state };
}

/// Memory ran out in the middle of a step.
#[cold]
fn spend(state: &mut Option<State>)
    ensures { state.new ≡ None }
{
    *state = None;
}

impl StreamingWorld {
    /// The script's world before any event: node 1 is born with process 1, and nothing was carried out. An `Err` says
    /// that an allocation was refused.
    pub fn start(alloc: Global, script: Script) -> Result<StreamingWorld, Memory>
        requires sound { IsSoundScript script }
        ensures { IfOk result (λ w. w ≡ Some (opening_world script)) }
    {
        Ok(StreamingWorld {
            state: Some(State::start(alloc, script)?),
        })
    }

    /// The state of a world that isn't spent.
    fn state(&self) -> &State
        requires whole { IsSome self.now }
        ensures world { self.now ≡ Some (world_of result.now) }
        ensures alive { IsAlive result.now }
    {
        match &self.state {
            Some(state) => state,
            None => unreachable!(),
        }
    }

    /// Whether the event may come next.
    pub fn enabled(&self, event: Event) -> bool
        requires whole { IsSome self.now }
        ensures { IfSome self.now (λ w. result ≡ is_enabled w event) }
    {
        self.state().enabled(event)
    }

    /// How many events may come next.
    pub fn count(&self) -> u32
        requires whole { IsSome self.now }
        ensures { IfSome self.now (λ w. result ≡ length (enabled_events w)) }
    {
        self.state().count()
    }

    /// The event at this place of those that may come next, from 0: node after node, each node's takes by rising sender
    /// and then its run. None where there are no more than `index`.
    #[inline(always)]
    pub fn nth(&self, index: u32) -> Option<Event>
        requires whole { IsSome self.now }
        ensures { IfSome self.now (λ w. result ≡ slice_get (enabled_events w) index) }
    {
        self.state().nth(index)
    }

    /// The first event that may come next, round the nodes: of the nodes behind `after`, and then of those up to it.
    /// None at rest.
    #[inline(always)]
    pub fn in_turn(&self, after: Node) -> Option<Event>
        requires whole { IsSome self.now }
        requires there { IfSome self.now (λ w. after ≤ size w) }
        ensures { IfSome self.now (λ w. result ≡ in_turn w after) }
    {
        self.state().in_turn(after)
    }

    /// Whether no event may come next.
    pub fn at_rest(&self) -> bool
        requires whole { IsSome self.now }
        ensures { IfSome self.now (λ w. IsTrue result ↔ IsAtRest w) }
    {
        self.state().at_rest()
    }

    /// Whether a process that lives has a call under way. At rest it waits for good.
    pub fn is_stalled(&self) -> bool
        requires whole { IsSome self.now }
        ensures { IfSome self.now (λ w. result ≡ is_stalled w) }
    {
        self.state().is_stalled()
    }

    /// What was carried out since entries were let go last, in order.
    pub fn recent(&self) -> &Entries
        requires whole { IsSome self.now }
        ensures { IfSome self.now (λ w. result.now ≡ w.journal) }
    {
        &self.state().made.entries
    }

    /// The script that the world runs.
    pub fn script(&self) -> &Script
        requires whole { IsSome self.now }
        ensures { IfSome self.now (λ w. result.now ≡ w.script) }
    {
        &self.state().script
    }

    /// Lets go of all entries that are kept. The world goes on as it would have with them.
    pub fn let_go(&mut self)
        ensures { self.new ≡ option_map without_journal self.old }
    {
        if let Some(state) = &mut self.state {
            state.let_go();
        }
    }

    /// Carries out an event that may come next. After an `Err` the world is spent: an allocation was refused, or it was
    /// spent before.
    #[inline(always)]
    pub fn step(&mut self, event: Event) -> Result<(), Memory>
        requires enabled { IfSome self.old (λ w. is_enabled w event ≡ true) }
        ensures ok { OnOk result (IsStepped self.old event self.new) }
        ensures err { OnErr result (self.new ≡ None) }
        ensures spent { self.old ≡ None → IsErr result }
    {
        let Some(state) = &mut self.state else {
            return Err(Memory);
        };
        let stepped = state.step(event);
        if stepped.is_err() {
            spend(&mut self.state);
        }
        stepped
    }
}
