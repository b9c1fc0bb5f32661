//! Which of the enabled events comes next.
ghost use Rattle.std.specs.Prelude.{◌≡◌, ◌%◌, length, slice_get, IfSome, IsSome, option_map};
ghost use Rattle.world_model.specs.Schedule as machine;
ghost use Rattle.world_model.specs.World.{size};
ghost use Rattle.world_core.specs.Laws.{IsWithin};
ghost use Rattle.pico_cmd.specs.Schedule.{schedule_in};

use pico_base::{Event, Node};
use world_core::StreamingWorld;

/// A schedule of a simulation.
#[derive(Clone, Copy, Debug, PartialEq, Eq)]
pub enum Schedule {
    /// Round the nodes, behind the one whose event was the last.
    InTurn { last: Node },
    /// By drawn numbers, of which this was the last.
    Drawn { last: u32 },
}

// The number drawn after this one.
fn drawn(last: u32) -> u32
    ensures { result ≡ machine.drawn last }
{
    (48271 * u64::from(last) % 2147483647) as u32
}

// The node whose event it is.
pub fn node_of(event: &Event) -> Node
    ensures { result ≡ machine.node_of event.now }
{
    match event {
        Event::Run(node) => *node,
        Event::Take { node, .. } => *node,
    }
}

// The enabled event that a drawn number stands for.
#[inline(always)]
fn event_drawn(world: &StreamingWorld, number: u32) -> Option<Event>
    requires { IsSome world.now }
    ensures { IfSome world.now (λ w.
        result ≡ slice_get (machine.enabled_events w) (number % length (machine.enabled_events w))) }
{
    let count = world.count();
    if count == 0 {
        return None;
    }
    world.nth(number % count)
}

impl Schedule {
    /// The schedule of this number, for so many nodes. Schedule 0 begins at node 1, as behind the last one.
    pub fn numbered(seed: u32, nodes: Node) -> Schedule
        ensures { schedule_in result ≡ machine.schedule_of seed nodes }
    {
        if seed == 0 {
            Schedule::InTurn { last: nodes }
        } else {
            Schedule::Drawn { last: seed }
        }
    }

    /// The event that comes next, and the schedule after it; none where no event is enabled. A number is drawn once.
    #[inline(always)]
    pub fn choice(&self, world: &StreamingWorld) -> Option<(Event, Schedule)>
        requires whole { IsSome world.now }
        requires within { IfSome world.now (λ w. IsWithin (size w) (schedule_in self.now)) }
        ensures event { IfSome world.now (λ w.
            option_map (λ x. x.0) result ≡ machine.choice w (schedule_in self.now)) }
        ensures after { IfSome result (λ x. schedule_in x.1 ≡ machine.schedule_after (schedule_in self.now) x.0) }
    {
        match self {
            Schedule::InTurn { last } => {
                let event = world.in_turn(*last)?;
                let last = node_of(&event);
                Some((event, Schedule::InTurn { last }))
            }
            Schedule::Drawn { last } => {
                let last = drawn(*last);
                let event = event_drawn(world, last)?;
                Some((event, Schedule::Drawn { last }))
            }
        }
    }
}
