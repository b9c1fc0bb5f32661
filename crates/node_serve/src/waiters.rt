//! Those who wait at a body.
ghost use Rattle.std.specs.Prelude.{◌≡◌, IfOk, map};
ghost use Rattle.node_model.specs.Bodies.{waiters_of};
ghost use Rattle.node_serve.specs.Bodies.{body_of};
ghost use Rattle.node_serve.specs.Withdrawing.{TakesOut, Withdraws, withdrawn_if};

use crate::Body;
use deed_box::Deeds;
use pico_base::{Memory, Name, Node, Pid};
use std::alloc::Global;

/// The nodes of those who wait at the body, in order.
pub fn callers(alloc: Global, body: &Body) -> Result<Vec<Node>, Memory>
    ensures { IfOk result (λ nodes. nodes.items ≡ map (λ w. w.caller) (waiters_of (body_of body.now))) }
{
    match body {
        Body::Queue(queue) => queue.callers(),
        Body::Set(set) => set.callers(),
        _ => Ok(Vec::new(alloc)),
    }
}

/// What a withdrawal came to.
#[derive(Clone, Copy, Debug, PartialEq, Eq)]
pub enum Withdrawn {
    /// The waiter is taken out.
    TakenOut,
    /// The deed is held here, and there is no such waiter.
    NotThere,
    /// The deed isn't held here.
    NotHeld,
}

/// Takes out the waiter of this process that waits under this ticket, and nothing else. Whether there is one.
fn take_out(body: &mut Body, pid: Pid, ticket: u32) -> bool
    ensures { TakesOut pid ticket body.old body.new result }
{
    match body {
        Body::Queue(queue) => {
            queue.is_at_rest();
            queue.cancel(pid, ticket).is_some()
        }
        Body::Set(set) => {
            set.is_at_rest();
            set.cancel(pid, ticket).is_some()
        }
        _ => false,
    }
}

/// What a withdrawal at a name that is held came to, by whether the waiter was there.
fn come_to(there: bool) -> Withdrawn
    ensures { result ≡ withdrawn_if there }
{
    if there {
        Withdrawn::TakenOut
    } else {
        Withdrawn::NotThere
    }
}

/// Takes out the waiter at this name that is of this process and waits under this ticket; it takes no memory. Where
/// there is none nothing changes.
pub fn withdraw(deeds: &mut Deeds<Body>, name: Name, pid: Pid, ticket: u32) -> Withdrawn
    ensures { Withdraws deeds.old.bodies name pid ticket deeds.new.bodies result }
{
    deeds.rise();
    match deeds.get_mut(name) {
        Some(body) => come_to(take_out(body, pid, ticket)),
        None => Withdrawn::NotHeld,
    }
}
