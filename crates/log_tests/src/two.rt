//! Two nodes of a script, with a stream each way between them.
ghost use Rattle.std.specs.Prelude.{◌≡◌, ◌≤◌, ◌∷◌, [], length, IfOk};
ghost use Rattle.kernel_model.specs.Script.{IsSoundScript};
ghost use Rattle.world_model.specs.World.{node_count};
ghost use Rattle.node_log.specs.Ends.{IsUntaken};
ghost use Rattle.log_tests.specs.Two.{opened_node};

use journal_core::{JSeat, Journal, JournalLock, Seats};
use log_model::TurnAnswer;
use node_core::PicoNode;
use node_lines::{End, Ends};
use node_log::{Finished, Logged};
use pico_base::{Memory, Node, Script};
use std::alloc::Global;
use std::mem::ManuallyDrop;
use std::sync::Wait;
use stream_pair::{Bell, Company, Out, pair_to};

/// A node that is never taken apart, so that its owners are cheaper to prove.
type Kept = ManuallyDrop<Logged>;

/// The journal's lock, and the two nodes that append to it.
#[derive(Drop)]
pub struct Two {
    pub lock: JournalLock,
    pub first: Kept,
    pub second: Kept,
}

/// Bytes that stand in a stream before its sender sends any, each with its stamp and in pieces of its own.
pub type Planted = &'static [(u64, &'static [u8])];

/// The stream's end, where these bytes were sent.
fn planted_in<R: Wait>(rt: &R, mut out: Out, planted: Planted) -> Result<Out, Memory> {
    for (stamp, bytes) in planted {
        out.send(rt, *stamp, bytes)?;
    }
    Ok(out)
}

/// The ends of node 1 and those of node 2, in whose stream these bytes stand.
fn ends_of_two<R: Wait>(rt: &R, alloc: Global, planted: Planted) -> Result<(End, End), Memory>
    ensures others { IfOk result (λ ends. (ends.0.other ≡ 2) × (ends.1.other ≡ 1)) }
    ensures new { IfOk result (λ ends. IsUntaken ends.0 × IsUntaken ends.1) }
{
    let company = Company::new(alloc)?;
    let (bell, other_bell) = (Bell::new(alloc, &company)?, Bell::new(alloc, &company)?);
    let (out, into) = pair_to(alloc, &other_bell)?;
    let (back, from) = pair_to(alloc, &bell)?;
    let first = End {
        other: Node(2),
        out: planted_in(rt, out, planted)?,
        into: from,
    };
    let second = End {
        other: Node(1),
        out: back,
        into,
    };
    Ok((first, second))
}

/// The seats of a lock that has two.
fn two_of(seats: Seats) -> (JSeat, JSeat)
    requires { length seats ≡ 2 }
    ensures { seats ≡ result.0 ∷ result.1 ∷ [] }
{
    let mut seats = seats.into_vec().into_iter();
    let (Some(seat), Some(other_seat)) = (seats.next(), seats.next()) else {
        unreachable!()
    };
    (seat, other_seat)
}

/// A node that has made no turn, by the end of its streams with the other one.
fn node_by(alloc: Global, script: &Script, end: End, seat: JSeat) -> Result<Kept, Memory>
    requires number { (1 ≤ seat.number) × (seat.number ≤ node_count script.now) × (node_count script.now ≤ 32) }
    requires new { IsUntaken end }
    ensures { IfOk result (λ l. l.value ≡ opened_node end seat) }
{
    let number = Node(seat.number() as u8);
    let mut ends = Ends::new(alloc);
    ends.push(end)?;
    let node = PicoNode::new(alloc, script, number)?;
    Ok(ManuallyDrop::new(Logged::new(alloc, node, ends, seat)?))
}

/// The seat of a node that wasn't spent.
fn seat_of(node: Kept) -> Result<JSeat, Memory>
    ensures { IfOk result (λ seat. seat ≡ node.value.seat) }
{
    if node.fault().is_some() {
        return Err(Memory);
    }
    let Finished {
        node: left,
        seat,
        ..
    } = ManuallyDrop::into_inner(node).finish();
    let _left = ManuallyDrop::new(left);
    Ok(seat)
}

/// The seats of both nodes.
fn seats_of(alloc: Global, first: Kept, second: Kept) -> Result<Seats, Memory>
    ensures { IfOk result (λ seats. seats ≡ first.value.seat ∷ second.value.seat ∷ []) }
{
    let mut seats = Seats::new(alloc);
    seats.push(seat_of(first)?)?;
    seats.push(seat_of(second)?)?;
    Ok(seats)
}

impl Two {
    ghost use Rattle.log_tests.specs.Two.{AreTwo};

    /// Two nodes that have made no turn, of a script with two blocks. In the stream to node 2 these bytes stand.
    pub fn new<R: Wait>(
        rt: &R,
        alloc: Global,
        script: &Script,
        planted: Planted,
    ) -> Result<Two, Memory>
        requires { node_count script.now ≡ 2 }
        ensures { IfOk result (λ two. AreTwo script.now two.lock two.first.value two.second.value) }
    {
        let (lock, seats) = JournalLock::new(alloc, 2)?;
        let (seat, other_seat) = two_of(seats);
        let (end, other_end) = ends_of_two(rt, alloc, planted)?;
        Ok(Two {
            lock,
            first: node_by(alloc, script, end, seat)?,
            second: node_by(alloc, script, other_end, other_seat)?,
        })
    }

    /// A turn of node 1 or of node 2.
    pub fn turn<R: Wait>(&mut self, rt: &R, script: &Script, is_first: bool) -> TurnAnswer
        requires sound { IsSoundScript script.now }
        requires two { AreTwo script.now self.old.lock self.old.first.value self.old.second.value }
        ensures { AreTwo script.now self.new.lock self.new.first.value self.new.second.value }
    {
        if is_first {
            self.first.turn(rt, &self.lock, script)
        } else {
            self.second.turn(rt, &self.lock, script)
        }
    }

    /// The journal, where no node was spent.
    pub fn close(self, alloc: Global, script: &Script) -> Result<Journal, Memory>
        requires { AreTwo script.now self.lock self.first.value self.second.value }
    {
        let Two {
            lock,
            first,
            second,
        } = self;
        let seats = seats_of(alloc, first, second)?;
        Ok(lock.close(seats))
    }
}
