//! A queue's messages with those who wait, in the midst of a change, too.
ghost use Rattle.std.specs.Prelude.{◌≡◌, ◌≤◌, ◌<◌, ◌++◌, [], None, Some, Ok, Err, length, map, IfOk, IfErr, OnOk, OnErr, MatchResult, MatchOption, position, vec_capacity};
ghost use Rattle.std.specs.List.{list_any};
ghost use Rattle.kernel_model.specs.Queue.{empty_queue, send, receive, set_qbytes, stat};
ghost use Rattle.waiting_model.specs.Waiters.{awaited, unawaited, settle, waits_here, wakes_at_removal};
ghost use Rattle.waiting_model.specs.Queue.{try_queue, carry_out_on_queue};
ghost use Rattle.waiter_fields.specs.Settling.{IsCarried, IsSettling, IsTaken, WakesAt, WakesFirst, is_waiter};
ghost use Rattle.sysv_msg.specs.Refusals.{RefusesSend};

use crate::room::Room;
use crate::store::Store;
use crate::{Message, SendFault};
use pico_base::{Bytes, Call, Errno, Memory, Node, Pid, Reply};
use std::alloc::Global;
use std::marker::Model;
use waiter_fields::{take_waiter, waits_among, wakes_at_removal};
use waiting_model::{Applied, Waiting, Wake, Wakes};

/// The nodes of those who wait, in order.
fn callers(alloc: Global, waiters: &[Waiting]) -> Result<Vec<Node>, Memory>
    ensures { IfOk result (λ nodes. nodes.items ≡ map (λ w. w.caller) waiters.now) }
{
    let mut nodes = Vec::with_capacity(alloc, waiters.len())?;
    for waiter in waiters {
        nodes.push(waiter.caller)?;
    }
    Ok(nodes)
}

/// A queue, and those who wait at it in the order in which they parked. There is memory for a message of each of them.
/// In the midst of a change some call could go on.
#[derive(Drop)]
pub(crate) struct Awaiting {
    pub(crate) store: Store,
    pub(crate) waiters: Vec<Waiting>,
    // where a change writes whom it wakes, once somebody has waited
    room: Option<Box<Room>>,
}

impl Model for Awaiting {
    ghost use Rattle.std.specs.Prelude.{◌≤◌, length};
    ghost use Rattle.kernel_model.specs.Queue.{Queue};
    ghost use Rattle.waiting_model.specs.Waiters.{Awaited};

    ghost Value = { Awaited Queue };

    ghost view = { λ q. record { state = q.store.queue; waiters = q.waiters.items } };

    ghost invariant = { λ q. length q.waiters.items ≤ q.store.room };
}

impl Awaiting {
    /// An empty queue, at which nobody waits. It takes no memory.
    pub(crate) fn new(alloc: Global) -> Awaiting
        ensures { result ≡ unawaited empty_queue }
    {
        Awaiting::of(Store::new(alloc), Vec::new(alloc))
    }

    /// These messages, for which there is more memory than waiters, and those who wait.
    pub(crate) fn of(store: Store, waiters: Vec<Waiting>) -> Awaiting
        requires { length waiters.items ≤ store.room }
        ensures { result ≡ awaited store.queue waiters.items }
    {
        Awaiting {
            store,
            waiters,
            room: None,
        }
    }

    /// What the queue takes its memory from.
    pub(crate) fn allocator(&self) -> Global {
        *self.waiters.allocator()
    }

    /// How many wait.
    pub(crate) fn len(&self) -> usize
        ensures { result ≡ length self.now.waiters }
    {
        self.waiters.len()
    }

    /// Whether the process waits here.
    pub(crate) fn waits(&self, pid: Pid) -> bool
        ensures { result ≡ waits_here pid self.now }
    {
        waits_among(self.waiters.as_slice(), pid)
    }

    /// The nodes of those who wait, in order.
    pub(crate) fn callers(&self) -> Result<Vec<Node>, Memory>
        ensures { IfOk result (λ nodes. nodes.items ≡ map (λ w. w.caller) self.now.waiters) }
    {
        callers(self.allocator(), self.waiters.as_slice())
    }

    /// Carries out a call: it parks, or has its reply, and whoever that lets go on is woken. All memory that this may
    /// need is taken first; where it is refused nothing changes, and the call comes back.
    pub(crate) fn carry_out(&mut self, who: Waiting) -> Result<Applied, (Memory, Waiting)>
        requires { length self.old.waiters < 32 }
        ensures ok { IfOk result (λ applied. IsCarried (carry_out_on_queue self.old who) self.new applied) }
        ensures back { IfErr result (λ e. e.1 ≡ who) }
        ensures err { OnErr result (self.new ≡ self.old) }
    {
        let alloc = self.allocator();
        if self.store.reserve(self.waiters.len() as u32 + 1).is_err() {
            return Err((Memory, who));
        }
        if !self.store.can_go(who.pid, &who.call) {
            if self.waiters.reserve(1).is_err() {
                return Err((Memory, who));
            }
            self.waiters.push_reserved(who);
            let (own, wakes) = (None, Wakes::new(alloc));
            return Ok(Applied { own, wakes });
        }
        if self.waiters.is_empty() {
            let own = Some(self.store.perform(who.pid, who.call));
            let wakes = Wakes::new(alloc);
            return Ok(Applied { own, wakes });
        }
        let Ok(mut room) = Room::of(alloc, self.room.take(), self.waiters.len()) else {
            return Err((Memory, who));
        };
        let own = Some(self.store.perform(who.pid, who.call));
        self.settle(&mut room.all);
        let wakes = room.take(alloc);
        self.room = Some(room);
        Ok(Applied { own, wakes })
    }

    /// Wakes each who can go on, in order, from the first on again after each.
    fn settle(&mut self, wakes: &mut Vec<Wake>)
        requires nobody { wakes.old.items ≡ [] }
        requires room { length self.old.waiters ≤ vec_capacity wakes.old }
        ensures { IsSettling (settle try_queue self.old) self.new wakes.new.items }
    {
        let all = self.len();
        for round in 0..all {
            match self.wake_first() {
                Some(wake) => wakes.push_reserved(wake),
                None => return,
            }
        }
    }

    /// Wakes the first who can go on, if there is one.
    fn wake_first(&mut self) -> Option<Wake>
        ensures { WakesFirst try_queue self.old self.new result }
    {
        let all = self.len();
        for place in 0..all {
            if let Some(wake) = self.wake_at(place) {
                return Some(wake);
            }
        }
        None
    }

    /// Wakes the one at this place, who can go on or goes on waiting. A send's text goes from its call into the queue.
    fn wake_at(&mut self, place: usize) -> Option<Wake>
        requires { place < length self.old.waiters }
        ensures { WakesAt try_queue place self.old self.new result }
    {
        let waiting = &self.waiters[place];
        if !self.store.can_go(waiting.pid, &waiting.call) {
            return None;
        }
        let Waiting {
            caller,
            ticket,
            pid,
            call,
        } = self.waiters.remove(place);
        let reply = self.store.perform(pid, call);
        Some(Wake {
            caller,
            ticket,
            pid,
            reply,
        })
    }

    /// msgsnd where nobody waits. A refusal changes nothing, and where it is one of memory the text comes back.
    pub(crate) fn send(&mut self, pid: Pid, class: i32, text: Bytes) -> Result<(), SendFault>
        requires { self.old.waiters ≡ [] }
        ensures sent { IfOk result (λ _. send self.old.state pid class text ≡ Ok self.new.state) }
        ensures refused { IfErr result (RefusesSend text (send self.old.state pid class text)) }
        ensures err { OnErr result (self.new ≡ self.old) }
        ensures waiters { self.new.waiters ≡ [] }
    {
        if let Some(errno) = self.store.refusal(class, text.len()) {
            return Err(SendFault::No(errno));
        }
        if self.store.reserve(1).is_err() {
            return Err(SendFault::Memory(text));
        }
        match self.store.send(pid, class, text) {
            Ok(()) => Ok(()),
            Err(errno) => Err(SendFault::No(errno)),
        }
    }

    /// msgrcv, with those who wait as they are. It takes no memory.
    pub(crate) fn receive(
        &mut self,
        pid: Pid,
        class: i32,
        size: u32,
        noerror: bool,
    ) -> Result<Message, Errno>
        ensures received { MatchResult result
            (λ m. receive self.old.state pid class size noerror ≡ Ok (record { queue = self.new.state; message = m }))
            (λ e. (receive self.old.state pid class size noerror ≡ Err e) × (self.new.state ≡ self.old.state)) }
        ensures waiters { self.new.waiters ≡ self.old.waiters }
    {
        self.store.receive(pid, class, size, noerror)
    }

    /// msgctl with IPC_STAT.
    pub(crate) fn stat(&self) -> Reply
        ensures { result ≡ stat self.now.state }
    {
        self.store.stat()
    }

    /// msgctl with IPC_SET, with those who wait as they are.
    pub(crate) fn set_qbytes(&mut self, qbytes: u32) -> Result<(), Errno>
        ensures set { MatchResult result (λ _. set_qbytes self.old.state qbytes ≡ Ok self.new.state)
            (λ e. (set_qbytes self.old.state qbytes ≡ Err e) × (self.new.state ≡ self.old.state)) }
        ensures waiters { self.new.waiters ≡ self.old.waiters }
    {
        self.store.set_qbytes(qbytes)
    }

    /// What each who waits is told where the queue is removed; then nobody waits. Memory: the list of them was refused,
    /// and nothing changes.
    pub(crate) fn dismiss(&mut self) -> Result<Wakes, Memory>
        ensures told { IfOk result
            (λ wakes. (wakes ≡ wakes_at_removal self.old) × (self.new ≡ unawaited self.old.state)) }
        ensures err { OnErr result (self.new ≡ self.old) }
    {
        let wakes = wakes_at_removal(self.allocator(), self.waiters.as_slice())?;
        self.waiters.clear();
        Ok(Wakes::from_vec(wakes))
    }

    /// Takes out the waiter of this process and this ticket, if there is one.
    pub(crate) fn take(&mut self, pid: Pid, ticket: u32) -> Option<Waiting>
        ensures waiter { MatchOption result
            ((position (is_waiter pid ticket) self.old.waiters ≡ None) × (self.new.waiters ≡ self.old.waiters))
            (λ w. IsTaken (is_waiter pid ticket) self.old.waiters w self.new.waiters) }
        ensures state { self.new.state ≡ self.old.state }
    {
        match take_waiter(&mut self.waiters, pid, ticket) {
            Some(waiter) => Some(waiter),
            None => None,
        }
    }
}
