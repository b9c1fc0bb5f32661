//! A message queue at which callers wait, as its node holds it.
ghost use Rattle.std.specs.Prelude.{◌≡◌, ◌≤◌, ◌<◌, [], true, false, None, Some, Ok, Err, find, length, map, IfOk, IfErr, OnErr, MatchOption};
ghost use Rattle.kernel_model.specs.Queue as definition;
ghost use Rattle.waiting_model.specs.Queue.{carry_out_on_queue};
ghost use Rattle.waiting_model.specs.Waiters.{unawaited, waits_here, wakes_at_removal, without_waiter};
ghost use Rattle.waiter_fields.specs.Settling.{IsCarried, is_waiter};
ghost use Rattle.sysv_msg.specs.Limits.{AreParked, is_queue_call};
ghost use Rattle.sysv_msg.specs.Refusals.{RefusesSend};

use crate::awaiting::Awaiting;
use crate::{Message, SendFault};
use pico_base::{Bytes, Errno, Memory, Node, Pid, Reply};
use std::alloc::Global;
use std::marker::Model;
use waiting_model::{Applied, Waiting, Wakes};

/// A message queue, which contracts see as its messages, the oldest first, with its `msg_qbytes`, last sender and last
/// receiver, and those who wait at it, in the order in which they parked. It has at most 1,024 messages and their
/// texts at most 16,384 bytes; each type is at least 1 and each text at most 4,096 bytes. At most 32 wait, each in a
/// send or a receive, under a ticket of at least 1, no two of one process, and none whose call could go on.
#[derive(Drop)]
pub struct Queue {
    pub(crate) awaiting: Awaiting,
}

impl Model for Queue {
    ghost use Rattle.kernel_model.specs.Queue.{Queue as State};
    ghost use Rattle.waiting_model.specs.Waiters.{Awaited};
    ghost use Rattle.sysv_msg.specs.Limits.{AreParked};

    ghost Value = { Awaited State };

    ghost view = { λ q. q.awaiting };

    ghost invariant = { λ q. AreParked q.awaiting };
}

impl Queue {
    /// An empty queue, with the greatest `msg_qbytes`, at which nobody waits.
    pub fn new(alloc: Global) -> Result<Queue, Memory>
        ensures { IfOk result (λ q. q ≡ unawaited definition.empty_queue) }
    {
        Ok(Queue {
            awaiting: Awaiting::new(alloc),
        })
    }

    /// Carries out a send, a receive, IPC_STAT or IPC_SET: the call parks behind those who wait, or its caller has its
    /// reply, and whoever that lets go on is woken, in order, from the first on again after each. Memory: an allocation
    /// was refused; nothing changes, and the call comes back.
    pub fn apply(&mut self, who: Waiting) -> Result<Applied, (Memory, Waiting)>
        requires ticket { 1 ≤ who.ticket }
        requires call { is_queue_call who.call ≡ true }
        requires own { waits_here who.pid self.old ≡ false }
        requires few { length self.old.waiters < 32 }
        ensures applied { IfOk result (λ applied. IsCarried (carry_out_on_queue self.old who) self.new applied) }
        ensures back { IfErr result (λ e. e.1 ≡ who) }
        ensures err { OnErr result (self.new ≡ self.old) }
    {
        match self.awaiting.carry_out(who) {
            Ok(applied) => Ok(applied),
            Err(refused) => Err(refused),
        }
    }

    /// What each who waits is told where the queue is removed, in order: EIDRM. Then nobody waits, and the messages are
    /// left to whoever drops the queue. Memory: the list of them was refused, and nothing changes.
    pub fn remove(&mut self) -> Result<Wakes, Memory>
        ensures told { IfOk result
            (λ wakes. (wakes ≡ wakes_at_removal self.old) × (self.new ≡ unawaited self.old.state)) }
        ensures err { OnErr result (self.new ≡ self.old) }
    {
        match self.awaiting.dismiss() {
            Ok(wakes) => Ok(wakes),
            Err(Memory) => Err(Memory),
        }
    }

    /// Takes out the waiter of this process that waits under this ticket; the others wait on in their order. None
    /// exactly where there is no such waiter. It takes no memory.
    pub fn cancel(&mut self, pid: Pid, ticket: u32) -> Option<Waiting>
        ensures { MatchOption result
            ((find (is_waiter pid ticket) self.old.waiters ≡ None) × (self.new ≡ self.old))
            (λ w. (find (is_waiter pid ticket) self.old.waiters ≡ Some w) × (self.new ≡ without_waiter pid self.old)) }
    {
        match self.awaiting.take(pid, ticket) {
            Some(waiter) => Some(waiter),
            None => None,
        }
    }

    /// How many wait. It takes no memory.
    pub fn waiting(&self) -> u32
        ensures { result ≡ length self.now.waiters }
    {
        self.awaiting.len() as u32
    }

    /// Whether the process waits here. It takes no memory.
    pub fn waits(&self, pid: Pid) -> bool
        ensures { result ≡ waits_here pid self.now }
    {
        self.awaiting.waits(pid)
    }

    /// Those who wait are few, each in a send or a receive, no two of one process, and none whose call could go on.
    pub fn is_at_rest(&self)
        ensures { AreParked self.now }
    {
        let _ = &self.awaiting;
    }

    /// The nodes of those who wait, in order. Memory: the list of them was refused.
    pub fn callers(&self) -> Result<Vec<Node>, Memory>
        ensures { IfOk result (λ nodes. nodes.items ≡ map (λ w. w.caller) self.now.waiters) }
    {
        self.awaiting.callers()
    }

    /// `msgsnd` with IPC_NOWAIT, where nobody waits: the message goes last, and its sender is the last sender. EINVAL:
    /// the type is below 1, or the text above 4,096 bytes (profile). EAGAIN: with the text there would be more bytes
    /// than `msg_qbytes`, or 1,024 messages are there (profile). A refusal changes nothing.
    #[inline(always)]
    pub fn send(&mut self, pid: Pid, class: i32, text: Bytes) -> Result<(), SendFault>
        requires { self.old.waiters ≡ [] }
        ensures sent { IfOk result (λ _. definition.send self.old.state pid class text ≡ Ok self.new.state) }
        ensures refused { IfErr result (RefusesSend text (definition.send self.old.state pid class text)) }
        ensures err { OnErr result (self.new ≡ self.old) }
        ensures nobody { self.new.waiters ≡ [] }
    {
        self.awaiting.send(pid, class, text)
    }

    /// `msgrcv` with IPC_NOWAIT, where nobody waits: the message that the type asks for is taken and its text cut to
    /// `size` bytes, and its receiver is the last receiver. ENOMSG: there is no such message. E2BIG: its text is above
    /// `size` bytes and `noerror` (MSG_NOERROR) isn't set. A refusal changes nothing. It takes no memory.
    #[inline(always)]
    pub fn receive(
        &mut self,
        pid: Pid,
        class: i32,
        size: u32,
        noerror: bool,
    ) -> Result<Message, Errno>
        requires { self.old.waiters ≡ [] }
        ensures taken { IfOk result (λ m. definition.receive self.old.state pid class size noerror
            ≡ Ok (record { queue = self.new.state; message = m })) }
        ensures refused { IfErr result (λ e. definition.receive self.old.state pid class size noerror ≡ Err e) }
        ensures err { OnErr result (self.new ≡ self.old) }
        ensures nobody { self.new.waiters ≡ [] }
    {
        match self.awaiting.receive(pid, class, size, noerror) {
            Ok(message) => Ok(message),
            Err(errno) => Err(errno),
        }
    }

    /// `msgctl` with IPC_STAT: the number of messages, `msg_qbytes`, the last sender and the last receiver, each
    /// 0 where there is none yet.
    pub fn stat(&self) -> Reply
        ensures { result ≡ definition.stat self.now.state }
    {
        self.awaiting.stat()
    }

    /// `msgctl` with IPC_SET, where nobody waits: a new `msg_qbytes`. Messages stay, also where they have more bytes.
    /// EINVAL: it is above 16,384 (profile). A refusal changes nothing.
    pub fn set(&mut self, qbytes: u32) -> Result<(), Errno>
        requires { self.old.waiters ≡ [] }
        ensures set { IfOk result (λ _. definition.set_qbytes self.old.state qbytes ≡ Ok self.new.state) }
        ensures refused { IfErr result (λ e. definition.set_qbytes self.old.state qbytes ≡ Err e) }
        ensures err { OnErr result (self.new ≡ self.old) }
        ensures nobody { self.new.waiters ≡ [] }
    {
        match self.awaiting.set_qbytes(qbytes) {
            Ok(()) => Ok(()),
            Err(errno) => Err(errno),
        }
    }
}
