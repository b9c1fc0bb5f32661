//! A message queue as its node holds it: packed as it came, until a call needs a list for each text.
ghost use Rattle.std.specs.Prelude.{◌≡◌, ◌≤◌, ◌<◌, [], true, false, None, Some, Ok, Err, find, length, map, IfOk, IfErr, OnErr, MatchOption};
ghost use Rattle.kernel_model.specs.Queue as definition;
ghost use Rattle.kernel_model.specs.Queue.{Queue as State};
ghost use Rattle.pico_base.specs.declared.fault.UnpackFault.TheVariants.{NotABody};
ghost use Rattle.waiting_model.specs.Queue.{carry_out_on_queue};
ghost use Rattle.waiting_model.specs.Waiters.{Awaited, unawaited, waits_here, wakes_at_removal, without_waiter};
ghost use Rattle.waiter_fields.specs.Settling.{IsCarried, is_waiter};
ghost use Rattle.sysv_msg.specs.Body.{IsBodyOf};
ghost use Rattle.sysv_msg.specs.Limits.{AreParked, is_queue_call};
ghost use Rattle.sysv_msg.specs.Refusals.{RefusesReceive, RefusesSend};

use crate::packed::PackedQueue;
use crate::{Message, Queue, ReceiveFault, SendFault};
use pico_base::{Bytes, Errno, Memory, Node, Pid, Reply, UnpackFault};
use std::alloc::Global;
use std::marker::Model;
use waiting_model::{Applied, Waiting, Wakes};

/// In which form a queue is held: with a list for each text, and with those who wait; or packed, and nobody waits.
#[derive(Drop)]
enum Form {
    Linked(Queue),
    Packed(PackedQueue),
}

/// A message queue as `Queue` is one, and contracts see it so. One that has come to its node packed stays packed as
/// long as its oldest messages are received, others are sent, and nobody waits: then it is packed again by one copy.
#[derive(Drop)]
pub struct HeldQueue {
    form: Form,
}

impl Model for HeldQueue {
    ghost use Rattle.kernel_model.specs.Queue.{Queue as State};
    ghost use Rattle.waiting_model.specs.Waiters.{Awaited};
    ghost use Rattle.sysv_msg.specs.Held.{held_of};

    ghost Value = { Awaited State };

    ghost view = { λ q. held_of q.form };
}

/// A call is carried out on a packed queue, which has lists then. Where memory is refused the call comes back.
fn carried_out(packed: &PackedQueue, who: Waiting) -> Result<(Queue, Applied), (Memory, Waiting)>
    requires ticket { 1 ≤ who.ticket }
    requires call { is_queue_call who.call ≡ true }
    ensures applied { IfOk result (λ x. IsCarried (carry_out_on_queue (unawaited packed.now) who) x.0 x.1) }
    ensures back { IfErr result (λ e. e.1 ≡ who) }
{
    let Ok(mut queue) = packed.linked() else {
        return Err((Memory, who));
    };
    match queue.apply(who) {
        Ok(applied) => Ok((queue, applied)),
        Err(refused) => Err(refused),
    }
}

/// msgrcv on a queue that has lists.
fn received(
    queue: &mut Queue,
    pid: Pid,
    class: i32,
    size: u32,
    noerror: bool,
) -> Result<Message, ReceiveFault>
    requires { queue.old.waiters ≡ [] }
    ensures taken { IfOk result (λ m. definition.receive queue.old.state pid class size noerror
        ≡ Ok (record { queue = queue.new.state; message = m })) }
    ensures refused { IfErr result (RefusesReceive (definition.receive queue.old.state pid class size noerror)) }
    ensures err { OnErr result (queue.new ≡ queue.old) }
    ensures nobody { queue.new.waiters ≡ [] }
{
    match queue.receive(pid, class, size, noerror) {
        Ok(message) => Ok(message),
        Err(errno) => Err(ReceiveFault::No(errno)),
    }
}

impl HeldQueue {
    /// An empty queue, with the greatest `msg_qbytes`, at which nobody waits.
    pub fn new(alloc: Global) -> Result<HeldQueue, Memory>
        ensures { IfOk result (λ q. q ≡ unawaited definition.empty_queue) }
    {
        Ok(HeldQueue {
            form: Form::Linked(Queue::new(alloc)?),
        })
    }

    /// The queue whose packed form the bytes are. NotABody: they are the packed form of no queue. Memory: an allocation
    /// was refused.
    pub fn unpack(alloc: Global, bytes: &[u8]) -> Result<HeldQueue, UnpackFault>
        // What is unpacked is packed so.
        ensures found { IfOk result (λ q. IsBodyOf q bytes.now) }
        // What is packed so is unpacked, unless memory runs out.
        ensures only { (q : Awaited State) → IsBodyOf q bytes.now → IfOk result (λ got. got ≡ q) }
        ensures refused { result ≡ Err NotABody → (q : Awaited State) → IsBodyOf q bytes.now → ⊥ }
    {
        match PackedQueue::unpack(alloc, bytes)? {
            Some(packed) => Ok(HeldQueue {
                form: Form::Packed(packed),
            }),
            None => Ok(HeldQueue {
                form: Form::Linked(Queue::unpack(alloc, bytes)?),
            }),
        }
    }

    /// The queue as bytes, which `unpack` makes into an equal queue: as those of `Queue`.
    pub fn pack(&self) -> Result<Bytes, Memory>
        ensures { IfOk result (λ bytes. IsBodyOf self.now bytes) }
    {
        match &self.form {
            Form::Linked(queue) => queue.pack(),
            Form::Packed(packed) => packed.pack(),
        }
    }

    /// Carries out a send, a receive, IPC_STAT or IPC_SET: the call parks behind those who wait, or its caller has its
    /// reply, and whoever that lets go on is woken, in order, from the first on again after each. Memory: an allocation
    /// was refused; nothing changes, and the call comes back.
    pub fn apply(&mut self, who: Waiting) -> Result<Applied, (Memory, Waiting)>
        requires ticket { 1 ≤ who.ticket }
        requires call { is_queue_call who.call ≡ true }
        requires own { waits_here who.pid self.old ≡ false }
        requires few { length self.old.waiters < 32 }
        ensures applied { IfOk result (λ applied. IsCarried (carry_out_on_queue self.old who) self.new applied) }
        ensures back { IfErr result (λ e. e.1 ≡ who) }
        ensures err { OnErr result (self.new ≡ self.old) }
    {
        match &mut self.form {
            Form::Linked(queue) => queue.apply(who),
            Form::Packed(packed) => {
                let (queue, applied) = carried_out(packed, who)?;
                self.form = Form::Linked(queue);
                Ok(applied)
            }
        }
    }

    /// What each who waits is told where the queue is removed, in order: EIDRM. Then nobody waits, and the messages are
    /// left to whoever drops the queue. Memory: the list of them was refused, and nothing changes.
    pub fn remove(&mut self) -> Result<Wakes, Memory>
        ensures told { IfOk result
            (λ wakes. (wakes ≡ wakes_at_removal self.old) × (self.new ≡ unawaited self.old.state)) }
        ensures err { OnErr result (self.new ≡ self.old) }
    {
        match &mut self.form {
            Form::Linked(queue) => queue.remove(),
            Form::Packed(packed) => Ok(Wakes::new(packed.allocator())),
        }
    }

    /// Takes out the waiter of this process that waits under this ticket; the others wait on in their order. None
    /// exactly where there is no such waiter. It takes no memory.
    pub fn cancel(&mut self, pid: Pid, ticket: u32) -> Option<Waiting>
        ensures { MatchOption result
            ((find (is_waiter pid ticket) self.old.waiters ≡ None) × (self.new ≡ self.old))
            (λ w. (find (is_waiter pid ticket) self.old.waiters ≡ Some w) × (self.new ≡ without_waiter pid self.old)) }
    {
        match &mut self.form {
            Form::Linked(queue) => queue.cancel(pid, ticket),
            Form::Packed(_) => None,
        }
    }

    /// How many wait. It takes no memory.
    pub fn waiting(&self) -> u32
        ensures { result ≡ length self.now.waiters }
    {
        match &self.form {
            Form::Linked(queue) => queue.waiting(),
            Form::Packed(_) => 0,
        }
    }

    /// Whether the process waits here. It takes no memory.
    pub fn waits(&self, pid: Pid) -> bool
        ensures { result ≡ waits_here pid self.now }
    {
        match &self.form {
            Form::Linked(queue) => queue.waits(pid),
            Form::Packed(_) => false,
        }
    }

    /// Those who wait are few, each in a send or a receive, no two of one process, and none whose call could go on.
    pub fn is_at_rest(&self)
        ensures { AreParked self.now }
    {
        match &self.form {
            Form::Linked(queue) => queue.is_at_rest(),
            Form::Packed(_) => {}
        }
    }

    /// The nodes of those who wait, in order. Memory: the list of them was refused.
    pub fn callers(&self) -> Result<Vec<Node>, Memory>
        ensures { IfOk result (λ nodes. nodes.items ≡ map (λ w. w.caller) self.now.waiters) }
    {
        match &self.form {
            Form::Linked(queue) => queue.callers(),
            Form::Packed(packed) => Ok(Vec::new(packed.allocator())),
        }
    }

    /// `msgsnd` with IPC_NOWAIT, where nobody waits: the message goes last, and its sender is the last sender. EINVAL:
    /// the type is below 1, or the text above 4,096 bytes (profile). EAGAIN: with the text there would be more bytes
    /// than `msg_qbytes`, or 1,024 messages are there (profile). A refusal changes nothing.
    pub fn send(&mut self, pid: Pid, class: i32, text: Bytes) -> Result<(), SendFault>
        requires { self.old.waiters ≡ [] }
        ensures sent { IfOk result (λ _. definition.send self.old.state pid class text ≡ Ok self.new.state) }
        ensures refused { IfErr result (RefusesSend text (definition.send self.old.state pid class text)) }
        ensures err { OnErr result (self.new ≡ self.old) }
        ensures nobody { self.new.waiters ≡ [] }
    {
        match &mut self.form {
            Form::Linked(queue) => queue.send(pid, class, text),
            Form::Packed(packed) => packed.send(pid, class, text),
        }
    }

    /// `msgrcv` with IPC_NOWAIT, where nobody waits: the message that the type asks for is taken and its text cut to
    /// `size` bytes, and its receiver is the last receiver. ENOMSG: there is no such message. E2BIG: its text is above
    /// `size` bytes and `noerror` (MSG_NOERROR) isn't set. Memory: an allocation was refused. A refusal changes
    /// nothing.
    pub fn receive(
        &mut self,
        pid: Pid,
        class: i32,
        size: u32,
        noerror: bool,
    ) -> Result<Message, ReceiveFault>
        requires { self.old.waiters ≡ [] }
        ensures taken { IfOk result (λ m. definition.receive self.old.state pid class size noerror
            ≡ Ok (record { queue = self.new.state; message = m })) }
        ensures refused { IfErr result (RefusesReceive (definition.receive self.old.state pid class size noerror)) }
        ensures err { OnErr result (self.new ≡ self.old) }
        ensures nobody { self.new.waiters ≡ [] }
    {
        match &mut self.form {
            Form::Linked(queue) => received(queue, pid, class, size, noerror),
            Form::Packed(packed) if packed.is_in_front(class) => {
                packed.receive(pid, class, size, noerror)
            }
            Form::Packed(packed) => {
                let Ok(mut queue) = packed.linked() else {
                    return Err(ReceiveFault::Memory);
                };
                let outcome = received(&mut queue, pid, class, size, noerror);
                self.form = Form::Linked(queue);
                outcome
            }
        }
    }

    /// `msgctl` with IPC_STAT: the number of messages, `msg_qbytes`, the last sender and the last receiver, each
    /// 0 where there is none yet.
    pub fn stat(&self) -> Reply
        ensures { result ≡ definition.stat self.now.state }
    {
        match &self.form {
            Form::Linked(queue) => queue.stat(),
            Form::Packed(packed) => packed.stat(),
        }
    }

    /// `msgctl` with IPC_SET, where nobody waits: a new `msg_qbytes`. Messages stay, also where they have more bytes.
    /// EINVAL: it is above 16,384 (profile). A refusal changes nothing.
    pub fn set(&mut self, qbytes: u32) -> Result<(), Errno>
        requires { self.old.waiters ≡ [] }
        ensures set { IfOk result (λ _. definition.set_qbytes self.old.state qbytes ≡ Ok self.new.state) }
        ensures refused { IfErr result (λ e. definition.set_qbytes self.old.state qbytes ≡ Err e) }
        ensures err { OnErr result (self.new ≡ self.old) }
        ensures nobody { self.new.waiters ≡ [] }
    {
        match &mut self.form {
            Form::Linked(queue) => queue.set(qbytes),
            Form::Packed(packed) => packed.set_qbytes(qbytes),
        }
    }
}
