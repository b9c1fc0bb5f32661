//! The messages of a queue and its numbers, without those who wait.
ghost use Rattle.std.specs.Prelude.{◌≡◌, ◌≤◌, ◌+◌, ◌∷◌, ◌++◌, [], ◌&&◌, ◌||◌, true, is_some, nat_le, nat_lt, length, take, ℕ, List, MatchOption, MatchResult, Ok, Err, Some, IsOk, OnOk};
ghost use Rattle.kernel_model.specs.Queue.{empty_queue, bytes_in, max_messages, send, receive, set_qbytes, stat};
ghost use Rattle.answer_laws.specs.Answers.{done_reply};
ghost use Rattle.waiting_model.specs.Waiters.{attempt};
ghost use Rattle.waiting_model.specs.Queue.{try_queue};
ghost use Rattle.sysv_msg.specs.Linked.{messages_of};
ghost use Rattle.sysv_msg.specs.Going.{can_send, can_receive, reply_of_message};

use crate::Message;
use crate::links::{is_only_of, selected};
use index_links::Links;
use pico_base::{Bytes, Call, Errno, Memory, Pid, Reply};
use std::alloc::Global;
use std::marker::Model;

// The profile's limits: a text's bytes, the greatest `msg_qbytes`, and a queue's messages.
pub(crate) const MAX_TEXT: usize = 4096;

pub(crate) const MAX_BYTES: u32 = 16384;

pub(crate) const MAX_MESSAGES: u32 = 1024;

/// Messages in order, the oldest first, each linked by arrival and by its type, with the queue's numbers. The bytes of
/// the texts are counted beside them, and contracts also see for how many further messages there is memory.
#[derive(Drop)]
pub(crate) struct Store {
    pub(crate) messages: Links<Bytes>,
    // the bytes of the texts, in a type that is wide enough: a body of few bytes is moved without a call
    pub(crate) bytes: u32,
    pub(crate) qbytes: u32,
    pub(crate) last_sender: Pid,
    pub(crate) last_receiver: Pid,
}

impl Model for Store {
    ghost use Rattle.std.specs.Prelude.{◌≡◌};
    ghost use Rattle.kernel_model.specs.Queue.{bytes_of};
    ghost use Rattle.sysv_msg.specs.Limits.{IsWithinLimits};
    ghost use Rattle.sysv_msg.specs.Linked.{messages_of};
    ghost use Rattle.sysv_msg.specs.Reading.{queue_of};
    ghost use Rattle.sysv_msg.specs.Stored.{Stored};

    ghost Value = { Stored };

    ghost view = { λ s. record {
      queue = queue_of s.qbytes s.last_sender s.last_receiver (messages_of s.messages.nodes);
      room = s.messages.spare;
    } };

    ghost invariant = { λ s. (s.bytes ≡ bytes_of (messages_of s.messages.nodes))
        × IsWithinLimits (queue_of s.qbytes s.last_sender s.last_receiver (messages_of s.messages.nodes)) };
}

/// The reply to a change.
fn answer(outcome: Result<(), Errno>) -> Reply
    ensures { result ≡ done_reply outcome }
{
    match outcome {
        Ok(()) => Reply::Num(0),
        Err(errno) => Reply::Fail(errno),
    }
}

/// The reply to msgrcv.
fn received(outcome: Result<Message, Errno>) -> Reply
    ensures { result ≡ reply_of_message outcome }
{
    match outcome {
        Ok(message) => message.into_reply(),
        Err(errno) => Reply::Fail(errno),
    }
}

/// The text cut to this size. It takes no memory.
pub(crate) fn cut(text: Bytes, size: u32) -> Bytes
    ensures { result ≡ take size text }
{
    let mut bytes = text.into_vec();
    bytes.truncate(size as usize);
    Bytes::from_vec(bytes)
}

/// Adds a message behind the others, for which there is memory.
fn push(links: &mut Links<Bytes>, class: i32, text: Bytes)
    requires { 1 ≤ links.old.spare }
    ensures messages { messages_of links.new.nodes
        ≡ messages_of links.old.nodes ++ record { class = class; text = text } ∷ [] }
    ensures spare { links.old.spare ≤ links.new.spare + 1 }
{
    let _ = links.push_reserved(class, text);
}

/// Whether a text of this length may be taken into `size` bytes, cut if need be where MSG_NOERROR is set.
pub(crate) fn fits(length: usize, size: u32, noerror: bool) -> bool
    ensures { result ≡ (nat_le length size || noerror) }
{
    length <= size as usize || noerror
}

impl Store {
    /// An empty queue, with the greatest `msg_qbytes`. It takes no memory.
    pub(crate) fn new(alloc: Global) -> Store
        ensures { result.queue ≡ empty_queue }
    {
        Store {
            messages: Links::new(alloc),
            bytes: 0,
            qbytes: MAX_BYTES,
            last_sender: Pid(0),
            last_receiver: Pid(0),
        }
    }

    /// Memory for this many further messages.
    pub(crate) fn reserve(&mut self, count: u32) -> Result<(), Memory>
        ensures same { self.new.queue ≡ self.old.queue }
        ensures ok { OnOk result (count ≤ self.new.room) }
        ensures no_less { self.old.room ≤ self.new.room }
    {
        self.messages.reserve(count)
    }

    /// msgctl with IPC_STAT.
    pub(crate) fn stat(&self) -> Reply
        ensures { result ≡ stat self.now.queue }
    {
        Reply::Stat {
            qnum: self.messages.len(),
            qbytes: self.qbytes,
            lspid: self.last_sender,
            lrpid: self.last_receiver,
        }
    }

    /// msgctl with IPC_SET: EINVAL above the limit.
    pub(crate) fn set_qbytes(&mut self, qbytes: u32) -> Result<(), Errno>
        ensures set { MatchResult result (λ _. set_qbytes self.old.queue qbytes ≡ Ok self.new.queue)
            (λ e. (set_qbytes self.old.queue qbytes ≡ Err e) × (self.new.queue ≡ self.old.queue)) }
        ensures room { self.new.room ≡ self.old.room }
    {
        if qbytes > MAX_BYTES {
            return Err(Errno::Einval);
        }
        self.qbytes = qbytes;
        Ok(())
    }

    /// Whether there is room for a text of this length.
    fn has_room(&self, len: usize) -> bool
        ensures { result ≡ (nat_le (bytes_in self.now.queue + len) self.now.queue.qbytes
            && nat_lt (length self.now.queue.messages) max_messages) }
    {
        self.qbytes >= self.bytes
            && len <= (self.qbytes - self.bytes) as usize
            && self.messages.len() < MAX_MESSAGES
    }

    /// Why a send of a text of this length is refused, if it is: EINVAL for a type below 1 and a text above the limit,
    /// EAGAIN where there is no room.
    pub(crate) fn refusal(&self, class: i32, len: usize) -> Option<Errno>
        ensures { (pid : ℕ) (text : List ℕ) → length text ≡ len → MatchOption result
            (IsOk (send self.now.queue pid class text)) (λ e. send self.now.queue pid class text ≡ Err e) }
    {
        if class < 1 || len > MAX_TEXT {
            return Some(Errno::Einval);
        }
        if !self.has_room(len) {
            return Some(Errno::Eagain);
        }
        None
    }

    /// msgsnd, where there is memory for the message: EINVAL for a type below 1 and a text above the limit, EAGAIN
    /// where there is no room.
    pub(crate) fn send(&mut self, pid: Pid, class: i32, text: Bytes) -> Result<(), Errno>
        requires { 1 ≤ self.old.room }
        ensures sent { MatchResult result (λ _. send self.old.queue pid class text ≡ Ok self.new.queue)
            (λ e. (send self.old.queue pid class text ≡ Err e) × (self.new.queue ≡ self.old.queue)) }
        ensures room { self.old.room ≤ self.new.room + 1 }
    {
        if class < 1 || text.len() > MAX_TEXT {
            return Err(Errno::Einval);
        }
        if !self.has_room(text.len()) {
            return Err(Errno::Eagain);
        }
        self.bytes += text.len() as u32;
        push(&mut self.messages, class, text);
        self.last_sender = pid;
        Ok(())
    }

    /// msgrcv: ENOMSG where no message is selected, E2BIG for a text above the size asked. It takes no memory.
    #[inline(always)]
    pub(crate) fn receive(
        &mut self,
        pid: Pid,
        class: i32,
        size: u32,
        noerror: bool,
    ) -> Result<Message, Errno>
        ensures received { MatchResult result
            (λ m. receive self.old.queue pid class size noerror ≡ Ok (record { queue = self.new.queue; message = m }))
            (λ e. (receive self.old.queue pid class size noerror ≡ Err e) × (self.new.queue ≡ self.old.queue)) }
        ensures room { self.old.room ≤ self.new.room }
    {
        let Some(slot) = selected(&self.messages, class) else {
            return Err(Errno::Enomsg);
        };
        let length = self.messages.value(slot).len();
        if !fits(length, size, noerror) {
            return Err(Errno::E2big);
        }
        let kind = self.messages.class(slot);
        let text = self.messages.unlink(slot);
        self.bytes -= length as u32;
        self.last_receiver = pid;
        Ok(Message {
            class: kind,
            text: cut(text, size),
        })
    }

    /// Whether a send of a text of this length is accepted, or refused for good.
    pub(crate) fn can_send(&self, class: i32, len: usize) -> bool
        ensures { result ≡ can_send self.now.queue class len }
    {
        class < 1 || len > MAX_TEXT || self.has_room(len)
    }

    /// Whether a message is selected. Where there is one at most its type alone is looked at.
    fn can_receive(&self, class: i32) -> bool
        ensures { result ≡ can_receive self.now.queue class }
    {
        match self.messages.len() {
            0 => false,
            1 => is_only_of(&self.messages, class),
            _ => selected(&self.messages, class).is_some(),
        }
    }

    /// Whether a call has its reply at once, and needn't wait.
    pub(crate) fn can_go(&self, pid: Pid, call: &Call) -> bool
        ensures { result ≡ is_some (try_queue self.now.queue pid call.now) }
    {
        match call {
            Call::MsgSnd {
                class,
                text,
                nowait,
                ..
            } => *nowait || self.can_send(*class, text.len()),
            Call::MsgRcv { class, nowait, .. } => *nowait || self.can_receive(*class),
            _ => true,
        }
    }

    /// Carries out a call that needn't wait, where there is memory for one message more.
    #[inline(always)]
    pub(crate) fn perform(&mut self, pid: Pid, call: Call) -> Reply
        requires goes { is_some (try_queue self.old.queue pid call) ≡ true }
        requires room { 1 ≤ self.old.room }
        ensures done { try_queue self.old.queue pid call ≡ Some (attempt self.new.queue result) }
        ensures room { self.old.room ≤ self.new.room + 1 }
    {
        match call {
            Call::MsgSnd { class, text, .. } => answer(self.send(pid, class, text)),
            Call::MsgRcv {
                class,
                size,
                noerror,
                ..
            } => received(self.receive(pid, class, size, noerror)),
            Call::MsgStat { .. } => self.stat(),
            Call::MsgSet { qbytes, .. } => answer(self.set_qbytes(qbytes)),
            _ => Reply::Fail(Errno::Einval),
        }
    }
}
