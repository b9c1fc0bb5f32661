//! A queue at which nobody waits, whose messages stay as they are spelled in its packed form.
ghost use Rattle.std.specs.Prelude.{◌≡◌, ◌≤◌, ◌+◌, [], ◌&&◌, nat_le, nat_lt, length, Some, Ok, Err, IfOk, IfErr, IfSome, OnErr, MatchResult};
ghost use Rattle.std.specs.Bool.{OnTrue};
ghost use Rattle.kernel_model.specs.Queue.{bytes_in, max_messages, receive, select, send, set_qbytes, stat};
ghost use Rattle.waiting_model.specs.Waiters.{unawaited};
ghost use Rattle.sysv_msg.specs.Body.{IsBodyOf};
ghost use Rattle.sysv_msg.specs.Packed.{front_of, HasTaken};
ghost use Rattle.sysv_msg.specs.Refusals.{RefusesReceive, RefusesSend};

use crate::pack::push_front;
use crate::reading::{message_of, numbers_of};
use crate::store::{MAX_BYTES, MAX_MESSAGES, MAX_TEXT, cut, fits};
use crate::tail::Tail;
use crate::unpack::{are_none, behind_code, pass_messages};
use crate::{Message, Queue, ReceiveFault, SendFault};
use body_fields::u16_upto;
use pico_base::{Bytes, Errno, Memory, Pid, Reply};
use std::alloc::Global;
use std::marker::Model;

/// A queue's messages as they are spelled, one behind the other, the oldest first, with the queue's numbers. How many
/// messages these are, and how many bytes their texts have, is counted beside them.
#[derive(Drop)]
pub(crate) struct PackedQueue {
    messages: Tail,
    count: u32,
    // the bytes of the texts
    size: usize,
    qbytes: u32,
    last_sender: Pid,
    last_receiver: Pid,
}

impl Model for PackedQueue {
    ghost use Rattle.kernel_model.specs.Queue.{Queue, max_queue_bytes};
    ghost use Rattle.std.specs.Prelude.{◌≤◌};
    ghost use Rattle.sysv_msg.specs.Packed.{Holds, messages_in};
    ghost use Rattle.sysv_msg.specs.Reading.{queue_of};

    ghost Value = { Queue };

    ghost view = { λ q. queue_of q.qbytes q.last_sender q.last_receiver (messages_in q.count q.messages) };

    ghost invariant = { λ q. (q.qbytes ≤ max_queue_bytes)
        × Holds q.count q.size q.messages (messages_in q.count q.messages) };
}

/// So many messages, which are all of the bytes but the last one, the 0 of no waiters; and how many bytes their texts
/// have. None: the bytes are others.
fn messages_of(alloc: Global, count: u16, bytes: &[u8]) -> Result<Option<(Tail, usize)>, Memory>
    requires { count ≤ 1024 }
    ensures { IfOk result (λ found. IfSome found (λ x. HasTaken count x.1 bytes.now x.0)) }
{
    let Some((size, waiters)) = pass_messages(count, bytes) else {
        return Ok(None);
    };
    if size > MAX_BYTES as usize || !are_none(waiters) {
        return Ok(None);
    }
    let (messages, _) = bytes.split_at(bytes.len() - 1);
    let messages = Tail::from_slice(alloc, messages)?;
    Ok(Some((messages, size)))
}

impl PackedQueue {
    /// What the queue takes its memory from.
    pub(crate) fn allocator(&self) -> Global {
        self.messages.allocator()
    }

    /// The queue whose packed form the bytes are, if nobody waits there. It walks over the messages once, and copies
    /// them at once.
    pub(crate) fn unpack(alloc: Global, bytes: &[u8]) -> Result<Option<PackedQueue>, Memory>
        ensures { IfOk result (λ found. IfSome found (λ q. IsBodyOf (unawaited q) bytes.now)) }
    {
        let Some(fields) = behind_code(bytes) else {
            return Ok(None);
        };
        let Some((qbytes, sender, receiver, rest)) = numbers_of(fields) else {
            return Ok(None);
        };
        let Some((count, rest)) = u16_upto(MAX_MESSAGES as u16, rest) else {
            return Ok(None);
        };
        let Some((messages, size)) = messages_of(alloc, count, rest)? else {
            return Ok(None);
        };
        Ok(Some(PackedQueue {
            messages,
            count: u32::from(count),
            size,
            qbytes,
            last_sender: Pid(sender),
            last_receiver: Pid(receiver),
        }))
    }

    /// The queue as bytes: its messages are copied at once.
    pub(crate) fn pack(&self) -> Result<Bytes, Memory>
        ensures { IfOk result (λ bytes. IsBodyOf (unawaited self.now) bytes) }
    {
        let messages = self.messages.as_slice();
        let mut out = Vec::new(self.messages.allocator());
        out.reserve(messages.len() + 16)?;
        push_front(
            &mut out,
            self.qbytes,
            self.last_sender.0,
            self.last_receiver.0,
        )?;
        out.extend_from_slice(&(self.count as u16).to_be_bytes())?;
        out.extend_from_slice(messages)?;
        out.push(0)?;
        Ok(Bytes::from_vec(out))
    }

    /// The same queue with a list for each text.
    pub(crate) fn linked(&self) -> Result<Queue, Memory>
        ensures { IfOk result (λ q. q ≡ unawaited self.now) }
    {
        let bytes = self.pack()?;
        match Queue::unpack(self.messages.allocator(), bytes.as_slice()) {
            Ok(queue) => Ok(queue),
            Err(_) => Err(Memory),
        }
    }

    /// msgctl with IPC_STAT.
    pub(crate) fn stat(&self) -> Reply
        ensures { result ≡ stat self.now }
    {
        Reply::Stat {
            qnum: self.count,
            qbytes: self.qbytes,
            lspid: self.last_sender,
            lrpid: self.last_receiver,
        }
    }

    /// msgctl with IPC_SET: EINVAL above the limit.
    pub(crate) fn set_qbytes(&mut self, qbytes: u32) -> Result<(), Errno>
        ensures { MatchResult result (λ _. set_qbytes self.old qbytes ≡ Ok self.new)
            (λ e. (set_qbytes self.old qbytes ≡ Err e) × (self.new ≡ self.old)) }
    {
        if qbytes > MAX_BYTES {
            return Err(Errno::Einval);
        }
        self.qbytes = qbytes;
        Ok(())
    }

    /// Whether there is room for a text of this length.
    fn has_room(&self, len: usize) -> bool
        ensures { result ≡ (nat_le (bytes_in self.now + len) self.now.qbytes
            && nat_lt (length self.now.messages) max_messages) }
    {
        self.qbytes as usize >= self.size
            && len <= self.qbytes as usize - self.size
            && self.count < MAX_MESSAGES
    }

    /// msgsnd: EINVAL for a type below 1 and a text above the limit, EAGAIN where there is no room. A refusal changes
    /// nothing, and where it is one of memory the text comes back.
    pub(crate) fn send(&mut self, pid: Pid, class: i32, text: Bytes) -> Result<(), SendFault>
        ensures sent { IfOk result (λ _. send self.old pid class text ≡ Ok self.new) }
        ensures refused { IfErr result (RefusesSend text (send self.old pid class text)) }
        ensures err { OnErr result (self.new ≡ self.old) }
    {
        if class < 1 || text.len() > MAX_TEXT {
            return Err(SendFault::No(Errno::Einval));
        }
        if !self.has_room(text.len()) {
            return Err(SendFault::No(Errno::Eagain));
        }
        let Ok(()) = self.messages.push(class, text.as_slice()) else {
            return Err(SendFault::Memory(text));
        };
        self.count += 1;
        self.size += text.len();
        self.last_sender = pid;
        Ok(())
    }

    /// Whether a receive of this type asks for the first message, if there is one, as it does for type 0 and for the
    /// first one's own; or there is none.
    pub(crate) fn is_in_front(&self, class: i32) -> bool
        ensures { OnTrue result (select self.now.messages class ≡ front_of self.now.messages) }
    {
        if class == 0 {
            return true;
        }
        match message_of(self.messages.as_slice()) {
            Some((kind, _, _)) => kind == class,
            None => true,
        }
    }

    /// msgrcv where the first message is asked for: ENOMSG where there is none, E2BIG for a text above the size asked.
    /// Where memory for the text is refused nothing changes.
    pub(crate) fn receive(
        &mut self,
        pid: Pid,
        class: i32,
        size: u32,
        noerror: bool,
    ) -> Result<Message, ReceiveFault>
        requires { select self.old.messages class ≡ front_of self.old.messages }
        ensures taken { IfOk result (λ m. receive self.old pid class size noerror
            ≡ Ok (record { queue = self.new; message = m })) }
        ensures refused { IfErr result (RefusesReceive (receive self.old pid class size noerror)) }
        ensures err { OnErr result (self.new ≡ self.old) }
    {
        let Some((kind, text, rest)) = message_of(self.messages.as_slice()) else {
            return Err(ReceiveFault::No(Errno::Enomsg));
        };
        let length = text.len();
        if !fits(length, size, noerror) {
            return Err(ReceiveFault::No(Errno::E2big));
        }
        let left = rest.len();
        let Ok(text) = Bytes::from_slice(self.messages.allocator(), text) else {
            return Err(ReceiveFault::Memory);
        };
        self.messages.keep(left);
        self.count -= 1;
        self.size -= length;
        self.last_receiver = pid;
        Ok(Message {
            class: kind,
            text: cut(text, size),
        })
    }
}
