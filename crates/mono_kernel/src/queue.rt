//! One message queue: its messages in order, and what a type selects.
ghost use Rattle.std.specs.Prelude.{◌≡◌, ◌≤◌, ◌+◌, ◌&&◌, true, is_some, nat_le, nat_lt, length, take, drop, MatchResult, Some, Ok, Err, OnOk};
ghost use Rattle.std.specs.Ordering.{int_eq};
ghost use Rattle.kernel_model.specs.Queue.{empty_queue, bytes_of, bytes_in, max_messages, lower_of, lowest_upto, first_of, select, send, receive, set_qbytes, stat};
ghost use Rattle.answer_laws.specs.Answers.{done_reply};
ghost use Rattle.waiting_model.specs.Waiters.{attempt};
ghost use Rattle.waiting_model.specs.Queue.{try_queue};
ghost use Rattle.mono_kernel.specs.Queue.{can_send, can_receive, reply_of_message};

use pico_base::{Bytes, Call, Errno, Memory, Pid, Reply};
use std::alloc::Global;
use std::collections::VecDeque;
use std::marker::Model;

/// The profile's limits.
const MAX_TEXT: usize = 4096;

const MAX_QUEUE_BYTES: u32 = 16384;

const MAX_MESSAGES: usize = 1024;

/// A message: its type and its text.
#[derive(Drop)]
pub(crate) struct Message {
    class: i32,
    text: Bytes,
}

impl Model for Message {
    ghost use Rattle.kernel_model.specs.Queue.{Message as PlainMessage};

    ghost Value = { PlainMessage };

    ghost view = { λ m. record { class = m.class; text = m.text } };
}

impl Message {
    /// The message's type.
    fn class(&self) -> i32
        ensures { result ≡ self.now.class }
    {
        self.class
    }

    /// Whether the message is of this type.
    fn is_of(&self, class: i32) -> bool
        ensures { result ≡ int_eq self.now.class class }
    {
        self.class == class
    }

    /// The length of the text.
    fn len(&self) -> usize
        ensures { result ≡ length self.now.text }
    {
        self.text.len()
    }

    /// The message with its text cut to this size.
    fn cut(self, size: usize) -> Message
        ensures { result ≡ record { class = self.class; text = take size self.text } }
    {
        let Message { class, text } = self;
        let mut bytes = text.into_vec();
        bytes.truncate(size);
        Message {
            class,
            text: Bytes::from_vec(bytes),
        }
    }

    /// The message as msgrcv replies it.
    pub(crate) fn into_reply(self) -> Reply
        ensures { result ≡ Reply.Message self.class self.text }
    {
        let Message { class, text } = self;
        Reply::Message { class, text }
    }
}

/// A message queue. The bytes of its texts are counted beside it, and contracts also see for how many
/// further messages there is memory.
#[derive(Drop)]
pub(crate) struct MessageQueue {
    messages: VecDeque<Message>,
    qbytes: u32,
    last_sender: Pid,
    last_receiver: Pid,
    bytes: usize,
}

impl Model for MessageQueue {
    ghost use Rattle.std.specs.Prelude.{◌-◌};
    ghost use Rattle.std.specs.VecDeque.{deque_len, deque_capacity};
    ghost use Rattle.mono_kernel.specs.Stored.{Stored};
    ghost use Rattle.mono_kernel.specs.Counted.{IsCounted};

    ghost Value = { Stored };

    ghost view = { λ q. record {
      queue = record {
        messages = q.messages.items;
        qbytes = q.qbytes;
        last_sender =
            q.last_sender;
        last_receiver = q.last_receiver;
      };
      room = deque_capacity q.messages - deque_len q.messages;
    } };

    ghost invariant = { λ q. IsCounted q.messages.items q.bytes q.qbytes };
}

/// The place of the first message of a type.
fn place_of(messages: &VecDeque<Message>, class: i32) -> Option<usize>
    ensures { result ≡ first_of class messages.now.items }
{
    messages.iter().position(|message| message.is_of(class))
}

/// The lower one of a type and another, if there is one.
fn lower(class: i32, other: Option<i32>) -> i32
    ensures { result ≡ lower_of class other }
{
    match other {
        Some(other) if other < class => other,
        _ => class,
    }
}

/// The lowest type in the queue that isn't above this one.
fn lowest(messages: &VecDeque<Message>, bound: i64) -> Option<i32>
    ensures { result ≡ lowest_upto bound messages.now.items }
{
    let mut best = None;
    let mut left = messages.len();
    while left > 0 {
        left -= 1;
        let class = messages[left].class();
        if i64::from(class) <= bound {
            best = Some(lower(class, best));
        }
    }
    best
}

/// The place of the message that msgrcv selects for a type.
fn selected_place(messages: &VecDeque<Message>, class: i32) -> Option<usize>
    ensures { result ≡ select messages.now.items class }
{
    if class == 0 {
        return if messages.is_empty() { None } else { Some(0) };
    }
    if class > 0 {
        return place_of(messages, class);
    }
    let bound = -i64::from(class);
    match lowest(messages, bound) {
        Some(lowest) => place_of(messages, lowest),
        None => None,
    }
}

/// The reply to a change.
fn answer(outcome: Result<(), Errno>) -> Reply
    ensures { result ≡ done_reply outcome }
{
    match outcome {
        Ok(()) => Reply::Num(0),
        Err(errno) => Reply::Fail(errno),
    }
}

/// The reply to msgrcv.
fn received(outcome: Result<Message, Errno>) -> Reply
    ensures { result ≡ reply_of_message outcome }
{
    match outcome {
        Ok(message) => message.into_reply(),
        Err(errno) => Reply::Fail(errno),
    }
}

impl MessageQueue {
    /// An empty queue. It takes no memory.
    pub(crate) fn new(alloc: Global) -> MessageQueue
        ensures { result.queue ≡ empty_queue }
    {
        MessageQueue {
            messages: VecDeque::new(alloc),
            qbytes: MAX_QUEUE_BYTES,
            last_sender: Pid(0),
            last_receiver: Pid(0),
            bytes: 0,
        }
    }

    /// Memory for this many further messages.
    pub(crate) fn reserve(&mut self, count: usize) -> Result<(), Memory>
        ensures same { self.new.queue ≡ self.old.queue }
        ensures ok { OnOk result (count ≤ self.new.room) }
        ensures no_less { self.old.room ≤ self.new.room }
    {
        self.messages.reserve(count)?;
        Ok(())
    }

    /// msgctl with IPC_STAT.
    fn stat(&self) -> Reply
        ensures { result ≡ stat self.now.queue }
    {
        Reply::Stat {
            qnum: self.messages.len() as u32,
            qbytes: self.qbytes,
            lspid: self.last_sender,
            lrpid: self.last_receiver,
        }
    }

    /// msgctl with IPC_SET: EINVAL above the limit.
    fn set_qbytes(&mut self, qbytes: u32) -> Result<(), Errno>
        ensures set { MatchResult result (λ _. set_qbytes self.old.queue qbytes ≡ Ok self.new.queue)
            (λ e. (set_qbytes self.old.queue qbytes ≡ Err e) × (self.new.queue ≡ self.old.queue)) }
        ensures room { self.new.room ≡ self.old.room }
    {
        if qbytes > MAX_QUEUE_BYTES {
            return Err(Errno::Einval);
        }
        self.qbytes = qbytes;
        Ok(())
    }

    /// Whether there is room for a text of this length.
    fn has_room(&self, len: usize) -> bool
        ensures { result ≡ (nat_le (bytes_in self.now.queue + len) self.now.queue.qbytes
            && nat_lt (length self.now.queue.messages) max_messages) }
    {
        self.qbytes as usize >= self.bytes
            && len <= self.qbytes as usize - self.bytes
            && self.messages.len() < MAX_MESSAGES
    }

    /// msgsnd, where there is memory for the message: EINVAL for a type below 1 and a text above the
    /// limit, EAGAIN where there is no room.
    fn send(&mut self, pid: Pid, class: i32, text: Bytes) -> Result<(), Errno>
        requires { 1 ≤ self.old.room }
        ensures sent { MatchResult result (λ _. send self.old.queue pid class text ≡ Ok self.new.queue)
            (λ e. (send self.old.queue pid class text ≡ Err e) × (self.new.queue ≡ self.old.queue)) }
        ensures room { self.old.room ≤ self.new.room + 1 }
    {
        if class < 1 || text.len() > MAX_TEXT {
            return Err(Errno::Einval);
        }
        if !self.has_room(text.len()) {
            return Err(Errno::Eagain);
        }
        self.bytes += text.len();
        self.messages.push_back_reserved(Message { class, text });
        self.last_sender = pid;
        Ok(())
    }

    /// msgrcv: ENOMSG where no message is selected, E2BIG for a text above the size asked.
    fn receive(&mut self, pid: Pid, class: i32, size: u32, noerror: bool) -> Result<Message, Errno>
        ensures received { MatchResult result
            (λ m. receive self.old.queue pid class size noerror ≡ Ok (record { queue = self.new.queue; message = m }))
            (λ e. (receive self.old.queue pid class size noerror ≡ Err e) × (self.new.queue ≡ self.old.queue)) }
        ensures room { self.old.room ≤ self.new.room }
    {
        let Some(place) = selected_place(&self.messages, class) else {
            return Err(Errno::Enomsg);
        };
        let Some(found) = self.messages.get(place) else {
            return Err(Errno::Enomsg);
        };
        let len = found.len();
        if len > size as usize && !noerror {
            return Err(Errno::E2big);
        }
        match self.messages.remove(place) {
            Some(message) => {
                self.bytes -= len;
                self.last_receiver = pid;
                Ok(message.cut(size as usize))
            }
            None => Err(Errno::Enomsg),
        }
    }

    /// Whether a send of a text of this length is accepted, or refused for good.
    fn can_send(&self, class: i32, len: usize) -> bool
        ensures { result ≡ can_send self.now.queue class len }
    {
        class < 1 || len > MAX_TEXT || self.has_room(len)
    }

    /// Whether a message is selected.
    fn can_receive(&self, class: i32) -> bool
        ensures { result ≡ can_receive self.now.queue class }
    {
        match selected_place(&self.messages, class) {
            Some(place) => place < self.messages.len(),
            None => false,
        }
    }

    /// Whether a call has its reply at once, and needn't wait.
    pub(crate) fn can_go(&self, pid: Pid, call: &Call) -> bool
        ensures { result ≡ is_some (try_queue self.now.queue pid call.now) }
    {
        match call {
            Call::MsgSnd {
                class,
                text,
                nowait,
                ..
            } => *nowait || self.can_send(*class, text.len()),
            Call::MsgRcv { class, nowait, .. } => *nowait || self.can_receive(*class),
            _ => true,
        }
    }

    /// Carries out a call that needn't wait, where there is memory for one message more.
    pub(crate) fn perform(&mut self, pid: Pid, call: Call) -> Reply
        requires goes { is_some (try_queue self.old.queue pid call) ≡ true }
        requires room { 1 ≤ self.old.room }
        ensures done { try_queue self.old.queue pid call ≡ Some (attempt self.new.queue result) }
        ensures room { self.old.room ≤ self.new.room + 1 }
    {
        match call {
            Call::MsgSnd { class, text, .. } => answer(self.send(pid, class, text)),
            Call::MsgRcv {
                class,
                size,
                noerror,
                ..
            } => received(self.receive(pid, class, size, noerror)),
            Call::MsgStat { .. } => self.stat(),
            Call::MsgSet { qbytes, .. } => answer(self.set_qbytes(qbytes)),
            _ => Reply::Fail(Errno::Einval),
        }
    }
}
