//! A queue written as bytes.
ghost use Rattle.std.specs.Prelude.{◌≡◌, ◌≤◌, ◌<◌, ◌^◌, ◌∷◌, ◌++◌, [], IfOk, IfSome, OnOk};
ghost use Rattle.std.specs.List.{flat_map};
ghost use Rattle.frame_bytes.specs.Fields.{word};
ghost use Rattle.sysv_msg.specs.Body.{IsBodyOf, message_field, messages_field, numbers_field, queue_code};
ghost use Rattle.sysv_msg.specs.Limits.{AreParked, IsWithinLimits};
ghost use Rattle.sysv_msg.specs.Linked.{messages_of};

use crate::Queue;
use crate::awaiting::Awaiting;
use crate::reading::CODE;
use crate::store::Store;
use index_links::Links;
use pico_base::{Bytes, Memory};
use waiter_fields::put_waiters;

/// The number, where it has 32 bits.
pub(crate) fn short_of(number: usize) -> Option<u32>
    ensures { IfSome result (λ short. short ≡ number) }
{
    if number > u32::MAX as usize {
        return None;
    }
    Some(number as u32)
}

/// Adds a number at the end.
fn push_word(out: &mut Vec<u8>, number: u32) -> Result<(), Memory>
    ensures bytes { OnOk result (out.new.items ≡ out.old.items ++ word number) }
    ensures fits { OnOk result (number < 2 ^ 32) }
{
    out.extend_from_slice(&number.to_be_bytes())?;
    Ok(())
}

/// Adds the code and a queue's numbers at the end.
pub(crate) fn push_front(
    out: &mut Vec<u8>,
    qbytes: u32,
    sender: u32,
    receiver: u32,
) -> Result<(), Memory>
    ensures bytes { OnOk result
        (out.new.items ≡ out.old.items ++ queue_code ∷ (word qbytes ++ (word sender ++ word receiver))) }
    ensures sender { OnOk result (sender < 2 ^ 32) }
    ensures receiver { OnOk result (receiver < 2 ^ 32) }
{
    out.push(CODE)?;
    push_word(out, qbytes)?;
    push_word(out, sender)?;
    push_word(out, receiver)?;
    Ok(())
}

/// Adds a message at the end: its type, the length of its text, and the text.
fn push_message(out: &mut Vec<u8>, class: i32, text: &[u8]) -> Result<(), Memory>
    ensures { OnOk result (out.new.items ≡ out.old.items ++ message_field (record { class = class; text = text.now })) }
{
    let Some(len) = short_of(text.len()) else {
        return Err(Memory);
    };
    out.extend_from_slice(&class.to_be_bytes())?;
    out.extend_from_slice(&len.to_be_bytes())?;
    out.extend_from_slice(text)?;
    Ok(())
}

/// Adds messages at the end, one by one.
fn push_linked(links: &Links<Bytes>, out: &mut Vec<u8>) -> Result<(), Memory>
    ensures { OnOk result (out.new.items ≡ out.old.items ++ flat_map message_field (messages_of links.now.nodes)) }
{
    links.have_own_slots();
    let mut at = links.first();
    for _ in 0..links.len() {
        let Some(slot) = at else {
            return Ok(());
        };
        push_message(out, links.class(slot), links.value(slot).as_slice())?;
        at = links.next(slot);
    }
    Ok(())
}

impl Store {
    /// How many bytes the queue's own fields have, with the code.
    fn size(&self) -> usize
        ensures { result ≤ 32768 }
    {
        15 + 8 * self.messages.len() as usize + self.bytes as usize
    }

    /// Adds the code and the queue's numbers at the end.
    fn push_numbers(&self, out: &mut Vec<u8>) -> Result<(), Memory>
        ensures bytes { OnOk result (out.new.items ≡ out.old.items ++ queue_code ∷ numbers_field self.now.queue) }
        ensures sender { OnOk result (self.now.queue.last_sender < 2 ^ 32) }
        ensures receiver { OnOk result (self.now.queue.last_receiver < 2 ^ 32) }
    {
        push_front(out, self.qbytes, self.last_sender.0, self.last_receiver.0)
    }

    /// Adds the messages at the end, behind their count.
    fn push_messages(&self, out: &mut Vec<u8>) -> Result<(), Memory>
        ensures bytes { OnOk result (out.new.items ≡ out.old.items ++ messages_field self.now.queue.messages) }
        ensures limits { OnOk result (IsWithinLimits self.now.queue) }
    {
        out.extend_from_slice(&(self.messages.len() as u16).to_be_bytes())?;
        push_linked(&self.messages, out)?;
        Ok(())
    }
}

impl Awaiting {
    /// Adds the packed form at the end.
    fn push_onto(&self, out: &mut Vec<u8>) -> Result<(), Memory>
        requires parked { AreParked self.now }
        requires nothing { out.old.items ≡ [] }
        ensures { OnOk result (IsBodyOf self.now out.new.items) }
    {
        out.reserve(self.store.size() + 1)?;
        self.store.push_numbers(out)?;
        self.store.push_messages(out)?;
        put_waiters(self.allocator(), out, self.waiters.as_slice())?;
        Ok(())
    }
}

impl Queue {
    /// The queue as bytes, which `unpack` makes into an equal queue. A queue has one spelling: 4, `msg_qbytes` in
    /// 4 bytes, the last sender and the last receiver in 4 each, the count of messages in 2, each message as its type
    /// in 4 bytes, the length of its text in 4, and the text; and those who wait, as `waiter_fields` has them. Numbers
    /// are big-endian.
    pub fn pack(&self) -> Result<Bytes, Memory>
        ensures { IfOk result (λ bytes. IsBodyOf self.now bytes) }
    {
        let alloc = self.awaiting.allocator();
        let mut out = Vec::new(alloc);
        self.awaiting.push_onto(&mut out)?;
        Ok(Bytes::from_vec(out))
    }
}
