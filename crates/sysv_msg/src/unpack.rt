//! A queue read from bytes: its numbers, its messages, those who wait, and whether one of them could go on.
ghost use Rattle.std.specs.Prelude.{◌≡◌, ◌≤◌, ◌+◌, [], ◌∷◌, Err, length, IfOk, IfSome, OnOk};
ghost use Rattle.std.specs.Bool.{OnTrue};
ghost use Rattle.std.specs.List.{list_all};
ghost use Rattle.pico_base.specs.declared.fault.UnpackFault.TheVariants.{NotABody};
ghost use Rattle.kernel_model.specs.Queue.{bytes_of, Queue as State};
ghost use Rattle.waiting_model.specs.Waiters.{awaited, Awaited};
ghost use Rattle.body_fields.specs.Fields.{whole, TellsPacked};
ghost use Rattle.frame_bytes.specs.Readers.{many, Gives};
ghost use Rattle.waiter_fields.specs.Waiters.{waiters_at};
ghost use Rattle.sysv_msg.specs.Body.{IsBodyOf, queue_code};
ghost use Rattle.sysv_msg.specs.Linked.{messages_of};
ghost use Rattle.sysv_msg.specs.Passing.{HasMessages, HasState, IsUnawaited, Passes};
ghost use Rattle.sysv_msg.specs.Reading.{call_at, fields_at, message_at, messages_at, queue_at, settled_or_none, waits};

use crate::Queue;
use crate::awaiting::Awaiting;
use crate::calls::QueueCalls;
use crate::reading::{CODE, message_of, numbers_of};
use crate::store::{MAX_BYTES, MAX_MESSAGES, Store};
use body_fields::u16_upto;
use frame_bytes::Read;
use index_links::Links;
use pico_base::{Bytes, Memory, Pid, UnpackFault};
use std::alloc::Global;
use waiter_fields::{MAX_WAITERS, read_waiters};
use waiting_model::Waiting;

/// For how many messages more than are there a queue that was unpacked has room: for those of all who may wait.
const MORE: u32 = MAX_WAITERS as u32;

/// Reads so many messages into links that have none, and room for more. Gives how many bytes their texts have, and the
/// bytes behind them.
fn copy_messages<'a>(
    alloc: Global,
    into: &mut Links<Bytes>,
    count: u16,
    bytes: &'a [u8],
) -> Read<'a, usize>
    requires nothing { into.old.nodes ≡ [] }
    requires few { count ≤ 1024 }
    requires room { count + 32 ≤ into.old.spare }
    ensures read { Gives (λ x. (messages_of into.new.nodes, x.1.now)) result (many message_at count bytes.now) }
    ensures size { IfOk result (λ x. x.0 ≡ bytes_of (messages_of into.new.nodes)) }
    ensures more { OnOk result (32 ≤ into.new.spare) }
{
    let mut size = 0;
    let mut rest = bytes;
    for _ in 0..count {
        let Some((class, text, after)) = message_of(rest) else {
            return Err(UnpackFault::NotABody);
        };
        size += text.len();
        let _ = into.push_reserved(class, Bytes::from_slice(alloc, text)?);
        rest = after;
    }
    Ok((size, rest))
}

/// Reads the messages behind their count into links that have none. Gives how many bytes their texts have, and the
/// bytes behind them.
#[tactic(auto, unfolding(crate::specs::Reading::messages_at))]
fn read_messages<'a>(alloc: Global, into: &mut Links<Bytes>, bytes: &'a [u8]) -> Read<'a, usize>
    requires { into.old.nodes ≡ [] }
    ensures read { Gives (λ x. (messages_of into.new.nodes, x.1.now)) result (messages_at bytes.now) }
    ensures size { IfOk result (λ x. x.0 ≡ bytes_of (messages_of into.new.nodes)) }
    ensures more { OnOk result (32 ≤ into.new.spare) }
{
    let Some((count, rest)) = u16_upto(MAX_MESSAGES as u16, bytes) else {
        return Err(UnpackFault::NotABody);
    };
    into.reserve(u32::from(count) + MORE)?;
    let (size, rest) = copy_messages(alloc, into, count, rest)?;
    if size > MAX_BYTES as usize {
        return Err(UnpackFault::NotABody);
    }
    Ok((size, rest))
}

/// Those who wait, all of the bytes.
fn waiters_of(alloc: Global, bytes: &[u8]) -> Result<Vec<Waiting>, UnpackFault>
    ensures read { Gives (λ ws. ws.items) result (whole (waiters_at call_at bytes.now)) }
    ensures few { IfOk result (λ ws. length ws.items ≤ 32) }
{
    let (waiters, rest) = read_waiters::<QueueCalls>(alloc, bytes)?;
    if !rest.is_empty() {
        return Err(UnpackFault::NotABody);
    }
    Ok(waiters)
}

/// Whether the waiter couldn't go on.
fn waits(store: &Store, waiter: &Waiting) -> bool
    ensures { result ≡ waits store.now.queue waiter.now }
{
    !store.can_go(waiter.pid, &waiter.call)
}

/// Whether none of those who wait could go on.
fn all_wait(store: &Store, waiters: &[Waiting]) -> bool
    ensures { result ≡ list_all (waits store.now.queue) waiters.now }
{
    waiters.iter().all(|waiter| waits(store, waiter))
}

/// The queue with those who wait, if none of them could go on.
fn settled(store: Store, waiters: Vec<Waiting>) -> Result<Awaiting, UnpackFault>
    requires few { length waiters.items ≤ 32 }
    requires more { 32 ≤ store.room }
    ensures { Gives (λ q. q) result (settled_or_none (awaited store.queue waiters.items)) }
{
    if !all_wait(&store, waiters.as_slice()) {
        return Err(UnpackFault::NotABody);
    }
    Ok(Awaiting::of(store, waiters))
}

/// The queue and those who wait, behind the code.
fn fields_of(alloc: Global, bytes: &[u8]) -> Result<Awaiting, UnpackFault>
    ensures { Gives (λ q. q) result (fields_at bytes.now) }
{
    let Some((qbytes, sender, receiver, rest)) = numbers_of(bytes) else {
        return Err(UnpackFault::NotABody);
    };
    let mut messages = Links::new(alloc);
    let (size, rest) = read_messages(alloc, &mut messages, rest)?;
    let waiters = waiters_of(alloc, rest)?;
    let store = Store {
        messages,
        bytes: size as u32,
        qbytes,
        last_sender: Pid(sender),
        last_receiver: Pid(receiver),
    };
    settled(store, waiters)
}

/// The queue and those who wait, behind the code, which is read, too.
#[tactic(auto, unfolding(crate::specs::Reading::queue_at))]
fn awaiting_of(alloc: Global, bytes: &[u8]) -> Result<Awaiting, UnpackFault>
    ensures { Gives (λ q. q) result (queue_at bytes.now) }
{
    match bytes {
        [CODE, fields @ ..] => fields_of(alloc, fields),
        _ => Err(UnpackFault::NotABody),
    }
}

/// Passes over so many messages: how many bytes their texts have, and the bytes behind them.
pub(crate) fn pass_messages(count: u16, bytes: &[u8]) -> Option<(usize, &[u8])>
    requires { count ≤ 1024 }
    ensures { IfSome result (λ x. Passes count bytes.now x.0 x.1.now) }
{
    let mut size = 0;
    let mut rest = bytes;
    for _ in 0..count {
        let (_, text, after) = message_of(rest)?;
        size += text.len();
        rest = after;
    }
    Some((size, rest))
}

/// The bytes behind messages, which stand behind their count.
fn behind_messages(bytes: &[u8]) -> Option<&[u8]>
    ensures { IfSome result (λ rest. HasMessages bytes.now rest.now) }
{
    let (count, rest) = u16_upto(MAX_MESSAGES as u16, bytes)?;
    let (size, rest) = pass_messages(count, rest)?;
    if size > MAX_BYTES as usize {
        return None;
    }
    Some(rest)
}

/// The bytes behind a queue's own fields.
fn behind_fields(bytes: &[u8]) -> Option<&[u8]>
    ensures { IfSome result (λ rest. HasState bytes.now rest.now) }
{
    let (_, _, _, rest) = numbers_of(bytes)?;
    let behind = behind_messages(rest)?;
    Some(behind)
}

/// The bytes behind a queue's code.
pub(crate) fn behind_code(bytes: &[u8]) -> Option<&[u8]>
    ensures { IfSome result (λ fields. bytes.now ≡ queue_code ∷ fields.now) }
{
    match bytes {
        [CODE, fields @ ..] => Some(fields),
        _ => None,
    }
}

/// Whether the bytes are those of no waiters, all of them.
pub(crate) fn are_none(waiters: &[u8]) -> bool
    ensures { OnTrue result (waiters.now ≡ 0 ∷ []) }
{
    matches!(waiters, [0])
}

impl Queue {
    /// Only where the bytes are the packed form of a queue at which nobody waits is it true. It takes no memory.
    pub fn is_unawaited(bytes: &[u8]) -> bool
        ensures { OnTrue result (IsUnawaited bytes.now) }
    {
        let Some(fields) = behind_code(bytes) else {
            return false;
        };
        let Some(waiters) = behind_fields(fields) else {
            return false;
        };
        are_none(waiters)
    }

    /// Whether the bytes are the packed form of a queue. Memory: an allocation was refused.
    pub fn is_packed(alloc: Global, bytes: &[u8]) -> Result<bool, Memory>
        ensures { IfOk result (TellsPacked (λ q. IsBodyOf q bytes.now)) }
    {
        match Queue::unpack(alloc, bytes) {
            Ok(_) => Ok(true),
            Err(UnpackFault::NotABody) => Ok(false),
            Err(UnpackFault::Memory) => Err(Memory),
        }
    }

    /// The queue whose packed form the bytes are. NotABody: they are the packed form of no queue. Memory: an allocation
    /// was refused.
    pub fn unpack(alloc: Global, bytes: &[u8]) -> Result<Queue, UnpackFault>
        // What is unpacked is packed so.
        ensures found { IfOk result (λ q. IsBodyOf q bytes.now) }
        // What is packed so is unpacked, unless memory runs out.
        ensures only { (q : Awaited State) → IsBodyOf q bytes.now → IfOk result (λ got. got ≡ q) }
        ensures refused { result ≡ Err NotABody → (q : Awaited State) → IsBodyOf q bytes.now → ⊥ }
    {
        match awaiting_of(alloc, bytes) {
            Ok(awaiting) => Ok(Queue { awaiting }),
            Err(fault) => Err(fault),
        }
    }
}
