//! A reply at the front of a line, as the trace prints it.
ghost use Rattle.std.specs.Prelude.{◌≡◌, ◌≤◌, IfOk, option_map, pos};
ghost use Rattle.text_fields.specs.Fields.{error_at};
ghost use Rattle.trace_text.specs.Reading as reading;

use pico_base::{Ending, Memory, Pid, Reply};
use quoted_bytes::strip_front;
use std::alloc::Global;
use text_fields::{
    error_front, number_front, set_front, signal_front, signed_front, text_front, values_front,
};

/// The greatest type of a message, and the least one below zero.
const MAX_TYPE: u32 = 2_147_483_647;

/// A reply, with what follows it.
type Read<'a> = Option<(Reply, &'a [u8])>;

#[tactic(auto, unfolding(crate::specs::Reading::exited_at))]
fn exited(pid: Pid, bytes: &[u8]) -> Read<'_>
    ensures { option_map (λ x. (x.0, x.1.now)) result ≡ reading.exited_at pid bytes.now }
{
    let (status, rest) = number_front(255, bytes)?;
    let ending = Ending::Exited(status as u8);
    Some((Reply::Child { pid, ending }, rest))
}

#[tactic(auto, unfolding(crate::specs::Reading::ended_by_at))]
fn ended_by(pid: Pid, bytes: &[u8]) -> Read<'_>
    ensures { option_map (λ x. (x.0, x.1.now)) result ≡ reading.ended_by_at pid bytes.now }
{
    let (sig, rest) = signal_front(bytes)?;
    let ending = Ending::Killed(sig);
    Some((Reply::Child { pid, ending }, rest))
}

#[tactic(auto, unfolding(crate::specs::Reading::message_at))]
fn message(alloc: Global, class: i32, bytes: &[u8]) -> Result<Read<'_>, Memory>
    ensures { IfOk result (λ reply. option_map (λ x. (x.0, x.1.now)) reply ≡ reading.message_at class bytes.now) }
{
    let Some(rest) = strip_front(bytes, b" ") else {
        return Ok(None);
    };
    let Some((text, rest)) = text_front(alloc, rest)? else {
        return Ok(None);
    };
    Ok(Some((Reply::Message { class, text }, rest)))
}

/// A message of this type, or the number alone.
fn message_or_number(alloc: Global, number: u32, bytes: &[u8]) -> Result<Read<'_>, Memory>
    requires { number ≤ 2147483647 }
    ensures { IfOk result
        (λ reply. option_map (λ x. (x.0, x.1.now)) reply
        ≡ reading.or_number number bytes.now (reading.message_at (pos number) bytes.now)) }
{
    match message(alloc, number as i32, bytes)? {
        Some((reply, rest)) => Ok(Some((reply, rest))),
        None => Ok(Some((Reply::Num(number), bytes))),
    }
}

/// A reply that begins with this number, behind it.
#[tactic(auto, unfolding(crate::specs::Reading::numbered_at))]
fn numbered(alloc: Global, number: u32, bytes: &[u8]) -> Result<Read<'_>, Memory>
    ensures { IfOk result (λ reply. option_map (λ x. (x.0, x.1.now)) reply ≡ reading.numbered_at number bytes.now) }
{
    if let Some(rest) = strip_front(bytes, b" exited ") {
        return Ok(exited(Pid(number), rest));
    }
    if let Some(rest) = strip_front(bytes, b" killed ") {
        return Ok(ended_by(Pid(number), rest));
    }
    if number <= MAX_TYPE {
        message_or_number(alloc, number, bytes)
    } else {
        Ok(Some((Reply::Num(number), bytes)))
    }
}

#[tactic(auto, unfolding(crate::specs::Reading::negative_at))]
fn negative(alloc: Global, bytes: &[u8]) -> Result<Read<'_>, Memory>
    ensures { IfOk result (λ reply. option_map (λ x. (x.0, x.1.now)) reply ≡ reading.negative_at bytes.now) }
{
    match signed_front(MAX_TYPE, bytes) {
        Some((class, rest)) => message(alloc, class, rest),
        None => Ok(None),
    }
}

#[tactic(auto, unfolding(crate::specs::Reading::stat_at))]
fn stat(bytes: &[u8]) -> Read<'_>
    ensures { option_map (λ x. (x.0, x.1.now)) result ≡ reading.stat_at bytes.now }
{
    let (qnum, rest) = number_front(u32::MAX, bytes)?;
    let rest = strip_front(rest, b" qbytes ")?;
    let (qbytes, rest) = number_front(u32::MAX, rest)?;
    let rest = strip_front(rest, b" lspid ")?;
    let (lspid, rest) = number_front(u32::MAX, rest)?;
    let rest = strip_front(rest, b" lrpid ")?;
    let (lrpid, rest) = number_front(u32::MAX, rest)?;
    let (lspid, lrpid) = (Pid(lspid), Pid(lrpid));
    Some((
        Reply::Stat {
            qnum,
            qbytes,
            lspid,
            lrpid,
        },
        rest,
    ))
}

#[tactic(auto, unfolding(crate::specs::Reading::all_values_at))]
fn all_values(alloc: Global, bytes: &[u8]) -> Result<Read<'_>, Memory>
    ensures { IfOk result (λ reply. option_map (λ x. (x.0, x.1.now)) reply ≡ reading.all_values_at bytes.now) }
{
    let Some((values, rest)) = values_front(alloc, u32::MAX, bytes)? else {
        return Ok(None);
    };
    Ok(Some((Reply::All(values), rest)))
}

/// An error, or a set of signals.
fn error_or_set(bytes: &[u8]) -> Read<'_>
    ensures { option_map (λ x. (x.0, x.1.now)) result ≡ reading.or_set bytes.now (error_at bytes.now) }
{
    if let Some((errno, rest)) = error_front(bytes) {
        return Some((Reply::Fail(errno), rest));
    }
    match set_front(bytes) {
        Some((set, rest)) => Some((Reply::Bits(set), rest)),
        None => None,
    }
}

/// A reply that begins with no number.
#[tactic(auto, unfolding(crate::specs::Reading::word_reply_at))]
fn word_reply(alloc: Global, bytes: &[u8]) -> Result<Read<'_>, Memory>
    ensures { IfOk result (λ reply. option_map (λ x. (x.0, x.1.now)) reply ≡ reading.word_reply_at bytes.now) }
{
    if let Some(rest) = strip_front(bytes, b"ended") {
        return Ok(Some((Reply::Ended, rest)));
    }
    if let Some(rest) = strip_front(bytes, b"all ") {
        return all_values(alloc, rest);
    }
    if let Some(rest) = strip_front(bytes, b"qnum ") {
        return Ok(stat(rest));
    }
    match strip_front(bytes, b"-") {
        Some(_) => negative(alloc, bytes),
        None => Ok(error_or_set(bytes)),
    }
}

/// The reply at the front.
#[tactic(auto, unfolding(crate::specs::Reading::reply_at))]
pub(crate) fn reply_front(alloc: Global, bytes: &[u8]) -> Result<Read<'_>, Memory>
    ensures { IfOk result (λ reply. option_map (λ x. (x.0, x.1.now)) reply ≡ reading.reply_at bytes.now) }
{
    match number_front(u32::MAX, bytes) {
        Some((number, rest)) => numbered(alloc, number, rest),
        None => word_reply(alloc, bytes),
    }
}
