//! A line of a trace, read as its entry.
ghost use Rattle.std.specs.Prelude.{◌≡◌, ◌≤◌, IfOk, IfSome, None, option_map, length};
ghost use Rattle.trace_text.specs.Reading as reading;

use crate::calls::call_front;
use crate::grammar::is_entry;
use crate::print_entries::push_entry;
use crate::replies::reply_front;
use pico_base::{Call, Entry, Memory, Node, Outcome, Pid, Reply, Script, Sequence, Woken};
use quoted_bytes::strip_front;
use std::alloc::Global;
use text_fields::number_front;

/// Who made the call, and the call.
#[tactic(auto, unfolding(crate::specs::Reading::made_at))]
fn made<'a>(
    alloc: Global,
    script: &Script,
    bytes: &'a [u8],
) -> Result<Option<((Pid, Call), &'a [u8])>, Memory>
    requires { length script.now.blocks ≤ 32 }
    ensures { IfOk result (λ made. option_map (λ x. (x.0, x.1.now)) made ≡ reading.made_at script.now bytes.now) }
{
    let Some((pid, rest)) = number_front(u32::MAX, bytes) else {
        return Ok(None);
    };
    let Some(rest) = strip_front(rest, b" ") else {
        return Ok(None);
    };
    match call_front(alloc, script, rest) {
        Ok(Some((call, rest))) => Ok(Some(((Pid(pid), call), rest))),
        Ok(None) => Ok(None),
        Err(memory) => Err(memory),
    }
}

/// `parked`, where the caller has no reply yet.
fn parked(bytes: &[u8]) -> Option<(Option<Reply>, &[u8])>
    ensures { option_map (λ x. (x.0, x.1.now)) result ≡ reading.or_parked bytes.now None }
{
    let rest = strip_front(bytes, b"parked")?;
    Some((None, rest))
}

/// The caller's own reply, or `parked`.
#[tactic(auto, unfolding(crate::specs::Reading::own_at))]
fn own(alloc: Global, bytes: &[u8]) -> Result<Option<(Option<Reply>, &[u8])>, Memory>
    ensures { IfOk result (λ own. option_map (λ x. (x.0, x.1.now)) own ≡ reading.own_at bytes.now) }
{
    match reply_front(alloc, bytes) {
        Ok(Some((reply, rest))) => Ok(Some((Some(reply), rest))),
        Ok(None) => Ok(parked(bytes)),
        Err(memory) => Err(memory),
    }
}

/// The number of the node that carried the call out.
#[tactic(auto, unfolding(crate::specs::Reading::by_at))]
pub(crate) fn by_number(bytes: &[u8]) -> Option<(u8, &[u8])>
    ensures value { option_map (λ x. (x.0, x.1.now)) result ≡ reading.by_at bytes.now }
    ensures node { IfSome result (λ x. (1 ≤ x.0) × (x.0 ≤ 32)) }
{
    let rest = strip_front(bytes, b" by ")?;
    let (node, rest) = number_front(32, rest)?;
    if 1 <= node {
        Some((node as u8, rest))
    } else {
        None
    }
}

/// The node that carried the call out.
fn by(bytes: &[u8]) -> Option<(Node, &[u8])>
    ensures { option_map (λ x. (x.0, x.1.now)) result ≡ reading.by_at bytes.now }
{
    let (node, rest) = by_number(bytes)?;
    Some((Node(node), rest))
}

/// A caller that is woken, and its reply.
type Wake<'a> = Option<((Pid, Reply), &'a [u8])>;

#[tactic(auto, unfolding(crate::specs::Reading::wake_at))]
fn wake(alloc: Global, bytes: &[u8]) -> Result<Wake<'_>, Memory>
    ensures { IfOk result (λ wake. option_map (λ x. (x.0, x.1.now)) wake ≡ reading.wake_at bytes.now) }
{
    let Some(rest) = strip_front(bytes, b" wakes ") else {
        return Ok(None);
    };
    let Some((pid, rest)) = number_front(u32::MAX, rest) else {
        return Ok(None);
    };
    let Some(rest) = strip_front(rest, b" ") else {
        return Ok(None);
    };
    match reply_front(alloc, rest) {
        Ok(Some((reply, rest))) => Ok(Some(((Pid(pid), reply), rest))),
        Ok(None) => Ok(None),
        Err(memory) => Err(memory),
    }
}

/// The callers that are woken, in their order.
fn wakes(alloc: Global, bytes: &[u8]) -> Result<(Woken, &[u8]), Memory>
    ensures { IfOk result (λ x. (x.0, x.1.now) ≡ reading.wakes_at bytes.now) }
{
    let mut woken = Sequence::new(alloc);
    let mut rest = bytes;
    for _ in 0..bytes.len() {
        let Some((one, after)) = wake(alloc, rest)? else {
            return Ok((woken, rest));
        };
        woken.push(one)?;
        rest = after;
    }
    Ok((woken, rest))
}

fn entry_of(made: (Pid, Call), own: Option<Reply>, by: Node, woken: Woken) -> Entry
    ensures { result ≡ reading.entry_of made own by woken }
{
    let (pid, call) = made;
    Entry {
        pid,
        call,
        outcome: Outcome { own, woken },
        by,
    }
}

/// The entry, where nothing follows the callers that are woken.
fn with_wakes(
    alloc: Global,
    made: (Pid, Call),
    own: Option<Reply>,
    by: Node,
    bytes: &[u8],
) -> Result<Option<Entry>, Memory>
    ensures { IfOk result (λ entry. entry ≡ reading.ended_entry made own by (reading.wakes_at bytes.now)) }
{
    let (woken, rest) = wakes(alloc, bytes)?;
    if rest.is_empty() {
        Ok(Some(entry_of(made, own, by, woken)))
    } else {
        Ok(None)
    }
}

/// What the call came to, and the node, behind the call.
fn with_outcome(alloc: Global, made: (Pid, Call), bytes: &[u8]) -> Result<Option<Entry>, Memory>
    ensures { IfOk result (λ entry. entry ≡ reading.replied_at made bytes.now) }
{
    let Some(rest) = strip_front(bytes, b" = ") else {
        return Ok(None);
    };
    match own(alloc, rest) {
        Ok(Some((own, rest))) => match by(rest) {
            Some((node, rest)) => with_wakes(alloc, made, own, node, rest),
            None => Ok(None),
        },
        Ok(None) => Ok(None),
        Err(memory) => Err(memory),
    }
}

/// What a line reads as from left to right.
#[tactic(auto, unfolding(crate::specs::Reading::entry_at))]
fn entry(alloc: Global, script: &Script, bytes: &[u8]) -> Result<Option<Entry>, Memory>
    requires { length script.now.blocks ≤ 32 }
    ensures { IfOk result (λ entry. entry ≡ reading.entry_at script.now bytes.now) }
{
    match made(alloc, script, bytes) {
        Ok(Some((made, rest))) => with_outcome(alloc, made, rest),
        Ok(None) => Ok(None),
        Err(memory) => Err(memory),
    }
}

/// Whether the printed line is this one and a line feed.
pub fn is_line(printed: &[u8], line: &[u8]) -> bool
    ensures { result ≡ reading.is_line printed.now line.now }
{
    match strip_front(printed, line) {
        Some(rest) => rest == b"\n".as_slice(),
        None => false,
    }
}

/// The entry whose text the line is, without its line feed; none where it is no line of a trace of this script. The
/// line is printed again into `scratch`, so that it is read exactly where the trace text prints it.
#[tactic(auto, unfolding(crate::specs::Reading::entry_in))]
pub fn entry_in(
    alloc: Global,
    script: &Script,
    line: &[u8],
    scratch: &mut Vec<u8>,
) -> Result<Option<Entry>, Memory>
    requires { length script.now.blocks ≤ 32 }
    ensures { IfOk result (λ entry. entry ≡ reading.entry_in script.now line.now) }
{
    let Some(entry) = entry(alloc, script, line)? else {
        return Ok(None);
    };
    if !is_entry(script, &entry) {
        return Ok(None);
    }
    scratch.clear();
    push_entry(scratch, script, &entry)?;
    if is_line(scratch, line) {
        Ok(Some(entry))
    } else {
        Ok(None)
    }
}
