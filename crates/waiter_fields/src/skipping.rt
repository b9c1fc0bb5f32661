//! Those who wait, as they are passed over without memory.
ghost use Rattle.std.specs.Prelude.{◌≡◌, ◌≤◌, [], nat_eq};
ghost use Rattle.std.specs.List.{list_any};
ghost use Rattle.body_fields.specs.Fields.{Reads};
ghost use Rattle.frame_bytes.specs.Readers.{many};
ghost use Rattle.waiter_fields.specs.Waiters.{are_different};
ghost use Rattle.waiter_fields.specs.Ranges.{count_of_waiters, process_at};

use crate::{MAX_WAITERS, WaitingCalls, head_of};
use arrayvec::ArrayVec;
use body_fields::u8_upto;
use pico_base::Pid;

/// The processes of those who were passed over.
type Processes = ArrayVec<Pid, MAX_WAITERS>;

/// Whether the process is one of these.
fn is_among(pid: Pid, others: &[Pid]) -> bool
    ensures { result ≡ list_any (nat_eq pid) others.now }
{
    match others {
        [] => false,
        [other, rest @ ..] => pid.0 == other.0 || is_among(pid, rest),
    }
}

/// Whether no process stands there twice.
fn are_different(pids: &[Pid]) -> bool
    ensures { result ≡ are_different pids.now }
{
    match pids {
        [] => true,
        [pid, others @ ..] => !is_among(*pid, others) && are_different(others),
    }
}

/// The process of one who waits, and the bytes behind it.
#[tactic(auto, unfolding(crate::specs::Ranges::process_at))]
fn process_of<C: WaitingCalls>(bytes: &[u8]) -> Option<(u32, &[u8])>
    ensures { Reads (λ x. (x.0, x.1.now)) result (process_at C.call_at bytes.now) }
{
    let (_, _, pid, rest) = head_of(bytes)?;
    let rest = C::skip(rest)?;
    Some((pid, rest))
}

/// Reads the processes of so many into an empty list, and gives the bytes after them.
fn read_processes<'a, C: WaitingCalls>(
    into: &mut Processes,
    count: u8,
    bytes: &'a [u8],
) -> Option<&'a [u8]>
    requires empty { into.old.items ≡ [] }
    requires room { count ≤ 32 }
    ensures { Reads (λ rest. (into.new.items, rest.now)) result (many (process_at C.call_at) count bytes.now) }
{
    let mut rest = bytes;
    for _ in 0..count {
        let (pid, after) = process_of::<C>(rest)?;
        into.push(Pid(pid));
        rest = after;
    }
    Some(rest)
}

/// How many wait, and the bytes behind them. None: the bytes have no such waiters at their front. It takes no memory.
pub fn skip_waiters<C: WaitingCalls>(bytes: &[u8]) -> Option<(u8, &[u8])>
    ensures { Reads (λ x. (x.0, x.1.now)) result (count_of_waiters C.call_at bytes.now) }
{
    let mut pids = Processes::new();
    let (count, rest) = u8_upto(MAX_WAITERS as u8, bytes)?;
    let rest = read_processes::<C>(&mut pids, count, rest)?;
    if !are_different(pids.as_slice()) {
        return None;
    }
    Some((count, rest))
}
