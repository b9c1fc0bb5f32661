//! A set read from bytes.
ghost use Rattle.std.specs.Prelude.{◌≡◌, Err, IfOk, IfSome, nat_eq};
ghost use Rattle.std.specs.Bool.{OnTrue};
ghost use Rattle.std.specs.List.{list_all, list_any};
ghost use Rattle.pico_base.specs.declared.fault.UnpackFault.TheVariants.{NotABody};
ghost use Rattle.body_fields.specs.Fields.{whole, Reads, TellsPacked};
ghost use Rattle.frame_bytes.specs.Readers.{many, Gives};
ghost use Rattle.kernel_model.specs.SemaphoreSet.{set_of, SemaphoreSet};
ghost use Rattle.waiting_model.specs.Waiters.{awaited, Awaited};
ghost use Rattle.sysv_sem.specs.Body.{IsBodyOf};
ghost use Rattle.sysv_sem.specs.Passing.{HasRow, HasSemaphores, IsUnawaited};
ghost use Rattle.sysv_sem.specs.Reading.{fields_at, have_own, is_short_op, row_at, semaphore_at, set_at, waiter_at, waiters_at, waits};
ghost use Rattle.sysv_sem.specs.Waiters.{waiters_in};

use crate::SemSet;
use crate::pack::CODE;
use crate::row::{MAX_OPERATIONS, MAX_SEMAPHORES, Row};
use crate::semaphore::Semaphore;
use crate::settling::try_waiter;
use crate::trial::MAX_VALUE;
use crate::waiters::{MAX_WAITERS, is_of};
use body_fields::{u8_at, u8_upto, u16_upto, u32_at};
use frame_bytes::{Read, read_asked};
use index_links::Links;
use pico_base::{Call, Memory, Pid, UnpackFault};
use std::alloc::Global;
use waiting_model::Waiting;

/// The value and the last process of a semaphore, and the bytes after it.
#[tactic(auto, unfolding(crate::specs::Reading::semaphore_at))]
fn semaphore_of(bytes: &[u8]) -> Option<(u16, u32, &[u8])>
    ensures { Reads (λ x. (record { value = x.0; last = x.1 }, x.2.now)) result (semaphore_at bytes.now) }
{
    let (value, rest) = u16_upto(MAX_VALUE as u16, bytes)?;
    let (last, rest) = u32_at(rest)?;
    Some((value, last, rest))
}

/// So many semaphores, and the bytes after them.
fn semaphores_of(alloc: Global, count: u8, bytes: &[u8]) -> Read<'_, Vec<Semaphore>>
    ensures { Gives (λ x. (x.0.items, x.1.now)) result (many semaphore_at count bytes.now) }
{
    let mut row = Vec::with_capacity(alloc, usize::from(count))?;
    let mut rest = bytes;
    for _ in 0..count {
        let Some((value, last, after)) = semaphore_of(rest) else {
            return Err(UnpackFault::NotABody);
        };
        row.push(Semaphore {
            value: u32::from(value),
            last: Pid(last),
        })?;
        rest = after;
    }
    Ok((row, rest))
}

/// The semaphores behind their count, and the bytes after them.
#[tactic(auto, unfolding(crate::specs::Reading::row_at))]
fn row_of(alloc: Global, bytes: &[u8]) -> Read<'_, Vec<Semaphore>>
    ensures { Gives (λ x. (x.0.items, x.1.now)) result (row_at bytes.now) }
{
    let Some((count, rest)) = u8_at(bytes) else {
        return Err(UnpackFault::NotABody);
    };
    if count == 0 || u32::from(count) > MAX_SEMAPHORES {
        return Err(UnpackFault::NotABody);
    }
    semaphores_of(alloc, count, rest)
}

/// Whether the call is a `semop` of no more operations than there may be.
fn is_short_op(call: &Call) -> bool
    ensures { result ≡ is_short_op call.now }
{
    match call {
        Call::SemOp { steps, .. } => steps.len() <= MAX_OPERATIONS,
        _ => false,
    }
}

/// One who waits, and the bytes after it.
#[tactic(auto, unfolding(crate::specs::Reading::waiter_at))]
fn waiter_of(alloc: Global, bytes: &[u8]) -> Read<'_, Waiting>
    ensures { Gives (λ x. (x.0, x.1.now)) result (waiter_at bytes.now) }
{
    let (asked, rest) = read_asked(alloc, bytes)?;
    if !is_short_op(&asked.call) {
        return Err(UnpackFault::NotABody);
    }
    let waiting = Waiting {
        caller: asked.caller,
        ticket: asked.ticket,
        pid: asked.pid,
        call: asked.call,
    };
    Ok((waiting, rest))
}

/// So many who wait, and the bytes after them.
fn many_waiters_of(alloc: Global, count: u8, bytes: &[u8]) -> Read<'_, Vec<Waiting>>
    ensures { Gives (λ x. (x.0.items, x.1.now)) result (many waiter_at count bytes.now) }
{
    let mut waiters = Vec::new(alloc);
    let mut rest = bytes;
    for _ in 0..count {
        let (waiter, after) = waiter_of(alloc, rest)?;
        waiters.push(waiter)?;
        rest = after;
    }
    Ok((waiters, rest))
}

/// Whether the process is one of those who wait.
fn is_among(pid: Pid, waiters: &[Waiting]) -> bool
    ensures { result ≡ list_any (λ w. nat_eq pid w.pid) waiters.now }
{
    waiters.iter().any(|waiter| is_of(waiter, pid))
}

/// Whether no two are of one process.
fn have_own(waiters: &[Waiting]) -> bool
    ensures { result ≡ have_own waiters.now }
{
    match waiters {
        [] => true,
        [waiter, others @ ..] => !is_among(waiter.pid, others) && have_own(others),
    }
}

/// Those who wait behind their count, and the bytes after them.
#[tactic(auto, unfolding(crate::specs::Reading::waiters_at))]
fn waiters_of(alloc: Global, bytes: &[u8]) -> Read<'_, Vec<Waiting>>
    ensures { Gives (λ x. (x.0.items, x.1.now)) result (waiters_at bytes.now) }
{
    let Some((count, rest)) = u8_upto(MAX_WAITERS as u8, bytes) else {
        return Err(UnpackFault::NotABody);
    };
    let (waiters, rest) = many_waiters_of(alloc, count, rest)?;
    if !have_own(waiters.as_slice()) {
        return Err(UnpackFault::NotABody);
    }
    Ok((waiters, rest))
}

/// Whether nobody waits who could go on. Else the semaphores may have changed.
fn all_wait(row: &mut Row, waiters: &[Waiting]) -> bool
    ensures told { result ≡ list_all (waits row.old) waiters.now }
    ensures same { OnTrue result (row.new ≡ row.old) }
{
    for waiter in waiters {
        if try_waiter(row, waiter).is_some() {
            return false;
        }
    }
    true
}

/// The semaphores and those who wait, of bytes that are read whole.
#[tactic(auto, unfolding(crate::specs::Reading::fields_at))]
fn fields_of(alloc: Global, bytes: &[u8]) -> Result<(Row, Vec<Waiting>), UnpackFault>
    ensures { Gives (λ x. awaited x.0 x.1.items) result (whole (fields_at bytes.now)) }
{
    let (semaphores, rest) = row_of(alloc, bytes)?;
    let (waiters, rest) = waiters_of(alloc, rest)?;
    let tried = vec![in alloc; 0u32; semaphores.len()]?;
    let mut row = Row { semaphores, tried };
    if !all_wait(&mut row, waiters.as_slice()) {
        return Err(UnpackFault::NotABody);
    }
    if !rest.is_empty() {
        return Err(UnpackFault::NotABody);
    }
    Ok((row, waiters))
}

/// The semaphores and those who wait, behind the code, which is read, too.
#[tactic(auto, unfolding(crate::specs::Reading::set_at))]
fn parts_of(alloc: Global, bytes: &[u8]) -> Result<(Row, Vec<Waiting>), UnpackFault>
    ensures { Gives (λ x. awaited x.0 x.1.items) result (set_at bytes.now) }
{
    match bytes {
        [CODE, fields @ ..] => fields_of(alloc, fields),
        _ => Err(UnpackFault::NotABody),
    }
}

/// Those who wait, linked in their order.
fn linked(alloc: Global, waiters: Vec<Waiting>) -> Result<Links<Waiting>, Memory>
    ensures { IfOk result (λ links. waiters_in links.nodes ≡ waiters.items) }
{
    let mut links = Links::new(alloc);
    for waiter in waiters {
        links.reserve(1)?;
        let _ = links.push_reserved(0, waiter);
    }
    Ok(links)
}

/// The bytes behind so many semaphores.
fn behind_semaphores(count: u8, bytes: &[u8]) -> Option<&[u8]>
    ensures { IfSome result (λ rest. HasSemaphores count bytes.now rest.now) }
{
    let mut rest = bytes;
    for _ in 0..count {
        let (_, _, after) = semaphore_of(rest)?;
        rest = after;
    }
    Some(rest)
}

/// The bytes behind a set's semaphores, which stand behind their count.
fn behind_row(bytes: &[u8]) -> Option<&[u8]>
    ensures { IfSome result (λ rest. HasRow bytes.now rest.now) }
{
    let (count, rest) = u8_at(bytes)?;
    if count == 0 || u32::from(count) > MAX_SEMAPHORES {
        return None;
    }
    let behind = behind_semaphores(count, rest)?;
    Some(behind)
}

impl SemSet {
    /// Only where the bytes are the packed form of a set at which nobody waits is it true. It takes no memory.
    pub fn is_unawaited(bytes: &[u8]) -> bool
        ensures { OnTrue result (IsUnawaited bytes.now) }
    {
        match bytes {
            [CODE, fields @ ..] => matches!(behind_row(fields), Some([0])),
            _ => false,
        }
    }

    /// Whether the bytes are the packed form of a set.
    pub fn is_packed(alloc: Global, bytes: &[u8]) -> Result<bool, Memory>
        ensures { IfOk result (TellsPacked (λ set. IsBodyOf set bytes.now)) }
    {
        match SemSet::unpack(alloc, bytes) {
            Ok(_) => Ok(true),
            Err(UnpackFault::NotABody) => Ok(false),
            Err(UnpackFault::Memory) => Err(Memory),
        }
    }

    /// The set whose packed form the bytes are. NotABody: they are the packed form of no set. Memory: an allocation was
    /// refused.
    pub fn unpack(alloc: Global, bytes: &[u8]) -> Result<SemSet, UnpackFault>
        // What is unpacked is packed so.
        ensures found { IfOk result (λ set. IsBodyOf set bytes.now) }
        // What is packed so is unpacked, unless memory runs out.
        ensures only { (set : Awaited SemaphoreSet) → IsBodyOf set bytes.now → IfOk result (λ got. got ≡ set) }
        ensures refused { result ≡ Err NotABody → (set : Awaited SemaphoreSet) → IsBodyOf set bytes.now → ⊥ }
    {
        match parts_of(alloc, bytes) {
            Ok((row, waiters)) => {
                let waiters = linked(alloc, waiters)?;
                Ok(SemSet {
                    row,
                    waiters,
                    room: None,
                })
            }
            Err(fault) => Err(fault),
        }
    }
}
