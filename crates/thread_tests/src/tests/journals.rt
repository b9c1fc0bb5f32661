//! Appends from one thread and from two, at the last stamp, and without memory.
ghost use Rattle.std.specs.Prelude.{◌≡◌, [], ◌∷◌, IfOk};

use journal_core::{AppendFault, JSeat, Journal, JournalLock, Seats};
use pico_base::{Call, Entries, Entry, Memory, Node, Outcome, Pid, Reply};
use std::alloc::Global;
use std::sync::Wait;
use std::test::Fail;
use std::thread::{Threads, join};

// A lock with two seats.
fn two_seats(alloc: Global) -> Result<(JournalLock, JSeat, JSeat), Memory>
    ensures lock { IfOk result (λ r. r.0.seats ≡ 2) }
    ensures first { IfOk result (λ r. (r.1.lock ≡ r.0.id) × (r.1.number ≡ 1)) }
    ensures second { IfOk result (λ r. (r.2.lock ≡ r.0.id) × (r.2.number ≡ 2)) }
{
    let (lock, seats) = JournalLock::new(alloc, 2)?;
    let mut seats = seats.into_vec().into_iter();
    let first = seats.next().unwrap();
    let second = seats.next().unwrap();
    Ok((lock, first, second))
}

fn seats_of(alloc: Global, first: JSeat, second: JSeat) -> Result<Seats, Memory>
    ensures { IfOk result (λ seats. seats ≡ first ∷ second ∷ []) }
{
    let mut seats = Seats::new(alloc);
    seats.push(first)?;
    seats.push(second)?;
    Ok(seats)
}

// One entry, which this number tells from others.
fn entry_of(alloc: Global, number: u32) -> Result<Entries, Memory> {
    let mut entries = Entries::new(alloc);
    entries.push(Entry {
        pid: Pid(number),
        call: Call::GetPid,
        outcome: Outcome::reply(alloc, Reply::Num(number)),
        by: Node(1),
    })?;
    Ok(entries)
}

// Appends the entries 0, 1, .. one by one, and gives the seat back with the count of those that were appended.
fn append_all<R: Wait>(
    rt: &R,
    alloc: Global,
    lock: &JournalLock,
    mut seat: JSeat,
    times: u32,
) -> (JSeat, u32)
    requires { seat.lock ≡ lock.now.id }
    ensures { (result.0.lock ≡ seat.lock) × (result.0.number ≡ seat.number) }
{
    let mut appended = 0u32;
    for number in 0..times {
        if let Ok(entries) = entry_of(alloc, number) {
            if lock.append(rt, &mut seat, 0, entries).is_ok() {
                appended = appended.wrapping_add(1);
            }
        }
    }
    (seat, appended)
}

// How many entries the seat has, where they stand in the order in which it appended them.
fn count_in_order(journal: &Journal, seat: u32) -> Option<u32> {
    let mut count = 0u32;
    let mut next = 0u32;
    for line in journal.as_slice() {
        if line.seat == seat {
            let Pid(number) = line.entry.pid;
            if number < next {
                return None;
            }
            next = number.checked_add(1)?;
            count = count.checked_add(1)?;
        }
    }
    Some(count)
}

fn stamps_rise(journal: &Journal) -> bool {
    let mut last = 0;
    for line in journal.as_slice() {
        if line.stamp <= last {
            return false;
        }
        last = line.stamp;
    }
    true
}

const LAST: u64 = (1 << 63) - 1;

// Whether an append has the last stamp, and the next one of its seat is refused.
fn ends_at_the_last<R: Wait>(
    rt: &R,
    alloc: Global,
    lock: &JournalLock,
    seat: &mut JSeat,
) -> Result<bool, Memory>
    requires { seat.old.lock ≡ lock.now.id }
    ensures { (seat.new.lock ≡ seat.old.lock) × (seat.new.number ≡ seat.old.number) }
{
    let stamp = lock.append(rt, seat, LAST - 1, entry_of(alloc, 0)?);
    let refused = lock.append(rt, seat, 0, entry_of(alloc, 1)?);
    Ok(stamp == Ok(LAST) && refused == Err(AppendFault::StampEnd { last: LAST }))
}

#[test]
fn the_last_stamp_ends_them(rt: HostRuntime) -> Result<(), Fail> {
    let (lock, mut first, second) = two_seats(rt.alloc())?;
    assert!(rt; ends_at_the_last(&rt, rt.alloc(), &lock, &mut first)?);
    let journal = lock.close(seats_of(rt.alloc(), first, second)?);
    assert!(rt; journal.len() == 1);
    Ok(())
}

// The journal after both seats appended from threads of their own, and how many entries each did append.
fn append_from_two<R: Threads + Wait + Sync>(
    rt: &R,
    alloc: Global,
) -> Result<(Journal, u32, u32), Memory> {
    let (lock, first, second) = two_seats(alloc)?;
    let lent = &lock;
    let (first, second) = join(
        rt,
        || -> (JSeat, u32)
            requires { first.lock ≡ lent.now.id }
            ensures { (result.0.lock ≡ first.lock) × (result.0.number ≡ first.number) }
        { append_all(rt, alloc, lent, first, 10_000) },
        || -> (JSeat, u32)
            requires { second.lock ≡ lent.now.id }
            ensures { (result.0.lock ≡ second.lock) × (result.0.number ≡ second.number) }
        { append_all(rt, alloc, lent, second, 10_000) },
    );
    let journal = lock.close(seats_of(alloc, first.0, second.0)?);
    Ok((journal, first.1, second.1))
}

// With ample memory all is appended. Where an allocation is refused, the seat passes its turn on.
#[test]
fn two_threads_append(rt: HostRuntime) -> Result<(), Fail> {
    let (journal, first, second) = append_from_two(&rt, rt.alloc())?;
    assert!(rt; count_in_order(&journal, 1) == Some(first));
    assert!(rt; count_in_order(&journal, 2) == Some(second));
    assert!(rt; stamps_rise(&journal) && first >= 9_999 && second >= 9_999);
    Ok(())
}
