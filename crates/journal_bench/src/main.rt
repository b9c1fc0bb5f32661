//! Times appends to one journal. The words are the number of threads, each with a seat of its own, and how many entries
//! each appends, one at a time. It prints the seconds that they took, and how many entries were appended and refused.
#![tactic(auto)]

ghost use Rattle.std.specs.Prelude.{◌≡◌, ◌≤◌};
ghost use Rattle.journal_core.specs.Seated.{AreNumbered};

use journal_core::{JSeat, JournalLock};
use pico_base::{Call, Entries, Entry, Memory, Node, Outcome, Pid, Reply};
use std::alloc::Global;
use std::sync::Wait;
use std::sync::atomic::{AtomicU64, Ordering};
use std::thread::Threads;
use std::time::Instant;
use std::{env, io, thread};

// One entry, as short as they come.
fn entry_of(alloc: Global) -> Result<Entries, Memory> {
    let mut entries = Entries::new(alloc);
    entries.push(Entry {
        pid: Pid(1),
        call: Call::GetPid,
        outcome: Outcome::reply(alloc, Reply::Num(1)),
        by: Node(1),
    })?;
    Ok(entries)
}

// How many entries were appended, and how many weren't for want of memory.
#[derive(Drop)]
struct Counts {
    appended: AtomicU64,
    refused: AtomicU64,
}

impl Counts {
    fn note(&self, is_appended: bool) {
        let count = if is_appended {
            &self.appended
        } else {
            &self.refused
        };
        count.fetch_add(1, Ordering::SeqCst);
    }
}

// Appends an entry. False: memory was refused.
fn append_one<R: Wait>(rt: &R, alloc: Global, lock: &JournalLock, seat: &mut JSeat) -> bool
    requires { seat.old.lock ≡ lock.now.id }
    ensures { (seat.new.lock ≡ seat.old.lock) × (seat.new.number ≡ seat.old.number) }
{
    match entry_of(alloc) {
        Ok(entries) => lock.append(rt, seat, 0, entries).is_ok(),
        Err(_) => false,
    }
}

// Appends so many entries, as far as memory goes.
fn append_many<R: Wait>(
    rt: &R,
    alloc: Global,
    lock: &JournalLock,
    seat: &mut JSeat,
    times: u32,
    counts: &Counts,
)
    requires { seat.old.lock ≡ lock.now.id }
    ensures { (seat.new.lock ≡ seat.old.lock) × (seat.new.number ≡ seat.old.number) }
{
    for _ in 0..times {
        counts.note(append_one(rt, alloc, lock, seat));
    }
}

// The number that a word is.
fn number_of(word: Option<String>) -> Option<u32> {
    word?.parse::<u32>().ok()
}

// Appends by so many threads, each with the seat at its place.
fn append_by_all<R: Threads + Wait + Sync>(
    rt: &R,
    alloc: Global,
    lock: &JournalLock,
    seats: &mut Vec<JSeat>,
    threads: usize,
    times: u32,
    counts: &Counts,
)
    requires threads { 1 ≤ threads }
    requires seats { AreNumbered lock.now.id 1 seats.old.items }
{
    thread::for_each_mut(
        rt,
        seats.as_mut_slice(),
        threads,
        &|_, seat: &mut JSeat|
            requires { seat.now.lock ≡ lock.now.id }
        { append_many(rt, alloc, lock, seat, times, counts) },
    );
}

/// Without two numbers among its words it does nothing.
fn main(rt: HostRuntime) -> io::Result<()> {
    let mut words = env::args(&rt)?.skip(1);
    let (Some(threads), Some(times)) = (number_of(words.next()), number_of(words.next())) else {
        return Ok(());
    };
    if threads == 0 {
        return Ok(());
    }
    let Ok((lock, seats)) = JournalLock::new(rt.alloc(), threads) else {
        return Ok(());
    };
    let mut seats = seats.into_vec();
    let counts = Counts {
        appended: AtomicU64::new(0),
        refused: AtomicU64::new(0),
    };
    let start = Instant::now(&rt)?;
    append_by_all(
        &rt,
        rt.alloc(),
        &lock,
        &mut seats,
        threads as usize,
        times,
        &counts,
    );
    let took = start.elapsed(&rt)?;
    println!(rt; "{}.{:09}", took.as_secs(), took.subsec_nanos())?;
    let (appended, refused) = (
        counts.appended.load(Ordering::SeqCst),
        counts.refused.load(Ordering::SeqCst),
    );
    println!(rt; "appended {appended} refused {refused}")
}
