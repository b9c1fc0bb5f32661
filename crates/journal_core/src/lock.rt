//! The lock: its seats are made, they append, and it is closed.
ghost use Rattle.std.specs.Prelude.{◌≡◌, ◌≤◌, [], length, IfOk, MatchResult};
ghost use Rattle.journal_core.specs.Rule.{first_view};
ghost use Rattle.journal_core.specs.Seated.{Appends, AreAll, AreNew, AreNumbered, Closes, Refuses};
ghost use Rattle.journal_core.specs.Steps.{done};
ghost use Rattle.journal_core.specs.Turns.{CanPut, HasGathered, HasTaken, IsBoard, IsFree};

use crate::room::add;
use crate::rule::{Another, Draw, Gather, LockRule, Look, PutBack};
use crate::view::View;
use crate::{AppendFault, JSeat, Journal, Seats};
use atomic_table::{Seat, Shared, Table};
use pico_base::{Entries, Memory};
use std::alloc::Global;
use std::hint::spin_loop;
use std::marker::Model;
use std::sync::Wait;
use std::sync::atomic::{AtomicU64, Ordering};
use std::thread;

/// The word of the next ticket.
const TICKET: usize = 0;

/// The word of the ticket that is served.
const SERVED: usize = 1;

/// The slot of the journal.
const SLOT: usize = 0;

/// How often a seat looks whether all tickets are served, before it draws one all the same.
const CALM: u32 = 512;

/// How often a waiting seat looks before it sleeps until the next ticket is served.
const LOOKS: u32 = 512;

/// After so many looks a seat lets other threads on.
const SOME: u32 = 16;

/// How long a seat waits between two looks: each makes who holds the journal wait.
const PAUSE: u32 = 16;

/// The table, as threads see it.
type Board = Shared<Journal, View, u32, LockRule>;

/// A lock around one journal. Contracts see which lock it is, and how many seats it has.
#[derive(Drop)]
pub struct JournalLock {
    table: Table<Journal, View, u32, LockRule, Global>,
    // how many seats sleep, or are about to
    sleepers: AtomicU64,
    alloc: Global,
}

impl Model for JournalLock {
    ghost use Rattle.journal_core.specs.Seated.{Lock};

    ghost Value = { Lock };

    ghost use Rattle.journal_core.specs.InsideLock.{lock_of, IsLock};

    ghost view = { lock_of };

    ghost invariant = { IsLock };
}

impl JournalLock {
    /// A lock around an empty journal, and its seats, which are numbered from 1.
    pub fn new(alloc: Global, seats: u32) -> Result<(JournalLock, Seats), Memory>
        requires { 1 ≤ seats }
        ensures count { IfOk result (λ made. made.0.seats ≡ seats) }
        ensures all { IfOk result (λ made. AreAll made.0 made.1) }
        ensures new { IfOk result (λ made. AreNew made.1) }
    {
        let mut slots = Vec::new(alloc);
        slots.push(Journal::new(alloc))?;
        let Ok((table, first)) = Table::new(alloc, &[0, 0], slots, &seats) else {
            return Err(Memory);
        };
        let seats = deal(alloc, &table.shared, first, seats)?;
        let lock = JournalLock {
            table,
            sleepers: AtomicU64::new(0),
            alloc,
        };
        Ok((lock, seats))
    }

    /// Waits for the seat's turn, and appends the entries behind the journal that it finds, under a stamp that is one
    /// more than the larger of `floor` and the last stamp found. A fault leaves the journal as it was found:
    /// `StampEnd` comes exactly where that larger number is at least 2^63 - 1, `Memory` where the room for the
    /// entries is refused.
    pub fn append<R: Wait>(
        &self,
        rt: &R,
        seat: &mut JSeat,
        floor: u64,
        entries: Entries,
    ) -> Result<u64, AppendFault>
        requires { seat.old.lock ≡ self.now.id }
        ensures seat { (seat.new.lock ≡ seat.old.lock) × (seat.new.number ≡ seat.old.number) }
        ensures answer { MatchResult result
            (λ stamp. Appends floor entries seat.old seat.new stamp)
            (λ fault. Refuses floor seat.old seat.new fault) }
    {
        let board = &self.table.shared;
        let mut journal = take(rt, board, &self.sleepers, self.alloc, &mut seat.seat).into_vec();
        let answer = add(&mut journal, floor, seat.number, entries);
        put_back(
            board,
            &self.sleepers,
            &mut seat.seat,
            Journal::from_vec(journal),
        );
        answer
    }

    /// The journal, once all seats are back: of each seat it has just the entries that the seat appended, in order.
    pub fn close(self, seats: Seats) -> Journal
        requires { AreAll self seats }
        ensures { Closes self seats result }
    {
        let JournalLock { table, .. } = self;
        let first = gather(&table.shared, seats);
        let mut closed = table.close_with(first);
        let journal = closed.take(SLOT);
        closed.free();
        journal
    }
}

/// The first seat, and one for each number from 2 to `count`.
fn deal(
    alloc: Global,
    board: &Board,
    mut first: Seat<Journal, View>,
    count: u32,
) -> Result<Seats, Memory>
    requires board { IsBoard board.now.table_id × (board.now.key ≡ count) × (1 ≤ count) }
    requires first { (first.table_id ≡ board.now.table_id) × (first.me ≡ (first_view, [])) }
    ensures all { IfOk result (λ seats. AreNumbered board.now.table_id 1 seats × (length seats ≡ count)) }
    ensures new { IfOk result (λ seats. AreNew seats) }
{
    let mut seats = Vec::with_capacity(alloc, count as usize)?;
    for given in 1..count {
        let seat = board.split_seat::<Another>(&mut first);
        seats.push(JSeat {
            number: given + 1,
            seat,
        })?;
    }
    seats.insert(
        0,
        JSeat {
            number: 1,
            seat: first,
        },
    )?;
    Ok(Seats::from_vec(seats))
}

/// Draws a ticket, waits until it is served, and takes the journal out of its slot.
fn take<R: Wait>(
    rt: &R,
    board: &Board,
    sleepers: &AtomicU64,
    alloc: Global,
    seat: &mut Seat<Journal, View>,
) -> Journal
    requires board { IsBoard board.now.table_id × (seat.old.table_id ≡ board.now.table_id) }
    requires free { IsFree seat.old.me }
    ensures same { (seat.new.table_id ≡ seat.old.table_id) × (seat.new.id ≡ seat.old.id) }
    ensures taken { HasTaken seat.old.me.0 result seat.new.me }
{
    wait_for_calm(board);
    let ticket = board.fetch_add::<Draw>(seat, TICKET, 1);
    let mut looks = 0u32;
    for _ in rt.forever() {
        let served = board.load::<Look>(seat, SERVED);
        if served == ticket {
            return board.exchange(seat, SLOT, Journal::new(alloc));
        }
        looks = looks.wrapping_add(1);
        if looks % LOOKS == 0 {
            sleepers.fetch_add(1, Ordering::SeqCst);
            board.park(rt, SERVED, (served % (1 << 32)) as u32);
            sleepers.fetch_sub(1, Ordering::SeqCst);
        } else {
            pause(looks);
        }
    }
    unreachable!()
}

/// Waits for a while until all tickets that are out were served: a thread that is at work goes on then without waiting
/// for those that aren't.
fn wait_for_calm(board: &Board)
    requires { IsBoard board.now.table_id }
{
    for looks in 1..CALM {
        if board.peek(TICKET) == board.peek(SERVED) {
            return;
        }
        pause(looks);
    }
}

/// The time between two looks.
fn pause(looks: u32) {
    if looks % SOME == 0 {
        thread::yield_now();
        return;
    }
    for _ in 0..PAUSE {
        spin_loop();
    }
}

/// Puts the journal into its slot, and lets the next ticket be served.
fn put_back(board: &Board, sleepers: &AtomicU64, seat: &mut Seat<Journal, View>, journal: Journal)
    requires board { IsBoard board.now.table_id × (seat.old.table_id ≡ board.now.table_id) }
    requires grown { CanPut seat.old.me journal }
    ensures same { (seat.new.table_id ≡ seat.old.table_id) × (seat.new.id ≡ seat.old.id) }
    ensures done { seat.new.me ≡ (done seat.old.me.0 journal, []) }
{
    let _ = board.exchange(seat, SLOT, journal);
    let _ = board.fetch_add::<PutBack>(seat, SERVED, 1);
    wake(board, sleepers);
}

/// Wakes the seats that sleep. A seat counts itself before it sleeps on what it saw served, and here the next one is
/// served before they are counted: so one of the two sees the other.
fn wake(board: &Board, sleepers: &AtomicU64)
    requires { IsBoard board.now.table_id }
{
    if sleepers.load(Ordering::SeqCst) != 0 {
        board.wake_all(SERVED);
    }
}

/// The first seat, with the shares of all others.
fn gather(board: &Board, seats: Seats) -> Seat<Journal, View>
    requires { AreNumbered board.now.table_id 1 seats × (1 ≤ length seats) × IsBoard board.now.table_id }
    ensures table { result.table_id ≡ board.now.table_id }
    ensures shares { HasGathered result.me.0 seats }
{
    let mut seats = seats.into_vec().into_iter();
    let JSeat {
        number: _,
        seat: mut first,
    } = seats.next().unwrap();
    for next in seats {
        let JSeat { number: _, seat } = next;
        board.join_seat::<Gather>(&mut first, seat);
    }
    first
}
