//! How a receiver of many streams sees at one look that nothing is on its way to it.
use crate::company::Company;
use crossbeam_utils::CachePadded;
use pico_base::Memory;
use std::alloc::Global;
use std::sync::atomic::{AtomicU64, Ordering};
use std::sync::{Arc, Wait};
use std::time::Duration;

/// Pieces that were sent to the receiver, each counted before it goes into its stream, and pieces that it has taken,
/// each counted once it has come out; whether it sleeps (1) or not (0); and those with whom it wakes and sleeps.
#[derive(Drop)]
struct Counts {
    sent: AtomicU64,
    taken: AtomicU64,
    asleep: AtomicU64,
    company: Company,
}

/// What all streams to one receiver share. It counts the pieces on their way there, so that one look at it stands for a
/// look at each of them; and the receiver sleeps on it.
#[derive(Drop)]
pub struct Bell {
    counts: Arc<CachePadded<Counts>, Global>,
}

impl Bell {
    /// A bell of no streams yet, whose receiver is of this company, and awake.
    pub fn new(alloc: Global, company: &Company) -> Result<Bell, Memory> {
        let counts = Counts {
            sent: AtomicU64::new(0),
            taken: AtomicU64::new(0),
            asleep: AtomicU64::new(0),
            company: company.share()?,
        };
        let counts = Arc::new(alloc, CachePadded::new(counts))?;
        company.enter();
        Ok(Bell { counts })
    }

    /// The same bell, for one more end of a stream.
    pub(crate) fn share(&self) -> Result<Bell, Memory> {
        let counts = self.counts.clone()?;
        Ok(Bell { counts })
    }

    /// A piece is about to go into a stream.
    #[inline]
    pub(crate) fn count_sent(&self) {
        self.counts.sent.fetch_add(1, Ordering::SeqCst);
    }

    /// A piece has come out of a stream.
    #[inline]
    pub(crate) fn count_taken(&self) {
        self.counts.taken.fetch_add(1, Ordering::SeqCst);
    }

    /// True only where every piece whose sending had begun was taken, and so every stream to this receiver was empty,
    /// at one step of this call. No clause says so: nothing is known of counts that other threads raise. It rests on
    /// the order of the steps, and on tests. *sent* is raised before a piece goes in, *taken* after one has come out,
    /// and *taken* is read first: where they are equal, no piece was in between as *sent* was read. A piece that is
    /// refused counts as one on its way for ever: then it is never silent any more, and each stream is looked at by
    /// itself.
    #[inline]
    pub fn is_silent(&self) -> bool {
        let taken = self.counts.taken.load(Ordering::SeqCst);
        let sent = self.counts.sent.load(Ordering::SeqCst);
        taken == sent
    }

    /// Wakes the receiver where it sleeps. It counts as awake at once, so that nobody takes it for asleep before it
    /// runs.
    pub(crate) fn wake(&self) {
        if self.counts.asleep.load(Ordering::SeqCst) == 1 && self.is_counted_again() {
            self.counts.asleep.wake_one();
        }
    }

    /// Counts the receiver as awake. False: somebody else did.
    fn is_counted_again(&self) -> bool {
        self.counts.company.enter();
        let slept = self.counts.asleep.swap(0, Ordering::SeqCst) == 1;
        if !slept {
            self.counts.company.is_left_by_all();
        }
        slept
    }

    /// Sleeps until something is sent to this receiver, until all of its company are called, or until the longest time
    /// is over; not at all where a piece is on its way, or where all were called. `bells` are those of the company.
    /// *asleep* is raised before *sent* is read, and who sends raises *sent* before it reads *asleep*: so one of them
    /// sees the other.
    pub fn sleep<R: Wait>(&self, rt: &R, bells: &[Bell], longest: Duration) {
        self.counts.asleep.store(1, Ordering::SeqCst);
        if self.counts.company.is_left_by_all() {
            self.is_counted_again();
            self.counts.company.call(bells);
            return;
        }
        if !self.counts.company.is_called() && self.is_silent() {
            self.counts.asleep.park_timeout(rt, 1, longest);
        }
        self.is_counted_again();
    }
}
