//! Receivers that sleep while nothing is on its way to them.
use crate::bell::Bell;
use crossbeam_utils::CachePadded;
use pico_base::Memory;
use std::alloc::Global;
use std::sync::Arc;
use std::sync::atomic::{AtomicU64, Ordering};

/// How many receivers are awake, and whether the last of them to be so has called the others (1) or not (0).
#[derive(Drop)]
struct Members {
    awake: AtomicU64,
    called: AtomicU64,
}

/// The receivers of a run, each in a thread of its own. One that finds nothing may sleep on its bell, and who sends to
/// it wakes it. Where the last one that is awake falls asleep or leaves, nothing is on its way to anyone: then all are
/// called, and nobody sleeps until somebody gets on again. Nothing that contracts say rests on it, and no sleep is
/// without an end, so that a mistake here could cost time alone.
#[derive(Drop)]
pub struct Company {
    members: Arc<CachePadded<Members>, Global>,
}

impl Company {
    /// A company of no receivers yet.
    pub fn new(alloc: Global) -> Result<Company, Memory> {
        let members = Members {
            awake: AtomicU64::new(0),
            called: AtomicU64::new(0),
        };
        let members = Arc::new(alloc, CachePadded::new(members))?;
        Ok(Company { members })
    }

    /// The same company, for one more bell.
    pub(crate) fn share(&self) -> Result<Company, Memory> {
        let members = self.members.clone()?;
        Ok(Company { members })
    }

    /// One more is awake: that of a new bell, or a sleeper, of whom who wakes it says so before it knows itself.
    #[inline]
    pub(crate) fn enter(&self) {
        self.members.awake.fetch_add(1, Ordering::SeqCst);
    }

    /// One is awake no more. Whether it was the last.
    #[inline]
    pub(crate) fn is_left_by_all(&self) -> bool {
        self.members.awake.fetch_sub(1, Ordering::SeqCst) == 1
    }

    /// A thread ends. The last one that was awake calls the others.
    pub fn leave(&self, bells: &[Bell]) {
        if self.is_left_by_all() {
            self.call(bells);
        }
    }

    /// Somebody got on: where all had been called, they may sleep again.
    #[inline]
    pub fn goes_on(&self) {
        if self.is_called() {
            self.members.called.store(0, Ordering::SeqCst);
        }
    }

    /// Whether all were called.
    #[inline]
    pub fn is_called(&self) -> bool {
        self.members.called.load(Ordering::SeqCst) == 1
    }

    /// Calls all: whoever is about to sleep sees it, and who sleeps is woken.
    pub(crate) fn call(&self, bells: &[Bell]) {
        self.members.called.store(1, Ordering::SeqCst);
        for bell in bells {
            bell.wake();
        }
    }
}
