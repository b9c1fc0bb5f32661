//! What a deed brings beside its name: the body of a process, a queue or a set.
use fork_wait::Family;
use pico_base::Ending;
use signal_state::Signals;
use sysv_msg::HeldQueue;
use sysv_sem::SemSet;

/// The row of a living process: its signals and its children. What it may still do isn't kept in it: that follows from
/// its doom and from its calls.
#[derive(Debug, Drop)]
pub struct Row {
    pub signals: Signals,
    pub family: Family,
}

/// What a deed carries: the state of a process, or a message queue or a semaphore set with those who wait there. A
/// process lives, has ended and isn't waited for yet, or is gone. A queue or a set that was removed is never found
/// again.
#[derive(Drop)]
pub enum Body {
    Living(Row),
    Ended(Ending),
    Gone,
    Queue(HeldQueue),
    Set(SemSet),
    Removed,
}
