//! Callers that wait at a queue or a set: what is alike of both.
//!
//! In a body they are a count in one byte, at most 32, and of each the node of its caller (1 byte), its ticket and its
//! process number (4 bytes each), and its call, as frames spell a call that was asked for. No two are of one process.
//! `specs/Waiters.antt` says how they are spelled and read. `proofs/WaiterLaws.antt` has the law: what was read is
//! what was written, and what was written is read again, where that holds of the calls that may wait.
//!
//! `specs/Settling.antt` says whom a loop wakes that settles, and `proofs/SettleLemmas.antt` that it is the
//! definition's.
#![tactic(auto)]

mod calls;
mod reading;
mod skipping;
mod waiters;
mod writing;

pub use calls::WaitingCalls;
pub use reading::{head_of, read_waiters};
pub use skipping::skip_waiters;
pub use waiters::{take_waiter, waits_among, wakes_at_removal, woken_with};
pub use writing::put_waiters;

/// So many callers wait at one queue or set at most.
pub const MAX_WAITERS: usize = 32;
