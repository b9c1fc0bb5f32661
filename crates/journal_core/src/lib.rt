//! The journal's lock. Many seats, each in a thread of its own, append their entries to one journal, in one order and
//! under rising stamps. A seat draws a ticket, waits until it is served, takes the journal out of its slot, adds its
//! entries behind what it found, and puts the journal back as it lets the next one be served.
#![tactic(auto)]

mod fault;
mod lock;
mod room;
mod rule;
mod seat;
mod stamped;
mod view;

pub use fault::AppendFault;
pub use lock::JournalLock;
pub use seat::{JSeat, Seats};
pub use stamped::{Journal, Stamped};
