//! A System V semaphore set at which callers wait: the operations of one call are carried out all at once, or their
//! caller parks until they can be. Whoever can go on after a change is woken, the first who parked first.
#![tactic(auto)]

mod apply;
mod fault;
mod one_by_one;
mod pack;
mod room;
mod row;
mod semaphore;
mod set;
mod settling;
mod trial;
mod unpack;
mod waiters;

pub use apply::{Asker, Came};
pub use fault::NewFault;
pub use set::SemSet;
