//! Why nothing was appended.
use pico_base::Memory;
use std::alloc::AllocError;
use thiserror::Error;

/// Why nothing was appended. The journal is as it was found, and the next seat is served.
#[derive(Clone, Copy, Debug, PartialEq, Eq, Error)]
pub enum AppendFault {
    /// The room for the entries was refused.
    #[error("out of memory")]
    Memory,
    /// No stamp is left: `last`, the larger of the floor and the journal's last stamp, is at least 2^63 - 1.
    #[error("no stamp after {last}")]
    StampEnd { last: u64 },
}
