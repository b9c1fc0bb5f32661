//! Why a message wasn't sent, or wasn't received.
use pico_base::{Bytes, Errno};
use thiserror::Error;

/// Why a message wasn't sent.
#[derive(Debug, PartialEq, Eq, Drop, Error)]
pub enum SendFault {
    /// An allocation was refused. The text comes back.
    #[error("out of memory")]
    Memory(Bytes),
    /// The call is refused.
    #[error("refused: {0:?}")]
    No(Errno),
}

/// Why a message wasn't received.
#[derive(Debug, PartialEq, Eq, Drop, Error)]
pub enum ReceiveFault {
    /// An allocation was refused.
    #[error("out of memory")]
    Memory,
    /// The call is refused.
    #[error("refused: {0:?}")]
    No(Errno),
}
