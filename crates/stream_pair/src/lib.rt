//! One-way streams of bytes between two threads. What is sent goes in stamped pieces through an unbounded queue, and is
//! taken in the order in which it was sent.
#![tactic(auto)]

mod bell;
mod company;
mod inlet;
mod laws;
mod order;
mod outlet;
mod piece;
mod receipt;
mod rest;
mod stream;

pub use bell::Bell;
pub use company::Company;
pub use inlet::In;
pub use laws::pieces_are_the_bytes;
pub use outlet::Out;
pub use piece::Piece;
pub use receipt::Receipt;
pub use rest::{Rest, settle};
pub use stream::{pair, pair_to};
