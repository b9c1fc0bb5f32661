//! The outside: what a run reads its words from, what it writes its text to, and what may hold a
//! node's thread. Nothing above this crate reads or writes in another way.
#![tactic(auto)]

mod gate;
mod memory;
mod outside;
mod standard;
mod stops;
mod sure;
mod whole;

pub use gate::{Gate, OpenGate};
pub use memory::{CallList, MemSink, MemSource};
pub use outside::{Failed, Sink, Source};
pub use standard::{StdSink, StdSource};
pub use stops::{ReadStop, WriteStop};
pub use sure::{SureSink, SureSource};
pub use whole::{read_all, write_all};
