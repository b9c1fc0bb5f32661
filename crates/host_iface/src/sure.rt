//! A source and a sink that never fail.
ghost use Rattle.std.specs.Prelude.{◌≡◌, ◌↔◌, ℕ, List, None, Some, Ok, length, take, drop, min, IfOk};

use crate::{Failed, Sink, Source};
use pico_base::Bytes;
use std::marker::Model;

/// A source over bytes in memory that never fails. It tells what is left.
#[derive(Debug, Drop)]
pub struct SureSource {
    bytes: Bytes,
    start: usize,
}

impl Model for SureSource {
    ghost use Rattle.std.specs.Prelude.{ℕ, List, ◌≤◌, length, drop};
    ghost use Rattle.std.specs.Coded.{coded_list, coded_ℕ};

    ghost Value = { List ℕ };

    ghost coded = { coded_list coded_ℕ };

    ghost view = { λ s. drop s.start s.bytes };

    ghost invariant = { λ s. s.start ≤ length s.bytes };
}

impl SureSource {
    /// A source of these bytes.
    pub fn new(bytes: Bytes) -> Self
        ensures { result ≡ bytes }
    {
        SureSource { bytes, start: 0 }
    }
}

impl Source for SureSource {
    ghost left = { λ s. Some s };

    ghost faults = { λ _. 0 };

    fn read(&mut self, into: &mut [u8]) -> Result<usize, Failed>
        ensures count { result ≡ Ok (min (length into.new) (length self.old)) }
        ensures bytes { IfOk result (λ count. take count into.new ≡ take count self.old) }
        ensures rest { IfOk result (λ count. self.new ≡ drop count self.old) }
    {
        let left = &self.bytes.as_slice()[self.start..];
        let count = into.len().min(left.len());
        into[..count].copy_from_slice(&left[..count]);
        self.start += count;
        Ok(count)
    }
}

/// A sink that takes every piece whole and keeps none of it, so that it doesn't tell what it took.
/// It never fails.
#[derive(Clone, Copy, Debug, PartialEq, Eq)]
pub struct SureSink;

impl SureSink {
    /// The sink: there is only one such value.
    pub fn new() -> Self {
        SureSink
    }
}

impl Sink for SureSink {
    ghost taken = { λ _. None };

    ghost faults = { λ _. 0 };

    fn write(&mut self, piece: &[u8]) -> Result<usize, Failed>
        ensures { result ≡ Ok (length piece.now) }
    {
        Ok(piece.len())
    }
}
