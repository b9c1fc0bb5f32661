//! A source and a sink in memory, which fail at the calls that they are told.
ghost use Rattle.std.specs.Prelude.{◌≡◌, ◌-◌, ◌⊎◌, ◌<◌, ◌≤◌, ◌↔◌, [], ◌++◌, length, Some, take, drop, min, max, Contains, IsErr, IfOk, OnOk, OnErr};
ghost use Rattle.host_iface.specs.Faults.{next_count, HasRisen};

use crate::{Failed, Sink, Source};
use pico_base::{Bytes, Memory, Sequence};
use std::alloc::Global;
use std::marker::Model;

/// The calls of an object that fail, counted from 1.
pub type CallList = Sequence<u64>;

/// A source over bytes in memory. It tells what is left, and fails at the calls on its list.
#[derive(Debug, Drop)]
pub struct MemSource {
    bytes: Bytes,
    start: usize,
    fail_at: CallList,
    calls: u64,
    faults: u64,
}

impl Model for MemSource {
    ghost use Rattle.std.specs.Prelude.{◌≤◌, length, drop};
    ghost use Rattle.host_iface.specs.MemSource.{Reading};

    ghost Value = { Reading };

    ghost view = { λ s. record {
      left = drop s.start s.bytes;
      fail_at = s.fail_at;
      calls = s.calls;
      faults =
          s.faults;
    } };

    ghost invariant = { λ s. s.start ≤ length s.bytes };
}

impl MemSource {
    /// A source of these bytes. Its k-th read fails where k is in the list.
    pub fn new(bytes: Bytes, fail_at: CallList) -> Self
        ensures { result ≡ record { left = bytes; fail_at = fail_at; calls = 0; faults = 0 } }
    {
        MemSource {
            bytes,
            start: 0,
            fail_at,
            calls: 0,
            faults: 0,
        }
    }
}

impl Source for MemSource {
    ghost left = { λ s. Some s.left };

    ghost faults = { λ s. s.faults };

    fn read(&mut self, into: &mut [u8]) -> Result<usize, Failed>
        ensures fails { IsErr result ↔ Contains self.old.fail_at (next_count self.old.calls) }
        ensures count { IfOk result (λ count. count ≡ min (length into.new) (length self.old.left)) }
        ensures bytes { IfOk result (λ count. take count into.new ≡ take count self.old.left) }
        ensures ok { IfOk result
            (λ count. self.new
            ≡ record self.old { left = drop count self.old.left; calls = next_count self.old.calls }) }
        ensures err { OnErr result
            (self.new ≡ record self.old { calls = next_count self.old.calls; faults = next_count self.old.faults }) }
        ensures same { OnOk result (self.new.faults ≡ self.old.faults) }
        ensures failed { OnErr result (HasRisen self.old.faults self.new.faults) }
        ensures faults { self.old.faults ≤ self.new.faults }
    {
        self.calls = self.calls.saturating_add(1);
        if self.fail_at.as_slice().contains(&self.calls) {
            self.faults = self.faults.saturating_add(1);
            return Err(Failed);
        }
        let left = &self.bytes.as_slice()[self.start..];
        let count = into.len().min(left.len());
        into[..count].copy_from_slice(&left[..count]);
        self.start += count;
        Ok(count)
    }
}

/// A sink that keeps what it takes, in room that was made before. It tells what it took, and fails at
/// the calls on its list, and at a piece that finds no room.
#[derive(Debug, Drop)]
pub struct MemSink {
    kept: Vec<u8>,
    room: usize,
    fail_at: CallList,
    calls: u64,
    faults: u64,
}

impl Model for MemSink {
    ghost use Rattle.std.specs.Prelude.{◌≤◌, ◌+◌, length, vec_len, vec_capacity};
    ghost use Rattle.host_iface.specs.MemSink.{Writing};

    ghost Value = { Writing };

    ghost view = { λ s. record {
      taken = s.kept.items;
      room = s.room;
      fail_at = s.fail_at;
      calls = s.calls;
      faults =
          s.faults;
    } };

    ghost invariant = { λ s. vec_len s.kept + s.room ≤ vec_capacity s.kept };
}

impl MemSink {
    /// A sink with no room yet. Its k-th write fails where k is in the list.
    pub fn new(alloc: Global, fail_at: CallList) -> Self
        ensures { result ≡ record { taken = []; room = 0; fail_at = fail_at; calls = 0; faults = 0 } }
    {
        MemSink {
            kept: Vec::new(alloc),
            room: 0,
            fail_at,
            calls: 0,
            faults: 0,
        }
    }

    /// Makes room for `n` bytes more, where there is less. A refusal changes nothing.
    pub fn reserve(&mut self, n: usize) -> Result<(), Memory>
        ensures ok { OnOk result (self.new ≡ record self.old { room = max self.old.room n }) }
        ensures err { OnErr result (self.new ≡ self.old) }
    {
        self.kept.reserve(n)?;
        self.room = self.room.max(n);
        Ok(())
    }

    /// All bytes taken so far.
    pub fn taken(&self) -> &[u8]
        ensures { result.now ≡ self.now.taken }
    {
        self.kept.as_slice()
    }
}

impl Sink for MemSink {
    ghost taken = { λ s. Some s.taken };

    ghost faults = { λ s. s.faults };

    fn write(&mut self, piece: &[u8]) -> Result<usize, Failed>
        ensures fails { IsErr result ↔ (Contains self.old.fail_at (next_count self.old.calls)
            ⊎ ((self.old.room ≡ 0) × (0 < length piece.now))) }
        ensures count { IfOk result (λ count. count ≡ min self.old.room (length piece.now)) }
        ensures ok { IfOk result
            (λ count. self.new ≡ record self.old {
              taken = self.old.taken ++ take count piece.now;
              room =
                  self.old.room - count;
              calls = next_count self.old.calls;
            }) }
        ensures err { OnErr result
            (self.new ≡ record self.old { calls = next_count self.old.calls; faults = next_count self.old.faults }) }
        ensures some { IfOk result (λ count. 0 < length piece.now → 0 < count) }
        ensures same { OnOk result (self.new.faults ≡ self.old.faults) }
        ensures failed { OnErr result (HasRisen self.old.faults self.new.faults) }
        ensures faults { self.old.faults ≤ self.new.faults }
    {
        self.calls = self.calls.saturating_add(1);
        let count = self.room.min(piece.len());
        let no_room = count == 0 && !piece.is_empty();
        if no_room || self.fail_at.as_slice().contains(&self.calls) {
            self.faults = self.faults.saturating_add(1);
            return Err(Failed);
        }
        if self.kept.extend_from_slice(&piece[..count]).is_err() {
            unreachable!()
        }
        self.room -= count;
        Ok(count)
    }
}
