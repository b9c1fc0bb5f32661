//! A source over a reader of std, and a sink over a writer.
ghost use Rattle.std.specs.Prelude.{◌≡◌, ◌<◌, ◌≤◌, None, length, IfOk, OnOk, OnErr};
ghost use Rattle.std.specs.Io.KnownBytes.{ReadConsumes, WriteAppends};
ghost use Rattle.host_iface.specs.Faults.{next_count, HasRisen};

use crate::{Failed, Sink, Source};
use std::io::{Read, Write};

/// A source over a reader of std, as standard input. What a reader gives is the system's word, so the
/// bytes aren't told. Each error counts a fault.
#[derive(Debug, Drop)]
pub struct StdSource<R> {
    reader: R,
    faults: u64,
}

impl<R: Read> StdSource<R> {
    ghost use Rattle.host_iface.specs.Standard.{failed_reads, reader_of};

    /// A source that reads from this reader.
    pub fn new(reader: R) -> Self
        ensures faults { failed_reads result ≡ 0 }
        ensures reader { reader_of result ≡ reader }
    {
        StdSource { reader, faults: 0 }
    }
}

impl<R: Read> Source for StdSource<R> {
    ghost use Rattle.host_iface.specs.Standard.{failed_reads, reader_of};

    ghost left = { λ _. None };

    ghost faults = { failed_reads };

    fn read(&mut self, into: &mut [u8]) -> Result<usize, Failed>
        ensures within { IfOk result (λ count. count ≤ length into.new) }

        // The bytes are those of the reader, where that is one whose bytes are known.
        ensures bytes { ReadConsumes (R.remaining (reader_of self.old))
            (R.remaining (reader_of self.new)) result into.new }

        ensures same { OnOk result (failed_reads self.new ≡ failed_reads self.old) }
        ensures one_more { OnErr result (failed_reads self.new ≡ next_count (failed_reads self.old)) }
        ensures failed { OnErr result (HasRisen (failed_reads self.old) (failed_reads self.new)) }
        ensures faults { failed_reads self.old ≤ failed_reads self.new }
    {
        match self.reader.read(into) {
            Ok(count) => Ok(count),
            Err(_) => {
                self.faults = self.faults.saturating_add(1);
                Err(Failed)
            }
        }
    }
}

/// A sink over a writer of std, as standard output. It doesn't tell what was taken. Each error counts
/// a fault, and so does a writer that takes nothing of a piece.
#[derive(Debug, Drop)]
pub struct StdSink<W> {
    writer: W,
    faults: u64,
}

impl<W: Write> StdSink<W> {
    ghost use Rattle.host_iface.specs.Standard.{failed_writes, writer_of};

    /// A sink that writes to this writer.
    pub fn new(writer: W) -> Self
        ensures faults { failed_writes result ≡ 0 }
        ensures writer { writer_of result ≡ writer }
    {
        StdSink { writer, faults: 0 }
    }
}

impl<W: Write> Sink for StdSink<W> {
    ghost use Rattle.host_iface.specs.Standard.{failed_writes, writer_of};

    ghost taken = { λ _. None };

    ghost faults = { failed_writes };

    fn write(&mut self, piece: &[u8]) -> Result<usize, Failed>
        ensures within { IfOk result (λ count. count ≤ length piece.now) }
        ensures some { IfOk result (λ count. 0 < length piece.now → 0 < count) }

        // The bytes go to the writer, where that is one whose bytes are known.
        ensures bytes { WriteAppends (W.contents (writer_of self.old))
            (W.contents (writer_of self.new)) result piece.now }

        ensures same { OnOk result (failed_writes self.new ≡ failed_writes self.old) }
        ensures one_more { OnErr result (failed_writes self.new ≡ next_count (failed_writes self.old)) }
        ensures failed { OnErr result (HasRisen (failed_writes self.old) (failed_writes self.new)) }
        ensures faults { failed_writes self.old ≤ failed_writes self.new }
    {
        match self.writer.write(piece) {
            Ok(count) if count > 0 || piece.is_empty() => Ok(count),
            _ => {
                self.faults = self.faults.saturating_add(1);
                Err(Failed)
            }
        }
    }
}
