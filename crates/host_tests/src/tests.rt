//! Sources and sinks of every kind of answer.
ghost use Rattle.std.specs.Prelude.{◌≤◌, IfOk};

use host_iface::{
    CallList, MemSink, MemSource, ReadStop, StdSink, StdSource, SureSink, SureSource, WriteStop,
    read_all, write_all,
};
use pico_base::Bytes;
use std::alloc::Global;
use std::io;
use std::io::{ErrorKind, Read, Write};
use std::mem::ManuallyDrop;
use std::test::Fail;

const TEXT: &[u8] = b"getpid";

fn fails_at(alloc: Global, calls: &[u64]) -> Result<CallList, Fail> {
    Ok(CallList::from_vec(calls.to_vec(alloc)?))
}

/// A source of the text that fails at these of its calls. It is never taken apart, so that its owner is cheaper to
/// prove.
fn source_of(alloc: Global, calls: &[u64]) -> Result<ManuallyDrop<MemSource>, Fail> {
    let text = Bytes::from_slice(alloc, TEXT)?;
    Ok(ManuallyDrop::new(MemSource::new(text, fails_at(alloc, calls)?)))
}

/// Whether a read up to the limit gives these bytes: all that there are, or the first that are too many.
fn gives(alloc: Global, limit: u8, bytes: &[u8]) -> Result<bool, Fail> {
    let limit = usize::from(limit);
    let mut source = source_of(alloc, &[])?;
    match read_all(alloc, &mut *source, limit) {
        Ok(read) => Ok(bytes.len() <= limit && read.as_slice() == bytes),
        Err(ReadStop::TooLong { read }) => Ok(bytes.len() > limit && read.as_slice() == bytes),
        Err(_) => Ok(false),
    }
}

#[test]
fn a_source_is_read_up_to_its_limit(rt: HostRuntime) -> Result<(), Fail> {
    for (limit, bytes) in [(6, TEXT), (7, TEXT), (200, TEXT), (5, TEXT), (0, b"g")] {
        assert!(rt; gives(rt.alloc(), limit, bytes)?, "{limit}");
    }
    Ok(())
}

/// Whether a read of a source that fails at these calls is told as a fault.
fn is_fault(alloc: Global, calls: &[u64]) -> Result<bool, Fail> {
    let mut source = source_of(alloc, calls)?;
    Ok(matches!(read_all(alloc, &mut *source, 9), Err(ReadStop::Fault)))
}

#[test]
fn a_read_that_fails_is_told(rt: HostRuntime) -> Result<(), Fail> {
    assert!(rt; is_fault(rt.alloc(), &[1])?);
    assert!(rt; is_fault(rt.alloc(), &[4, 2])?);
    assert!(rt; !is_fault(rt.alloc(), &[3])?);
    Ok(())
}

/// Ten thousand sevens, and an eight.
fn long_text(alloc: Global) -> Result<Bytes, Fail> {
    let mut text = vec![in alloc; 7u8; 10_000]?;
    text.push(8)?;
    Ok(Bytes::from_vec(text))
}

/// Whether all of the text is read.
fn is_read_whole(alloc: Global, text: Bytes, wanted: &Bytes) -> Result<bool, Fail> {
    let mut source = ManuallyDrop::new(MemSource::new(text, fails_at(alloc, &[])?));
    match read_all(alloc, &mut *source, 1 << 20) {
        Ok(read) => Ok(read == *wanted),
        Err(_) => Ok(false),
    }
}

#[test]
fn a_long_text_comes_in_several_reads(rt: HostRuntime) -> Result<(), Fail> {
    let wanted = long_text(rt.alloc())?;
    assert!(rt; is_read_whole(rt.alloc(), long_text(rt.alloc())?, &wanted)?);
    Ok(())
}

/// What a write of the whole text comes to where these bytes are taken.
fn told_of(taken: &[u8]) -> Result<(), WriteStop> {
    if taken.len() == TEXT.len() {
        Ok(())
    } else {
        Err(WriteStop::Fault { taken: taken.len() })
    }
}

/// Whether a sink that has this much room and fails at these of its calls takes these bytes of the text.
fn takes(alloc: Global, room: usize, calls: &[u64], taken: &[u8]) -> Result<bool, Fail> {
    let mut sink = ManuallyDrop::new(MemSink::new(alloc, fails_at(alloc, calls)?));
    sink.reserve(room)?;
    let result = write_all(&mut *sink, TEXT);
    Ok(result == told_of(taken) && sink.taken() == taken)
}

#[test]
fn a_sink_takes_what_has_room(rt: HostRuntime) -> Result<(), Fail> {
    let alloc = rt.alloc();
    assert!(rt; takes(alloc, 6, &[], TEXT)?);
    assert!(rt; takes(alloc, 4, &[], b"getp")?);
    assert!(rt; takes(alloc, 0, &[], b"")?);
    assert!(rt; takes(alloc, 6, &[1], b"")?);
    assert!(rt; takes(alloc, 6, &[2], TEXT)?);
    Ok(())
}

/// How a reader or a writer answers.
#[derive(Clone, Copy, Debug, PartialEq, Eq)]
enum Dose {
    Whole,
    One,
    Nothing,
    Fails,
    FailsLate,
}

/// A reader and writer of the text that answers in one way.
#[derive(Debug, Drop)]
struct Fake {
    dose: Dose,
    left: &'static [u8],
}

impl Fake {
    fn new(dose: Dose) -> Self {
        Fake { dose, left: TEXT }
    }

    /// How many bytes come next, where there is room for so many.
    fn next(&self, room: usize) -> io::Result<usize>
        ensures { IfOk result (λ count. count ≤ room) }
    {
        let is_late = self.left.len() < TEXT.len();
        match self.dose {
            Dose::Whole => Ok(room),
            Dose::One => Ok(room.min(1)),
            Dose::FailsLate if !is_late => Ok(room.min(1)),
            Dose::Nothing => Ok(0),
            Dose::Fails | Dose::FailsLate => Err(ErrorKind::BrokenPipe.into()),
        }
    }
}

impl Read for Fake {
    fn read(&mut self, buf: &mut [u8]) -> io::Result<usize> {
        let count = self.next(buf.len().min(self.left.len()))?;
        let (front, rest) = self.left.split_at(count);
        buf[..count].copy_from_slice(front);
        self.left = rest;
        Ok(count)
    }
}

impl Write for Fake {
    fn write(&mut self, buf: &[u8]) -> io::Result<usize> {
        let count = self.next(buf.len().min(self.left.len()))?;
        self.left = &self.left[count..];
        Ok(count)
    }

    fn flush(&mut self) -> io::Result<()> {
        Ok(())
    }
}

/// Whether the standard source hands on what such a reader answers: this text, or a fault.
fn hands_on(alloc: Global, dose: Dose, wanted: Option<&[u8]>) -> bool {
    match read_all(alloc, &mut StdSource::new(Fake::new(dose)), 6) {
        Ok(read) => Some(read.as_slice()) == wanted,
        Err(ReadStop::Fault) => wanted.is_none(),
        Err(_) => false,
    }
}

/// What a write of the text to such a writer comes to.
fn written(dose: Dose) -> Result<(), WriteStop> {
    write_all(&mut StdSink::new(Fake::new(dose)), TEXT)
}

#[test]
fn the_standard_source_hands_on_each_kind_of_answer(rt: HostRuntime) {
    for (dose, wanted) in [
        (Dose::Whole, Some(TEXT)),
        (Dose::One, Some(TEXT)),
        (Dose::Nothing, Some(b"".as_slice())),
        (Dose::Fails, None),
        (Dose::FailsLate, None),
    ] {
        assert!(rt; hands_on(rt.alloc(), dose, wanted), "{dose:?}");
    }
}

#[test]
fn the_standard_sink_hands_on_each_kind_of_answer(rt: HostRuntime) {
    for (dose, wanted) in [
        (Dose::Whole, Ok(())),
        (Dose::One, Ok(())),
        (Dose::Nothing, Err(WriteStop::Fault { taken: 0 })),
        (Dose::Fails, Err(WriteStop::Fault { taken: 0 })),
        (Dose::FailsLate, Err(WriteStop::Fault { taken: 1 })),
    ] {
        assert!(rt; written(dose) == wanted, "{dose:?}");
    }
}

/// Whether the source that never fails is read whole.
fn is_surely_read(alloc: Global) -> Result<bool, Fail> {
    let mut source = ManuallyDrop::new(SureSource::new(Bytes::from_slice(alloc, TEXT)?));
    match read_all(alloc, &mut *source, 6) {
        Ok(read) => Ok(read.as_slice() == TEXT),
        Err(_) => Ok(false),
    }
}

#[test]
fn the_sure_ones_never_fail(rt: HostRuntime) -> Result<(), Fail> {
    assert!(rt; is_surely_read(rt.alloc())?);
    assert!(rt; write_all(&mut SureSink::new(), TEXT) == Ok(()));
    Ok(())
}
