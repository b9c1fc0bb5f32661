//! A source read to its end, and all bytes written.
ghost use Rattle.std.specs.Prelude.{◌≡◌, ◌+◌, ◌<◌, ◌≤◌, [], length, take, is_some, IfOk, OnOk, OnErr, IfSome};
ghost use Rattle.host_iface.specs.Faults.{HasRisen};
ghost use Rattle.host_iface.specs.Told.{led_by, followed_by};
ghost use Rattle.host_iface.specs.Stops.{OnReadFault, UnlessReadFault, IfTooLong, IfWriteFault};

use crate::{Failed, ReadStop, Sink, Source, WriteStop};
use pico_base::Bytes;
use std::alloc::Global;

/// How many bytes one read asks for at most.
const CHUNK: usize = 32768;

/// Reads a source to its end, or one byte past the limit. No read asks for more than that.
///
/// `Memory` comes where an allocation is refused, and only where no read failed; the source may then have been read
/// in part or whole. `Fault` comes only where the source's count of faults rose in this call. `TooLong` comes
/// exactly where one byte more than the limit was read, and gives these bytes.
pub fn read_all<S: Source>(alloc: Global, source: &mut S, limit: usize) -> Result<Bytes, ReadStop>
    requires { limit < usize.MAX }

    ensures whole { IfOk result (λ bytes. IfSome (S.left source.old) (λ left. bytes ≡ left)) }
    ensures end { OnOk result (IfSome (S.left source.new) (λ left. left ≡ [])) }
    ensures within { IfOk result (λ bytes. length bytes ≤ limit) }

    ensures one_more { IfTooLong result (λ read. length read ≡ limit + 1) }
    ensures front { IfTooLong result
        (λ read. IfSome (S.left source.old) (λ left. (limit < length left) × (read ≡ take (limit + 1) left))) }
    ensures rest { IfTooLong result (λ read. S.left source.old ≡ led_by read (S.left source.new)) }

    ensures fault { OnReadFault result (HasRisen (S.faults source.old) (S.faults source.new)) }
    // A failed read is never called want of memory.
    ensures same { UnlessReadFault result (S.faults source.new ≡ S.faults source.old) }
    ensures faults { S.faults source.old ≤ S.faults source.new }
    ensures told { is_some (S.left source.new) ≡ is_some (S.left source.old) }
{
    let mut bytes = Vec::new(alloc);
    let mut buffer = [0u8; CHUNK];
    while bytes.len() <= limit {
        let most = CHUNK.min(limit - bytes.len() + 1);
        let into = &mut buffer[..most];
        let count = source.read(into)?;
        if count == 0 {
            return Ok(Bytes::from_vec(bytes));
        }
        bytes.extend_from_slice(&into[..count])?;
    }
    Err(ReadStop::TooLong {
        read: Bytes::from_vec(bytes),
    })
}

/// Writes all bytes, in as many pieces as the sink wants. It takes no memory.
///
/// `Fault` comes only where the sink's count of faults rose in this call, and says how many of the
/// bytes were taken before.
#[tactic(auto, using(crate::proofs::Pieces::followed_by_more))]
pub fn write_all<K: Sink>(sink: &mut K, bytes: &[u8]) -> Result<(), WriteStop>
    ensures all { OnOk result (K.taken sink.new ≡ followed_by (K.taken sink.old) bytes.now) }

    ensures part { IfWriteFault result
        (λ taken. K.taken sink.new ≡ followed_by (K.taken sink.old) (take taken bytes.now)) }
    ensures not_all { IfWriteFault result (λ taken. taken < length bytes.now) }
    ensures fault { OnErr result (HasRisen (K.faults sink.old) (K.faults sink.new)) }
    ensures same { OnOk result (K.faults sink.new ≡ K.faults sink.old) }
    ensures faults { K.faults sink.old ≤ K.faults sink.new }
{
    let mut taken = 0;
    while taken < bytes.len() {
        match sink.write(&bytes[taken..]) {
            Ok(count) => taken += count,
            Err(Failed) => return Err(WriteStop::Fault { taken }),
        }
    }
    Ok(())
}
