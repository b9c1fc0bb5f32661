//! Pieces of a stream to the frames that they complete.
ghost use Rattle.std.specs.Prelude.{◌≡◌, ◌≤◌, [], drop, vec_len};
ghost use Rattle.frame_bytes.specs.Streams.{Feeds, Rest};

use crate::FrameFault;
use crate::splitting::split;
use rpc_frame::Frames;
use std::alloc::Global;
use std::marker::Model;

/// Makes frames of a stream of bytes that comes in any pieces. It holds back what isn't a whole frame yet.
#[derive(Drop)]
pub struct Joiner {
    rest: Vec<u8>,
    fault: Option<FrameFault>,
}

impl Model for Joiner {
    ghost use Rattle.frame_bytes.specs.Streams.{Left, left_of};

    ghost Value = { Left };

    ghost view = { λ j. left_of j.rest.items j.fault };
}

/// Drops so many bytes at the front.
fn drop_front(bytes: &mut Vec<u8>, count: usize)
    requires { count ≤ vec_len bytes.old }
    ensures { bytes.new.items ≡ drop count bytes.old.items }
{
    bytes.drain(..count);
}

impl Joiner {
    /// A joiner at the beginning of a stream. It takes no memory.
    pub fn new(alloc: Global) -> Joiner
        ensures { result ≡ Rest [] }
    {
        Joiner {
            rest: Vec::new(alloc),
            fault: None,
        }
    }

    /// The frames that this piece of the stream completes, in order. A fault is answered where it stands in a frame's
    /// place, after the frames before it: where this piece completes frames before the fault, they are given now, and
    /// the fault by the next call, whatever its piece. From then on each call answers that fault.
    pub fn feed(&mut self, piece: &[u8]) -> Result<Frames, FrameFault>
        ensures { Feeds self.old piece.now result self.new }
    {
        if let Some(fault) = self.fault {
            return Err(fault);
        }
        let held = self.rest.len();
        self.rest.extend_from_slice(piece)?;
        let alloc = *self.rest.allocator();
        let Ok(parts) = split(alloc, &self.rest) else {
            self.rest.truncate(held);
            return Err(FrameFault::Memory);
        };
        drop_front(&mut self.rest, parts.used);
        self.fault = parts.fault;
        match parts.fault {
            Some(fault) if parts.frames.is_empty() => Err(fault),
            _ => Ok(Frames::from_vec(parts.frames)),
        }
    }
}
