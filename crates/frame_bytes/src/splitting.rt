//! The frames that bytes begin with.
ghost use Rattle.std.specs.Prelude.{◌≡◌, ◌<◌, length, drop, IfOk, MatchOption, Some};
ghost use Rattle.std.specs.Int.{w32};
ghost use Rattle.body_fields.specs.Fields.{number_at};
ghost use Rattle.frame_bytes.specs.Splitting.{EndIs, AheadIs, Front};

use crate::FrameFault;
use crate::frame_reading::whole;
use byteorder::{BigEndian, ByteOrder};
use pico_base::{Memory, UnpackFault};
use rpc_frame::Frame;
use std::alloc::Global;

/// The greatest number of a length field.
pub(crate) const MAX_FRAME: u32 = 262_144;

/// What stands at the front of some bytes.
#[derive(Drop)]
pub(crate) enum Ahead {
    /// Less than a frame, which may still become one.
    Partial,
    /// A fault.
    Broken(FrameFault),
    /// A frame, and how many bytes it takes.
    Whole { frame: Frame, len: usize },
}

/// The frames that bytes begin with, how many bytes they take, and the fault behind them, if there is one.
#[derive(Drop)]
pub(crate) struct Parts {
    pub(crate) frames: Vec<Frame>,
    pub(crate) used: usize,
    pub(crate) fault: Option<FrameFault>,
}

/// The length field, and the bytes behind it. None: there are fewer than four bytes.
fn length_field(bytes: &[u8]) -> Option<(u32, &[u8])>
    ensures { MatchOption result (length bytes.now < 4) (λ x. number_at w32 bytes.now ≡ Some (x.0, x.1.now)) }
{
    if bytes.len() < 4 {
        return None;
    }
    let (front, rest) = bytes.split_at(4);
    Some((BigEndian::read_u32(front), rest))
}

/// What stands at the front of the bytes.
fn first(alloc: Global, bytes: &[u8]) -> Result<Ahead, Memory>
    ensures { IfOk result (AheadIs bytes.now) }
{
    let Some((len, rest)) = length_field(bytes) else {
        return Ok(Ahead::Partial);
    };
    if len > MAX_FRAME {
        return Ok(Ahead::Broken(FrameFault::TooLong));
    }
    let len = len as usize;
    if rest.len() < len {
        return Ok(Ahead::Partial);
    }
    let (body, _) = rest.split_at(len);
    match whole(alloc, body) {
        Ok(frame) => Ok(Ahead::Whole {
            frame,
            len: 4 + len,
        }),
        Err(UnpackFault::NotABody) => Ok(Ahead::Broken(FrameFault::NotAFrame)),
        Err(UnpackFault::Memory) => Err(Memory),
    }
}

/// All frames that the bytes begin with.
pub(crate) fn split(alloc: Global, bytes: &[u8]) -> Result<Parts, Memory>
    ensures front { IfOk result (λ s. Front bytes.now s.frames.items s.used) }
    ensures end { IfOk result (λ s. EndIs (drop s.used bytes.now) s.fault) }
{
    let mut frames = Vec::new(alloc);
    let mut used = 0;
    loop {
        match first(alloc, &bytes[used..])? {
            Ahead::Partial => {
                return Ok(Parts {
                    frames,
                    used,
                    fault: None,
                });
            }
            Ahead::Broken(fault) => {
                return Ok(Parts {
                    frames,
                    used,
                    fault: Some(fault),
                });
            }
            Ahead::Whole { frame, len } => {
                frames.push(frame)?;
                used += len;
            }
        }
    }
}
