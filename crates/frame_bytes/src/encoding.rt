//! A frame to its bytes.
ghost use Rattle.std.specs.Prelude.{◌≡◌, IfOk};
ghost use Rattle.frame_bytes.specs.Frames.{frame_bytes};
ghost use Rattle.frame_bytes.specs.Limits.{IsWithinLimits};
ghost use Rattle.frame_bytes.specs.Ranges.{IsFrame};

use crate::writing::put_frame;
use byteorder::{BigEndian, ByteOrder};
use pico_base::{Bytes, Memory};
use rpc_frame::Frame;
use std::alloc::Global;

/// The one spelling of a frame: its length in 4 bytes, and so many bytes, the code of its kind and the kind's fields.
/// The length is written last, over the place that was kept for it.
pub fn encode(alloc: Global, frame: &Frame) -> Result<Bytes, Memory>
    requires { IsWithinLimits frame.now }
    ensures spelled { IfOk result (λ bytes. bytes ≡ frame_bytes frame.now) }
    ensures frame { IfOk result (λ _. IsFrame frame.now) }
{
    let mut out = Vec::new(alloc);
    out.extend_from_slice(&[0, 0, 0, 0])?;
    put_frame(&mut out, frame)?;
    let len = out.len() as u32 - 4;
    BigEndian::write_u32(&mut out, len);
    Ok(Bytes::from_vec(out))
}
