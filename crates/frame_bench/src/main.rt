//! Passes so many frames of one size through encoding, a stream and a joiner, and says how many came out.
//! bench/frames.py times it.
#![tactic(auto)]

ghost use Rattle.std.specs.Prelude.{◌≤◌, IfSome};
ghost use Rattle.frame_bytes.specs.Limits.{IsWithinLimits};

use frame_bytes::{Joiner, encode};
use pico_base::{Bytes, Id, Name};
use rpc_frame::{Frame, PackedDeed};
use std::alloc::Global;
use std::env;
use std::process::ExitCode;
use std::rt::Env;
use std::sync::Wait;
use stream_pair::{In, Out, pair};

/// More pieces than the greatest frame of this program has.
const MOST_PIECES: u32 = 200;

/// A frame with a deed, whose body has so many bytes. The frame has 14 more.
#[tactic(auto, using(crate::proofs::Within::grant_is_within))]
fn frame_with(alloc: Global, size: u16) -> Option<Frame>
    ensures { IfSome result IsWithinLimits }
{
    let body = Bytes::from_vec(Vec::from_elem(alloc, 7u8, usize::from(size)).ok()?);
    let name = Name::Msg(Id(1));
    Some(Frame::Grant {
        deed: PackedDeed { name, body },
    })
}

/// Sends the frame's bytes.
fn send<R: Wait>(rt: &R, alloc: Global, out: &mut Out, stamp: u32, frame: &Frame) -> Option<()>
    requires { IsWithinLimits frame.now }
{
    let bytes = encode(alloc, frame).ok()?;
    out.send(rt, u64::from(stamp), bytes.as_slice()).ok()
}

/// How many frames this piece completes.
fn count_completed(joiner: &mut Joiner, piece: &[u8]) -> Option<u64> {
    let frames = joiner.feed(piece).ok()?;
    Some(frames.len() as u64)
}

/// How many frames the pieces that are there complete.
fn join<R: Wait>(rt: &R, into: &mut In, joiner: &mut Joiner) -> Option<u64> {
    let mut frames = 0u64;
    for _ in 0..MOST_PIECES {
        let Some(piece) = into.take(rt) else {
            break;
        };
        frames = frames.saturating_add(count_completed(joiner, piece.bytes.as_slice())?);
    }
    Some(frames)
}

/// Sends so many frames and takes each; how many come out.
fn pass<R: Wait>(
    rt: &R,
    alloc: Global,
    count: u32,
    frame: &Frame,
    out: &mut Out,
    into: &mut In,
) -> Option<u64>
    requires { IsWithinLimits frame.now }
{
    let mut joiner = Joiner::new(alloc);
    let mut frames = 0u64;
    for stamp in 0..count {
        send(rt, alloc, out, stamp, frame)?;
        frames = frames.saturating_add(join(rt, into, &mut joiner)?);
    }
    Some(frames)
}

/// How many of so many frames with a body of this size come out. None: memory ran out.
fn count_passed<R: Wait>(rt: &R, alloc: Global, count: u32, size: u16) -> Option<u64> {
    let frame = frame_with(alloc, size)?;
    let (mut out, mut into) = pair(alloc).ok()?;
    pass(rt, alloc, count, &frame, &mut out, &mut into)
}

/// The number behind the program's name at this place.
fn number_at<R: Env + AllocGlobal>(rt: &R, place: usize) -> Option<u32> {
    let word = env::args(rt).ok()?.nth(place)?;
    word.parse().ok()
}

fn main(rt: HostRuntime) -> ExitCode {
    let count = number_at(&rt, 1).unwrap_or(20);
    let size = number_at(&rt, 2).unwrap_or(1186).min(65535) as u16;
    let Some(frames) = count_passed(&rt, rt.alloc(), count, size) else {
        return ExitCode::from(3);
    };
    match println!(rt; "{frames} frames") {
        Ok(()) => ExitCode::from(0),
        Err(_) => ExitCode::from(5),
    }
}
