//! The streams with one other node, and where its frames end in what was taken.
ghost use Rattle.std.specs.Prelude.{◌≡◌, ◌++◌, [], IfOk, OnOk};
ghost use Rattle.frame_bytes.specs.Streams.{Rest, Feeds};
ghost use Rattle.stream_pair.specs.Pieces.{pieces};
ghost use Rattle.log_model.specs.Looks.{IsLook};
ghost use Rattle.node_lines.specs.Lines.{IsSameLine, FoundOf, after_silence, with_bytes};

use crate::end::End;
use frame_bytes::{FrameFault, Joiner};
use log_model::Found;
use pico_base::{Memory, Node};
use rpc_frame::Frames;
use std::alloc::Global;
use std::marker::Model;
use std::sync::Wait;
use stream_pair::{In, Out};

/// The streams with one other node. What was taken from it goes through a joiner, which holds back what is no whole
/// frame yet.
#[derive(Drop)]
pub struct Line {
    other: Node,
    out: Out,
    into: In,
    joiner: Joiner,
}

impl Model for Line {
    ghost use Rattle.log_model.specs.Views.{Line as LineValue};

    ghost Value = { LineValue };

    ghost view = { λ l. record { other = l.other; out = l.out; into = l.into; left = l.joiner } };
}

/// The streams with each other node, by rising node.
pub type Lines = Vec<Line>;

/// What a look found, by what the joiner answers to the piece.
fn found_of(other: Node, stamp: u64, fed: Result<Frames, FrameFault>) -> Result<Found, Memory>
    ensures { FoundOf other stamp fed result }
{
    let mut frames = match fed {
        Ok(frames) => frames.into_vec(),
        Err(FrameFault::Memory) => return Err(Memory),
        Err(_) => return Ok(Found::Refused),
    };
    let Some(frame) = frames.pop() else {
        return Ok(Found::Part);
    };
    if !frames.is_empty() {
        return Ok(Found::Refused);
    }
    Ok(Found::Whole {
        from: other,
        stamp,
        frame,
    })
}

impl Line {
    /// The line of these ends, from which nothing was taken. It takes no memory.
    pub fn new(alloc: Global, end: End) -> Line
        requires { end.into.taken ≡ [] }
        ensures other { result.other ≡ end.other }
        ensures out { result.out ≡ end.out }
        ensures into { result.into ≡ end.into }
        ensures left { result.left ≡ Rest [] }
    {
        let End { other, out, into } = end;
        Line {
            other,
            out,
            into,
            joiner: Joiner::new(alloc),
        }
    }

    /// Its ends. What the joiner held back is let go.
    pub fn into_end(self) -> End
        ensures { (result.other ≡ self.other) × (result.out ≡ self.out) × (result.into ≡ self.into) }
    {
        let Line {
            other,
            out,
            into,
            joiner: _,
        } = self;
        End { other, out, into }
    }

    /// The other node.
    pub fn other(&self) -> Node
        ensures { result ≡ self.now.other }
    {
        self.other
    }

    /// Whether all streams to this node were empty at one step of this call, by the bell that they share.
    #[inline(always)]
    pub(crate) fn is_silent(&self) -> bool {
        self.into.is_silent()
    }

    /// Notes so many looks that found nothing, at times when this node's streams were silent.
    #[inline(always)]
    pub(crate) fn were_empty(&mut self, looks: u64)
        ensures { self.new ≡ after_silence looks self.old }
    {
        self.into.were_empty(looks);
    }

    /// Looks for the next piece, and feeds it to the joiner. Where memory is refused a piece may be lost.
    pub fn look<R: Wait>(&mut self, rt: &R) -> Result<Found, Memory>
        ensures found { IfOk result (λ found. IsLook self.old found self.new) }
        ensures same { IsSameLine self.old self.new }
    {
        let Some(piece) = self.into.take(rt) else {
            return Ok(Found::Nothing);
        };
        let fed = self.joiner.feed(piece.bytes.as_slice());
        found_of(self.other, piece.stamp, fed)
    }

    /// Sends the bytes of a frame in pieces, all under this stamp. Where memory is refused a part may be sent.
    pub fn send<R: Wait>(&mut self, rt: &R, stamp: u64, bytes: &[u8]) -> Result<(), Memory>
        ensures sent { OnOk result (self.new ≡ with_bytes stamp bytes.now self.old) }
        ensures same { IsSameLine self.old self.new }
    {
        self.out.send(rt, stamp, bytes)
    }
}
