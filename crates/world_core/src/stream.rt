//! One stream of frames, in the order of sending.
ghost use Rattle.std.specs.Prelude.{◌≡◌, [], ◌∷◌, ◌++◌, map, reverse, length, false, slice_get, Some, None, IfSome, OnOk, OnErr};
ghost use Rattle.world_core.specs.Inbox.{IsFirstOf, is_filled, may_take};
ghost use Rattle.world_core.specs.Stream.{frame_of, frames_of, has_second};

use pico_base::{Memory, Node};
use rpc_frame::Frame;
use std::alloc::Global;
use std::marker::Model;
use std::mem;

/// The frames on their way to one node from another, each beside the node that it is sent to, as a turn lists them: so
/// a list of one frame, as most turns make, is taken over as it is.
#[derive(Drop)]
pub(crate) struct Stream {
    // the frames that come first, last of all the first
    front: Vec<(Node, Frame)>,
    // those behind them, in the order of sending
    back: Vec<(Node, Frame)>,
}

impl Model for Stream {
    ghost use Rattle.std.specs.Prelude.{List};
    ghost use Rattle.rpc_frame.specs.declared.frame.Frame.{Frame};
    ghost use Rattle.world_core.specs.Stream.{frames_of};

    ghost Value = { List Frame };

    ghost view = { λ s. frames_of s.front.items s.back.items };
}

/// The frames behind come to the front, where there are none.
#[cold]
#[inline(never)]
fn turn_over(front: &mut Vec<(Node, Frame)>, back: &mut Vec<(Node, Frame)>)
    requires { front.old.items ≡ [] }
    ensures front { front.new.items ≡ reverse back.old.items }
    ensures back { back.new.items ≡ [] }
{
    mem::swap(front, back);
    front.reverse();
}

/// A frame stands at the front where there is one at all.
#[inline(always)]
fn bring_up(front: &mut Vec<(Node, Frame)>, back: &mut Vec<(Node, Frame)>)
    ensures same { frames_of front.new.items back.new.items ≡ frames_of front.old.items back.old.items }
    ensures front { length front.new.items ≡ 0 → back.new.items ≡ [] }
{
    if front.is_empty() {
        turn_over(front, back);
    }
}

impl Stream {
    /// Nothing is on its way. It takes no memory.
    pub(crate) fn new(alloc: Global) -> Stream
        ensures { result ≡ [] }
    {
        Stream {
            front: Vec::new(alloc),
            back: Vec::new(alloc),
        }
    }

    /// Whether a frame is on its way.
    pub(crate) fn is_filled(&self) -> bool
        ensures { result ≡ is_filled self.now }
    {
        self.front.len() > 0 || self.back.len() > 0
    }

    /// Whether more than one frame is on its way.
    pub(crate) fn has_second(&self) -> bool
        ensures { result ≡ has_second self.now }
    {
        self.front.len() > 1 || self.back.len() > 1 - self.front.len()
    }

    /// The frame that comes first.
    fn first(&self) -> Option<&Frame>
        ensures some { IfSome result (λ frame. slice_get self.now 0 ≡ Some frame.now) }
        ensures none { result ≡ None → self.now ≡ [] }
    {
        match self.front.last() {
            Some((_to, frame)) => Some(frame),
            None => match self.back.first() {
                Some((_to, frame)) => Some(frame),
                None => None,
            },
        }
    }

    /// Whether a Checkpoint comes first, which a node takes that isn't born.
    pub(crate) fn brings_checkpoint(&self) -> bool
        ensures { result ≡ may_take false self.now }
    {
        match self.first() {
            Some(frame) => matches!(frame, Frame::Checkpoint { .. }),
            None => false,
        }
    }

    /// Sends a frame: it comes after all that are on their way. A refusal changes nothing.
    pub(crate) fn push(&mut self, sent: (Node, Frame)) -> Result<(), Memory>
        ensures ok { OnOk result (self.new ≡ self.old ++ frame_of sent ∷ []) }
        ensures err { OnErr result (self.new ≡ self.old) }
    {
        self.back.push(sent)?;
        Ok(())
    }

    /// Takes over a list of one frame where none is on its way, and leaves an empty list.
    pub(crate) fn take_over(&mut self, sends: &mut Vec<(Node, Frame)>)
        requires empty { self.old ≡ [] }
        requires one { length sends.old.items ≡ 1 }
        ensures taken { self.new ≡ map frame_of sends.old.items }
        ensures emptied { sends.new.items ≡ [] }
    {
        mem::swap(&mut self.front, sends);
    }

    /// Takes the first frame, if there is one.
    pub(crate) fn take(&mut self) -> Option<Frame>
        ensures { IsFirstOf self.old result self.new }
    {
        bring_up(&mut self.front, &mut self.back);
        let (_to, frame) = self.front.pop()?;
        Some(frame)
    }
}
