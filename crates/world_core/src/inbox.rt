//! The streams to one node, and which of them have a frame.
ghost use Rattle.std.specs.Prelude.{◌≡◌, ◌<◌, ◌≤◌, ◌-◌, ◌+◌, [], ◌∷◌, ◌++◌, length, map, replicate, get_or, false, count_by, slice_get, IfOk, OnOk};
ghost use Rattle.world_core.specs.Inbox.{IsTaken, from_node, with_from, is_filled, may_take, senders};
ghost use Rattle.world_core.specs.Stream.{frame_of};

use crate::stream::Stream;
use pico_base::{Memory, Node};
use rpc_frame::Frame;
use std::alloc::Global;
use std::marker::Model;

/// What is on its way to one node: a stream from each node, of which there are at most 32. Which of the streams have a
/// frame is kept beside them, a bit for each at its place.
#[derive(Drop)]
pub(crate) struct Inbox {
    streams: Vec<Stream>,
    filled: u32,
}

impl Model for Inbox {
    ghost use Rattle.std.specs.Prelude.{List};
    ghost use Rattle.rpc_frame.specs.declared.frame.Frame.{Frame};
    ghost use Rattle.world_core.specs.Inbox.{IsMarked};

    ghost Value = { List (List Frame) };

    ghost view = { λ i. i.streams.items };

    ghost invariant = { λ i. IsMarked i.filled i.streams.items };
}

/// The place of a node and of what belongs to it, from 0.
pub(crate) fn place(node: Node) -> usize
    ensures place { result ≡ node - 1 }
    ensures next { result + 1 ≡ node }
{
    node.0 as usize - 1
}

impl Inbox {
    /// Nothing is on its way from any of so many nodes.
    pub(crate) fn new(alloc: Global, count: usize) -> Result<Inbox, Memory>
        requires { count ≤ 32 }
        ensures { IfOk result (λ inbox. inbox ≡ replicate count []) }
    {
        let mut streams = Vec::new(alloc);
        for _node in 0..count {
            streams.push(Stream::new(alloc))?;
        }
        Ok(Inbox { streams, filled: 0 })
    }

    /// In how many of the streams a Checkpoint comes first.
    fn checkpoints(&self) -> usize
        ensures { result ≡ count_by (may_take false) self.now }
    {
        let mut count = 0;
        for stream in &self.streams {
            if stream.brings_checkpoint() {
                count += 1;
            }
        }
        count
    }

    /// How many frames the node may take, each the first of its stream. No stream is looked at where none has a frame
    /// and where the node takes any.
    pub(crate) fn count(&self, is_born: bool) -> u32
        ensures count { result ≡ length (senders is_born self.now) }
        ensures few { result ≤ 32 }
    {
        if is_born {
            self.filled.count_ones()
        } else if self.filled == 0 {
            0
        } else {
            self.checkpoints() as u32
        }
    }

    /// Whether the node takes the first frame of the stream at this place, if there is one. The stream is looked at
    /// only where it has a frame and the node doesn't take any.
    fn may_take_at(&self, at: usize, is_born: bool) -> bool
        requires { at < length self.now }
        ensures { result ≡ may_take is_born (get_or self.now at []) }
    {
        self.filled >> at & 1 == 1 && (is_born || self.streams[at].brings_checkpoint())
    }

    /// Who sent the frame at this place of those that the node may take, from 0. The streams before the first that has
    /// a frame are passed at once.
    pub(crate) fn nth(&self, is_born: bool, index: u32) -> Option<Node>
        ensures { result ≡ slice_get (senders is_born self.now) index }
    {
        let mut left = index;
        for at in self.filled.trailing_zeros() as usize..self.streams.len() {
            if self.may_take_at(at, is_born) {
                if left == 0 {
                    return Some(Node(at as u8 + 1));
                }
                left -= 1;
            }
        }
        None
    }

    /// Whether the node takes the first frame from that node, if there is one.
    pub(crate) fn may_take(&self, from: Node, is_born: bool) -> bool
        ensures { result ≡ may_take is_born (from_node self.now from) }
    {
        let at = place(from);
        at < self.streams.len() && self.may_take_at(at, is_born)
    }

    /// Whether a frame is on its way from that node.
    pub(crate) fn is_filled_from(&self, from: Node) -> bool
        requires { from ≤ length self.now }
        ensures { result ≡ is_filled (from_node self.now from) }
    {
        self.streams[place(from)].is_filled()
    }

    /// A frame from that node comes after all that are on their way from it.
    pub(crate) fn push(&mut self, from: Node, sent: (Node, Frame)) -> Result<(), Memory>
        requires { from ≤ length self.old }
        ensures { OnOk result (self.new ≡ with_from self.old from (from_node self.old from ++ frame_of sent ∷ [])) }
    {
        let at = place(from);
        self.streams[at].push(sent)?;
        self.filled |= 1 << at;
        Ok(())
    }

    /// Takes over a list of one frame from that node, from which none is on its way, and leaves an empty list.
    pub(crate) fn take_over(&mut self, from: Node, sends: &mut Vec<(Node, Frame)>)
        requires there { from ≤ length self.old }
        requires none { from_node self.old from ≡ [] }
        requires one { length sends.old.items ≡ 1 }
        ensures taken { self.new ≡ with_from self.old from (map frame_of sends.old.items) }
        ensures emptied { sends.new.items ≡ [] }
    {
        let at = place(from);
        self.streams[at].take_over(sends);
        self.filled |= 1 << at;
    }

    /// Takes the first frame from that node, if there is one.
    pub(crate) fn take(&mut self, from: Node) -> Option<Frame>
        requires { from ≤ length self.old }
        ensures { IsTaken self.old from result self.new }
    {
        let at = place(from);
        let stream = &mut self.streams[at];
        // first the bit, and then the frame: so the frame goes straight to where it's taken
        if !stream.has_second() {
            self.filled &= !(1 << at);
        }
        stream.take()
    }
}
