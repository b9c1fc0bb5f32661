//! The end of a stream that sends.
ghost use Rattle.std.specs.Prelude.{◌≡◌, ◌++◌, [], ◌∷◌, OnOk, OnErr};
ghost use Rattle.std.specs.Arc.{arc_value};
ghost use Rattle.stream_pair.specs.Ends.{IsSender};
ghost use Rattle.stream_pair.specs.Pieces.{piece, pieces, IsFrontSent};

use crate::bell::Bell;
use crate::order::{Pass, Sends, Shows};
use crate::piece::{Parcel, Piece};
use crate::receipt::Receipt;
use crate::stream::Stream;
use pico_base::{Bytes, Memory};
use std::alloc::Global;
use std::marker::Model;
use std::sync::{Arc, Wait};

/// The greatest number of bytes of a piece.
const MAX_PIECE: usize = 512;

/// The end of a stream that sends. Contracts see the stream, and all that was sent on it.
#[derive(Drop)]
pub struct Out {
    alloc: Global,
    stream: Arc<Stream, Global>,
    bell: Bell,
    pass: Pass,
}

impl Model for Out {
    ghost use Rattle.std.specs.Arc.{arc_value};
    ghost use Rattle.stream_pair.specs.Ends.{Sending, sent_by, IsSender};

    ghost Value = { Sending };

    ghost view = { λ o. record { stream = (arc_value o.stream).queue; sent = sent_by o.pass } };

    ghost invariant = { λ o. IsSender (arc_value o.stream).queue o.pass (sent_by o.pass) };
}

impl Out {
    /// The end of this stream that has this pass, and hasn't sent yet.
    pub(crate) fn new(alloc: Global, stream: Arc<Stream, Global>, bell: Bell, pass: Pass) -> Out
        requires { IsSender (arc_value stream).queue pass [] }
        ensures { (result.stream ≡ (arc_value stream).queue) × (result.sent ≡ []) }
    {
        Out {
            alloc,
            stream,
            bell,
            pass,
        }
    }

    /// Its stream and its pass.
    pub(crate) fn into_parts(self) -> (Arc<Stream, Global>, Pass)
        ensures pass { IsSender self.stream result.1 self.sent }
        ensures stream { (arc_value result.0).queue ≡ self.stream }
    {
        let Out { stream, pass, .. } = self;
        (stream, pass)
    }

    /// That all that is sent by now was sent.
    pub fn receipt(&mut self) -> Receipt
        ensures receipt { (result.stream ≡ self.old.stream) × (result.sent ≡ self.old.sent) }
        ensures same { (self.new.stream ≡ self.old.stream) × (self.new.sent ≡ self.old.sent) }
    {
        Receipt::new(self.stream.queue.another::<Shows>(&mut self.pass))
    }

    /// Sends bytes as one piece.
    fn send_piece<R: Wait>(&mut self, rt: &R, stamp: u64, bytes: &[u8]) -> Result<(), Memory>
        ensures stream { self.new.stream ≡ self.old.stream }
        ensures sent { OnOk result (self.new.sent ≡ self.old.sent ++ piece stamp bytes.now ∷ []) }
        ensures refused { OnErr result (self.new.sent ≡ self.old.sent) }
    {
        let bytes = Bytes::from_slice(self.alloc, bytes)?;
        let parcel = Parcel::new(self.alloc, Piece { stamp, bytes })?;
        self.bell.count_sent();
        match self
            .stream
            .queue
            .push_as::<Sends, R>(rt, &mut self.pass, parcel)
        {
            Ok(()) => {
                self.bell.wake();
                Ok(())
            }
            Err(_) => Err(Memory),
        }
    }

    /// Sends the bytes of one event, all under its stamp, as pieces of 512 bytes and a last one of 1 to 512. Where an
    /// allocation is refused, the pieces before it are sent, and none of those behind it.
    pub fn send<R: Wait>(&mut self, rt: &R, stamp: u64, bytes: &[u8]) -> Result<(), Memory>
        ensures stream { self.new.stream ≡ self.old.stream }
        ensures sent { OnOk result (self.new.sent ≡ self.old.sent ++ pieces stamp bytes.now) }
        ensures refused { OnErr result (IsFrontSent self.old.sent self.new.sent (pieces stamp bytes.now)) }
    {
        for front in bytes.chunks(MAX_PIECE) {
            self.send_piece(rt, stamp, front)?;
        }
        Ok(())
    }
}
