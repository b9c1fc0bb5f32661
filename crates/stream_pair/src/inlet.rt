//! The end of a stream that takes.
ghost use Rattle.std.specs.Prelude.{◌≡◌, ◌++◌, [], ◌∷◌, IfSome, IfNone};
ghost use Rattle.std.specs.Arc.{arc_value};
ghost use Rattle.stream_pair.specs.Order.{WasEmpty, Begins};
ghost use Rattle.stream_pair.specs.Ends.{after_looks, one_more_look, IsTaker};

use crate::bell::Bell;
use crate::order::{Pass, Takes, Tells};
use crate::piece::Piece;
use crate::receipt::Receipt;
use crate::stream::Stream;
use std::alloc::Global;
use std::marker::Model;
use std::sync::{Arc, Wait};

/// The end of a stream that takes. Contracts see the stream, all that was taken from it, all that this end was last
/// told of as sent, and how often it has looked: a number that stands still at its type's last value.
#[derive(Drop)]
pub struct In {
    stream: Arc<Stream, Global>,
    bell: Bell,
    pass: Pass,
    looks: u64,
}

impl Model for In {
    ghost use Rattle.std.specs.Arc.{arc_value};
    ghost use Rattle.stream_pair.specs.Ends.{Taking, sent_by, taken_by, IsTaker};

    ghost Value = { Taking };

    ghost view = { λ i. record {
      stream = (arc_value i.stream).queue;
      taken = taken_by i.pass;
      told = sent_by i.pass;
      looks = i.looks;
    } };

    ghost invariant = { λ i. IsTaker (arc_value i.stream).queue i.pass (sent_by i.pass) (taken_by i.pass) };
}

/// The number of looks after one more.
#[inline(always)]
fn one_more(looks: u64) -> u64
    ensures { result ≡ one_more_look looks }
{
    looks.saturating_add(1)
}

/// The number of looks after so many more.
#[inline(always)]
fn after(looks: u64, more: u64) -> u64
    ensures { result ≡ after_looks more looks }
{
    looks.saturating_add(more)
}

impl In {
    /// The end of this stream that has this pass, and hasn't looked yet.
    pub(crate) fn new(stream: Arc<Stream, Global>, bell: Bell, pass: Pass) -> In
        requires { IsTaker (arc_value stream).queue pass [] [] }
        ensures stream { result.stream ≡ (arc_value stream).queue }
        ensures new { (result.taken ≡ []) × (result.told ≡ []) × (result.looks ≡ 0) }
    {
        In {
            stream,
            bell,
            pass,
            looks: 0,
        }
    }

    /// Its pass.
    pub(crate) fn into_pass(self) -> Pass
        ensures { IsTaker self.stream result self.told self.taken }
    {
        let In { pass, .. } = self;
        pass
    }

    /// Tells this end of all that was sent by the time the receipt was made.
    pub fn tell(&mut self, receipt: Receipt)
        requires { receipt.stream ≡ self.old.stream }
        ensures stream { self.new.stream ≡ self.old.stream }
        ensures told { self.new.told ≡ receipt.sent }
        ensures taken { self.new.taken ≡ self.old.taken }
        ensures looks { self.new.looks ≡ self.old.looks }
    {
        self.stream
            .queue
            .absorb::<Tells>(&mut self.pass, receipt.into_pass());
    }

    /// The next piece that was sent. None only where the stream was empty at one step of this call: then all that this
    /// end was told of is taken. Each call is one look.
    #[tactic(auto, using(crate::proofs::Steps::an_empty_stream_hides_nothing))]
    pub fn take<R: Wait>(&mut self, rt: &R) -> Option<Piece>
        ensures stream { self.new.stream ≡ self.old.stream }
        ensures looks { self.new.looks ≡ one_more_look self.old.looks }
        ensures taken { IfSome result (λ p. self.new.taken ≡ self.old.taken ++ p ∷ []) }
        ensures told { self.new.told ≡ self.old.told }
        ensures empty { IfNone result ((self.new.taken ≡ self.old.taken) × WasEmpty self.old.told self.old.taken) }
        ensures told_is_taken { IfNone result (Begins self.old.told self.old.taken) }
    {
        self.looks = one_more(self.looks);
        if self.stream.queue.is_empty_as::<Takes>(&mut self.pass) {
            return None;
        }
        let parcel = self.stream.queue.pop_as::<Takes, R>(rt, &mut self.pass)?;
        self.bell.count_taken();
        Some(parcel.into_piece())
    }

    /// What the bell with which this stream was made says of all streams to this receiver, as [`Bell::is_silent`].
    #[inline(always)]
    pub fn is_silent(&self) -> bool {
        self.bell.is_silent()
    }

    /// Notes so many looks that found this stream empty. Each is to be one at the bell with which this stream was made,
    /// which was silent, since this end last took: no clause ties them to it.
    #[inline(always)]
    pub fn were_empty(&mut self, looks: u64)
        ensures stream { self.new.stream ≡ self.old.stream }
        ensures looks { self.new.looks ≡ after_looks looks self.old.looks }
        ensures taken { self.new.taken ≡ self.old.taken }
        ensures told { self.new.told ≡ self.old.told }
    {
        self.looks = after(self.looks, looks);
    }
}
