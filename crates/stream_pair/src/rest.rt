//! What is left of a stream whose two ends are together again.
ghost use Rattle.std.specs.Prelude.{◌≡◌, ◌++◌, [], ◌∷◌, MatchOption};

use crate::inlet::In;
use crate::order::{Meets, Pass, TakesOn};
use crate::outlet::Out;
use crate::piece::{Parcel, Piece};
use crate::stream::Stream;
use std::alloc::Global;
use std::marker::Model;
use std::sync::{Arc, Wait};

/// The pieces that were sent on a stream and not taken. Contracts see them as a list, the next one first.
#[derive(Drop)]
pub struct Rest {
    stream: Arc<Stream, Global>,
    pass: Pass,
}

impl Model for Rest {
    ghost use Rattle.std.specs.Prelude.{List};
    ghost use Rattle.std.specs.Arc.{arc_value};
    ghost use Rattle.stream_pair.specs.declared.piece.Piece.{Piece};
    ghost use Rattle.stream_pair.specs.Order.{left_of};
    ghost use Rattle.stream_pair.specs.Ends.{IsBoth};

    ghost Value = { List Piece };

    ghost view = { λ r. left_of r.pass.me.view.client };

    ghost invariant = { λ r. IsBoth (arc_value r.stream).queue r.pass };
}

/// Puts the two ends of one stream together: what was sent is what was taken, followed by the rest. It takes no memory.
pub fn settle<R: Wait>(rt: &R, out: Out, into: In) -> Rest
    requires { out.stream ≡ into.stream }
    ensures { out.sent ≡ into.taken ++ result }
{
    let (stream, mut pass) = out.into_parts();
    stream.queue.absorb::<Meets>(&mut pass, into.into_pass());
    stream.queue.len_as::<TakesOn, R>(rt, &mut pass);
    Rest { stream, pass }
}

/// The piece that a parcel is, where there is one.
fn piece_of(parcel: Option<Parcel>) -> Option<Piece>
    ensures { result ≡ parcel }
{
    match parcel {
        Some(parcel) => Some(parcel.into_piece()),
        None => None,
    }
}

impl Rest {
    /// The next piece of the rest. None exactly at its end. It takes no memory.
    pub fn next<R: Wait>(&mut self, rt: &R) -> Option<Piece>
        ensures { MatchOption result ((self.old ≡ []) × (self.new ≡ [])) (λ p. self.old ≡ p ∷ self.new) }
    {
        piece_of(self.stream.queue.pop_as::<TakesOn, R>(rt, &mut self.pass))
    }
}
