//! What goes through a stream.
ghost use Rattle.std.specs.Prelude.{◌≡◌, IfOk};

use pico_base::{Bytes, Memory};
use std::alloc::Global;
use std::marker::Model;

/// Up to 512 bytes of a stream, and the stamp of the event that sent them.
#[derive(Debug, PartialEq, Eq, Drop)]
pub struct Piece {
    pub stamp: u64,
    pub bytes: Bytes,
}

/// A piece on its way. It stands by itself, since each stream has room for many from the start, and most streams of a
/// run carry few. Contracts see the piece.
#[derive(Drop)]
pub struct Parcel {
    piece: Box<Piece>,
}

impl Model for Parcel {
    ghost use Rattle.stream_pair.specs.declared.piece.Piece.{Piece};

    ghost Value = { Piece };

    ghost view = { λ p. p.piece.value };
}

impl Parcel {
    /// This piece.
    pub(crate) fn new(alloc: Global, piece: Piece) -> Result<Parcel, Memory>
        ensures { IfOk result (λ parcel. parcel ≡ piece) }
    {
        match Box::new(alloc, piece) {
            Ok(piece) => Ok(Parcel { piece }),
            Err(_) => Err(Memory),
        }
    }

    /// The piece that it is.
    pub(crate) fn into_piece(self) -> Piece
        ensures { result ≡ self }
    {
        let Parcel { piece } = self;
        Box::into_inner(piece)
    }
}
