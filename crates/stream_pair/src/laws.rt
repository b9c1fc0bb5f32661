//! What holds of pieces, whatever the bytes.
ghost use Rattle.stream_pair.specs.Pieces.{PiecesAreTheBytes};

/// The pieces of some bytes have the event's stamp and 1 to 512 bytes each, and one behind the other they are the
/// bytes.
pub fn pieces_are_the_bytes()
    ensures { PiecesAreTheBytes }
{}
