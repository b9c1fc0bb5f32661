//! The laws that join streams of pieces with frames: what a taker joins of pieces are the frames that were sent in
//! them, with their stamps. No call runs here.
#![tactic(auto)]

ghost use Rattle.piece_laws.specs.Laws.{TakenAreSent, TheNextIsSent};

/// Where frames were sent as pieces, and some of the pieces were taken and fed to a joiner, the frames that came of
/// them are the first of those that were sent, in order and with their stamps, and the joiner has nothing or the first
/// bytes of the next frame.
pub fn taken_are_sent()
    ensures { TakenAreSent }
{}

/// What the joiner answers to the next piece is no frame, or the next frame that was sent, with the piece's stamp, or
/// that memory ran out: no piece completes two frames, and no bytes are at fault.
pub fn the_next_is_sent()
    ensures { TheNextIsSent }
{}
