//! What a node finds on its streams.
use pico_base::Node;
use rpc_frame::Frame;

/// What looks at streams found, up to the first that gave a whole frame or bytes that are none.
#[derive(Debug, PartialEq, Eq, Drop)]
pub enum Found {
    /// No piece.
    Nothing,
    /// Pieces, none of which completes a frame.
    Part,
    /// A piece that completes just this frame, on the stream from the node `from`; `stamp` is the piece's.
    Whole {
        from: Node,
        stamp: u64,
        frame: Frame,
    },
    /// A piece behind which the stream is no stream of frames, or that completes more than one frame.
    Refused,
}
