//! The ends of the streams with another node.
use pico_base::{Node, Sequence};
use stream_pair::{In, Out};

/// The ends of the pair of streams with one other node: `out` leads to it, `into` from it.
#[derive(Drop)]
pub struct End {
    pub other: Node,
    pub out: Out,
    pub into: In,
}

/// Ends, by rising node.
pub type Ends = Sequence<End>;
