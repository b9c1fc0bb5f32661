//! Events as they stand in an image.

use pico_base::{Event, Sequence};
use stamp_merge::Stamped;

/// An event of an image, and where it stands.
#[derive(Clone, Copy, Debug, PartialEq, Eq)]
pub struct Placed {
    /// The number of its line in the image, at least 3.
    pub line: u32,
    pub event: Event,
}

/// Events, each with its stamp and its node.
pub type PlacedEvents = Sequence<Stamped<Placed>>;
