//! A world from its image: the script's opening world, stepped through the events that the image lists.
#![tactic(auto)]

ghost use Rattle.world_image.specs.Laws.{FrozenWorldsThaw};

mod thawing;

pub use image_text::{ImageFault, ImageStop, freeze};
pub use thawing::{Thawed, thaw};

/// The image that `freeze` writes of events that, in the order of their stamps and nodes, are a run of the script is
/// one that `thaw` makes the world after that run of.
pub fn frozen_worlds_thaw()
    ensures { FrozenWorldsThaw }
{}
