//! An image becomes a world again.
ghost use Rattle.std.specs.Prelude.{◌≡◌, ℕ, Option, IfOk, IfSome, IsSome, None};
ghost use Rattle.world_model.specs.World.{World as MachineWorld};
ghost use Rattle.world_image.specs.Thawing as spec;
ghost use Rattle.world_image.specs.Thaws.{IsThawOf, IsThawedAs};

use image_text::{ImageFault, ImageStop, Placed, Said, read_image};
use pico_base::Node;
use stamp_merge::Stamped;
use std::alloc::Global;
use world_core::World;

/// A world that was thawed.
#[derive(Drop)]
pub struct Thawed {
    pub world: World,
    /// The node of the last event; none where there is no event.
    pub last: Option<Node>,
}

/// A line whose event may not come where it comes.
fn not_enabled(line: u32) -> ImageStop
    ensures { result ≡ spec.not_enabled line }
{
    ImageStop::At {
        line,
        fault: ImageFault::NotEnabled,
    }
}

/// Carries out these events, and gives the node of the last one.
fn step_all(world: &mut World, events: &[Stamped<Placed>]) -> Result<Option<Node>, ImageStop>
    requires { IsSome world.old }
    ensures { IfSome world.old (λ w. spec.Leads result world.new (spec.behind w None events.now)) }
{
    let mut last = None;
    for event in events {
        if !world.enabled(event.item.event) {
            return Err(not_enabled(event.item.line));
        }
        world.step(event.item.event)?;
        last = Some(event.node);
    }
    Ok(last)
}

/// The world of an image, or its first fault, with its line.
#[tactic(auto, unfolding(crate::specs::Thawing::thawed))]
fn thaw_or_stop(alloc: Global, image: &[u8]) -> Result<Thawed, ImageStop>
    ensures { spec.Gives result (spec.thawed image.now) }
{
    let Said { script, events } = read_image(alloc, image)?;
    let mut world = World::start(alloc, script)?;
    let last = step_all(&mut world, events.as_slice())?;
    Ok(Thawed { world, last })
}

/// The world of an image: that of its script after its events, in the order of their stamps, and of their nodes where
/// stamps are the same.
///
/// A fault of the script comes first, with its line. Else `NotAnImage` comes at the line of the first byte past
/// 16,777,216, or else at the first line behind the script outside the grammar of an image, which is the number of
/// lines plus 1 where lines are missing; else `NotRising` at the first line whose stamp isn't above that of the one
/// before it of the same node; and else `NotEnabled` at the line of the first event, in their order, that may not come
/// where it comes. `Memory` comes from want of memory alone.
pub fn thaw(alloc: Global, image: &[u8]) -> Result<Thawed, ImageStop>
    ensures gives { spec.Gives result (spec.thawed image.now) }
    // What is thawed is the world that the image's events lead to,
    ensures ok { IfOk result (λ t. IfSome t.world (λ w. IsThawOf image.now w t.last)) }
    ensures whole { IfOk result (λ t. IsSome t.world) }
    // and each image whose events are a run is thawed, unless memory runs out.
    ensures only { (w : MachineWorld) (last : Option ℕ) → IsThawOf image.now w last → IsThawedAs w last result }
{
    thaw_or_stop(alloc, image)
}
