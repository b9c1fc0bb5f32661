//! In each world of a run all nodes are within limits, and so is every frame on its way. It is kept event by event,
//! with no thought of the world's invariant, so it can stand beside that. Nothing runs here.
#![tactic(auto)]

ghost use Rattle.world_limit_laws.specs.Within.{EventsKeepLimits, OpeningWorldsAreWithinLimits};

/// At first each node is within limits, and nothing is on its way.
pub fn opening_worlds_are_within_limits()
    ensures { OpeningWorldsAreWithinLimits }
{}

/// An enabled event of a sound script leads from a world within limits to one.
pub fn events_keep_limits()
    ensures { EventsKeepLimits }
{}
