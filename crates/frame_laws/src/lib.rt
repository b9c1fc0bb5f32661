//! Every frame on its way is within the limits of frames, so that each has a spelling. Nothing runs here.
#![tactic(auto)]

ghost use Rattle.frame_laws.specs.Laws.{FramesAreWithinLimits};

/// In each world that a run of a sound script leads to, every frame on its way is within the limits that `encode` asks
/// for.
pub fn frames_are_within_limits()
    ensures { FramesAreWithinLimits }
{}
