//! A node whose state is within limits sends frames within the limits of frames alone, and stays within limits,
//! whatever frames come, in whatever order: what a rule sends needs no test, but for those of what may come. Nothing is
//! asked of the world, of other nodes or of the kernel. Nothing runs here.
#![tactic(auto)]

ghost use Rattle.limit_laws.specs.Laws.{OpeningNodesAreWithinLimits, RunningKeepsLimits, SentFramesPass, TakingKeepsLimits};

/// Each node begins within limits.
pub fn opening_nodes_are_within_limits()
    ensures { OpeningNodesAreWithinLimits }
{}

/// A node of a sound script that takes a frame sends frames within the limits and stays within its own: a frame that
/// may not come has no step.
pub fn taking_keeps_limits()
    ensures { TakingKeepsLimits }
{}

/// So does one that starts a call.
pub fn running_keeps_limits()
    ensures { RunningKeepsLimits }
{}

/// What such a node has sent passes the tests of limits at who takes it, so they refuse nothing that nodes say.
pub fn sent_frames_pass()
    ensures { SentFramesPass }
{}
