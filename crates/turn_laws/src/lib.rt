//! What a node's turn does in a world that a run of a sound script leads to, for nodes that make their turns in threads
//! of their own: each sees only itself and the frame that it takes, and the rest is said here. Nothing runs here.
#![tactic(auto)]

ghost use Rattle.turn_laws.specs.AgreeingLogs.{AgreeingLogsAreConsistent, AgreeingLogsAreRuns};
ghost use Rattle.turn_laws.specs.Forkers.{ForkersFork, OneForks};
ghost use Rattle.turn_laws.specs.Laws.{EnabledTurnsHaveSteps, RunsAreFew, SendsGoToOthers, UnbornTakeTheirCheckpoint};

/// The node that forks another is a node of the script, and its block forks the other's.
pub fn forkers_fork()
    ensures { ForkersFork }
{}

/// In a sound script no other node's block does.
pub fn one_forks()
    ensures { OneForks }
{}

/// A turn sends frames to other nodes of the script alone, each within the limits of frames.
pub fn sends_go_to_others()
    ensures { SendsGoToOthers }
{}

/// Where a node's process can start a call, or the node is born or takes a Checkpoint, it has a rule for the call or
/// the frame.
pub fn enabled_turns_have_steps()
    ensures { EnabledTurnsHaveSteps }
{}

/// A node that isn't born finds first, in the stream from the node whose block forks its own, its Checkpoint.
pub fn unborn_take_their_checkpoint()
    ensures { UnbornTakeTheirCheckpoint }
{}

/// A run has at most 640,000 events.
pub fn runs_are_few()
    ensures { RunsAreFew }
{}

/// Where each node's log is the machine's, its stamps rise, and each frame was taken in the order of sending and later
/// than it was sent, the logs are consistent: that frames go to nodes of the script alone, and come from them, needn't
/// be asked.
pub fn agreeing_logs_are_consistent()
    ensures { AgreeingLogsAreConsistent }
{}

/// So their merge is one run of the machine, whose nodes, frames on their way and journal are those of the logs.
pub fn agreeing_logs_are_runs()
    ensures { AgreeingLogsAreRuns }
{}
