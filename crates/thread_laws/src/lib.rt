//! What nodes did in threads of their own is one run of the machine: laws of the time after the threads have ended,
//! when both ends of each stream are together again and the journal is closed. No call runs here.
#![tactic(auto)]

ghost use Rattle.thread_laws.specs.Laws.{NodesMayMerge, ThreadsMakeARun, StepsFollow};

use piece_laws::{taken_are_sent, the_next_is_sent};
use turn_laws::{
    enabled_turns_have_steps, forkers_fork, runs_are_few, sends_go_to_others,
    unborn_take_their_checkpoint,
};

/// The logs that the nodes kept are what `stamp_merge` asks for: in each the stamps rise, and each is of another node.
pub fn nodes_may_merge()
    ensures { NodesMayMerge }
{}

/// The merge of the logs is a run of the machine: the logs are consistent, and their turns lead to a world. The
/// journal is theirs, and its entries are that world's. No stamp is above the number of turns, and no node met a
/// fault: each bad frame, refused line or last stamp would contradict what all nodes did together.
pub fn threads_make_a_run()
    ensures { ThreadsMakeARun }
{
    taken_are_sent();
    the_next_is_sent();
    sends_go_to_others();
    enabled_turns_have_steps();
    forkers_fork();
    unborn_take_their_checkpoint();
    runs_are_few();
}

/// An event that is enabled behind such a run, under a stamp above all others, is one turn more at the end of its
/// node's log, and the logs with it lead to the world behind the event.
pub fn steps_follow()
    ensures { StepsFollow }
{
    sends_go_to_others();
}
