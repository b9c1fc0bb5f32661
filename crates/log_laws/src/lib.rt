//! The law of merged logs: what nodes did each by itself, in threads of their own say, is one run of the machine. No
//! call runs here.
#![tactic(auto)]

ghost use Rattle.log_laws.specs.Drawn.{StampsAreFew};
ghost use Rattle.log_laws.specs.EventLogs.{EventLogsMayMerge, EventsMergeAsTurns};
ghost use Rattle.log_laws.specs.Follows.{EventsFollow, JournalsFollow, LogsLeadThere};
ghost use Rattle.log_laws.specs.Laws.{LogsMayMerge, ConsistentLogsAreRuns, MergedLogsAreRuns, OneJournal};

/// The logs of a script's nodes are what `stamp_merge` asks for where the stamps of each rise.
pub fn logs_may_merge()
    ensures { LogsMayMerge }
{}

/// Where each node's log is the machine's, its stamps rise, and each frame was taken in the order of sending and later
/// than it was sent, the turns of all logs by stamp and node are one run of the machine from the opening world: each
/// event is enabled when it comes.
pub fn consistent_logs_are_runs()
    ensures { ConsistentLogsAreRuns }
{}

/// So `stamp_merge`'s merge of the logs of a script's nodes is one run of the machine, where the logs are consistent.
pub fn merged_logs_are_runs()
    ensures { MergedLogsAreRuns }
{}

/// Where the nodes share a journal in which stamps don't fall and events of different nodes have different stamps, its
/// entries are those of that run, in its order.
pub fn one_journal()
    ensures { OneJournal }
{}

/// The logs of events that a script's nodes keep are what `stamp_merge` asks for where the stamps of each rise.
pub fn event_logs_may_merge()
    ensures { EventLogsMayMerge }
{}

/// `stamp_merge`'s merge of the nodes' events is that of the nodes' turns: each event is that of a turn, under the
/// stamp and the node of it, and these turns in their order are the merge of the logs.
pub fn events_merge_as_turns()
    ensures { EventsMergeAsTurns }
{}

/// Where each stamp is the next one to 0 or to that of some turn, the turn at place i of a merge, from 1, has a stamp
/// of at most i, and so no stamp is above the number of turns.
pub fn stamps_are_few()
    ensures { StampsAreFew }
{}

/// Where the events of a merge of consistent logs lead to a world, its nodes, what is on its way there, and its
/// journal are what the logs say.
pub fn logs_lead_there()
    ensures { LogsLeadThere }
{}

/// An event that is enabled in that world, under a stamp above all others, is one turn more behind its node's log: the
/// logs are consistent again, their merge has it as its last turn, and they lead to the world behind the event. Each
/// frame that is sent there goes to a node of the script.
pub fn events_follow()
    ensures { EventsFollow }
{}

/// The entries of such a turn, under its stamp and its node, stand behind all others in the journal of the logs.
pub fn journals_follow()
    ensures { JournalsFollow }
{}
