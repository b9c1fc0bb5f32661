//! What a world of a run has where nothing can happen any more, and who owns which name. It follows from the invariant,
//! and from what nodes other than the leader know, which is nothing of the leader's.
#![tactic(auto)]

ghost use Rattle.rest_laws.specs.Laws.{NamesHaveOneOwner, NeverWaitsNeverStalls, NoneLivesUnlessStalled, RestIsQuiet, RestIsWhole, SomebodyWaitsWhereStalled, WhoLivesAtRestWaits};

/// In each world that a run leads to, a process, a queue or a set has exactly one owner from the entry on that makes
/// it, and a number that names nothing has none.
pub fn names_have_one_owner()
    ensures { NamesHaveOneOwner }
{}

/// Where no event is enabled any more, nothing is on its way, the leader holds nothing, and each node has left, or was
/// never born, or a call of its process waits; node 1 goes on.
pub fn rest_is_quiet()
    ensures { RestIsQuiet }
{}

/// There the journal has the calls of each process to its end, or to the call in which it waits.
pub fn rest_is_whole()
    ensures { RestIsWhole }
{}

/// Who lives in the kernel that the journal replays to waits, and no signal has doomed it.
pub fn who_lives_at_rest_waits()
    ensures { WhoLivesAtRestWaits }
{}

/// And no process lives there, where the world isn't stalled.
pub fn none_lives_unless_stalled()
    ensures { NoneLivesUnlessStalled }
{}

/// Where it is stalled, some process lives.
pub fn somebody_waits_where_stalled()
    ensures { SomebodyWaitsWhereStalled }
{}

/// A script in which no line may have to wait is never stalled at rest.
pub fn never_waits_never_stalls()
    ensures { NeverWaitsNeverStalls }
{}
