//! What holds of every run of the whole machine with a sound script, whatever the schedule. It follows from one
//! invariant, which each rule keeps. Nothing runs here.
#![tactic(auto)]

ghost use Rattle.run_laws.specs.Laws.{JournalsAreLegal, EnabledEventsHaveSteps, RunsAreShort, WorldsHaveTheInvariant, SchedulesAreRuns};

/// The journal of each world that a run leads to is one history of a single POSIX kernel, and each process's calls
/// stand in it once and in order.
pub fn journals_are_legal()
    ensures { JournalsAreLegal }
{}

/// Each enabled event of a run has a step: no frame comes to a node that has no rule for it, and no call is due that
/// has none.
pub fn enabled_events_have_steps()
    ensures { EnabledEventsHaveSteps }
{}

/// Each world that a run leads to has the invariant, with something beside it.
pub fn worlds_have_the_invariant()
    ensures { WorldsHaveTheInvariant }
{}

/// A run has at most 32 events for each call of its script.
pub fn runs_are_short()
    ensures { RunsAreShort }
{}

/// What a schedule takes is a run: it chooses among the enabled events.
pub fn schedules_are_runs()
    ensures { SchedulesAreRuns }
{}
