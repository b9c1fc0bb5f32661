//! Laws of POSIX message queues over System V's, each the contract of a function that does nothing. `specs/` has the
//! statements.
#![tactic(auto)]

ghost use Rattle.mq_laws.specs.Histories.{HistoriesAreLegal, HistoriesFit, HistoriesFitWhole};
ghost use Rattle.mq_laws.specs.Together.{KernelsStepTogether};

/// From kernels that are alike, a call of the script of System V and the call for which it stands have a result both or
/// neither. The outcome is the same as the one shows the other, and the kernels are alike again. A call that its
/// arguments refuse does what the look at the pending signals does that stands in its place.
pub fn kernels_step_together()
    ensures { KernelsStepTogether }
{}

/// Where a journal is legal and fits the script of System V that runs a given script, the history of POSIX message
/// queues that it stands for is legal.
pub fn histories_are_legal()
    ensures { HistoriesAreLegal }
{}

/// And that history fits the given script.
pub fn histories_fit()
    ensures { HistoriesFit }
{}

/// It fits to its end where the journal does.
pub fn histories_fit_whole()
    ensures { HistoriesFitWhole }
{}
