//! What holds of every run of the machine, as the run of a script uses it.
ghost use Rattle.world_core.specs.Laws.{RestIsWhereNothingIsChosen};
ghost use Rattle.rest_laws.specs.Laws.{NamesHaveOneOwner, NeverWaitsNeverStalls, NoneLivesUnlessStalled, RestIsQuiet, RestIsWhole, SomebodyWaitsWhereStalled, WhoLivesAtRestWaits};
ghost use Rattle.run_laws.specs.Laws.{JournalsAreLegal, RunsAreShort};
ghost use Rattle.mq_laws.specs.Histories.{HistoriesAreLegal, HistoriesFitWhole};
ghost use Rattle.pico_cmd.specs.Laws.{ThawOfFreezeIsSim};

use mq_laws::{histories_are_legal, histories_fit_whole};
use rest_laws::{
    names_have_one_owner, never_waits_never_stalls, none_lives_unless_stalled, rest_is_quiet,
    rest_is_whole, somebody_waits_where_stalled, who_lives_at_rest_waits,
};
use run_laws::{journals_are_legal, runs_are_short};
use world_core::rest_is_where_nothing_is_chosen;

/// The laws of runs, in one place: it does nothing.
pub fn laws()
    ensures legal { JournalsAreLegal }
    ensures quiet { RestIsQuiet }
    ensures waits { WhoLivesAtRestWaits }
    ensures ended { NoneLivesUnlessStalled }
    ensures left { SomebodyWaitsWhereStalled }
    ensures never { NeverWaitsNeverStalls }
    ensures whole { RestIsWhole }
    ensures owners { NamesHaveOneOwner }
    ensures short { RunsAreShort }
    ensures rest { RestIsWhereNothingIsChosen }
{
    journals_are_legal();
    rest_is_quiet();
    who_lives_at_rest_waits();
    none_lives_unless_stalled();
    somebody_waits_where_stalled();
    never_waits_never_stalls();
    rest_is_whole();
    names_have_one_owner();
    runs_are_short();
    rest_is_where_nothing_is_chosen();
}

/// The laws of histories of POSIX message queues over those of System V: it does nothing.
pub fn queue_laws()
    ensures legal { HistoriesAreLegal }
    ensures whole { HistoriesFitWhole }
{
    histories_are_legal();
    histories_fit_whole();
}

/// What is frozen, after however many events, is thawed as its script is simulated: where `thaw` and `sim` answer, both
/// answer the same.
pub fn thawing_is_simulating()
    ensures { ThawOfFreezeIsSim }
{
    laws();
}
