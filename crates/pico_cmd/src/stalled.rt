//! How runs are left: each process has ended, or some wait for good.
ghost use Rattle.std.specs.Prelude.{◌≡◌, IsSome};
ghost use Rattle.std.specs.List.{AllByRecursion};
ghost use Rattle.pico_cmd.specs.Stalled.{are_left_stalled, is_left_stalled, status_left};

use crate::status::Status;
use pico_run::Rested;

/// The status of a run that is left so.
pub fn status_left(stalled: bool) -> Status
    ensures { result ≡ status_left stalled }
{
    if stalled {
        Status::Stalled
    } else {
        Status::Done
    }
}

/// Whether processes wait for good where a run with threads has come to rest.
pub fn is_left_stalled(rested: &Rested) -> bool
    requires whole { IsSome rested.now.world }
    ensures { result ≡ is_left_stalled rested.now }
{
    rested.world.is_stalled()
}

/// Whether they do in one of these runs.
pub fn are_left_stalled(rested: &[Rested]) -> bool
    requires whole { AllByRecursion (λ r. IsSome r.world) rested.now }
    ensures { result ≡ are_left_stalled rested.now }
{
    for one in rested {
        if is_left_stalled(one) {
            return true;
        }
    }
    false
}
