//! The law of a call's footprint where callers wait: the parts of the kernel that the call looks at and changes, with
//! the marks of those whom it may wake. `specs/` has the statements. No call runs here.
#![tactic(auto)]

ghost use Rattle.waiting_footprint_laws.specs.Law.{FootprintLaw};
ghost use Rattle.waiting_footprint_laws.specs.Valid.{ReachableKernelsAreValid};

use waiting_laws::reachable_waits_find_nothing;

/// Two valid kernels in which callers wait that agree on a call's footprint, with the call's new number unused in both,
/// make the same step or none: the reply and whom the call wakes are the same, or it parks in both; they agree on the
/// footprint afterwards, and the rest of each stays.
pub fn footprint_law()
    ensures { FootprintLaw }
{}

/// Each kernel that a legal history leads to is valid.
pub fn reachable_kernels_are_valid()
    ensures { ReachableKernelsAreValid }
{
    reachable_waits_find_nothing();
}
