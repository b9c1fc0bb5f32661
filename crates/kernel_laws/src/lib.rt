//! Laws of the kernel's definitions: what a reader would ask of them, each the contract of a function that does
//! nothing. `specs/` has the statements. A reachable kernel is one that a legal history leads to.
#![tactic(auto)]

ghost use Rattle.kernel_laws.specs.Lives.{LivesGoOneWay};
ghost use Rattle.kernel_laws.specs.Numbers.{UsedNumbersStay, RemovedQueuesStayRemoved, RemovedSetsStayRemoved, QueueRemovalsLast, SetRemovalsLast};
ghost use Rattle.kernel_laws.specs.Once.{ChildrenAreListedOnce};
ghost use Rattle.kernel_laws.specs.Processes.{ReachableKernelsAreValid, EntriesKeepValidity, SignalsAreSound, ChildrenHaveOneParent};
ghost use Rattle.kernel_laws.specs.Queues.{QueuesAreWithinLimits};
ghost use Rattle.kernel_laws.specs.Refusal.{RefusalsChangeNothing};
ghost use Rattle.kernel_laws.specs.Sets.{SetsAreWithinLimits};

/// A call that fails leaves the kernel as it was. Only a doomed caller that lives on has then had its last turn
/// before its end, as after each call.
pub fn refusals_change_nothing()
    ensures { RefusalsChangeNothing }
{}

/// Each reachable kernel is valid: the maps are by rising number, numbers that lead to something are used ones,
/// keys lead to what is there and no two to the same, each living process's signals are sound and its allowance is
/// free exactly where it isn't doomed, and who is listed as living lives, who is listed as ended has ended so, each
/// by one process only.
pub fn reachable_kernels_are_valid()
    ensures { ReachableKernelsAreValid }
{}

/// Each entry leads from a valid kernel in which no process lists itself to one of that kind, whether a history
/// leads to it or not.
pub fn entries_keep_validity()
    ensures { EntriesKeepValidity }
{}

/// In each reachable kernel no pending signal of a living process has an action that discards it, and KILL is in no
/// mask and has its default action.
pub fn signals_are_sound()
    ensures { SignalsAreSound }
{}

/// In each reachable kernel a process's parent is a living process that lists it; whoever lists it is its parent, so
/// that none has two; and no process lists itself.
pub fn children_have_one_parent()
    ensures { ChildrenHaveOneParent }
{}

/// In each reachable kernel no process lists a child twice, neither among the living ones nor among the ended ones.
pub fn children_are_listed_once()
    ensures { ChildrenAreListedOnce }
{}

/// A process that has ended stays so, with the same ending, until it is gone, and one that is gone stays gone: its
/// number never leads to a living process again.
pub fn lives_go_one_way()
    ensures { LivesGoOneWay }
{}

/// In each reachable kernel a queue's texts have at most 16,384 bytes together and at most 4,096 each, there are at
/// most 1,024 of them, and each message's type is at least 1.
pub fn queues_are_within_limits()
    ensures { QueuesAreWithinLimits }
{}

/// In each reachable kernel a semaphore set has between 1 and 64 semaphores, and each value is at most 32,767.
pub fn sets_are_within_limits()
    ensures { SetsAreWithinLimits }
{}

/// The numbers of processes, queues and sets that were used stay used along each history.
pub fn used_numbers_stay()
    ensures { UsedNumbersStay }
{}

/// After an entry that removes a queue, no later kernel has a queue of its number.
pub fn queue_removals_last()
    ensures { QueueRemovalsLast }
{}

/// After an entry that removes a semaphore set, no later kernel has a set of its number.
pub fn set_removals_last()
    ensures { SetRemovalsLast }
{}

/// A queue that was there at one point of a legal history and isn't at a later one is never there again: its
/// number isn't given out a second time.
pub fn removed_queues_stay_removed()
    ensures { RemovedQueuesStayRemoved }
{}

/// A semaphore set that was there at one point of a legal history and isn't at a later one is never there again.
pub fn removed_sets_stay_removed()
    ensures { RemovedSetsStayRemoved }
{}
