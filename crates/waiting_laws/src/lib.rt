//! Laws of the kernel in which callers wait, each the contract of a function that does nothing. `specs/` has the
//! statements.
#![tactic(auto)]

ghost use Rattle.waiting_laws.specs.Before.{CallsAreAsBefore, HistoriesAreAsBefore};
ghost use Rattle.waiting_laws.specs.Carried.{LooksWakeNobody, NodesDontMatter, ParkingAddsOne};
ghost use Rattle.waiting_laws.specs.Fits.{HistoriesFitByLines};
ghost use Rattle.waiting_laws.specs.Lines.{EntriesLeadInLine, LinesGoOn, LinesHaveOneEnd, ReachableKernelsParkWaits};
ghost use Rattle.waiting_laws.specs.MarkMoves.{ReachableEntriesMoveMarks};
ghost use Rattle.waiting_laws.specs.Order.{WakesGoInOrder};
ghost use Rattle.waiting_laws.specs.Parked.{ReachableMarksAreWaits, ReachableWaitsFindNothing};
ghost use Rattle.waiting_laws.specs.Places.{PlacesAreMarks};
ghost use Rattle.waiting_laws.specs.Removals.{QueueRemovalsWakeAll, SetRemovalsWakeAll, WithdrawalsLeaveTheRest};
ghost use Rattle.waiting_laws.specs.Settled.{EntriesSettle, ReachableKernelsAreSettled};
ghost use Rattle.waiting_laws.specs.Sound.{EntriesKeepSoundness};
ghost use Rattle.waiting_laws.specs.Woken.{ReachableEntriesWakeRightly};

/// Where nobody waits, a call that can't park does what it does in a kernel without callers that wait: the same reply,
/// nobody woken, and the same kernel, in which nobody waits either. A withdrawal has no result in either.
pub fn calls_are_as_before()
    ensures { CallsAreAsBefore }
{}

/// So each history that is legal in a kernel without callers that wait is legal here, and one without a call that may
/// park is legal here only if it is there.
pub fn histories_are_as_before()
    ensures { HistoriesAreAsBefore }
{}

/// Each entry leads from a kernel in which nobody waits whose call could go on to one of that kind.
pub fn entries_settle()
    ensures { EntriesSettle }
{}

/// So in each kernel that a legal history leads to, nobody waits whose call could go on.
pub fn reachable_kernels_are_settled()
    ensures { ReachableKernelsAreSettled }
{}

/// In each kernel that a legal history leads to, a process is marked as parked with a call at a queue or a set exactly
/// where it is among those who wait there, with that call, and nobody waits twice at one.
pub fn reachable_marks_are_waits()
    ensures { ReachableMarksAreWaits }
{}

/// In each kernel that a legal history leads to, a process that is parked in `waitpid` has no ended child that matches,
/// and a living one that does.
pub fn reachable_waits_find_nothing()
    ensures { ReachableWaitsFindNothing }
{}

/// Behind each legal history, whom an entry wakes was parked and isn't any more, is another process than the caller,
/// and is woken once.
pub fn entries_wake_rightly()
    ensures { ReachableEntriesWakeRightly }
{}

/// Behind each legal history, an entry leaves its caller parked with its call where that has no reply, and not parked
/// else; whoever is woken isn't parked any more, and all others are as they were.
pub fn entries_move_marks()
    ensures { ReachableEntriesMoveMarks }
{}

/// In each legal history that fits a script, a process's call that is due waits exactly where the process is parked.
pub fn places_are_marks()
    ensures { PlacesAreMarks }
{}

/// Who removes a queue has the reply 0, each who waits there is woken with EIDRM, in order, and there is no such queue
/// any more.
pub fn queue_removals_wake_all()
    ensures { QueueRemovalsWakeAll }
{}

/// The same for a semaphore set.
pub fn set_removals_wake_all()
    ensures { SetRemovalsWakeAll }
{}

/// A withdrawal has the reply EINTR and wakes nobody. The queue or set is as it was but for the process that waited
/// there; all others, the keys, the numbers used, and the processes but for this one's marks are as they were.
pub fn withdrawals_leave_the_rest()
    ensures { WithdrawalsLeaveTheRest }
{}

/// A call on a queue or a set does the same whether those who wait there have nodes and tickets or not: the same state,
/// the same who go on waiting, the same reply, and the same wakes in the same order.
pub fn nodes_dont_matter()
    ensures { NodesDontMatter }
{}

/// A call on a queue or a set that has no reply leaves it as it was, with the caller behind those who wait, and wakes
/// nobody.
pub fn parking_adds_one()
    ensures { ParkingAddsOne }
{}

/// A call that leaves a queue or a set as it was wakes nobody, where nobody waits there whose call could go on.
pub fn looks_wake_nobody()
    ensures { LooksWakeNobody }
{}

/// Behind a call on a queue or a set that has its reply, the first of those who wait there whose call can go on does so
/// and has its reply, and so again from what that leaves, until nobody there can go on. So each who is woken is woken
/// once, behind all who parked before it and could go on then.
pub fn wakes_go_in_order()
    ensures { WakesGoInOrder }
{}

/// Each entry leads from a sound kernel to one, whether a history leads to it or not: without those who wait it is a
/// valid kernel in which no process lists itself, a process is parked exactly where it is among those who wait, and
/// nobody waits whose call could go on.
pub fn entries_keep_soundness()
    ensures { EntriesKeepSoundness }
{}

/// In each kernel that a legal history leads to, nobody is parked but with a call that may have to wait.
pub fn reachable_kernels_park_waits()
    ensures { ReachableKernelsParkWaits }
{}

/// In line, an entry is its caller's call, where that has its reply, and then the calls of those whom it wakes, each
/// with its reply. From a kernel in which nobody waits, and which is alike, these lead to one that is alike again.
pub fn entries_lead_in_line()
    ensures { EntriesLeadInLine }
{}

/// Lines lead to one kernel and no other.
pub fn lines_have_one_end()
    ensures { LinesHaveOneEnd }
{}

/// A legal history with one more entry has, in line, that entry's lines behind those before.
pub fn lines_go_on()
    ensures { LinesGoOn }
{}

/// A legal history fits a script where, in line, it does, and the calls that wait at its end are those that are due.
/// Each process is then at the same place of its block.
pub fn histories_fit_by_lines()
    ensures { HistoriesFitByLines }
{}
