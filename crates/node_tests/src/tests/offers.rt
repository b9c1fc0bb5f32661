//! The frames that a child and the leader are offered, each with a name. Those that are wrong in one thing are named by
//! their kind and by that, as are further ones that are right.
use super::wires::{Body, Deed, Do, Named, Who, Wire};
use pico_base::{Kind, Sig};

/// A frame with its name.
pub(super) type Row = (&'static str, Wire);

// ---- bodies

/// A new process's: no signals, no children.
pub(super) const NEW: Body = &[(1, 1), (0, 57)];
/// One byte too few, and one too many.
const SHORT: Body = &[(1, 1), (0, 56)];

const LONG: Body = &[(1, 1), (0, 58)];
/// It ignores KILL, masks it, and has KILL pending.
const KILL_IGNORED: Body = &[(1, 1), (0, 3), (1, 1), (0, 53)];

const KILL_MASKED: Body = &[(1, 1), (0, 11), (8, 1), (0, 45)];

const KILL_PENDING: Body = &[(1, 1), (0, 13), (8, 1), (0, 43)];
/// USR1 is pending, and is ignored.
const IGNORED_PENDING: Body = &[(1, 1), (0, 4), (1, 1), (0, 8), (16, 1), (0, 43)];
/// An action, a set and a doom that are none.
const NO_ACTION: Body = &[(1, 1), (3, 1), (0, 56)];

const NO_SET: Body = &[(1, 1), (0, 10), (4, 1), (0, 46)];

const NO_DOOM: Body = &[(1, 1), (0, 54), (11, 1), (0, 2)];
/// It is doomed by TERM.
const DOOMED: Body = &[(1, 1), (0, 54), (9, 1), (0, 2)];
/// It has the living child 9; and the child 9, which has ended.
const PARENT_OF_9: Body = &[(1, 1), (0, 55), (1, 1), (0, 3), (9, 1), (0, 1)];

const KEEPS_9: Body = &[(1, 1), (0, 56), (1, 1), (0, 3), (9, 1), (0, 2)];
/// A process that has ended with status 7, and one that is gone.
const ENDED: Body = &[(2, 1), (0, 1), (7, 1)];

const GONE: Body = &[(3, 1)];
/// An empty queue of 16,384 bytes, at which nobody waits; with one byte too many of those; and with a message that
/// isn't there.
pub(super) const QUEUE: Body = &[(4, 1), (0, 2), (64, 1), (0, 12)];

const GREAT_QUEUE: Body = &[(4, 1), (0, 2), (64, 1), (1, 1), (0, 11)];

const QUEUE_WITHOUT_ITS_MESSAGE: Body = &[(4, 1), (0, 2), (64, 1), (0, 10), (1, 1), (0, 1)];
/// An empty queue at which process 9 waits in a receive, on node 3; and so on node 9, where no node is.
const AWAITED: Body = &[
    (4, 1),
    (0, 2),
    (64, 1),
    (0, 11),
    (1, 1),
    (3, 1),
    (0, 3),
    (1, 1),
    (0, 3),
    (9, 1),
    (4, 1),
    (0, 3),
    (1, 1),
    (0, 7),
    (8, 1),
    (0, 2),
];

const AWAITED_FROM_NOWHERE: Body = &[
    (4, 1),
    (0, 2),
    (64, 1),
    (0, 11),
    (1, 1),
    (9, 1),
    (0, 3),
    (1, 1),
    (0, 3),
    (9, 1),
    (4, 1),
    (0, 3),
    (1, 1),
    (0, 7),
    (8, 1),
    (0, 2),
];
/// The same queue with a message of type 1 and no text, which the one who waits could have; and with 33 who wait.
const COULD_GO_ON: Body = &[
    (4, 1),
    (0, 2),
    (64, 1),
    (0, 10),
    (1, 1),
    (0, 3),
    (1, 1),
    (0, 2),
    (1, 1),
    (3, 1),
    (0, 3),
    (1, 1),
    (0, 3),
    (9, 1),
    (4, 1),
    (0, 3),
    (1, 1),
    (0, 7),
    (8, 1),
    (0, 2),
];

const AWAITED_BY_33: Body = &[(4, 1), (0, 2), (64, 1), (0, 11), (33, 1)];
/// Process 9 waits there twice.
const AWAITED_TWICE: Body = &[
    (4, 1),
    (0, 2),
    (64, 1),
    (0, 11),
    (2, 1),
    (3, 1),
    (0, 3),
    (1, 1),
    (0, 3),
    (9, 1),
    (4, 1),
    (0, 3),
    (1, 1),
    (0, 7),
    (8, 1),
    (0, 2),
    (3, 1),
    (0, 3),
    (2, 1),
    (0, 3),
    (9, 1),
    (4, 1),
    (0, 3),
    (1, 1),
    (0, 7),
    (8, 1),
    (0, 2),
];
/// A set of one semaphore; with a value of 32,768; and without a semaphore.
const SET: Body = &[(5, 1), (1, 1), (0, 7)];

const GREAT_SET: Body = &[(5, 1), (1, 1), (128, 1), (0, 6)];

const EMPTY_SET: Body = &[(5, 1), (0, 2)];

const REMOVED: Body = &[(6, 1)];

const NOTHING: Body = &[];

// ---- names

pub(super) const P2: Named = Named::Proc(2);

const P9: Named = Named::Proc(9);

const P10: Named = Named::Proc(10);

const P8: Named = Named::Proc(8);

const P30: Named = Named::Proc(30);

const P40: Named = Named::Proc(40);

const Q0: Named = Named::Msg(0);

pub(super) const Q1: Named = Named::Msg(1);

const Q2: Named = Named::Msg(2);

const Q3: Named = Named::Msg(3);

pub(super) const Q12: Named = Named::Msg(12);

pub(super) const Q20: Named = Named::Msg(20);

const Q30: Named = Named::Msg(30);

const S1: Named = Named::Sem(1);

// ---- parcels' deeds

const NEW_2: &[Deed] = &[(P2, NEW)];

pub(super) const NEW_9: &[Deed] = &[(P9, NEW)];

const NEW_10: &[Deed] = &[(P10, NEW)];

const NEW_30: &[Deed] = &[(P30, NEW)];

const NEW_40: &[Deed] = &[(P40, NEW)];

const ENDED_2: &[Deed] = &[(P2, ENDED)];

const ENDED_9: &[Deed] = &[(P9, ENDED)];

const SHORT_2: &[Deed] = &[(P2, SHORT)];

const SHORT_9: &[Deed] = &[(P9, SHORT)];

const DOOMED_9: &[Deed] = &[(P9, DOOMED)];

pub(super) const PARENT_2: &[Deed] = &[(P2, PARENT_OF_9)];

const FAMILY_2: &[Deed] = &[(P2, PARENT_OF_9), (P9, ENDED)];

const FALLING_2: &[Deed] = &[(P40, ENDED), (P2, NEW)];

const WITH_QUEUE_2: &[Deed] = &[(P2, NEW), (Q12, QUEUE)];

const FAMILY_9: &[Deed] = &[(P9, NEW), (P40, ENDED)];

const LIVING_9: &[Deed] = &[(P9, NEW), (P40, NEW)];

const FALLING_9: &[Deed] = &[(P40, ENDED), (P9, NEW)];

const TWICE_9: &[Deed] = &[(P9, NEW), (P9, NEW)];

const WITH_QUEUE_9: &[Deed] = &[(P9, NEW), (Q30, QUEUE)];

const WITH_LEASED_9: &[Deed] = &[(P9, NEW), (P10, ENDED)];

const WITH_HELD_9: &[Deed] = &[(P2, GONE), (P9, NEW)];

// ---- frames to the child

/// Each kind of frame, as it could come.
pub(super) static CHILD_KINDS: [Row; 19] = [
    ("Ask", Wire::Ask(Do::Stat(1))),
    ("Request", Wire::Request(Do::Stat(1))),
    ("Forward", Wire::Forward(Who::Third, Do::Stat(1))),
    ("Bounce", Wire::Bounce(Who::Third, Do::Stat(1))),
    ("Answer", Wire::Answer(0)),
    ("NotOwner", Wire::NotOwner(0)),
    ("LeaseAsk", Wire::LeaseAsk(Kind::Proc)),
    ("Lease", Wire::Lease(Kind::Proc, 9)),
    ("Placed", Wire::Placed(Q1, Who::Third)),
    ("Checkpoint", Wire::Checkpoint(2, (P2, NEW))),
    ("Suggest", Wire::Suggest(Q1, Who::Third)),
    ("Recall", Wire::Recall(Q1)),
    ("GiveBack", Wire::GiveBack((Q1, QUEUE))),
    ("Grant", Wire::Grant((Q1, QUEUE))),
    ("Leaving", Wire::Leaving(9, 2, Who::Child)),
    ("RecallAll", Wire::RecallAll),
    ("Left", Wire::Left((9, 2, Do::Exit, NEW_9))),
    ("ExitTo", Wire::ExitTo((9, 2, Do::Exit, NEW_9))),
    ("Cancel", Wire::Cancel(Who::Third, Do::Withdraw(Q1))),
];

/// Calls that are asked for, withdrawals, and tickets.
pub(super) static CHILD_CALLS: [Row; 22] = [
    ("Request:own", Wire::Request(Do::GetPid)),
    ("Request:key", Wire::Request(Do::Get)),
    ("Request:removal", Wire::Request(Do::Remove(1))),
    ("Request:end", Wire::Request(Do::Exit)),
    ("Request:waits", Wire::Request(Do::Wait(1))),
    ("Request:withdraws", Wire::Request(Do::Withdraw(Q1))),
    ("Forward:own", Wire::Forward(Who::Third, Do::GetPid)),
    ("Forward:key", Wire::Forward(Who::Third, Do::Get)),
    ("Forward:removal", Wire::Forward(Who::Third, Do::Remove(1))),
    ("Forward:end", Wire::Forward(Who::Third, Do::Exit)),
    ("Forward:waits", Wire::Forward(Who::Third, Do::Wait(1))),
    (
        "Forward:withdraws",
        Wire::Forward(Who::Third, Do::Withdraw(Q1)),
    ),
    ("Forward:no-node", Wire::Forward(Who::Nobody, Do::Stat(1))),
    ("Cancel:own", Wire::Cancel(Who::Child, Do::Withdraw(Q1))),
    ("Cancel:of-0", Wire::Cancel(Who::Third, Do::Withdraw(Q0))),
    ("Cancel:process", Wire::Cancel(Who::Third, Do::Withdraw(P2))),
    ("Cancel:call", Wire::Cancel(Who::Third, Do::Wait(1))),
    (
        "Cancel:no-node",
        Wire::Cancel(Who::Nobody, Do::Withdraw(Q1)),
    ),
    ("Answer:next", Wire::Answer(1)),
    ("Answer:last", Wire::Answer(u32::MAX)),
    ("NotOwner:next", Wire::NotOwner(1)),
    ("NotOwner:last", Wire::NotOwner(u32::MAX)),
];

/// Numbers: of each kind, at both ends of what four bytes hold, and with one that is in use at the child.
pub(super) static CHILD_NUMBERS: [Row; 7] = [
    ("Lease:queues", Wire::Lease(Kind::Msg, 1)),
    ("Lease:sets", Wire::Lease(Kind::Sem, 1)),
    ("Lease:from-0", Wire::Lease(Kind::Proc, 0)),
    ("Lease:to-last", Wire::Lease(Kind::Proc, u32::MAX - 7)),
    ("Lease:past-last", Wire::Lease(Kind::Proc, u32::MAX - 6)),
    ("Lease:with-2", Wire::Lease(Kind::Proc, 2)),
    ("Lease:with-20", Wire::Lease(Kind::Msg, 17)),
];

/// Births by deeds that are none of a new process: of another name, or with other bytes.
pub(super) static CHILD_BIRTHS: [Row; 20] = [
    ("Checkpoint:of-9", Wire::Checkpoint(9, (P2, NEW))),
    ("Checkpoint:queue", Wire::Checkpoint(2, (Q2, QUEUE))),
    ("Checkpoint:queue's", Wire::Checkpoint(2, (Q2, NEW))),
    ("Checkpoint:as-queue", Wire::Checkpoint(2, (P2, QUEUE))),
    ("Checkpoint:ended", Wire::Checkpoint(2, (P2, ENDED))),
    ("Checkpoint:gone", Wire::Checkpoint(2, (P2, GONE))),
    ("Checkpoint:removed", Wire::Checkpoint(2, (P2, REMOVED))),
    ("Checkpoint:nothing", Wire::Checkpoint(2, (P2, NOTHING))),
    ("Checkpoint:short", Wire::Checkpoint(2, (P2, SHORT))),
    ("Checkpoint:long", Wire::Checkpoint(2, (P2, LONG))),
    ("Checkpoint:doomed", Wire::Checkpoint(2, (P2, DOOMED))),
    ("Checkpoint:parent", Wire::Checkpoint(2, (P2, PARENT_OF_9))),
    ("Checkpoint:keeps-9", Wire::Checkpoint(2, (P2, KEEPS_9))),
    (
        "Checkpoint:ignores",
        Wire::Checkpoint(2, (P2, KILL_IGNORED)),
    ),
    ("Checkpoint:masks", Wire::Checkpoint(2, (P2, KILL_MASKED))),
    ("Checkpoint:pends", Wire::Checkpoint(2, (P2, KILL_PENDING))),
    (
        "Checkpoint:kept",
        Wire::Checkpoint(2, (P2, IGNORED_PENDING)),
    ),
    ("Checkpoint:no-action", Wire::Checkpoint(2, (P2, NO_ACTION))),
    ("Checkpoint:no-set", Wire::Checkpoint(2, (P2, NO_SET))),
    ("Checkpoint:no-doom", Wire::Checkpoint(2, (P2, NO_DOOM))),
];

/// Queues and sets that move: not held, held, still to be given, with bytes of no body, and with those who wait there.
pub(super) static CHILD_MOVES: [Row; 20] = [
    ("Recall:process", Wire::Recall(P2)),
    ("Recall:not-held", Wire::Recall(Q30)),
    ("Recall:set", Wire::Recall(S1)),
    ("Grant:20", Wire::Grant((Q20, QUEUE))),
    ("Grant:leased", Wire::Grant((Q3, QUEUE))),
    ("Grant:set", Wire::Grant((S1, SET))),
    ("Grant:removed", Wire::Grant((Q30, REMOVED))),
    ("Grant:process", Wire::Grant((P9, NEW))),
    ("Grant:queue-as-set", Wire::Grant((S1, QUEUE))),
    ("Grant:set-as-queue", Wire::Grant((Q30, SET))),
    ("Grant:nothing", Wire::Grant((Q30, NOTHING))),
    ("Grant:great-queue", Wire::Grant((Q30, GREAT_QUEUE))),
    (
        "Grant:no-message",
        Wire::Grant((Q30, QUEUE_WITHOUT_ITS_MESSAGE)),
    ),
    ("Grant:great-set", Wire::Grant((S1, GREAT_SET))),
    ("Grant:no-semaphore", Wire::Grant((S1, EMPTY_SET))),
    ("Grant:awaited", Wire::Grant((Q30, AWAITED))),
    (
        "Grant:from-nowhere",
        Wire::Grant((Q30, AWAITED_FROM_NOWHERE)),
    ),
    ("Grant:could-go-on", Wire::Grant((Q30, COULD_GO_ON))),
    ("Grant:awaited-twice", Wire::Grant((Q30, AWAITED_TWICE))),
    ("Grant:awaited-by-33", Wire::Grant((Q30, AWAITED_BY_33))),
];

/// Parcels: of another process, for another parent, and with deeds that don't fit.
pub(super) static CHILD_ENDS: [Row; 18] = [
    (
        "ExitTo:killed",
        Wire::ExitTo((9, 2, Do::Killed(Sig::Term), DOOMED_9)),
    ),
    ("ExitTo:family", Wire::ExitTo((9, 2, Do::Exit, FAMILY_9))),
    (
        "ExitTo:by-hup",
        Wire::ExitTo((9, 2, Do::Killed(Sig::Hup), DOOMED_9)),
    ),
    (
        "ExitTo:no-doom",
        Wire::ExitTo((9, 2, Do::Killed(Sig::Term), NEW_9)),
    ),
    ("ExitTo:no-end", Wire::ExitTo((9, 2, Do::GetPid, NEW_9))),
    ("ExitTo:under-1", Wire::ExitTo((9, 1, Do::Exit, NEW_9))),
    ("ExitTo:not-listed", Wire::ExitTo((40, 2, Do::Exit, NEW_40))),
    ("ExitTo:leased", Wire::ExitTo((10, 2, Do::Exit, NEW_10))),
    ("ExitTo:of-40", Wire::ExitTo((40, 2, Do::Exit, NEW_9))),
    ("ExitTo:no-deeds", Wire::ExitTo((9, 2, Do::Exit, &[]))),
    ("ExitTo:ended", Wire::ExitTo((9, 2, Do::Exit, ENDED_9))),
    ("ExitTo:short", Wire::ExitTo((9, 2, Do::Exit, SHORT_9))),
    ("ExitTo:living", Wire::ExitTo((9, 2, Do::Exit, LIVING_9))),
    ("ExitTo:falling", Wire::ExitTo((9, 2, Do::Exit, FALLING_9))),
    ("ExitTo:twice", Wire::ExitTo((9, 2, Do::Exit, TWICE_9))),
    ("ExitTo:queue", Wire::ExitTo((9, 2, Do::Exit, WITH_QUEUE_9))),
    ("ExitTo:held", Wire::ExitTo((9, 2, Do::Exit, WITH_HELD_9))),
    (
        "ExitTo:family-leased",
        Wire::ExitTo((9, 2, Do::Exit, WITH_LEASED_9)),
    ),
];

// ---- frames to the leader

/// Each kind of frame, as it could come.
pub(super) static LEADER_KINDS: [Row; 19] = [
    ("Ask", Wire::Ask(Do::Stat(1))),
    ("Request", Wire::Request(Do::Stat(1))),
    ("Forward", Wire::Forward(Who::Third, Do::Stat(1))),
    ("Bounce", Wire::Bounce(Who::Third, Do::Stat(1))),
    ("Answer", Wire::Answer(0)),
    ("NotOwner", Wire::NotOwner(0)),
    ("LeaseAsk", Wire::LeaseAsk(Kind::Proc)),
    ("Lease", Wire::Lease(Kind::Msg, 1)),
    ("Placed", Wire::Placed(Q1, Who::Child)),
    ("Checkpoint", Wire::Checkpoint(2, (P2, NEW))),
    ("Suggest", Wire::Suggest(Q1, Who::Third)),
    ("Recall", Wire::Recall(Q1)),
    ("GiveBack", Wire::GiveBack((Q1, QUEUE))),
    ("Grant", Wire::Grant((Q1, QUEUE))),
    ("Leaving", Wire::Leaving(2, 1, Who::Leader)),
    ("RecallAll", Wire::RecallAll),
    ("Left", Wire::Left((2, 1, Do::Exit, PARENT_2))),
    ("ExitTo", Wire::ExitTo((2, 1, Do::Exit, PARENT_2))),
    ("Cancel", Wire::Cancel(Who::Third, Do::Withdraw(Q1))),
];

/// Calls that are asked for, withdrawals, and tickets.
pub(super) static LEADER_CALLS: [Row; 27] = [
    ("Ask:own", Wire::Ask(Do::GetPid)),
    ("Ask:key", Wire::Ask(Do::Get)),
    ("Ask:removal", Wire::Ask(Do::Remove(1))),
    ("Ask:end", Wire::Ask(Do::Killed(Sig::Term))),
    ("Ask:waits", Wire::Ask(Do::Wait(1))),
    ("Ask:withdraws", Wire::Ask(Do::Withdraw(Q1))),
    ("Request:own", Wire::Request(Do::GetPid)),
    ("Request:key", Wire::Request(Do::Get)),
    ("Request:removal", Wire::Request(Do::Remove(1))),
    ("Request:waits", Wire::Request(Do::Wait(1))),
    ("Request:withdraws", Wire::Request(Do::Withdraw(Q1))),
    ("Bounce:own", Wire::Bounce(Who::Third, Do::GetPid)),
    ("Bounce:key", Wire::Bounce(Who::Third, Do::Get)),
    ("Bounce:removal", Wire::Bounce(Who::Third, Do::Remove(1))),
    ("Bounce:end", Wire::Bounce(Who::Third, Do::Exit)),
    ("Bounce:waits", Wire::Bounce(Who::Third, Do::Wait(1))),
    (
        "Bounce:withdraws",
        Wire::Bounce(Who::Third, Do::Withdraw(Q1)),
    ),
    ("Bounce:no-node", Wire::Bounce(Who::Nobody, Do::Stat(1))),
    ("Cancel:own", Wire::Cancel(Who::Leader, Do::Withdraw(Q1))),
    ("Cancel:of-0", Wire::Cancel(Who::Third, Do::Withdraw(Q0))),
    ("Cancel:process", Wire::Cancel(Who::Third, Do::Withdraw(P2))),
    ("Cancel:call", Wire::Cancel(Who::Third, Do::Wait(1))),
    (
        "Cancel:no-node",
        Wire::Cancel(Who::Nobody, Do::Withdraw(Q1)),
    ),
    ("Answer:next", Wire::Answer(1)),
    ("Answer:last", Wire::Answer(u32::MAX)),
    ("NotOwner:next", Wire::NotOwner(1)),
    ("NotOwner:last", Wire::NotOwner(u32::MAX)),
];

/// Places and moves: of what can't move, to where nothing can be, with bytes of no body, and with those who wait there.
pub(super) static LEADER_MOVES: [Row; 14] = [
    ("Placed:here", Wire::Placed(Q1, Who::Leader)),
    ("Placed:no-node", Wire::Placed(Q1, Who::Nobody)),
    ("Placed:leased", Wire::Placed(P8, Who::Child)),
    ("Suggest:process", Wire::Suggest(P2, Who::Third)),
    ("Suggest:no-node", Wire::Suggest(Q1, Who::Nobody)),
    ("GiveBack:12", Wire::GiveBack((Q12, QUEUE))),
    ("GiveBack:process", Wire::GiveBack((P2, NEW))),
    ("GiveBack:unknown", Wire::GiveBack((Q30, QUEUE))),
    ("GiveBack:set", Wire::GiveBack((Q1, SET))),
    ("GiveBack:great-queue", Wire::GiveBack((Q12, GREAT_QUEUE))),
    ("GiveBack:nothing", Wire::GiveBack((Q12, NOTHING))),
    ("GiveBack:awaited", Wire::GiveBack((Q12, AWAITED))),
    (
        "GiveBack:from-nowhere",
        Wire::GiveBack((Q12, AWAITED_FROM_NOWHERE)),
    ),
    ("GiveBack:could-go-on", Wire::GiveBack((Q12, COULD_GO_ON))),
];

/// Processes that leave, with numbers of no process, of the same one, of one that isn't made yet, and whose parent
/// nobody knows.
pub(super) static LEADER_LEAVINGS: [Row; 8] = [
    ("Leaving:other", Wire::Leaving(40, 30, Who::Third)),
    ("Leaving:of-0", Wire::Leaving(0, 1, Who::Leader)),
    ("Leaving:under-0", Wire::Leaving(2, 0, Who::Third)),
    ("Leaving:itself", Wire::Leaving(2, 2, Who::Child)),
    ("Leaving:no-node", Wire::Leaving(2, 1, Who::Nobody)),
    ("Leaving:unknown", Wire::Leaving(40, 30, Who::Leader)),
    ("Leaving:leased", Wire::Leaving(8, 1, Who::Leader)),
    ("Leaving:under-leased", Wire::Leaving(40, 8, Who::Third)),
];

/// Parcels: of a child that isn't listed, of one that is held already, for a parent whom nobody knows, and with deeds
/// that don't fit.
pub(super) static LEADER_ENDS: [Row; 11] = [
    ("Left:not-listed", Wire::Left((40, 1, Do::Exit, NEW_40))),
    ("Left:family", Wire::Left((2, 1, Do::Exit, FAMILY_2))),
    ("Left:unknown", Wire::Left((2, 30, Do::Exit, NEW_2))),
    ("Left:no-end", Wire::Left((2, 1, Do::GetPid, NEW_2))),
    (
        "Left:no-doom",
        Wire::Left((2, 1, Do::Killed(Sig::Term), NEW_2)),
    ),
    ("Left:no-deeds", Wire::Left((2, 1, Do::Exit, &[]))),
    ("Left:ended", Wire::Left((2, 1, Do::Exit, ENDED_2))),
    ("Left:short", Wire::Left((2, 1, Do::Exit, SHORT_2))),
    ("Left:falling", Wire::Left((2, 1, Do::Exit, FALLING_2))),
    ("Left:queue", Wire::Left((2, 1, Do::Exit, WITH_QUEUE_2))),
    ("Left:not-there", Wire::Left((30, 1, Do::Exit, NEW_30))),
];

// ---- beyond the limits of frames

/// What has a rule but for a limit of frames: a ticket, a key and a name of number 0, and a reply that is none.
pub(super) static BEYOND: [Row; 5] = [
    ("ask-without-ticket", Wire::AskWithoutTicket(Do::Stat(1))),
    ("ask-by-key-0", Wire::Ask(Do::GetByNone)),
    ("answer-ended", Wire::AnswerEnded(0)),
    ("placed-0", Wire::Placed(Named::Msg(0), Who::Child)),
    ("suggest-0", Wire::Suggest(Named::Msg(0), Who::Child)),
];
