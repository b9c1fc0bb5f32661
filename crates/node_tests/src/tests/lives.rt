//! The lives of a child and of the leader: what each does at each moment, and which frames it takes there.
use super::offers::{NEW, NEW_9, P2, PARENT_2, Q1, Q12, Q20, QUEUE};
use super::wires::{Do, Who, Wire};
use pico_base::Kind;

/// What a node does next: it starts its process's next call, it takes a frame, or it rests.
#[derive(Clone, Copy)]
pub(super) enum Next {
    Run,
    Take(Who, Wire),
    Rest,
}

/// A moment of a node's life: how many calls it has started, the names of the frames that it takes from nodes 1, 2 and
/// 3, and what it does next.
#[derive(Clone, Copy)]
pub(super) struct Moment {
    pub(super) started: u32,
    pub(super) takes: [&'static [&'static str]; 3],
    pub(super) next: Next,
}

/// What it takes from the leader once it is born, and with a child.
const BORN: &str =
    "Request Request:waits Forward Forward:waits Forward:removal Grant:set Grant:removed Grant:awaited";

/// What a node takes from any node once it is born.
const CANCELS: &str = "Cancel Cancel:own Cancel:of-0";

/// What it takes from the third node, once it is born.
const FROM_THIRD: &str = "Request Request:waits";

const PARENT: &str = "ExitTo ExitTo:killed ExitTo:family";

/// The child is born, is granted a queue, makes one, forks, asks by a key and twice on a name, removes its queue, and
/// leaves.
pub(super) static CHILD_LIFE: [Moment; 18] = [
    // It is not born.
    Moment {
        started: 0,
        takes: [&["Checkpoint"], &[], &[]],
        next: Next::Take(Who::Leader, Wire::Checkpoint(2, (P2, NEW))),
    },
    // It is born, and nothing is out.
    Moment {
        started: 0,
        takes: [
            &[CANCELS, BORN, "Grant Grant:20 Grant:leased"],
            &[CANCELS],
            &[CANCELS, FROM_THIRD],
        ],
        next: Next::Take(Who::Leader, Wire::Grant((Q20, QUEUE))),
    },
    // It holds queue 20.
    Moment {
        started: 0,
        takes: [
            &[CANCELS, BORN, "Grant Grant:leased"],
            &[CANCELS],
            &[CANCELS, FROM_THIRD],
        ],
        next: Next::Run,
    },
    // It waits for numbers of queues.
    Moment {
        started: 1,
        takes: [
            &[CANCELS, BORN, "Grant Grant:leased Lease:queues"],
            &[CANCELS],
            &[CANCELS, FROM_THIRD],
        ],
        next: Next::Take(Who::Leader, Wire::Lease(Kind::Msg, 1)),
    },
    // It holds queue 1, too, and may make queues 2 to 8.
    Moment {
        started: 1,
        takes: [
            &[CANCELS, BORN, "Recall"],
            &[CANCELS],
            &[CANCELS, FROM_THIRD],
        ],
        next: Next::Run,
    },
    // It waits for numbers of processes.
    Moment {
        started: 2,
        takes: [
            &[CANCELS, BORN, "Recall Lease Lease:to-last"],
            &[CANCELS],
            &[CANCELS, FROM_THIRD],
        ],
        next: Next::Take(Who::Leader, Wire::Lease(Kind::Proc, 9)),
    },
    // It has the child 9.
    Moment {
        started: 2,
        takes: [
            &[CANCELS, BORN, "Recall", PARENT],
            &[CANCELS],
            &[CANCELS, FROM_THIRD],
        ],
        next: Next::Run,
    },
    // A call by a key is out.
    Moment {
        started: 3,
        takes: [
            &[CANCELS, BORN, "Recall", PARENT, "Answer"],
            &[CANCELS, "Answer"],
            &[CANCELS, FROM_THIRD, "Answer"],
        ],
        next: Next::Take(Who::Leader, Wire::Answer(0)),
    },
    Moment {
        started: 3,
        takes: [
            &[CANCELS, BORN, "Recall", PARENT],
            &[CANCELS],
            &[CANCELS, FROM_THIRD],
        ],
        next: Next::Run,
    },
    // A call on a name is out, at the leader.
    Moment {
        started: 4,
        takes: [
            &[CANCELS, BORN, "Recall", PARENT, "Answer NotOwner"],
            &[CANCELS, "Answer NotOwner"],
            &[CANCELS, FROM_THIRD, "Answer NotOwner"],
        ],
        next: Next::Take(Who::Leader, Wire::Answer(0)),
    },
    Moment {
        started: 4,
        takes: [
            &[CANCELS, BORN, "Recall", PARENT],
            &[CANCELS],
            &[CANCELS, FROM_THIRD],
        ],
        next: Next::Run,
    },
    // A call on a name is out, at the owner that it remembers.
    Moment {
        started: 5,
        takes: [
            &[CANCELS, BORN, "Recall", PARENT, "Answer NotOwner"],
            &[CANCELS, "Answer NotOwner"],
            &[CANCELS, FROM_THIRD, "Answer NotOwner"],
        ],
        next: Next::Take(Who::Leader, Wire::NotOwner(0)),
    },
    // The owner was another, and the call is out at the leader.
    Moment {
        started: 5,
        takes: [
            &[CANCELS, BORN, "Recall", PARENT, "Answer NotOwner"],
            &[CANCELS, "Answer NotOwner"],
            &[CANCELS, FROM_THIRD, "Answer NotOwner"],
        ],
        next: Next::Take(Who::Leader, Wire::Answer(0)),
    },
    Moment {
        started: 5,
        takes: [
            &[CANCELS, BORN, "Recall", PARENT],
            &[CANCELS],
            &[CANCELS, FROM_THIRD],
        ],
        next: Next::Run,
    },
    // A removal is out.
    Moment {
        started: 6,
        takes: [
            &[CANCELS, BORN, "Recall", PARENT, "Answer"],
            &[CANCELS, "Answer"],
            &[CANCELS, FROM_THIRD, "Answer"],
        ],
        next: Next::Take(Who::Leader, Wire::Answer(0)),
    },
    Moment {
        started: 6,
        takes: [
            &[CANCELS, BORN, "Recall", PARENT],
            &[CANCELS],
            &[CANCELS, FROM_THIRD],
        ],
        next: Next::Run,
    },
    // It leaves.
    Moment {
        started: 7,
        takes: [
            &[CANCELS, BORN, "Recall RecallAll", PARENT],
            &[CANCELS],
            &[CANCELS, FROM_THIRD],
        ],
        next: Next::Take(Who::Leader, Wire::RecallAll),
    },
    // It has left.
    Moment {
        started: 7,
        takes: [
            &[CANCELS, BORN, "Grant Grant:20"],
            &[CANCELS],
            &[CANCELS, FROM_THIRD],
        ],
        next: Next::Rest,
    },
];

/// What it takes from others at any time.
const OTHERS: &str =
    "Ask Ask:waits Ask:removal Request Request:waits Bounce Bounce:waits Bounce:removal LeaseAsk Placed Suggest";

/// The leader forks, signals its child and ends. Of the others, the child makes a queue, which it sends to the third
/// node, and leaves as another process than it is; the third node says that it made a queue, and leaves.
pub(super) static LEADER_LIFE: [Moment; 15] = [
    // It is alone.
    Moment {
        started: 0,
        takes: [
            &[CANCELS],
            &[CANCELS, OTHERS, "Ask:key Leaving:other"],
            &[CANCELS, OTHERS, "Ask:key Leaving:other"],
        ],
        next: Next::Run,
    },
    // It has the child 2.
    Moment {
        started: 1,
        takes: [
            &[CANCELS],
            &[CANCELS, OTHERS, "Ask:key Leaving Leaving:other"],
            &[CANCELS, OTHERS, "Ask:key Leaving Leaving:other"],
        ],
        next: Next::Take(Who::Child, Wire::LeaseAsk(Kind::Msg)),
    },
    // The child may make queues 1 to 8.
    Moment {
        started: 1,
        takes: [
            &[CANCELS],
            &[CANCELS, OTHERS, "Ask:key Leaving Leaving:other"],
            &[CANCELS, OTHERS, "Ask:key Leaving Leaving:other"],
        ],
        next: Next::Take(Who::Child, Wire::Placed(Q1, Who::Child)),
    },
    Moment {
        started: 1,
        takes: [
            &[CANCELS],
            &[CANCELS, OTHERS, "Ask:key Leaving Leaving:other"],
            &[CANCELS, OTHERS, "Ask:key Leaving Leaving:other"],
        ],
        next: Next::Take(Who::Third, Wire::Placed(Q12, Who::Third)),
    },
    // Queue 12 is known, though nobody can have made it: the leader has no further numbers of queues for itself.
    Moment {
        started: 1,
        takes: [
            &[CANCELS],
            &[CANCELS, OTHERS, "Leaving Leaving:other"],
            &[CANCELS, OTHERS, "Leaving Leaving:other"],
        ],
        next: Next::Run,
    },
    // A call is out, at the child.
    Moment {
        started: 2,
        takes: [
            &[CANCELS, "Answer NotOwner"],
            &[CANCELS, OTHERS, "Leaving Leaving:other Answer NotOwner"],
            &[CANCELS, OTHERS, "Leaving Leaving:other Answer NotOwner"],
        ],
        next: Next::Take(Who::Child, Wire::Answer(0)),
    },
    Moment {
        started: 2,
        takes: [
            &[CANCELS],
            &[CANCELS, OTHERS, "Leaving Leaving:other"],
            &[CANCELS, OTHERS, "Leaving Leaving:other"],
        ],
        next: Next::Take(Who::Child, Wire::Suggest(Q1, Who::Third)),
    },
    // Queue 1 is on its way.
    Moment {
        started: 2,
        takes: [
            &[CANCELS, "GiveBack"],
            &[CANCELS, OTHERS, "Leaving Leaving:other GiveBack"],
            &[CANCELS, OTHERS, "Leaving Leaving:other GiveBack"],
        ],
        next: Next::Take(Who::Child, Wire::GiveBack((Q1, QUEUE))),
    },
    // Queue 1 is at the third node.
    Moment {
        started: 2,
        takes: [
            &[CANCELS],
            &[CANCELS, OTHERS, "Leaving Leaving:other"],
            &[CANCELS, OTHERS, "Leaving Leaving:other"],
        ],
        next: Next::Take(Who::Child, Wire::Leaving(40, 1, Who::Leader)),
    },
    // The child leaves, as process 40, which is none.
    Moment {
        started: 2,
        takes: [
            &[CANCELS],
            &[CANCELS, OTHERS, "Left"],
            &[CANCELS, OTHERS, "Leaving Leaving:other"],
        ],
        next: Next::Take(Who::Third, Wire::Leaving(9, 2, Who::Child)),
    },
    // The third node leaves, too.
    Moment {
        started: 2,
        takes: [
            &[CANCELS, "GiveBack GiveBack:12 GiveBack:awaited"],
            &[
                CANCELS,
                OTHERS,
                "GiveBack GiveBack:12 GiveBack:awaited Left Left:family",
            ],
            &[
                CANCELS,
                OTHERS,
                "GiveBack GiveBack:12 GiveBack:awaited Left Left:family",
            ],
        ],
        next: Next::Take(Who::Third, Wire::GiveBack((Q1, QUEUE))),
    },
    // Queue 1 is here.
    Moment {
        started: 2,
        takes: [
            &[CANCELS, "GiveBack:12 GiveBack:awaited"],
            &[
                CANCELS,
                OTHERS,
                "GiveBack:12 GiveBack:awaited Left Left:family",
            ],
            &[
                CANCELS,
                OTHERS,
                "GiveBack:12 GiveBack:awaited Left Left:family",
            ],
        ],
        next: Next::Run,
    },
    // Its own process has ended, and lists no children any more.
    Moment {
        started: 3,
        takes: [
            &[CANCELS, "GiveBack:12 GiveBack:awaited"],
            &[
                CANCELS,
                OTHERS,
                "GiveBack:12 GiveBack:awaited Left Left:family Left:not-listed",
            ],
            &[
                CANCELS,
                OTHERS,
                "GiveBack:12 GiveBack:awaited Left Left:family Left:not-listed",
            ],
        ],
        next: Next::Take(Who::Third, Wire::Left((9, 2, Do::Exit, NEW_9))),
    },
    // The third node has left, and its parcel waits for that of its parent.
    Moment {
        started: 3,
        takes: [
            &[CANCELS, "GiveBack:12 GiveBack:awaited"],
            &[
                CANCELS,
                OTHERS,
                "GiveBack:12 GiveBack:awaited Left Left:not-listed",
            ],
            &[CANCELS, OTHERS, "GiveBack:12 GiveBack:awaited"],
        ],
        next: Next::Take(Who::Child, Wire::Left((2, 1, Do::Exit, PARENT_2))),
    },
    // All others have left.
    Moment {
        started: 3,
        takes: [
            &[CANCELS, "GiveBack:12 GiveBack:awaited"],
            &[CANCELS, OTHERS, "GiveBack:12 GiveBack:awaited"],
            &[CANCELS, OTHERS, "GiveBack:12 GiveBack:awaited"],
        ],
        next: Next::Rest,
    },
];
