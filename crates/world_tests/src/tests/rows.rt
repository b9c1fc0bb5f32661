//! The known runs. A script is put as in a file; events stand as words: `2` where node 2 starts its next call, and
//! `2<1` where it takes a frame from node 1. What is wanted comes from outside, and not from this program.

/// A script, its events, and the trace that they leave; whether no event may come then, and whether a process waits for
/// good then.
pub(super) struct Row {
    pub(super) name: &'static str,
    pub(super) script: &'static str,
    pub(super) events: &'static str,
    pub(super) trace: &'static str,
    pub(super) rests: bool,
    pub(super) stalled: bool,
}

/// A script that comes to rest by the numbers drawn from each of 1 to `seeds` on, always with these lines in its trace
/// that have the word.
pub(super) struct Drawn {
    pub(super) script: &'static str,
    pub(super) seeds: u32,
    pub(super) word: &'static str,
    pub(super) lines: &'static str,
}

const MOVE_SCRIPT: &str = concat!(
    "proc main\n",
    "q = msgget private\n",
    "msgsnd $q 1 \"a\" nowait\n",
    "msgsnd $q 1 \"b\" nowait\n",
    "msgsnd $q 1 \"c\" nowait\n",
    "msgsnd $q 1 \"d\" nowait\n",
    "msgsnd $q 1 \"e\" nowait\n",
    "fork child\n",
    "end\n",
    "proc child\n",
    "msgrcv $q 0 8 nowait\n",
    "msgrcv $q 0 8 nowait\n",
    "msgrcv $q 0 8 nowait\n",
    "msgrcv $q 0 8 nowait\n",
    "msgrcv $q 0 8 nowait\n",
    "end\n"
);

const LEASES_SCRIPT: &str = concat!(
    "proc main\n",
    "fork a\n",
    "end\n",
    "proc a\n",
    "fork b\n",
    "fork c\n",
    "fork d\n",
    "fork e\n",
    "fork f\n",
    "fork g\n",
    "fork h\n",
    "fork i\n",
    "fork j\n",
    "end\n",
    "proc b\n",
    "end\n",
    "proc c\n",
    "end\n",
    "proc d\n",
    "end\n",
    "proc e\n",
    "end\n",
    "proc f\n",
    "end\n",
    "proc g\n",
    "end\n",
    "proc h\n",
    "end\n",
    "proc i\n",
    "end\n",
    "proc j\n",
    "end\n"
);

pub(super) static ROWS: [Row; 17] = [
    // The fourth receive in a row by one other node moves the queue there: the fifth is carried out by the reader
    // itself.
    Row {
        name: "a queue moves to its fourth reader",
        script: MOVE_SCRIPT,
        events: "1 1 1 1 1 1 1 2<1 1 2 1<2 2<1 2 1<2 2<1 2 1<2 2<1 2 1<2 2<1 2<1 2 2 1<2 2<1 1<2 1<2",
        trace: concat!(
            "1 msgget private = 1 by 1\n",
            "1 msgsnd 1 1 \"a\" nowait = 0 by 1\n",
            "1 msgsnd 1 1 \"b\" nowait = 0 by 1\n",
            "1 msgsnd 1 1 \"c\" nowait = 0 by 1\n",
            "1 msgsnd 1 1 \"d\" nowait = 0 by 1\n",
            "1 msgsnd 1 1 \"e\" nowait = 0 by 1\n",
            "1 fork child = 2 by 1\n",
            "1 exit 0 = ended by 1\n",
            "2 msgrcv 1 0 8 nowait = 1 \"a\" by 1\n",
            "2 msgrcv 1 0 8 nowait = 1 \"b\" by 1\n",
            "2 msgrcv 1 0 8 nowait = 1 \"c\" by 1\n",
            "2 msgrcv 1 0 8 nowait = 1 \"d\" by 1\n",
            "2 msgrcv 1 0 8 nowait = 1 \"e\" by 2\n",
            "2 exit 0 = ended by 1\n",
            "totals entries 14 processes 2 notready 0 refused 0\n"
        ),
        rests: true,
        stalled: false,
    },
    // A send finds the leader in the middle of collecting what the queue's owner held. It waits there, and is carried
    // out once, when the queue has come.
    Row {
        name: "a send is held while the owner of the queue exits",
        script: concat!(
            "proc main\n",
            "fork a\n",
            "end\n",
            "proc a\n",
            "q = msgget private\n",
            "fork b\n",
            "end\n",
            "proc b\n",
            "msgsnd $q 1 \"x\" nowait\n",
            "end\n"
        ),
        events: "1 2<1 2 1<2 2<1 2 1<2 1<2 2<1 3<2 2 1<2 1<2 3 1<3 2<1 1<2 1<2 3<1 3 1<3 3<1 1<3 1",
        trace: concat!(
            "1 fork a = 2 by 1\n",
            "2 msgget private = 1 by 2\n",
            "2 fork b = 9 by 2\n",
            "9 msgsnd 1 1 \"x\" nowait = 0 by 1\n",
            "2 exit 0 = ended by 1\n",
            "9 exit 0 = ended by 1\n",
            "1 exit 0 = ended by 1\n",
            "totals entries 7 processes 3 notready 0 refused 0\n"
        ),
        rests: true,
        stalled: false,
    },
    // The removal comes while the queue is on its way to its reader: the leader calls it back first. Afterwards the
    // key is free, and is bound to a new queue.
    Row {
        name: "a queue is removed while it moves",
        script: concat!(
            "proc main\n",
            "q = msgget 7 create\n",
            "msgsnd $q 1 \"x\" nowait\n",
            "msgsnd $q 1 \"x\" nowait\n",
            "msgsnd $q 1 \"x\" nowait\n",
            "msgsnd $q 1 \"x\" nowait\n",
            "fork a\n",
            "fork b\n",
            "end\n",
            "proc a\n",
            "msgrcv $q 0 8 nowait\n",
            "msgrcv $q 0 8 nowait\n",
            "msgrcv $q 0 8 nowait\n",
            "msgrcv $q 0 8 nowait\n",
            "end\n",
            "proc b\n",
            "msgctl $q rmid\n",
            "msgget 7 create\n",
            "end\n"
        ),
        events: "1 1 1 1 1 1 1 2<1 3<1 2 1<2 2<1 2 1<2 2<1 2 1<2 2<1 2 1<2 2<1 3 1<3 2<1 2<1 1<2 3<1 3 1<3",
        trace: concat!(
            "1 msgget 7 create = 1 by 1\n",
            "1 msgsnd 1 1 \"x\" nowait = 0 by 1\n",
            "1 msgsnd 1 1 \"x\" nowait = 0 by 1\n",
            "1 msgsnd 1 1 \"x\" nowait = 0 by 1\n",
            "1 msgsnd 1 1 \"x\" nowait = 0 by 1\n",
            "1 fork a = 2 by 1\n",
            "1 fork b = 3 by 1\n",
            "2 msgrcv 1 0 8 nowait = 1 \"x\" by 1\n",
            "2 msgrcv 1 0 8 nowait = 1 \"x\" by 1\n",
            "2 msgrcv 1 0 8 nowait = 1 \"x\" by 1\n",
            "2 msgrcv 1 0 8 nowait = 1 \"x\" by 1\n",
            "3 msgctl 1 rmid = 0 by 1\n",
            "3 msgget 7 create = 2 by 1\n",
            "totals entries 13 processes 3 notready 0 refused 0\n"
        ),
        rests: false,
        stalled: false,
    },
    // The sender asks the owner that it has learnt, which no longer has the queue, and goes to the leader instead:
    // each send is carried out once.
    Row {
        name: "a cached owner has given the queue away",
        script: concat!(
            "proc main\n",
            "q = msgget private\n",
            "msgsnd $q 1 \"x\" nowait\n",
            "msgsnd $q 1 \"x\" nowait\n",
            "msgsnd $q 1 \"x\" nowait\n",
            "msgsnd $q 1 \"x\" nowait\n",
            "fork a\n",
            "fork b\n",
            "end\n",
            "proc a\n",
            "msgrcv $q 0 8 nowait\n",
            "msgrcv $q 0 8 nowait\n",
            "msgrcv $q 0 8 nowait\n",
            "msgrcv $q 0 8 nowait\n",
            "end\n",
            "proc b\n",
            "msgsnd $q 1 \"y\" nowait\n",
            "msgsnd $q 1 \"y\" nowait\n",
            "end\n"
        ),
        events: "1 1 1 1 1 1 1 2<1 3<1 3 1<3 3<1 2 1<2 2<1 2 1<2 2<1 2 1<2 2<1 2 1<2 2<1 3 1<3 3<1 1<3 2<1 2<1 3<2",
        trace: concat!(
            "1 msgget private = 1 by 1\n",
            "1 msgsnd 1 1 \"x\" nowait = 0 by 1\n",
            "1 msgsnd 1 1 \"x\" nowait = 0 by 1\n",
            "1 msgsnd 1 1 \"x\" nowait = 0 by 1\n",
            "1 msgsnd 1 1 \"x\" nowait = 0 by 1\n",
            "1 fork a = 2 by 1\n",
            "1 fork b = 3 by 1\n",
            "3 msgsnd 1 1 \"y\" nowait = 0 by 1\n",
            "2 msgrcv 1 0 8 nowait = 1 \"x\" by 1\n",
            "2 msgrcv 1 0 8 nowait = 1 \"x\" by 1\n",
            "2 msgrcv 1 0 8 nowait = 1 \"x\" by 1\n",
            "2 msgrcv 1 0 8 nowait = 1 \"x\" by 1\n",
            "3 msgsnd 1 1 \"y\" nowait = 0 by 2\n",
            "totals entries 13 processes 3 notready 0 refused 0\n"
        ),
        rests: false,
        stalled: false,
    },
    // A child that has ended may still be signalled. Once it is waited for it is gone, as is a number that never was;
    // a signal that is none is refused before the process is looked for.
    Row {
        name: "an ended child is there until it is waited for",
        script: concat!(
            "proc main\n",
            "c = fork child\n",
            "kill $c 0\n",
            "waitpid $c nohang\n",
            "kill $c 0\n",
            "kill 8 0\n",
            "kill $c badsig\n",
            "end\n",
            "proc child\n",
            "exit 7\n",
            "end\n"
        ),
        events: "1 2<1 2 1<2 2<1 1<2 1 1 1 1 1",
        trace: concat!(
            "1 fork child = 2 by 1\n",
            "2 exit 7 = ended by 1\n",
            "1 kill 2 0 = 0 by 1\n",
            "1 waitpid 2 nohang = 2 exited 7 by 1\n",
            "1 kill 2 0 = ESRCH by 1\n",
            "1 kill 8 0 = ESRCH by 1\n",
            "1 kill 2 badsig = EINVAL by 1\n",
            "totals entries 7 processes 2 notready 0 refused 3\n"
        ),
        rests: false,
        stalled: false,
    },
    // The leader sends the first signal to the node whose range has the number. That node made the process and sent
    // it on, so the call comes back, and by then the leader has learnt the place. In the same range a number that
    // nobody has is refused.
    Row {
        name: "a signal reaches a child that the leader does not know yet",
        script: concat!(
            "proc main\n",
            "fork child\n",
            "kill 9 0\n",
            "kill 10 0\n",
            "end\n",
            "proc child\n",
            "fork grand\n",
            "end\n",
            "proc grand\n",
            "end\n"
        ),
        events: "1 2<1 2 1<2 2<1 1 2<1 1<2 1<2 3<2 3<1 1<3 1 2<1 1<2",
        trace: concat!(
            "1 fork child = 2 by 1\n",
            "2 fork grand = 9 by 2\n",
            "1 kill 9 0 = 0 by 3\n",
            "1 kill 10 0 = ESRCH by 2\n",
            "totals entries 4 processes 3 notready 0 refused 1\n"
        ),
        rests: false,
        stalled: false,
    },
    // A call that ends its own caller has its reply in the trace; the end by the signal is the next entry, and the
    // last call never starts.
    Row {
        name: "a process that terminates itself has its reply",
        script: concat!(
            "proc main\n",
            "p = getpid\n",
            "kill $p TERM\n",
            "getpid\n",
            "end\n"
        ),
        events: "1 1 1",
        trace: concat!(
            "1 getpid = 1 by 1\n",
            "1 kill 1 TERM = 0 by 1\n",
            "1 killed TERM = ended by 1\n",
            "totals entries 3 processes 1 notready 0 refused 0\n"
        ),
        rests: true,
        stalled: false,
    },
    // One grandchild ends first and stays for its parent to wait, the other ends when its parent is gone; neither is
    // there afterwards. The leader hears late where a process was placed that has ended since, and ignores it.
    Row {
        name: "grandchildren end before and after their parent",
        script: concat!(
            "proc main\n",
            "fork a\n",
            "kill 10 0\n",
            "kill 9 0\n",
            "waitpid any nohang\n",
            "end\n",
            "proc a\n",
            "fork b\n",
            "fork c\n",
            "end\n",
            "proc b\n",
            "end\n",
            "proc c\n",
            "end\n"
        ),
        events: "1 2<1 2 1<2 2<1 2 3<2 4<2 4 1<4 4<1 1<4 2<1 2 1<2 1<2 1<2 2<1 1<2 1 3 1<3 3<1 1<3 1 1",
        trace: concat!(
            "1 fork a = 2 by 1\n",
            "2 fork b = 9 by 2\n",
            "2 fork c = 10 by 2\n",
            "10 exit 0 = ended by 2\n",
            "2 exit 0 = ended by 1\n",
            "1 kill 10 0 = ESRCH by 1\n",
            "9 exit 0 = ended by 1\n",
            "1 kill 9 0 = ESRCH by 1\n",
            "1 waitpid any nohang = 2 exited 0 by 1\n",
            "totals entries 9 processes 4 notready 0 refused 2\n"
        ),
        rests: false,
        stalled: false,
    },
    // A queue and a set may have the same key. A set that is found by its key may be asked for with no size or a
    // smaller one, and a new one must have a size.
    Row {
        name: "keys of queues and sets are apart",
        script: concat!(
            "proc main\n",
            "msgget 5\n",
            "msgget 5 create\n",
            "msgget 5 create excl\n",
            "msgget 5\n",
            "semget 5 0 create\n",
            "semget 5 3 create\n",
            "semget 5 4\n",
            "semget 5 0\n",
            "end\n"
        ),
        events: "1 1 1 1 1 1 1 1 1",
        trace: concat!(
            "1 msgget 5 = ENOENT by 1\n",
            "1 msgget 5 create = 1 by 1\n",
            "1 msgget 5 create excl = EEXIST by 1\n",
            "1 msgget 5 = 1 by 1\n",
            "1 semget 5 0 create = EINVAL by 1\n",
            "1 semget 5 3 create = 1 by 1\n",
            "1 semget 5 4 = EINVAL by 1\n",
            "1 semget 5 0 = 1 by 1\n",
            "1 exit 0 = ended by 1\n",
            "totals entries 9 processes 1 notready 0 refused 4\n"
        ),
        rests: true,
        stalled: false,
    },
    // Without a child there is nothing to wait for; while it lives the reply is 0; its status is that of `exit`
    // modulo 256.
    Row {
        name: "a parent tries until its child has ended",
        script: concat!(
            "proc main\n",
            "waitpid any nohang\n",
            "c = fork child\n",
            "try 50 waitpid $c nohang\n",
            "end\n",
            "proc child\n",
            "exit 300\n",
            "end\n"
        ),
        events: "1 1 2<1 1 2 1<2 2<1 1<2 1 1",
        trace: concat!(
            "1 waitpid any nohang = ECHILD by 1\n",
            "1 fork child = 2 by 1\n",
            "1 waitpid 2 nohang = 0 by 1\n",
            "2 exit 300 = ended by 1\n",
            "1 waitpid 2 nohang = 2 exited 44 by 1\n",
            "1 exit 0 = ended by 1\n",
            "totals entries 6 processes 2 notready 0 refused 1\n"
        ),
        rests: true,
        stalled: false,
    },
    // Where the parent ignores CHLD its children are gone as they end.
    Row {
        name: "a parent that ignores its children finds none",
        script: concat!(
            "proc main\n",
            "sigaction CHLD ign\n",
            "waitpid any nohang\n",
            "fork child\n",
            "try 50 waitpid any nohang\n",
            "end\n",
            "proc child\n",
            "exit 300\n",
            "end\n"
        ),
        events: "1 1 1 2<1 1 2 1<2 2<1 1<2 1 1",
        trace: concat!(
            "1 sigaction CHLD ign = 0 by 1\n",
            "1 waitpid any nohang = ECHILD by 1\n",
            "1 fork child = 2 by 1\n",
            "1 waitpid any nohang = 0 by 1\n",
            "2 exit 300 = ended by 1\n",
            "1 waitpid any nohang = ECHILD by 1\n",
            "1 exit 0 = ended by 1\n",
            "totals entries 7 processes 2 notready 0 refused 2\n"
        ),
        rests: true,
        stalled: false,
    },
    // What is pending stays with the parent; the mask is the child's, too, and travels with it to its node.
    Row {
        name: "a child has its parents mask and nothing pending",
        script: concat!(
            "proc main\n",
            "p = getpid\n",
            "sigprocmask block USR1\n",
            "kill $p USR1\n",
            "fork child\n",
            "end\n",
            "proc child\n",
            "sigpending\n",
            "sigprocmask block none\n",
            "end\n"
        ),
        events: "1 1 1 1 2<1 1 2 2 2 1<2 2<1 1<2",
        trace: concat!(
            "1 getpid = 1 by 1\n",
            "1 sigprocmask block USR1 = none by 1\n",
            "1 kill 1 USR1 = 0 by 1\n",
            "1 fork child = 2 by 1\n",
            "1 exit 0 = ended by 1\n",
            "2 sigpending = none by 2\n",
            "2 sigprocmask block none = USR1 by 2\n",
            "2 exit 0 = ended by 1\n",
            "totals entries 8 processes 2 notready 0 refused 0\n"
        ),
        rests: true,
        stalled: false,
    },
    // A lease has 8 numbers: the ninth fork has to ask the leader again, and the numbers go on.
    Row {
        name: "a node uses its lease up and gets the next",
        script: LEASES_SCRIPT,
        events: concat!(
            "1 2<1 1 2 1<2 2<1 3<2 1<2 2 3 4<2 1<2 2 4 5<2 1<2 2 5 6<2 1<2 2 6 7<2 1<2 2 7 8<2 1<2 2 8 9<2 1<2 2 ",
            "9 10<2 1<2 2 10 1<2 2<1 11<2 1<2 2 11 1<2 2<1 1<2 1<3 3<1 1<3 1<4 4<1 1<4 1<5 5<1 1<5 1<6 6<1 1<6 ",
            "1<7 7<1 1<7 1<8 8<1 1<8 1<9 9<1 1<9 1<10 10<1 1<10 1<11 11<1 1<11"
        ),
        trace: concat!(
            "1 fork a = 2 by 1\n",
            "1 exit 0 = ended by 1\n",
            "2 fork b = 9 by 2\n",
            "2 fork c = 10 by 2\n",
            "2 fork d = 11 by 2\n",
            "2 fork e = 12 by 2\n",
            "2 fork f = 13 by 2\n",
            "2 fork g = 14 by 2\n",
            "2 fork h = 15 by 2\n",
            "2 fork i = 16 by 2\n",
            "2 fork j = 17 by 2\n",
            "2 exit 0 = ended by 1\n",
            "9 exit 0 = ended by 1\n",
            "10 exit 0 = ended by 1\n",
            "11 exit 0 = ended by 1\n",
            "12 exit 0 = ended by 1\n",
            "13 exit 0 = ended by 1\n",
            "14 exit 0 = ended by 1\n",
            "15 exit 0 = ended by 1\n",
            "16 exit 0 = ended by 1\n",
            "17 exit 0 = ended by 1\n",
            "totals entries 21 processes 11 notready 0 refused 0\n"
        ),
        rests: true,
        stalled: false,
    },
    // What a process made and held when it exits comes to the leader with its values, and goes on there.
    Row {
        name: "a set goes home when its owner exits",
        script: concat!(
            "proc main\n",
            "fork a\n",
            "semctl 1 getval 1\n",
            "end\n",
            "proc a\n",
            "s = semget private 2\n",
            "semctl $s setval 1 5\n",
            "end\n"
        ),
        events: "1 2<1 2 1<2 2<1 2 2 1<2 1<2 2<1 1<2 1<2 1",
        trace: concat!(
            "1 fork a = 2 by 1\n",
            "2 semget private 2 = 1 by 2\n",
            "2 semctl 1 setval 1 5 = 0 by 2\n",
            "2 exit 0 = ended by 1\n",
            "1 semctl 1 getval 1 = 5 by 1\n",
            "totals entries 5 processes 2 notready 0 refused 0\n"
        ),
        rests: false,
        stalled: false,
    },
    // Nobody sends, so the world comes to rest with the receive under way.
    Row {
        name: "a receive waits for good",
        script: "proc main\nq = msgget private\nmsgrcv $q 0 8\nend\n",
        events: "1 1",
        trace: concat!(
            "1 msgget private = 1 by 1\n",
            "1 msgrcv 1 0 8 = parked by 1\n",
            "totals entries 2 processes 1 notready 0 refused 0\n"
        ),
        rests: true,
        stalled: true,
    },
    // The signal finds the receive where it waits, at the leader: the node that it strikes withdraws it there.
    Row {
        name: "a signal that is caught interrupts a receive",
        script: concat!(
            "proc main\n",
            "q = msgget private\n",
            "c = fork child\n",
            "kill $c USR1\n",
            "end\n",
            "proc child\n",
            "sigaction USR1 catch\n",
            "msgrcv $q 0 8\n",
            "end\n"
        ),
        events: "1 1 2<1 2 2 1<2 1 2<1 1<2 1<2 2<1",
        trace: concat!(
            "1 msgget private = 1 by 1\n",
            "1 fork child = 2 by 1\n",
            "2 sigaction USR1 catch = 0 by 2\n",
            "2 msgrcv 1 0 8 = parked by 1\n",
            "1 kill 2 USR1 = 0 by 2\n",
            "2 withdraw msg 1 = EINTR by 1\n",
            "totals entries 6 processes 2 notready 0 refused 1\n"
        ),
        rests: false,
        stalled: false,
    },
    // A process that a signal ends withdraws first, and its end comes behind that.
    Row {
        name: "a signal ends who waits",
        script: concat!(
            "proc main\n",
            "q = msgget private\n",
            "c = fork child\n",
            "kill $c KILL\n",
            "end\n",
            "proc child\n",
            "sigaction USR1 catch\n",
            "msgrcv $q 0 8\n",
            "end\n"
        ),
        events: "1 1 2<1 2 2 1<2 1 2<1 1<2 1<2 2<1 2 1<2 2<1 1<2",
        trace: concat!(
            "1 msgget private = 1 by 1\n",
            "1 fork child = 2 by 1\n",
            "2 sigaction USR1 catch = 0 by 2\n",
            "2 msgrcv 1 0 8 = parked by 1\n",
            "1 kill 2 KILL = 0 by 2\n",
            "2 withdraw msg 1 = EINTR by 1\n",
            "2 killed KILL = ended by 1\n",
            "totals entries 7 processes 2 notready 0 refused 1\n"
        ),
        rests: false,
        stalled: false,
    },
];

pub(super) static DRAWN: [Drawn; 2] = [
    // The move doesn't hang on who comes first: a receive that starts before the queue has come goes to the leader,
    // and follows the queue back.
    Drawn {
        script: MOVE_SCRIPT,
        seeds: 200,
        word: "msgrcv",
        lines: concat!(
            "2 msgrcv 1 0 8 nowait = 1 \"a\" by 1\n",
            "2 msgrcv 1 0 8 nowait = 1 \"b\" by 1\n",
            "2 msgrcv 1 0 8 nowait = 1 \"c\" by 1\n",
            "2 msgrcv 1 0 8 nowait = 1 \"d\" by 1\n",
            "2 msgrcv 1 0 8 nowait = 1 \"e\" by 2\n"
        ),
    },
    // Nobody else forks, so the next lease begins behind the last.
    Drawn {
        script: LEASES_SCRIPT,
        seeds: 50,
        word: "fork",
        lines: concat!(
            "1 fork a = 2 by 1\n",
            "2 fork b = 9 by 2\n",
            "2 fork c = 10 by 2\n",
            "2 fork d = 11 by 2\n",
            "2 fork e = 12 by 2\n",
            "2 fork f = 13 by 2\n",
            "2 fork g = 14 by 2\n",
            "2 fork h = 15 by 2\n",
            "2 fork i = 16 by 2\n",
            "2 fork j = 17 by 2\n"
        ),
    },
];
