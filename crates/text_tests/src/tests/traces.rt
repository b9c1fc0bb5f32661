//! A history and a list of events, and what is written of them.
ghost use Rattle.std.specs.Prelude.{IfOk};
ghost use Rattle.kernel_model.specs.Script.{IsSoundScript};

use pico_base::{
    Call, Entries, Entry, Errno, Event, Id, Memory, Name, Node, Outcome, Pid, Reply, Script,
};
use script_reader::read_script;
use std::alloc::Global;
use std::test::Fail;
use trace_text::{
    CheckFault, push, push_byte, push_number, read_trace, write_steps, write_totals, write_trace,
};

// A script with two blocks, of which the first forks the second.
fn two_blocks(alloc: Global) -> Result<Script, Fail>
    ensures { IfOk result IsSoundScript }
{
    Ok(read_script(alloc, b"proc main\nfork child\nend\nproc child\nend\n")?)
}

// One more entry of the first process, made by node 1.
fn push_made(alloc: Global, entries: &mut Entries, call: Call, reply: Reply) -> Result<(), Memory> {
    entries.push(Entry {
        pid: Pid(1),
        call,
        outcome: Outcome::reply(alloc, reply),
        by: Node(1),
    })?;
    Ok(())
}

// A receive that has this error.
fn push_receive(alloc: Global, entries: &mut Entries, id: u32, error: Errno) -> Result<(), Memory> {
    let call = Call::MsgRcv {
        id: Id(id),
        class: -2,
        size: 8,
        noerror: false,
        nowait: true,
    };
    push_made(alloc, entries, call, Reply::Fail(error))
}

// A fork, a receive that finds nothing and one from a queue that isn't there.
fn three_entries(alloc: Global) -> Result<Entries, Memory> {
    let mut entries = Entries::new(alloc);
    push_made(
        alloc,
        &mut entries,
        Call::Fork { block: Node(2) },
        Reply::Num(2),
    )?;
    push_receive(alloc, &mut entries, 1, Errno::Enomsg)?;
    push_receive(alloc, &mut entries, 9, Errno::Einval)?;
    Ok(entries)
}

// Whether the trace of these entries is this text.
fn is_written(alloc: Global, entries: &Entries, wanted: &str) -> Result<bool, Fail> {
    let script = two_blocks(alloc)?;
    Ok(write_trace(alloc, &script, entries)?.as_slice() == wanted.as_bytes())
}

// Whether the text is read as these entries.
fn is_read(alloc: Global, text: &str, wanted: &Entries) -> Result<bool, Fail> {
    let script = two_blocks(alloc)?;
    Ok(read_trace(alloc, &script, text.as_bytes(), 7)? == *wanted)
}

const HISTORY: &str = concat!(
    "1 fork child = 2 by 1\n",
    "1 msgrcv 1 -2 8 nowait = ENOMSG by 1\n",
    "1 msgrcv 9 -2 8 nowait = EINVAL by 1\n",
    "totals entries 3 processes 2 notready 1 refused 1\n"
);

#[test]
fn a_history_has_a_line_for_each_entry(rt: HostRuntime) -> Result<(), Fail> {
    let entries = three_entries(rt.alloc())?;
    assert!(rt; is_written(rt.alloc(), &entries, HISTORY)?);
    Ok(())
}

// A call that is withdrawn from a queue, a set, and `waitpid`.
fn three_withdrawals(alloc: Global) -> Result<Entries, Memory> {
    let mut entries = Entries::new(alloc);
    for name in [Name::Msg(Id(1)), Name::Sem(Id(23)), Name::Proc(Pid(1))] {
        push_made(
            alloc,
            &mut entries,
            Call::Withdraw { name },
            Reply::Fail(Errno::Eintr),
        )?;
    }
    Ok(entries)
}

const WITHDRAWALS: &str = concat!(
    "1 withdraw msg 1 = EINTR by 1\n",
    "1 withdraw sem 23 = EINTR by 1\n",
    "1 withdraw proc 1 = EINTR by 1\n",
    "totals entries 3 processes 1 notready 0 refused 3\n"
);

#[test]
fn a_withdrawal_is_written_and_read_again(rt: HostRuntime) -> Result<(), Fail> {
    let entries = three_withdrawals(rt.alloc())?;
    assert!(rt; is_written(rt.alloc(), &entries, WITHDRAWALS)?);
    assert!(rt; is_read(rt.alloc(), WITHDRAWALS, &entries)?);
    Ok(())
}

// A call that parks.
fn push_parked(alloc: Global, entries: &mut Entries) -> Result<(), Memory> {
    let mut outcome = Outcome::reply(alloc, Reply::Num(1));
    outcome.own = None;
    entries.push(Entry {
        pid: Pid(1),
        call: Call::GetPid,
        outcome,
        by: Node(1),
    })?;
    Ok(())
}

// A call that wakes two callers.
fn push_waking(alloc: Global, entries: &mut Entries) -> Result<(), Memory> {
    let mut outcome = Outcome::reply(alloc, Reply::Num(0));
    outcome.woken.push((Pid(3), Reply::Fail(Errno::Enomsg)))?;
    outcome.woken.push((Pid(2), Reply::Num(7)))?;
    entries.push(Entry {
        pid: Pid(1),
        call: Call::SigPending,
        outcome,
        by: Node(1),
    })?;
    Ok(())
}

fn two_waits(alloc: Global) -> Result<Entries, Memory> {
    let mut entries = Entries::new(alloc);
    push_parked(alloc, &mut entries)?;
    push_waking(alloc, &mut entries)?;
    Ok(entries)
}

const WAITS: &str = concat!(
    "1 getpid = parked by 1\n",
    "1 sigpending = 0 by 1 wakes 3 ENOMSG wakes 2 7\n",
    "totals entries 2 processes 1 notready 1 refused 0\n"
);

#[test]
fn waits_are_written_and_read_again(rt: HostRuntime) -> Result<(), Fail> {
    let entries = two_waits(rt.alloc())?;
    assert!(rt; is_written(rt.alloc(), &entries, WAITS)?);
    assert!(rt; is_read(rt.alloc(), WAITS, &entries)?);
    Ok(())
}

// A line that a trace doesn't have, and its totals.
fn is_refused(alloc: Global, script: &Script, line: &str) -> Result<bool, Fail>
    requires { IsSoundScript script.now }
{
    let mut text = Vec::new(alloc);
    push(&mut text, line.as_bytes())?;
    push(
        &mut text,
        b"\ntotals entries 1 processes 1 notready 0 refused 0\n",
    )?;
    let fault = read_trace(alloc, script, &text, 7).err();
    Ok(matches!(fault, Some(CheckFault::NotATrace { line: 7 })))
}

// Lines with waits that a trace doesn't have.
static NO_LINES: [&str; 12] = [
    "1 getpid = parked",
    "1 getpid = parked 1 by 1",
    "1 getpid = Parked by 1",
    "1 getpid = 1 wakes 2 0 by 1",
    "1 getpid = 1 by 1 wakes",
    "1 getpid = 1 by 1 wakes 2",
    "1 getpid = 1 by 1 wakes 2 parked",
    "1 getpid = 1 by 1 wakes 4294967296 0",
    "1 getpid = 1 by 1 wakes 2 0 ",
    "1 getpid = 1 by 1 wakes 2 0 by 1",
    "1 withdraw = 0 by 1",
    "1 withdraw set 1 = 0 by 1",
];

#[test]
fn other_waits_are_no_lines(rt: HostRuntime) -> Result<(), Fail> {
    let alloc = rt.alloc();
    let script = two_blocks(alloc)?;
    for line in &NO_LINES {
        assert!(rt; is_refused(alloc, &script, line)?, "{line}");
    }
    Ok(())
}

// A removal that wakes so many callers by a number of one digit, and so many by one of two.
fn removal(alloc: Global, short: usize, long: usize) -> Result<Vec<u8>, Fail> {
    let mut text = Vec::new(alloc);
    push(&mut text, b"1 msgctl 1 rmid = 0 by 1")?;
    for _ in 0..short {
        push(&mut text, b" wakes 2 EIDRM")?;
    }
    for _ in 0..long {
        push(&mut text, b" wakes 20 EIDRM")?;
    }
    push(
        &mut text,
        b"\ntotals entries 1 processes 1 notready 0 refused 74896\n",
    )?;
    Ok(text)
}

// The first line has 24 + 14 * 74,888 + 15 * 8 bytes, which are 1,048,576; the second one has one more.
#[test]
fn a_line_may_have_a_mebibyte(rt: HostRuntime) -> Result<(), Fail> {
    let script = two_blocks(rt.alloc())?;
    let longest = removal(rt.alloc(), 74888, 8)?;
    assert!(rt; read_trace(rt.alloc(), &script, &longest, 1)?.len() == 1);
    Ok(())
}

// Whether the text is refused at its first line.
fn is_no_trace(alloc: Global, text: &[u8]) -> Result<bool, Fail> {
    let script = two_blocks(alloc)?;
    let fault = read_trace(alloc, &script, text, 1).err();
    Ok(matches!(fault, Some(CheckFault::NotATrace { line: 1 })))
}

#[test]
fn a_line_may_not_have_more(rt: HostRuntime) -> Result<(), Fail> {
    let longer = removal(rt.alloc(), 74887, 9)?;
    assert!(rt; is_no_trace(rt.alloc(), &longer)?);
    Ok(())
}

// Whether the totals of these entries are this text.
fn are_totals(alloc: Global, entries: &Entries, wanted: &[u8]) -> Result<bool, Memory> {
    Ok(write_totals(alloc, entries)?.as_slice() == wanted)
}

#[test]
fn the_totals_stand_alone(rt: HostRuntime) -> Result<(), Fail> {
    let entries = three_entries(rt.alloc())?;
    let wanted = b"totals entries 3 processes 2 notready 1 refused 1\n";
    assert!(rt; are_totals(rt.alloc(), &entries, wanted)?);
    Ok(())
}

#[test]
fn events_have_a_line_each(rt: HostRuntime) -> Result<(), Fail> {
    let (first, second) = (Node(1), Node(12));
    let take = Event::Take {
        node: second,
        from: first,
    };
    let text = write_steps(rt.alloc(), &[Event::Run(first), take])?;
    assert!(rt; text.as_slice() == b"steps 2\nrun 1\ntake 12 from 1\n".as_slice());
    Ok(())
}

#[test]
fn a_text_is_put_together(rt: HostRuntime) -> Result<(), Fail> {
    let mut out = Vec::new(rt.alloc());
    push(&mut out, b"line ")?;
    push_number(&mut out, 18446744073709551615)?;
    push_byte(&mut out, b'.')?;
    assert!(rt; out.as_slice() == b"line 18446744073709551615.".as_slice());
    Ok(())
}

// One call of each kind, with a reply of each kind.
const TRACE: &str = concat!(
    "1 fork child = 2 by 1\n",
    "1 exit 65535 = ended by 32\n",
    "4294967295 killed TERM = ended by 2\n",
    "0 getpid = 4294967295 by 1\n",
    "1 kill 0 badsig = EINVAL by 1\n",
    "1 kill 1 0 = 0 by 1\n",
    "1 sigaction USR1 catch = 0 by 1\n",
    "1 sigprocmask setmask HUP,KILL,CHLD = none by 1\n",
    "1 sigprocmask block none = HUP,KILL,CHLD by 1\n",
    "1 sigpending = USR2 by 1\n",
    "1 handled PIPE = 3 by 1\n",
    "1 waitpid any nohang = 2 exited 255 by 1\n",
    "1 waitpid 2 = 2 killed INT by 1\n",
    "1 msgget private = EINTR by 1\n",
    "1 msgget 7 create excl = EEXIST by 1\n",
    "1 msgsnd 1 -3 \"a\\x22 \\xff\" nowait = 0 by 1\n",
    "1 msgsnd 1 1 rep:17:z = EAGAIN by 1\n",
    "1 msgrcv 1 0 8 noerror nowait = -1 \"\" by 1\n",
    "1 msgrcv 1 2 9 = 7 rep:8192:A by 1\n",
    "1 msgctl 1 stat = qnum 1 qbytes 2 lspid 3 lrpid 4 by 1\n",
    "1 msgctl 1 set 16384 = 0 by 1\n",
    "1 msgctl 1 rmid = EIDRM by 1\n",
    "1 semget private 2 = 1 by 1\n",
    "1 semget 5 0 create = ENOENT by 1\n",
    "1 semop 1 0:-1:nowait 1:65535 = 0 by 1\n",
    "1 semctl 1 getval 0 = 0 by 1\n",
    "1 semctl 1 getpid 0 = 1 by 1\n",
    "1 semctl 1 getncnt 0 = 0 by 1\n",
    "1 semctl 1 getzcnt 65535 = 0 by 1\n",
    "1 semctl 1 setval 0 9 = ERANGE by 1\n",
    "1 semctl 1 getall = all 1,0 by 1\n",
    "1 semctl 1 setall 1,0,65535 = 0 by 1\n",
    "1 semctl 1 rmid = 0 by 1\n",
    "2 msgrcv 4294967295 0 8 = parked by 2\n",
    "1 msgsnd 1 1 \"hi\" = 0 by 2 wakes 2 1 \"hi\"\n",
    "1 msgctl 1 rmid = 0 by 1 wakes 3 EIDRM wakes 2 EIDRM\n",
    "1 semctl 1 setval 0 1 = 0 by 1 wakes 4 0 wakes 4294967295 0\n",
    "1 exit 0 = ended by 1 wakes 3 1 exited 0 wakes 2 1 killed KILL\n",
    "1 getpid = parked by 1 wakes 0 EAGAIN wakes 5 all 7,0 wakes 6 none wakes 7 HUP,INT",
    " wakes 8 qnum 1 qbytes 2 lspid 3 lrpid 4 wakes 9 -1 rep:17:z wakes 9 ended\n",
    "2 withdraw msg 4294967295 = EINTR by 2\n",
    "3 withdraw sem 0 = 0 by 3\n",
    "4 withdraw proc 1 = parked by 4\n",
    "totals entries 42 processes 2 notready 2 refused 9\n"
);

// The entries of the trace.
fn read_back(alloc: Global) -> Result<Entries, Fail> {
    let script = two_blocks(alloc)?;
    Ok(read_trace(alloc, &script, TRACE.as_bytes(), 1)?)
}

#[test]
fn a_trace_is_read_and_written_again(rt: HostRuntime) -> Result<(), Fail> {
    let entries = read_back(rt.alloc())?;
    assert!(rt; entries.len() == 42);
    assert!(rt; is_written(rt.alloc(), &entries, TRACE)?);
    Ok(())
}
