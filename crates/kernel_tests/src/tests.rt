//! Who waits and who is woken, by rows of calls. What a row comes to is told in words, a line for each call.
mod processes;
mod queues;
mod sets;

use mono_kernel::Kernel;
use pico_base::{Act, Call, Id, Node, Outcome, Pid, Reply, Sig, SigArg};
use std::alloc::Global;
use std::test::Fail;

/// A message's text.
fn text_of(bytes: &[u8]) -> &str {
    match std::str::from_utf8(bytes) {
        Ok(text) => text,
        Err(_) => "?",
    }
}

/// A reply in words.
fn tell_reply(alloc: Global, said: &mut String, reply: &Reply) -> Result<(), Fail> {
    let word = match reply {
        Reply::Num(n) => format!(in alloc; "{n}")?,
        Reply::Message { class, text } => {
            format!(in alloc; "{class} {}", text_of(text.as_slice()))?
        }
        Reply::Fail(errno) => format!(in alloc; "{errno:?}")?,
        other => format!(in alloc; "{other:?}")?,
    };
    said.push_str(word.as_str())?;
    Ok(())
}

/// What a call comes to: the caller's own reply, or that it waits, and whom it wakes with which replies.
fn tell_outcome(alloc: Global, said: &mut String, outcome: &Outcome) -> Result<(), Fail> {
    match &outcome.own {
        Some(reply) => tell_reply(alloc, said, reply)?,
        None => said.push_str("parked")?,
    }
    for (pid, reply) in outcome.woken.as_slice() {
        let head = format!(in alloc; " wakes {} ", pid.0)?;
        said.push_str(head.as_str())?;
        tell_reply(alloc, said, reply)?;
    }
    Ok(())
}

/// Makes a call that may create something of this number, and tells what it comes to.
fn create(
    alloc: Global,
    kernel: &mut Kernel,
    said: &mut String,
    pid: u32,
    call: &Call,
    chosen: u32,
) -> Result<(), Fail> {
    match kernel.call(Pid(pid), call, chosen) {
        Ok(outcome) => tell_outcome(alloc, said, &outcome)?,
        Err(_) => said.push_str("none")?,
    }
    said.push_str("\n")?;
    Ok(())
}

/// Makes a call that creates nothing.
fn make(
    alloc: Global,
    kernel: &mut Kernel,
    said: &mut String,
    pid: u32,
    call: &Call,
) -> Result<(), Fail> {
    create(alloc, kernel, said, pid, call, 0)
}

/// Process 1 forks a process of this number.
fn fork(alloc: Global, kernel: &mut Kernel, said: &mut String, pid: u32) -> Result<(), Fail> {
    let call = Call::Fork { block: Node(2) };
    create(alloc, kernel, said, 1, &call, pid)
}

/// Process 1 makes queue 1 and set 1 of two semaphores, and forks 2 and 3.
fn open(alloc: Global, kernel: &mut Kernel) -> Result<(), Fail> {
    let queue = Call::MsgGet {
        key: None,
        create: false,
        excl: false,
    };
    let set = Call::SemGet {
        key: None,
        count: 2,
        create: false,
        excl: false,
    };
    let mut said = String::new(alloc);
    create(alloc, kernel, &mut said, 1, &queue, 1)?;
    create(alloc, kernel, &mut said, 1, &set, 1)?;
    fork(alloc, kernel, &mut said, 2)?;
    fork(alloc, kernel, &mut said, 3)
}

/// msgrcv from queue 1, which may wait.
fn receive(class: i32, size: u32) -> Call {
    Call::MsgRcv {
        id: Id(1),
        class,
        size,
        noerror: false,
        nowait: false,
    }
}

/// sigaction that catches a signal.
fn catch(sig: Sig) -> Call {
    Call::SigAction {
        sig: SigArg::Is(sig),
        act: Act::Catch,
    }
}

/// The rows of calls.
#[derive(Clone, Copy)]
enum Row {
    WakeAReceive,
    WakeByAWokenSend,
    BeginAtTheFirst,
    WakeTwoOfThree,
    RefuseTheFirst,
    Remove,
    CountAndRemove,
    PassOverOne,
    StopAtNowait,
    WakeAndStrike,
    EndAnother,
    Strike,
}

/// Makes the calls of a row.
fn play(alloc: Global, kernel: &mut Kernel, said: &mut String, row: Row) -> Result<(), Fail> {
    match row {
        Row::WakeAReceive => queues::wake_a_receive(alloc, kernel, said),
        Row::WakeByAWokenSend => queues::wake_by_a_woken_send(alloc, kernel, said),
        Row::BeginAtTheFirst => queues::begin_at_the_first(alloc, kernel, said),
        Row::WakeTwoOfThree => queues::wake_two_of_three(alloc, kernel, said),
        Row::RefuseTheFirst => queues::refuse_the_first(alloc, kernel, said),
        Row::Remove => queues::remove(alloc, kernel, said),
        Row::CountAndRemove => sets::count_and_remove(alloc, kernel, said),
        Row::PassOverOne => sets::pass_over_one(alloc, kernel, said),
        Row::StopAtNowait => sets::stop_at_nowait(alloc, kernel, said),
        Row::WakeAndStrike => processes::wake_and_strike(alloc, kernel, said),
        Row::EndAnother => processes::end_another(alloc, kernel, said),
        Row::Strike => processes::strike(alloc, kernel, said),
    }
}

/// What a row's calls come to. This function alone owns a kernel, since each that does proves again how one is let go.
fn told(alloc: Global, row: Row) -> Result<String, Fail> {
    let mut kernel = Kernel::new(alloc)?;
    let mut said = String::new(alloc);
    open(alloc, &mut kernel)?;
    play(alloc, &mut kernel, &mut said, row)?;
    Ok(said)
}
