//! The program `pico`: it runs a script of processes and writes a trace, which is one history of a single POSIX kernel;
//! it judges a trace; it runs generated scripts; and it freezes runs and thaws them.
#![tactic(auto)]

mod answer;
mod boxed;
mod copied;
mod frozen;
mod judged;
mod laws;
mod program;
mod queues;
mod run;
mod schedule;
mod stalled;
mod status;
mod telling;
mod thawed;
mod threaded;

pub use boxes_run::RestedList;
use host_iface::{OpenGate, StdSink, StdSource};
pub use laws::thawing_is_simulating;
pub use program::{Ran, pico};
pub use status::Status;
use std::mem::ManuallyDrop;
use std::process::ExitCode;
use std::rt::Env;
use std::sync::Wait;
use std::thread::Threads;
use std::{env, io};

// The words behind the program's name. Words that are no text are in no order, as no words at all are.
fn words_of<R: Env + AllocGlobal>(rt: &R) -> Result<Vec<String>, Status> {
    let mut words = Vec::new(rt.alloc());
    let args = match env::args(rt) {
        Ok(args) => args,
        Err(error) if error.kind() == io::ErrorKind::OutOfMemory => return Err(Status::Memory),
        Err(_) => return Ok(words),
    };
    for word in args.skip(1) {
        if words.push(word).is_err() {
            return Err(Status::Memory);
        }
    }
    Ok(words)
}

fn start<R: Env + AllocGlobal + Input + Print + Threads + Wait + Sync>(rt: &R) -> Status {
    let words = match words_of(rt) {
        Ok(words) => words,
        Err(status) => return status,
    };
    let mut source = StdSource::new(rt.reader());
    let mut sink = StdSink::new(io::writer(rt));
    leave(pico(rt, rt.alloc(), &words, &mut source, &mut sink, &OpenGate))
}

// What a run hands back is left as it is: the program ends, and the system takes back its memory at once, not piece by
// piece.
fn leave(ran: Ran) -> Status {
    let Ran { status, rested } = ran;
    let _left = ManuallyDrop::new(rested);
    status
}

// Why what was asked for isn't written, or not all of it, or that a run is stalled. The other statuses go with a text
// that says it.
fn reason(status: Status) -> Option<&'static str> {
    match status {
        Status::Memory => Some("pico: memory ran out; nothing is written"),
        Status::ReadFault => Some("pico: reading standard input failed; nothing is written"),
        Status::WriteFault => Some("pico: writing to standard output failed"),
        Status::Stalled => Some(
            "pico: stalled: each process that lives waits, and nothing lets one go on",
        ),
        Status::Done | Status::BadScript | Status::Usage | Status::NotLegal | Status::BadImage =>
            None,
    }
}

fn main(rt: HostRuntime) -> ExitCode {
    let status = start(&rt);
    if let Some(line) = reason(status) {
        // Where that fails too, the exit status alone tells it.
        let _ = rt.eprintln(line);
    }
    ExitCode::from(status.code())
}
