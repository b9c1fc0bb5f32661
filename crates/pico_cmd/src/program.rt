//! The program, from words and bytes to bytes.
ghost use Rattle.std.specs.Prelude.{◌≡◌, ◌⊎◌, ◌≤◌, ◌+◌, [], ℕ, List, Option, Some, None, length, map, string_bytes, IfOk, OnOk, IfSome, IfErr};
ghost use Rattle.host_iface.specs.Faults.{HasRisen};
ghost use Rattle.host_iface.specs.Told.{followed_by};
ghost use Rattle.pico_words.specs.Words.{request_in};
ghost use Rattle.pico_cmd.specs.Promise.{Allows, AnswersTold, EachCause, Wrote, WroteFront, IsOrFails, IsOrStops, IsWritten, usage_text};
ghost use Rattle.pico_cmd.specs.declared.program.Stop.TheVariants.{Memory as OutOfMemory};
ghost use Rattle.pico_cmd.specs.Stop.{IsReadFault, IsStop, AreBytesUpTo, Reads, left_behind, most_read};

use crate::answer::{Answer, answer_to};
use crate::boxed::answer_to_boxes;
use crate::frozen::answer_to_freeze;
use crate::judged::answer_to_check;
use crate::queues::answer_to_queues;
use crate::status::Status;
use crate::thawed::answer_to_thaw;
use crate::threaded::{answer_to_number, answer_to_run};
use boxes_run::RestedList;
use host_iface::{Gate, ReadStop, Sink, Source, read_all, write_all};
use pico_base::{Bytes, Memory};
use pico_words::{Options, Request, request_of};
use std::alloc::Global;
use std::sync::Wait;
use std::thread::Threads;

// The greatest script, and the greatest input of sandboxes, in bytes.
const MAX_SCRIPT: usize = 1048576;

// The greatest image.
const MAX_IMAGE: usize = 16777216;

// The greatest script, the longest line `trace` with its line feed, and the greatest trace.
const MAX_CHECKED: usize = 68161537;

/// What a run of the program leaves: how it ended, and the outcomes of the runs with threads that stand behind what was
/// written. There is one with `run`, `gen` and `mq`, and one for each sandbox with `boxes`, where the status is Done or
/// Stalled, or a WriteFault in its place; else there is none.
#[derive(Drop)]
pub struct Ran {
    pub status: Status,
    pub rested: RestedList,
}

// Why there is no answer to write.
enum Stop {
    Memory,
    ReadFault,
}

impl From<Memory> for Stop {
    ghost from_gives = { λ _ e. e ≡ OutOfMemory };

    fn from(_: Memory) -> Self {
        Stop::Memory
    }
}

#[tactic(auto, unfolding(crate::specs::Promise::usage_text))]
fn usage(alloc: Global) -> Result<Answer, Memory>
    ensures { IfOk result (λ answer.
        (answer.status ≡ Status.Usage) × (answer.text ≡ usage_text) × (answer.rested ≡ [])) }
{
    Ok(Answer {
        status: Status::Usage,
        text: Bytes::from_slice(
            alloc,
            b"usage: pico run|sim|check|gen|mq|boxes|freeze|thaw [--seed N] [--steps]\n",
        )?,
        rested: RestedList::new(alloc),
    })
}

// The bytes of the source, one past the limit at most.
fn bytes_up_to<S: Source>(alloc: Global, source: &mut S, limit: usize) -> Result<Bytes, Stop>
    requires { limit ≤ 68161537 }
    ensures bytes { IfOk result (λ bytes. IfSome (S.left source.old) (AreBytesUpTo limit bytes)) }
    ensures few { IfOk result (λ bytes. length bytes ≤ limit + 1) }
    ensures rest { OnOk result (S.left source.new ≡ left_behind (limit + 1) (S.left source.old)) }
    ensures calm { OnOk result (S.faults source.new ≡ S.faults source.old) }
    ensures stop { IfErr result (IsStop (S.faults source.old) (S.faults source.new)) }
{
    match read_all(alloc, source, limit) {
        Ok(bytes) => Ok(bytes),
        Err(ReadStop::TooLong { read }) => Ok(read),
        Err(ReadStop::Memory) => Err(Stop::Memory),
        Err(ReadStop::Fault) => Err(Stop::ReadFault),
    }
}

// The answer to a script that is run with threads.
fn run_with_threads<R: Threads + Wait + Sync, S: Source, G: Gate>(
    rt: &R,
    alloc: Global,
    steps: bool,
    source: &mut S,
    gate: &G,
) -> Result<Answer, Stop>
    ensures answer { IfOk result
        (λ answer. AnswersTold (Request.Run steps) (S.left source.old) answer.status answer.text answer.rested) }
    ensures causes { EachCause (Some (Request.Run steps)) (S.left source.old)
        (λ s. IfOk result (λ answer. answer.status ≡ s)) }
    ensures rest { OnOk result (S.left source.new ≡ left_behind 1048577 (S.left source.old)) }
    ensures calm { OnOk result (S.faults source.new ≡ S.faults source.old) }
    ensures stop { IfErr result (IsStop (S.faults source.old) (S.faults source.new)) }
{
    let bytes = bytes_up_to(alloc, source, MAX_SCRIPT)?;
    Ok(answer_to_run(rt, alloc, bytes, steps, gate)?)
}

// The answer to a script.
fn simulate<S: Source>(alloc: Global, options: Options, source: &mut S) -> Result<Answer, Stop>
    ensures answer { IfOk result
        (λ answer. AnswersTold (Request.Simulate options) (S.left source.old) answer.status answer.text answer.rested) }
    ensures causes { EachCause (Some (Request.Simulate options)) (S.left source.old)
        (λ s. IfOk result (λ answer. answer.status ≡ s)) }
    ensures rest { OnOk result (S.left source.new ≡ left_behind 1048577 (S.left source.old)) }
    ensures calm { OnOk result (S.faults source.new ≡ S.faults source.old) }
    ensures stop { IfErr result (IsStop (S.faults source.old) (S.faults source.new)) }
{
    let bytes = bytes_up_to(alloc, source, MAX_SCRIPT)?;
    Ok(answer_to(alloc, bytes, options)?)
}

// The answer to a script and a trace.
fn check<S: Source>(alloc: Global, source: &mut S) -> Result<Answer, Stop>
    ensures answer { IfOk result
        (λ answer. AnswersTold Request.Check (S.left source.old) answer.status answer.text answer.rested) }
    ensures causes { EachCause (Some Request.Check) (S.left source.old)
        (λ s. IfOk result (λ answer. answer.status ≡ s)) }
    ensures rest { OnOk result (S.left source.new ≡ left_behind 68161538 (S.left source.old)) }
    ensures calm { OnOk result (S.faults source.new ≡ S.faults source.old) }
    ensures stop { IfErr result (IsStop (S.faults source.old) (S.faults source.new)) }
{
    let bytes = bytes_up_to(alloc, source, MAX_CHECKED)?;
    Ok(answer_to_check(alloc, bytes.as_slice())?)
}

// The answer to several sandboxes.
fn run_sandboxes<R: Threads + Wait + Sync, S: Source, G: Gate>(
    rt: &R,
    alloc: Global,
    source: &mut S,
    gate: &G,
) -> Result<Answer, Stop>
    ensures answer { IfOk result
        (λ answer. AnswersTold Request.Boxes (S.left source.old) answer.status answer.text answer.rested) }
    ensures causes { EachCause (Some Request.Boxes) (S.left source.old)
        (λ s. IfOk result (λ answer. answer.status ≡ s)) }
    ensures rest { OnOk result (S.left source.new ≡ left_behind 1048577 (S.left source.old)) }
    ensures calm { OnOk result (S.faults source.new ≡ S.faults source.old) }
    ensures stop { IfErr result (IsStop (S.faults source.old) (S.faults source.new)) }
{
    let bytes = bytes_up_to(alloc, source, MAX_SCRIPT)?;
    Ok(answer_to_boxes(rt, alloc, bytes.as_slice(), gate)?)
}

// The answer to a script that is frozen after so many events.
fn freeze_script<S: Source>(alloc: Global, count: u32, source: &mut S) -> Result<Answer, Stop>
    ensures answer { IfOk result
        (λ answer. AnswersTold (Request.Freeze count) (S.left source.old) answer.status answer.text answer.rested) }
    ensures causes { EachCause (Some (Request.Freeze count)) (S.left source.old)
        (λ s. IfOk result (λ answer. answer.status ≡ s)) }
    ensures rest { OnOk result (S.left source.new ≡ left_behind 1048577 (S.left source.old)) }
    ensures calm { OnOk result (S.faults source.new ≡ S.faults source.old) }
    ensures stop { IfErr result (IsStop (S.faults source.old) (S.faults source.new)) }
{
    let bytes = bytes_up_to(alloc, source, MAX_SCRIPT)?;
    Ok(answer_to_freeze(alloc, bytes.as_slice(), count)?)
}

// The answer to an image.
fn thaw_image<S: Source>(alloc: Global, source: &mut S) -> Result<Answer, Stop>
    ensures answer { IfOk result
        (λ answer. AnswersTold Request.Thaw (S.left source.old) answer.status answer.text answer.rested) }
    ensures causes { EachCause (Some Request.Thaw) (S.left source.old)
        (λ s. IfOk result (λ answer. answer.status ≡ s)) }
    ensures rest { OnOk result (S.left source.new ≡ left_behind 16777217 (S.left source.old)) }
    ensures calm { OnOk result (S.faults source.new ≡ S.faults source.old) }
    ensures stop { IfErr result (IsStop (S.faults source.old) (S.faults source.new)) }
{
    let bytes = bytes_up_to(alloc, source, MAX_IMAGE)?;
    Ok(answer_to_thaw(alloc, bytes.as_slice())?)
}

// The answer to a script of POSIX message queues.
fn run_queues<R: Threads + Wait + Sync, S: Source, G: Gate>(
    rt: &R,
    alloc: Global,
    steps: bool,
    source: &mut S,
    gate: &G,
) -> Result<Answer, Stop>
    ensures answer { IfOk result
        (λ answer. AnswersTold (Request.Queues steps) (S.left source.old) answer.status answer.text answer.rested) }
    ensures causes { EachCause (Some (Request.Queues steps)) (S.left source.old)
        (λ s. IfOk result (λ answer. answer.status ≡ s)) }
    ensures rest { OnOk result (S.left source.new ≡ left_behind 1048577 (S.left source.old)) }
    ensures calm { OnOk result (S.faults source.new ≡ S.faults source.old) }
    ensures stop { IfErr result (IsStop (S.faults source.old) (S.faults source.new)) }
{
    let bytes = bytes_up_to(alloc, source, MAX_SCRIPT)?;
    Ok(answer_to_queues(rt, alloc, bytes.as_slice(), steps, gate)?)
}

// The answer to a generated script's number.
fn totals<R: Threads + Wait + Sync, G: Gate>(
    rt: &R,
    alloc: Global,
    options: Options,
    gate: &G,
) -> Result<Answer, Memory>
    ensures answer { (left : Option (List ℕ)) → IfOk result
        (λ answer. AnswersTold (Request.Generate options) left answer.status answer.text answer.rested) }
    ensures causes { (left : Option (List ℕ)) → EachCause (Some (Request.Generate options)) left
        (λ s. IfOk result (λ answer. answer.status ≡ s)) }
{
    let answer = answer_to_number(rt, alloc, options.seed, options.steps, gate)?;
    Ok(answer)
}

// The answer to what is asked for, and to the bytes where they are wanted.
fn answer_for<R: Threads + Wait + Sync, S: Source, G: Gate>(
    rt: &R,
    alloc: Global,
    request: Request,
    source: &mut S,
    gate: &G,
) -> Result<Answer, Stop>
    ensures answer { IfOk result
        (λ answer. AnswersTold request (S.left source.old) answer.status answer.text answer.rested) }
    ensures causes { EachCause (Some request) (S.left source.old)
        (λ s. IfOk result (λ answer. answer.status ≡ s)) }
    ensures rest { OnOk result (S.left source.new ≡ left_behind (most_read request) (S.left source.old)) }
    ensures calm { OnOk result (S.faults source.new ≡ S.faults source.old) }
    ensures stop { IfErr result (IsStop (S.faults source.old) (S.faults source.new)) }
    ensures read { IfErr result (IsReadFault (Reads (Some request))) }
    ensures untouched { (Reads (Some request) → ⊥) → source.new ≡ source.old }
{
    match request {
        Request::Run { steps } => run_with_threads(rt, alloc, steps, source, gate),
        Request::Simulate(options) => simulate(alloc, options, source),
        Request::Check => check(alloc, source),
        Request::Generate(options) => Ok(totals(rt, alloc, options, gate)?),
        Request::Boxes => run_sandboxes(rt, alloc, source, gate),
        Request::Freeze { count } => freeze_script(alloc, count, source),
        Request::Thaw => thaw_image(alloc, source),
        Request::Queues { steps } => run_queues(rt, alloc, steps, source, gate),
    }
}

// The answer to what is asked for, where something is.
fn answer_asked<R: Threads + Wait + Sync, S: Source, G: Gate>(
    rt: &R,
    alloc: Global,
    asked: Option<Request>,
    source: &mut S,
    gate: &G,
) -> Result<Answer, Stop>
    ensures answer { IfOk result (λ answer. Allows asked (S.left source.old) answer.status answer.text answer.rested) }
    ensures usage { asked ≡ None → IfOk result (λ answer. answer.status ≡ Status.Usage) }
    ensures causes { EachCause asked (S.left source.old) (λ s. IfOk result (λ answer. answer.status ≡ s)) }
    ensures rest { IfSome asked (λ request.
        OnOk result (S.left source.new ≡ left_behind (most_read request) (S.left source.old))) }
    ensures calm { OnOk result (S.faults source.new ≡ S.faults source.old) }
    ensures stop { IfErr result (IsStop (S.faults source.old) (S.faults source.new)) }
    ensures read { IfErr result (IsReadFault (Reads asked)) }
    ensures untouched { (Reads asked → ⊥) → source.new ≡ source.old }
{
    match asked {
        Some(request) => answer_for(rt, alloc, request, source, gate),
        None => Ok(usage(alloc)?),
    }
}

// The answer to the words and the bytes.
fn answer<R: Threads + Wait + Sync, S: Source, G: Gate>(
    rt: &R,
    alloc: Global,
    words: &[String],
    source: &mut S,
    gate: &G,
) -> Result<Answer, Stop>
    ensures answer { IfOk result
        (λ answer. Allows (request_in (map string_bytes words.now))
        (S.left source.old) answer.status answer.text answer.rested) }
    ensures usage { request_in (map string_bytes words.now) ≡ None
        → IfOk result (λ answer. answer.status ≡ Status.Usage) }
    ensures causes { EachCause (request_in (map string_bytes words.now)) (S.left source.old)
        (λ s. IfOk result (λ answer. answer.status ≡ s)) }
    ensures rest { IfSome (request_in (map string_bytes words.now)) (λ request.
        OnOk result (S.left source.new ≡ left_behind (most_read request) (S.left source.old))) }
    ensures calm { OnOk result (S.faults source.new ≡ S.faults source.old) }
    ensures stop { IfErr result (IsStop (S.faults source.old) (S.faults source.new)) }
    ensures read { IfErr result (IsReadFault (Reads (request_in (map string_bytes words.now)))) }
    ensures untouched { (Reads (request_in (map string_bytes words.now)) → ⊥) → source.new ≡ source.old }
{
    let asked = request_of(alloc, words)?;
    answer_asked(rt, alloc, asked, source, gate)
}

// Writes a text that goes with a status, and gives that status or that the write failed.
fn write_text<K: Sink>(sink: &mut K, status: Status, text: &[u8]) -> Status
    ensures written { IsWritten status text.now (K.taken sink.old) (K.taken sink.new)
        (HasRisen (K.faults sink.old) (K.faults sink.new)) result }
    ensures calm { (result ≡ Status.WriteFault → ⊥) → K.faults sink.new ≡ K.faults sink.old }
{
    match write_all(sink, text) {
        Ok(()) => status,
        Err(_) => Status::WriteFault,
    }
}

// Writes an answer, and gives its status or that the write failed, with what it hands back.
fn write_answer<K: Sink>(sink: &mut K, answer: Answer) -> Ran
    ensures written { IsWritten answer.status answer.text (K.taken sink.old) (K.taken sink.new)
        (HasRisen (K.faults sink.old) (K.faults sink.new)) result.status }
    ensures calm { (result.status ≡ Status.WriteFault → ⊥) → K.faults sink.new ≡ K.faults sink.old }
    ensures rested { result.rested ≡ answer.rested }
{
    let Answer {
        status,
        text,
        rested,
    } = answer;
    let status = write_text(sink, status, text.as_slice());
    Ran { status, rested }
}

/// Runs the program: it looks at the words, reads the source to its end, does the job, and writes the whole answer.
///
/// The words are those behind the program's name: a mode and its options, before it or behind it.
///
/// - `run`, with `--steps` if wanted: the source is a script. Its processes run as picoprocesses, each in a thread of
///   its own that passes the gate before each turn, over streams of bytes and one journal under a lock. The trace is
///   written, and with `--steps` the events behind it.
/// - `sim`, with `--seed N` and `--steps` if wanted: the source is a script. Its processes run as picoprocesses, one
///   event at a time, by the schedule of number N, which is 0 where none is given. The trace is written, and with
///   `--steps` the events behind it.
/// - `check`: the source is a script, a line `trace` and a trace. It is written that the trace is legal, with the
///   number of its entries, or what its first fault is.
/// - `gen`, with the same options as `sim`: the generated script of number N runs with threads, as in `run`. The totals
///   line of its trace is written, and with `--steps` the events behind it. Nothing is read.
/// - `mq`, with `--steps` if wanted: the source is a script of POSIX message queues. The script of System V that runs
///   it does so with threads, as in `run`. The trace of the history of POSIX message queues that its journal stands for
///   is written, and with `--steps` the events behind it.
/// - `boxes`: the source is up to 8 sandboxes, each a script of its own. All run at once with threads, as in `run`, and
///   the gate counts their nodes in order. For each its name and its trace are written.
/// - `freeze`, with `--seed N` if wanted: the source is a script. It runs as in `sim` by schedule 0, for N events or to
///   rest, and an image is written: the script and these events. Without a number there are none.
/// - `thaw`: the source is an image. Its script runs by the image's events, and goes on by schedule 0 behind the node
///   of the last of them, to rest. The trace is written.
///
/// Where processes of a script wait for good, the run comes to rest all the same: then all is written as else, and the
/// status is Stalled. No process of a generated script waits.
///
/// What `run`, `gen`, `mq` and `boxes` come to is handed back, too: the journal, the events, the world at rest, and
/// what each thread left.
pub fn pico<R: Threads + Wait + Sync, S: Source, K: Sink, G: Gate>(
    rt: &R,
    alloc: Global,
    words: &[String],
    source: &mut S,
    sink: &mut K,
    gate: &G,
) -> Ran
    // What is written with each status: the trace of a run of the script's processes, which is one history of a single
    // POSIX kernel, with message queues of System V or, in `mq`, of POSIX; or that a trace is legal, or the totals of a
    // generated script's run, or such a trace for each of several sandboxes, or an image, or the trace of the run that
    // an image begins; the first fault of the script, of the sandboxes, of the trace or of the image; or the usage
    // line. Nothing is written where memory or the source failed.
    ensures done { result.status ≡ Status.Done →
        Wrote (request_in (map string_bytes words.now)) (S.left source.old) Status.Done
        result.rested (K.taken sink.old) (K.taken sink.new) }
    // Stalled comes where the run is at rest and processes that live wait; then all is written, too.
    ensures stalled { result.status ≡ Status.Stalled →
        Wrote (request_in (map string_bytes words.now)) (S.left source.old) Status.Stalled
        result.rested (K.taken sink.old) (K.taken sink.new) }
    ensures bad_script { result.status ≡ Status.BadScript →
        Wrote (request_in (map string_bytes words.now)) (S.left source.old) Status.BadScript
        result.rested (K.taken sink.old) (K.taken sink.new) }
    ensures not_legal { result.status ≡ Status.NotLegal →
        Wrote (request_in (map string_bytes words.now)) (S.left source.old) Status.NotLegal
        result.rested (K.taken sink.old) (K.taken sink.new) }
    ensures bad_image { result.status ≡ Status.BadImage →
        Wrote (request_in (map string_bytes words.now)) (S.left source.old) Status.BadImage
        result.rested (K.taken sink.old) (K.taken sink.new) }
    ensures usage { result.status ≡ Status.Usage →
        Wrote (request_in (map string_bytes words.now)) (S.left source.old) Status.Usage
        result.rested (K.taken sink.old) (K.taken sink.new) }
    ensures memory { result.status ≡ Status.Memory → (sink.new ≡ sink.old) × (result.rested ≡ []) }
    ensures read_fault { result.status ≡ Status.ReadFault → (sink.new ≡ sink.old) × (result.rested ≡ []) }

    // Want of memory isn't told for a read that failed. Where the words aren't in order, and for a generated script,
    // nothing is read.
    ensures memory_calm { result.status ≡ Status.Memory → S.faults source.new ≡ S.faults source.old }
    ensures untouched { (Reads (request_in (map string_bytes words.now)) → ⊥) → source.new ≡ source.old }

    // The causes of the faults of reading and writing. A write that fails leaves a front of what was to be written.
    ensures read_cause { result.status ≡ Status.ReadFault →
        Reads (request_in (map string_bytes words.now)) × HasRisen (S.faults source.old) (S.faults source.new) }
    ensures write_cause { result.status ≡ Status.WriteFault → HasRisen (K.faults sink.old) (K.faults sink.new) }
    ensures write_front { result.status ≡ Status.WriteFault →
        WroteFront (request_in (map string_bytes words.now)) (S.left source.old) result.rested
        (K.taken sink.old) (K.taken sink.new) }

    // No fault passes unseen: with each other status the count of the source, and of the sink, is as it was.
    ensures calm_source { (result.status ≡ Status.ReadFault → ⊥) → S.faults source.new ≡ S.faults source.old }
    ensures calm_sink { (result.status ≡ Status.WriteFault → ⊥) → K.faults sink.new ≡ K.faults sink.old }

    // The source is read to its end, or one byte past the mode's limit.
    ensures rest { IfSome (request_in (map string_bytes words.now)) (λ request.
        (result.status ≡ Status.ReadFault → ⊥) → (result.status ≡ Status.Memory → ⊥)
        → S.left source.new ≡ left_behind (most_read request) (S.left source.old)) }

    // Words out of order give the usage line, a script with a fault its fault, and a trace with a fault its fault.
    ensures usage_exactly { request_in (map string_bytes words.now) ≡ None → IsOrFails result.status Status.Usage }
    ensures exactly { EachCause (request_in (map string_bytes words.now)) (S.left source.old)
        (IsOrStops result.status) }

    // Where no count of faults rises, the answer is the one that there is a cause for, unless memory runs out: a script
    // without a fault is run, a legal trace is legal, a generated script is run, and so are sandboxes without a fault.
    ensures complete { (Reads (request_in (map string_bytes words.now))
        → HasRisen (S.faults source.old) (S.faults source.new) → ⊥)
        → (HasRisen (K.faults sink.old) (K.faults sink.new) → ⊥)
        → EachCause (request_in (map string_bytes words.now)) (S.left source.old)
        (λ s. (result.status ≡ s) ⊎ (result.status ≡ Status.Memory)) }
{
    match answer(rt, alloc, words, source, gate) {
        Ok(answer) => write_answer(sink, answer),
        Err(Stop::Memory) => Ran {
            status: Status::Memory,
            rested: RestedList::new(alloc),
        },
        Err(Stop::ReadFault) => Ran {
            status: Status::ReadFault,
            rested: RestedList::new(alloc),
        },
    }
}
