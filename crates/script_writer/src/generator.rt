//! Generated scripts.

ghost use Rattle.std.specs.Prelude.{◌≡◌, true, ◌≤◌, ◌+◌, ◌++◌, ◌∷◌, [], replicate, map, IfOk, OnOk};
ghost use Rattle.kernel_model.specs.Script.{IsSoundScript};
ghost use Rattle.script_writer.specs.Generated as spec;
ghost use Rattle.script_writer.specs.Waits.{never_waits};

use itoa::Buffer;
use pico_base::{Block, Blocks, Bytes, Call, Id, Line, Lines, Memory, Node, Script, Var};
use std::alloc::Global;

// The variable whose queue is main's.
const MAIN_QUEUE: Var = Var(111 * 18);

// The variable whose queue is the worker's.
fn worker_queue(k: u8) -> Var
    requires { k ≤ 31 }
    ensures { result ≡ spec.worker_queue k }
{
    let digits = if k < 10 { 1 + k } else { 11 + k };
    Var(111 * 16 + u16::from(digits))
}

fn line(set: Option<Var>, from: Option<Var>, call: Call) -> Line
    ensures { result ≡ spec.line set from call }
{
    Line {
        set,
        tries: 1,
        from,
        call,
    }
}

// `VAR = msgget private`
fn make(queue: Var) -> Line
    ensures { result ≡ spec.make queue }
{
    let call = Call::MsgGet {
        key: None,
        create: false,
        excl: false,
    };
    line(Some(queue), None, call)
}

// `msgsnd $VAR 1 "x" nowait`
fn send(alloc: Global, queue: Var) -> Result<Line, Memory>
    ensures { IfOk result (λ line. line ≡ spec.send queue) }
{
    let call = Call::MsgSnd {
        id: Id(0),
        class: 1,
        text: Bytes::from_slice(alloc, b"x")?,
        nowait: true,
    };
    Ok(line(None, Some(queue), call))
}

// `msgrcv $VAR 0 8 nowait`
fn receive(queue: Var) -> Line
    ensures { result ≡ spec.receive queue }
{
    let call = Call::MsgRcv {
        id: Id(0),
        class: 0,
        size: 8,
        noerror: false,
        nowait: true,
    };
    line(None, Some(queue), call)
}

// `fork wk`
fn fork(k: u8) -> Line
    requires { k ≤ 31 }
    ensures { result ≡ spec.fork k }
{
    line(None, None, Call::Fork { block: Node(k + 1) })
}

fn push_sends(alloc: Global, lines: &mut Lines, queue: Var, messages: u32) -> Result<(), Memory>
    ensures { OnOk result (lines.new ≡ lines.old ++ replicate messages (spec.send queue)) }
{
    for _ in 0..messages {
        lines.push(send(alloc, queue)?)?;
    }
    Ok(())
}

fn push_receives(lines: &mut Lines, queue: Var, messages: u32) -> Result<(), Memory>
    ensures { OnOk result (lines.new ≡ lines.old ++ replicate messages (spec.receive queue)) }
{
    for _ in 0..messages {
        lines.push(receive(queue))?;
    }
    Ok(())
}

// What main does for a worker.
fn push_lines_for(alloc: Global, lines: &mut Lines, messages: u32, k: u8) -> Result<(), Memory>
    requires { k ≤ 31 }
    ensures { OnOk result (lines.new ≡ lines.old ++ spec.lines_for messages k) }
{
    let queue = worker_queue(k);
    lines.push(make(queue))?;
    push_sends(alloc, lines, queue, messages)?;
    lines.push(fork(k))
}

fn main_lines(alloc: Global, messages: u32, workers: u8) -> Result<Lines, Memory>
    requires { workers ≤ 31 }
    ensures { IfOk result (λ lines. lines ≡ spec.main_lines messages workers) }
{
    let mut lines = Lines::new(alloc);
    lines.push(make(MAIN_QUEUE))?;
    for before in 0..workers {
        push_lines_for(alloc, &mut lines, messages, before + 1)?;
    }
    Ok(lines)
}

fn main_block(alloc: Global, messages: u32, workers: u8) -> Result<Block, Memory>
    requires { workers ≤ 31 }
    ensures { IfOk result (λ block. block ≡ spec.main messages workers) }
{
    Ok(Block {
        name: Bytes::from_slice(alloc, b"main")?,
        lines: main_lines(alloc, messages, workers)?,
    })
}

fn worker_lines(alloc: Global, messages: u32, k: u8) -> Result<Lines, Memory>
    requires { k ≤ 31 }
    ensures { IfOk result (λ lines. lines ≡ spec.worker_lines messages k) }
{
    let mut lines = Lines::new(alloc);
    push_receives(&mut lines, worker_queue(k), messages)?;
    lines.push(send(alloc, MAIN_QUEUE)?)?;
    Ok(lines)
}

fn worker_name(alloc: Global, k: u8) -> Result<Bytes, Memory>
    ensures { IfOk result (λ name. name ≡ spec.worker_name k) }
{
    let mut name = Vec::new(alloc);
    name.push(b'w')?;
    name.extend_from_slice(Buffer::new().format(k).as_bytes())?;
    Ok(Bytes::from_vec(name))
}

fn worker(alloc: Global, messages: u32, k: u8) -> Result<Block, Memory>
    requires { k ≤ 31 }
    ensures { IfOk result (λ block. block ≡ spec.worker messages k) }
{
    Ok(Block {
        name: worker_name(alloc, k)?,
        lines: worker_lines(alloc, messages, k)?,
    })
}

fn script_with(alloc: Global, messages: u32, workers: u8) -> Result<Script, Memory>
    requires { workers ≤ 31 }
    ensures { IfOk result (λ script. script ≡ spec.script_with messages workers) }
{
    let mut blocks = Blocks::new(alloc);
    blocks.push(main_block(alloc, messages, workers)?)?;
    for before in 0..workers {
        blocks.push(worker(alloc, messages, before + 1)?)?;
    }
    Ok(Script { blocks })
}

/// The generated script of this number. It has 2 + N mod 31 blocks: `main` and workers `w1`, `w2` and so on. Main
/// makes the queue `s`; then for each worker k in order it makes the queue `qk`, sends 10 + N mod 291 messages to it
/// and forks the worker, which receives them all and then sends one message to the queue `s`. No call of it waits.
#[tactic(auto, unfolding(crate::specs::Generated::generated))]
pub fn generate(alloc: Global, number: u32) -> Result<Script, Memory>
    ensures script { IfOk result (λ script. script ≡ spec.generated number) }
    ensures sound { IfOk result IsSoundScript }
    ensures waits { IfOk result (λ script. never_waits script ≡ true) }
{
    script_with(alloc, 10 + number % 291, 1 + (number % 31) as u8)
}
