//! A script of POSIX message queues: the script of System V that runs it, and the given call of each line.

ghost use Rattle.std.specs.Prelude.{◌≡◌, pos, false, map, Some, IfOk};
ghost use Rattle.pico_base.specs.declared.call.Call.TheVariants as calls;
ghost use Rattle.mq_model.specs.Given.{IsGiven};
ghost use Rattle.mq_model.specs.Lines as spec;
ghost use Rattle.mq_model.specs.SystemV as system;
ghost use Rattle.posix_mq.specs.Given as kept;

use crate::system_v::system_v;
use mq_model::{MqCall, MqLine, MqLines};
use pico_base::{Block, Bytes, Call, Id, Key, Line, Memory, Script, Sequence, Var};
use std::alloc::Global;

/// A script of POSIX message queues: the script of System V that runs it, and the given call of each of its lines.
#[derive(Debug, PartialEq, Eq, Drop)]
pub struct MqScript {
    pub script: Script,
    pub lines: MqLines,
}

/// A send of this priority, where that has 16 bits.
fn kept_send(alloc: Global, id: Id, class: i32, text: &Bytes) -> Result<MqCall, Memory>
    ensures { IfOk result (λ call. call ≡ kept.given_send id class text.now) }
{
    match u16::try_from(class) {
        Ok(prio) => Ok(MqCall::Send {
            id,
            prio,
            text: text.try_copy(alloc)?,
        }),
        Err(_) => Ok(MqCall::Same),
    }
}

/// A receive of this size, where that has 16 bits.
fn kept_receive(id: Id, size: u32) -> MqCall
    ensures { result ≡ kept.given_receive id size }
{
    match u16::try_from(size) {
        Ok(size) => MqCall::Receive { id, size },
        Err(_) => MqCall::Same,
    }
}

/// A given call, as it is kept.
fn kept_call(alloc: Global, call: &Call) -> Result<MqCall, Memory>
    ensures { IfOk result (λ made. made ≡ kept.given_call call.now) }
{
    match call {
        Call::MsgGet {
            key: Some(key),
            create,
            excl,
        } => Ok(MqCall::Open {
            name: key.0,
            create: *create,
            excl: *excl,
        }),
        Call::MsgSnd {
            id,
            class,
            text,
            ..
        } => kept_send(alloc, *id, *class, text),
        Call::MsgRcv { id, size, .. } => Ok(kept_receive(*id, *size)),
        Call::MsgStat { id } => Ok(MqCall::GetAttr { id: *id }),
        _ => Ok(MqCall::Same),
    }
}

fn kept_lines(alloc: Global, lines: &[Line]) -> Result<Sequence<MqLine>, Memory>
    ensures { IfOk result (λ made. made ≡ map kept.given_line lines.now) }
{
    let mut made = Sequence::new(alloc);
    for line in lines {
        let call = kept_call(alloc, &line.call)?;
        made.push(MqLine {
            from: line.from,
            call,
        })?;
    }
    Ok(made)
}

fn kept_in(alloc: Global, blocks: &[Block]) -> Result<MqLines, Memory>
    ensures { IfOk result (λ made. made ≡ map kept.given_lines blocks.now) }
{
    let mut made = Sequence::new(alloc);
    for block in blocks {
        made.push(kept_lines(alloc, block.lines.as_slice())?)?;
    }
    Ok(made)
}

/// The line with this call in place of its own.
fn with_call(line: &Line, from: Option<Var>, call: Call) -> Line
    ensures { result ≡ spec.with_call line.now from call }
{
    Line {
        set: line.set,
        tries: line.tries,
        from,
        call,
    }
}

fn open(name: u32, create: bool, excl: bool) -> Call
    ensures { result ≡ calls.MsgGet (Some name) create excl }
{
    Call::MsgGet {
        key: Some(Key(name)),
        create,
        excl,
    }
}

fn send(alloc: Global, id: Id, prio: u16, text: &Bytes) -> Result<Call, Memory>
    ensures { IfOk result (λ call. call ≡ calls.MsgSnd id (pos prio) text.now false) }
{
    Ok(Call::MsgSnd {
        id,
        class: i32::from(prio),
        text: text.try_copy(alloc)?,
        nowait: false,
    })
}

fn receive(id: Id, size: u16) -> Call
    ensures { result ≡ calls.MsgRcv id (pos 0) size false false }
{
    Call::MsgRcv {
        id,
        class: 0,
        size: u32::from(size),
        noerror: false,
        nowait: false,
    }
}

/// A given line, by that of System V and what is kept of the given one.
fn line_given(alloc: Global, line: &Line, own: &MqLine) -> Result<Line, Memory>
    ensures { IfOk result (λ made. made ≡ spec.line_given line.now own.now.from own.now.call) }
{
    match &own.call {
        MqCall::Open { name, create, excl } => {
            Ok(with_call(line, own.from, open(*name, *create, *excl)))
        }
        MqCall::Send { id, prio, text } => {
            Ok(with_call(line, own.from, send(alloc, *id, *prio, text)?))
        }
        MqCall::Receive { id, size } => Ok(with_call(line, own.from, receive(*id, *size))),
        MqCall::GetAttr { id } => Ok(with_call(line, own.from, Call::MsgStat { id: *id })),
        MqCall::Same => Ok(with_call(line, line.from, line.call.try_copy(alloc)?)),
    }
}

fn lines_given(alloc: Global, lines: &[Line], own: &[MqLine]) -> Result<Sequence<Line>, Memory>
    ensures { IfOk result (λ made. made ≡ spec.lines_given lines.now own.now) }
{
    let mut made = Sequence::new(alloc);
    let mut rest = own;
    for line in lines {
        match rest.split_first() {
            Some((first, others)) => {
                made.push(line_given(alloc, line, first)?)?;
                rest = others;
            }
            None => return Ok(made),
        }
    }
    Ok(made)
}

fn block_given(alloc: Global, block: &Block, own: &[MqLine]) -> Result<Block, Memory>
    ensures { IfOk result (λ made. made ≡ spec.block_given block.now own.now) }
{
    Ok(Block {
        name: block.name.try_copy(alloc)?,
        lines: lines_given(alloc, block.lines.as_slice(), own)?,
    })
}

fn blocks_given(
    alloc: Global,
    blocks: &[Block],
    own: &[Sequence<MqLine>],
) -> Result<Sequence<Block>, Memory>
    ensures { IfOk result (λ made. made ≡ spec.blocks_given blocks.now own.now) }
{
    let mut made = Sequence::new(alloc);
    let mut rest = own;
    for block in blocks {
        match rest.split_first() {
            Some((first, others)) => {
                made.push(block_given(alloc, block, first.as_slice())?)?;
                rest = others;
            }
            None => return Ok(made),
        }
    }
    Ok(made)
}

impl MqScript {
    /// The script of a given one, whose calls on queues are those of POSIX message queues in System V's words.
    pub(crate) fn of(alloc: Global, given: &Script) -> Result<MqScript, Memory>
        ensures runs { IfOk result (λ made. made.script ≡ system.system_v given.now) }
        ensures lines { IfOk result (λ made. made.lines ≡ kept.given_in given.now) }
        ensures given { IsGiven given.now
            → IfOk result (λ made. spec.script_given made.script made.lines ≡ given.now) }
    {
        Ok(MqScript {
            script: system_v(alloc, given)?,
            lines: kept_in(alloc, given.blocks.as_slice())?,
        })
    }

    /// The given script.
    pub(crate) fn given(&self, alloc: Global) -> Result<Script, Memory>
        ensures { IfOk result (λ given. given ≡ spec.script_given self.now.script self.now.lines) }
    {
        let blocks = blocks_given(alloc, self.script.blocks.as_slice(), self.lines.as_slice())?;
        Ok(Script { blocks })
    }
}
