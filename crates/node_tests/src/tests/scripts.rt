//! The script whose nodes are offered frames.
ghost use Rattle.std.specs.Prelude.{◌≡◌, [], ◌∷◌, Some, None, true, false, IfOk, codes, length};
ghost use Rattle.kernel_model.specs.Script.{IsSoundScript};
ghost use Rattle.world_model.specs.Example.{line as line_of, block as block_of, script as script_of};

use super::wires::{C, Q};
use pico_base::{
    Block, Blocks, Bytes, Call, Id, Key, Line, Lines, Memory, Node, Pid, Script, SigArg, Var,
};
use std::alloc::Global;

fn line(set: Option<Var>, from: Option<Var>, call: Call) -> Line
    ensures { result ≡ line_of set 1 from call }
{
    Line {
        set,
        tries: 1,
        from,
        call,
    }
}

fn kill(pid: u32) -> Call
    ensures { result ≡ Call.Kill pid SigArg.Zero }
{
    Call::Kill {
        pid: Pid(pid),
        sig: SigArg::Zero,
    }
}

fn get(key: Option<Key>, create: bool) -> Call
    ensures { result ≡ Call.MsgGet key create false }
{
    Call::MsgGet {
        key,
        create,
        excl: false,
    }
}

/// `c = fork child`, `kill $c 0`.
fn main_lines(alloc: Global) -> Result<Lines, Memory>
    ensures { IfOk result (λ lines. lines
        ≡ line_of (Some 222) 1 None (Call.Fork 2)
        ∷ line_of None 1 (Some 222) (Call.Kill 0 SigArg.Zero)
        ∷ []) }
{
    let mut lines = Lines::new(alloc);
    lines.push(line(Some(C), None, Call::Fork { block: Node(2) }))?;
    lines.push(line(None, Some(C), kill(0)))?;
    Ok(lines)
}

/// `q = msgget private`, `fork third`, `msgget 7 create`, `kill 1 0`, `kill 1 0`, `msgctl $q rmid`.
fn child_lines(alloc: Global) -> Result<Lines, Memory>
    ensures { IfOk result (λ lines. lines
        ≡ line_of (Some 1776) 1 None (Call.MsgGet None false false)
        ∷ line_of None 1 None (Call.Fork 3)
        ∷ line_of None 1 None (Call.MsgGet (Some 7) true false)
        ∷ line_of None 1 None (Call.Kill 1 SigArg.Zero)
        ∷ line_of None 1 None (Call.Kill 1 SigArg.Zero)
        ∷ line_of None 1 (Some 1776) (Call.MsgRmid 0)
        ∷ []) }
{
    let mut lines = Lines::new(alloc);
    lines.push(line(Some(Q), None, get(None, false)))?;
    lines.push(line(None, None, Call::Fork { block: Node(3) }))?;
    lines.push(line(None, None, get(Some(Key(7)), true)))?;
    lines.push(line(None, None, kill(1)))?;
    lines.push(line(None, None, kill(1)))?;
    lines.push(line(None, Some(Q), Call::MsgRmid { id: Id(0) }))?;
    Ok(lines)
}

fn block(alloc: Global, name: &[u8], lines: Lines) -> Result<Block, Memory>
    ensures { IfOk result (λ block. block ≡ block_of name.now lines) }
{
    Ok(Block {
        name: Bytes::from_slice(alloc, name)?,
        lines,
    })
}

/// Three blocks: the second is forked by the first, and the third, which makes no calls, by the second.
fn three_blocks(alloc: Global) -> Result<Blocks, Memory>
    ensures { IfOk result (λ blocks. blocks
        ≡ block_of (codes "main") (
        line_of (Some 222) 1 None (Call.Fork 2)
        ∷ line_of None 1 (Some 222) (Call.Kill 0 SigArg.Zero)
        ∷ [])
        ∷ block_of (codes "child") (
        line_of (Some 1776) 1 None (Call.MsgGet None false false)
        ∷ line_of None 1 None (Call.Fork 3)
        ∷ line_of None 1 None (Call.MsgGet (Some 7) true false)
        ∷ line_of None 1 None (Call.Kill 1 SigArg.Zero)
        ∷ line_of None 1 None (Call.Kill 1 SigArg.Zero)
        ∷ line_of None 1 (Some 1776) (Call.MsgRmid 0)
        ∷ [])
        ∷ block_of (codes "third") []
        ∷ []) }
{
    let mut blocks = Blocks::new(alloc);
    blocks.push(block(alloc, b"main", main_lines(alloc)?)?)?;
    blocks.push(block(alloc, b"child", child_lines(alloc)?)?)?;
    blocks.push(block(alloc, b"third", Lines::new(alloc))?)?;
    Ok(blocks)
}

/// Their script, which is sound.
pub(super) fn forks_twice(alloc: Global) -> Result<Script, Memory>
    ensures sound { IfOk result IsSoundScript }
    ensures size { IfOk result (λ script. length script.blocks ≡ 3) }
{
    let blocks = three_blocks(alloc)?;
    Ok(Script { blocks })
}
