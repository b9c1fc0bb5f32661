//! A copy of a script, which a run takes.
ghost use Rattle.std.specs.Prelude.{◌≡◌, IfOk};

use pico_base::{Block, Line, Memory, Script, Sequence};
use std::alloc::Global;

fn copy_of_line(alloc: Global, line: &Line) -> Result<Line, Memory>
    ensures { IfOk result (λ copy. copy ≡ line.now) }
{
    Ok(Line {
        set: line.set,
        tries: line.tries,
        from: line.from,
        call: line.call.try_copy(alloc)?,
    })
}

fn copy_of_block(alloc: Global, block: &Block) -> Result<Block, Memory>
    ensures { IfOk result (λ copy. copy ≡ block.now) }
{
    let mut lines = Sequence::new(alloc);
    for line in block.lines.as_slice() {
        lines.push(copy_of_line(alloc, line)?)?;
    }
    Ok(Block {
        name: block.name.try_copy(alloc)?,
        lines,
    })
}

/// A script that is the same.
pub fn copy_of(alloc: Global, script: &Script) -> Result<Script, Memory>
    ensures { IfOk result (λ copy. copy ≡ script.now) }
{
    let mut blocks = Sequence::new(alloc);
    for block in script.blocks.as_slice() {
        blocks.push(copy_of_block(alloc, block)?)?;
    }
    Ok(Script { blocks })
}
