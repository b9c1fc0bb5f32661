//! The lines of a block, with the exit that its end stands for.
ghost use Rattle.std.specs.Prelude.{◌≡◌, ◌+◌, ◌<◌, None, IfSome, length, slice_get};
ghost use Rattle.std.specs.Option.{option_copied};
ghost use Rattle.kernel_model.specs.Fitting.{block_at};
ghost use Rattle.kernel_model.specs.Script.{IsSoundScript};
ghost use Rattle.node_model.specs.Caller.{lines_of};
ghost use Rattle.node_calls.specs.Lines.{written_lines, written_count};

use pico_base::{Block, Call, Line, Node, Script, Var};

/// What a line says beside its call: the variable that it sets, how often it is tried at most, and the place behind it.
#[derive(Clone, Copy)]
pub(crate) struct Terms {
    pub(crate) set: Option<Var>,
    pub(crate) tries: u32,
    pub(crate) next: usize,
}

/// The block of a node.
fn block_of(script: &Script, node: Node) -> Option<&Block>
    ensures { option_copied result ≡ block_at script.now node }
{
    script.blocks.as_slice().get(node.0 as usize - 1)
}

/// The lines that a block is written with.
fn written_lines(script: &Script, node: Node) -> &[Line]
    ensures { result.now ≡ written_lines script.now node }
{
    match block_of(script, node) {
        Some(block) => block.lines.as_slice(),
        None => &[],
    }
}

/// The line at a place. Past the last one there is none.
fn line_in(lines: &[Line], line: usize) -> Option<&Line>
    ensures { option_copied result ≡ slice_get lines.now line }
{
    lines.get(line)
}

/// The line of a block that is written at this place. Past the last one there is none.
pub(crate) fn written_line(script: &Script, node: Node, line: usize) -> Option<&Line>
    ensures { option_copied result ≡ slice_get (written_lines script.now node) line }
{
    line_in(written_lines(script, node), line)
}

/// The call of a line as it is written, where it names no variable.
pub(crate) fn as_written(line: &Line) -> Option<&Call>
    ensures { IfSome (option_copied result) (λ call. (line.now.from ≡ None) × (call ≡ line.now.call)) }
{
    match line.from {
        None => Some(&line.call),
        Some(_) => None,
    }
}

/// The terms of the line at this place, which may be the exit that the block's end stands for.
pub(crate) fn terms_at(script: &Script, node: Node, line: usize) -> Terms
    requires { line < length (lines_of script.now node) }
    ensures terms { IfSome (slice_get (lines_of script.now node) line) (λ l. (result.set ≡ l.set)
        × (result.tries ≡ l.tries)) }
    ensures next { result.next ≡ line + 1 }
{
    let lines = written_lines(script, node);
    match line_in(lines, line) {
        Some(written) => Terms {
            set: written.set,
            tries: written.tries,
            next: line + 1,
        },
        None => Terms {
            set: None,
            tries: 1,
            next: lines.len() + 1,
        },
    }
}

/// How many lines these are with the exit that their end stands for, where only the last one can be an exit.
fn count_with_exit(lines: &[Line]) -> usize
    ensures { result ≡ written_count lines.now }
{
    match lines.last() {
        Some(line) if matches!(line.call, Call::Exit { .. }) => lines.len(),
        _ => lines.len() + 1,
    }
}

/// How many lines a block has, with the exit that its end stands for.
pub(crate) fn count(script: &Script, node: Node) -> usize
    requires { IsSoundScript script.now }
    ensures { result ≡ length (lines_of script.now node) }
{
    match block_of(script, node) {
        Some(block) => count_with_exit(block.lines.as_slice()),
        None => 0,
    }
}
