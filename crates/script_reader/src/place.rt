//! Where reading stands between two lines.

ghost use Rattle.std.specs.Prelude.{◌≡◌, ◌+◌, ◌≤◌, ◌<◌, ◌^◌, IfOk, length};
ghost use Rattle.kernel_model.specs.Script.{is_exit as is_exit_call};
ghost use Rattle.script_reader.specs.Fault as spec;

use crate::says::Said;
use crate::tables::Flags;
use pico_base::{Block, Blocks, Bytes, Call, Line, Lines, Memory, Node, Sequence, Var};
use std::alloc::Global;

/// How many variables there are.
const VARIABLES: usize = 2886;

/// The most blocks of a script.
pub(crate) const MAX_BLOCKS: usize = 32;

/// The block of this number has been forked: it begins with these variables.
#[derive(Drop)]
pub struct Begun {
    pub(crate) number: usize,
    pub(crate) known: Flags,
}

/// What the lines read so far say. Blocks go by their numbers, which are counted from 1.
#[derive(Drop)]
pub struct Place {
    /// The whole blocks.
    pub(crate) blocks: Blocks,
    /// Whether a block is open.
    pub(crate) inside: bool,
    /// The open block's name, and its lines so far.
    pub(crate) name: Bytes,
    pub(crate) lines: Lines,
    /// Whether the last of them is an `exit`.
    pub(crate) over: bool,
    /// The variables that are known behind them.
    pub(crate) known: Flags,
    /// Whether a line forks this block.
    pub(crate) forked: Flags,
    /// What the forked blocks begin with, of those up to 32.
    pub(crate) begun: Sequence<Begun>,
    /// How many calls there are in all.
    pub(crate) calls: usize,
}

/// The number of calls that a line adds.
pub(crate) fn calls_of(place: &Place, said: &Said) -> usize
    ensures value { result ≡ spec.calls_of place.now said.now }
    ensures small { result < 2 ^ 32 }
{
    match said {
        Said::Ends => { if place.over { 0 } else { 1 } }
        Said::Forks(_, _) => 1,
        Said::Calls(line) => line.tries as usize,
        _ => 0,
    }
}

/// What the block of this number begins with.
#[tactic(auto, unfolding(crate::specs::Fault::begun_with))]
fn begun_with(alloc: Global, begun: &[Begun], number: usize) -> Result<Flags, Memory>
    ensures { IfOk result (λ known. known ≡ spec.begun_with begun.now number) }
{
    for block in begun {
        if block.number == number {
            return block.known.try_copy(alloc);
        }
    }
    Flags::new(alloc, VARIABLES)
}

fn node(number: usize) -> Node
    ensures { result ≡ spec.node_of number }
{
    if 0 < number && number <= MAX_BLOCKS {
        Node(number as u8)
    } else {
        Node(32)
    }
}

fn is_exit(call: &Call) -> bool
    ensures { result ≡ is_exit_call call.now }
{
    matches!(call, Call::Exit { status: _ })
}

impl Place {
    /// Before the first line of a text of so many names.
    #[tactic(auto, unfolding(crate::specs::Fault::start))]
    pub fn new(alloc: Global, names: usize) -> Result<Place, Memory>
        ensures { IfOk result (λ place. place ≡ spec.start names) }
    {
        let Some(count) = names.checked_add(1) else {
            return Err(Memory);
        };
        Ok(Place {
            blocks: Sequence::new(alloc),
            inside: false,
            name: Sequence::new(alloc),
            lines: Sequence::new(alloc),
            over: false,
            known: Flags::new(alloc, VARIABLES)?,
            forked: Flags::new(alloc, count)?,
            begun: Sequence::new(alloc),
            calls: 0,
        })
    }

    /// The open block, or the next one.
    pub(crate) fn number(&self) -> usize
        requires { length self.now.blocks < 2 ^ 32 }
        ensures { result ≡ spec.number_at self.now }
    {
        self.blocks.len() + 1
    }

    fn open(&mut self, alloc: Global, name: Bytes, number: usize) -> Result<(), Memory>
        ensures { IfOk result (λ _. self.new ≡ spec.opened self.old name number) }
    {
        self.known = begun_with(alloc, self.begun.as_slice(), number)?;
        self.inside = true;
        self.name = name;
        self.lines = Sequence::new(alloc);
        self.over = false;
        Ok(())
    }

    fn end(&mut self, alloc: Global, implied: usize) -> Result<(), Memory>
        requires { self.old.calls + implied < 2 ^ 64 }
        ensures { IfOk result (λ _. self.new ≡ spec.ended self.old implied) }
    {
        self.calls += implied;
        self.inside = false;
        self.over = false;
        let name = std::mem::replace(&mut self.name, Sequence::new(alloc));
        let lines = std::mem::replace(&mut self.lines, Sequence::new(alloc));
        self.blocks.push(Block { name, lines })?;
        Ok(())
    }

    /// Notes what the block of a number begins with, where it may be a block.
    fn note_begun(&mut self, alloc: Global, number: usize) -> Result<(), Memory>
        ensures { IfOk result (λ _. self.new ≡ spec.noting self.old number) }
    {
        if number <= MAX_BLOCKS {
            let known = self.known.try_copy(alloc)?;
            self.begun.push(Begun { number, known })?;
        }
        Ok(())
    }

    fn fork(&mut self, alloc: Global, set: Option<Var>, number: usize) -> Result<(), Memory>
        requires { self.old.calls < 2 ^ 32 }
        ensures { IfOk result (λ _. self.new ≡ spec.forking self.old set number) }
    {
        self.calls += 1;
        let line = Line {
            set,
            tries: 1,
            from: None,
            call: Call::Fork {
                block: node(number),
            },
        };
        self.known.note(line.set);
        self.lines.push(line)?;
        self.forked.set(number);
        self.note_begun(alloc, number)
    }

    fn call(&mut self, line: Line) -> Result<(), Memory>
        requires { self.old.calls + line.tries < 2 ^ 64 }
        ensures { IfOk result (λ _. self.new ≡ spec.calling self.old line) }
    {
        self.calls += line.tries as usize;
        self.over = is_exit(&line.call);
        self.known.note(line.set);
        self.lines.as_mut_vec().push(line)?;
        Ok(())
    }

    /// Goes behind a line without a fault.
    pub fn go_behind(&mut self, alloc: Global, said: Said) -> Result<(), Memory>
        requires { self.old.calls ≤ 20000 }
        ensures { IfOk result (λ _. self.new ≡ spec.behind self.old said) }
    {
        match said {
            Said::Opens(name, number) => self.open(alloc, name, number),
            Said::Ends => {
                let implied = if self.over { 0 } else { 1 };
                self.end(alloc, implied)
            }
            Said::Forks(set, forked) => match forked {
                Some(number) => self.fork(alloc, set, number),
                None => Ok(()),
            },
            Said::Calls(line) => self.call(line),
            _ => Ok(()),
        }
    }
}
