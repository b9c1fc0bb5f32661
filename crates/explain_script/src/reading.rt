//! What the lines before a fault say: the block that is open, how many blocks and calls there are, and who forks whom.

use explain_base::{Line, Lines, Words};
use explain_calls::{Call, is_block_name, text_at};

/// A block that is open: its name, the line of its `proc`, and its line `exit` where it has had one.
#[derive(Clone, Copy)]
pub struct Block<'a> {
    pub name: &'a [u8],
    pub line: Line<'a>,
    pub exit: Option<Line<'a>>,
}

/// How far a script is read.
#[derive(Clone, Copy)]
pub struct Reading<'a> {
    pub block: Option<Block<'a>>,
    pub blocks: usize,
    /// The line of the `proc` of the last block that has ended.
    pub ended: Option<Line<'a>>,
    pub calls: usize,
}

/// The first word of a line; nothing where it has none.
pub fn first_word(line: Line<'_>) -> &[u8] {
    text_at(Words::of(line.text), 0)
}

impl<'a> Reading<'a> {
    fn new() -> Self {
        Reading {
            block: None,
            blocks: 0,
            ended: None,
            calls: 0,
        }
    }

    /// Reads the lines before this one, which have no fault.
    pub fn before(script: &'a [u8], number: usize) -> Self {
        let mut reading = Reading::new();
        for line in Lines::of(script) {
            if line.number >= number {
                break;
            }
            reading.read(line);
        }
        reading
    }

    /// The line `exit` of the block that is open, where it has had one.
    pub fn exit(&self) -> Option<Line<'a>> {
        self.block?.exit
    }

    /// The line of the `proc` of the block that is open.
    pub fn begun(&self) -> Option<Line<'a>> {
        Some(self.block?.line)
    }

    fn read(&mut self, line: Line<'a>) {
        match first_word(line) {
            b"proc" => self.begin(line),
            b"end" => self.end(),
            [] | [b'#', ..] => {}
            _ => self.call(line),
        }
    }

    fn begin(&mut self, line: Line<'a>) {
        self.blocks = self.blocks.saturating_add(1);
        let name = text_at(Words::of(line.text), 1);
        let exit = None;
        let block = Block { name, line, exit };
        self.block = Some(block);
    }

    // The end stands for an `exit` where the block has none.
    fn end(&mut self) {
        if let Some(block) = self.block {
            let line = block.line;
            if block.exit.is_none() {
                self.calls = self.calls.saturating_add(1);
            }
            self.ended = Some(line);
            self.block = None;
        }
    }

    fn call(&mut self, line: Line<'a>) {
        if let Some(block) = self.block {
            let call = Call::of(Words::of(line.text));
            self.calls = self.calls.saturating_add(call.count());
            if call.name() == b"exit".as_slice() {
                let name = block.name;
                let its = block.line;
                let exit = Some(line);
                let block = Block {
                    name,
                    line: its,
                    exit,
                };
                self.block = Some(block);
            }
        }
    }
}

/// The first line that names a block so.
pub fn line_naming<'a>(script: &'a [u8], name: &[u8]) -> Option<Line<'a>> {
    for line in Lines::of(script) {
        if named_by(line) == Some(name) {
            return Some(line);
        }
    }
    None
}

/// The name that a line gives a block, where it is a line `proc NAME`.
pub fn named_by(line: Line<'_>) -> Option<&[u8]> {
    let words = Words::of(line.text);
    if text_at(words, 0) != b"proc".as_slice() || words.get(2).is_some() {
        return None;
    }
    let name = text_at(words, 1);
    if is_block_name(name) {
        Some(name)
    } else {
        None
    }
}

/// The name that a line forks, if it does; nothing where it doesn't.
pub fn forked_by(line: Line<'_>) -> &[u8] {
    match Call::of(Words::of(line.text)).forks() {
        Some(word) => word.text,
        None => &[],
    }
}

// Whether a call of a block stands in a line.
fn is_call(line: Line) -> bool {
    !matches!(first_word(line), b"proc" | b"end" | [] | [b'#', ..])
}

/// The first line before that number that forks the block of this name, or the last.
pub fn fork_before<'a>(
    script: &'a [u8],
    name: &[u8],
    number: usize,
    is_last: bool,
) -> Option<Line<'a>> {
    let mut found = None;
    let mut is_open = false;
    for line in Lines::of(script) {
        if line.number >= number {
            break;
        }
        match first_word(line) {
            b"proc" => is_open = true,
            b"end" => is_open = false,
            _ => {
                if is_open && is_call(line) && !name.is_empty() && forked_by(line) == name {
                    found = Some(line);
                    if !is_last {
                        break;
                    }
                }
            }
        }
    }
    found
}
