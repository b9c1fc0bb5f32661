//! Where each process of a trace is in its block of the script, as far as the trace's lines tell it. This doesn't know
//! of signals: a process that a signal dooms makes fewer calls than its block has. So what is found here is a hint,
//! which is told only where it agrees with what the program says is due.

use crate::entry::{Entry, are, entry_of, is_parked};
use crate::wakes::first_wake;
use explain_base::{Line, Lines, Words};
use explain_calls::{Call, text_at};
use std::alloc::{AllocError, Global};

// The most processes of a script. More that a trace may name aren't followed.
const MAX_PROCESSES: usize = 32;

// A call of a block: its line, and how often it is made at most.
#[derive(Clone, Copy)]
struct Due<'a> {
    line: Line<'a>,
    count: usize,
}

// Where the calls of a block begin.
#[derive(Clone, Copy)]
struct Begin<'a> {
    name: &'a [u8],
    place: usize,
}

// The calls of all blocks, with nothing behind each block's last.
#[derive(Drop)]
struct Calls<'a> {
    begins: Vec<Begin<'a>>,
    calls: Vec<Option<Due<'a>>>,
    // whether the last call that was read is an `exit`
    has_exit: bool,
}

/// A process in its block: which call is due, how often it was made, whether it waits in it, and the line of the trace
/// at which it ended.
#[derive(Clone, Copy)]
pub struct Process<'a> {
    pub pid: &'a [u8],
    due: usize,
    made: usize,
    is_parked: bool,
    pub ended: Option<Line<'a>>,
}

impl<'a> Process<'a> {
    // A process that begins with the call at this place.
    fn at(pid: &'a [u8], due: usize) -> Self {
        Process {
            pid,
            due,
            made: 0,
            is_parked: false,
            ended: None,
        }
    }

    // The process in a call that waits.
    fn waiting(self) -> Self {
        Process {
            pid: self.pid,
            due: self.due,
            made: self.made,
            is_parked: true,
            ended: self.ended,
        }
    }
}

/// The processes behind some lines of a trace.
#[derive(Drop)]
pub struct Walk<'a> {
    calls: Calls<'a>,
    processes: Vec<Process<'a>>,
}

impl<'a> Calls<'a> {
    // The calls of a script's blocks.
    fn of(alloc: Global, script: &'a [u8]) -> Result<Self, AllocError> {
        let mut calls = Calls {
            begins: Vec::new(alloc),
            calls: Vec::new(alloc),
            has_exit: false,
        };
        for line in Lines::of(script) {
            calls.read(line)?;
        }
        calls.calls.push(None)?;
        Ok(calls)
    }

    fn read(&mut self, line: Line<'a>) -> Result<(), AllocError> {
        let words = Words::of(line.text);
        match text_at(words, 0) {
            b"proc" => self.add_block(text_at(words, 1)),
            b"end" => self.add_end(line),
            [] | [b'#', ..] => Ok(()),
            _ => self.add_call(line),
        }
    }

    // Behind the calls of the block before.
    fn add_block(&mut self, name: &'a [u8]) -> Result<(), AllocError> {
        self.calls.push(None)?;
        let place = self.calls.len();
        self.begins.push(Begin { name, place })?;
        self.has_exit = false;
        Ok(())
    }

    // The line `end` stands for the `exit` that is implied there.
    fn add_end(&mut self, line: Line<'a>) -> Result<(), AllocError> {
        if !self.has_exit {
            self.calls.push(Some(Due { line, count: 1 }))?;
        }
        Ok(())
    }

    fn add_call(&mut self, line: Line<'a>) -> Result<(), AllocError> {
        let call = Call::of(Words::of(line.text));
        let count = call.count();
        self.has_exit = call.name() == b"exit".as_slice();
        self.calls.push(Some(Due { line, count }))?;
        Ok(())
    }

    // The place of the first call of a block.
    fn begin_of(&self, name: &[u8]) -> usize {
        for begin in &self.begins {
            if begin.name == name {
                return begin.place;
            }
        }
        self.calls.len()
    }

    // The place of the first call of the first block.
    fn begin(&self) -> usize {
        match self.begins.first() {
            Some(begin) => begin.place,
            None => self.calls.len(),
        }
    }

    fn due(&self, process: &Process<'a>) -> Option<Due<'a>> {
        match self.calls.get(process.due) {
            Some(due) => *due,
            None => None,
        }
    }
}

// Whether a call that got this reply may be made again, by `try`.
fn is_to_be_made_again(name: &[u8], reply: Words) -> bool {
    let first = text_at(reply, 0);
    let is_waiting = name == b"waitpid".as_slice() && are(reply, 1);
    matches!(first, b"ENOMSG" | b"EAGAIN" | b"ENOENT") || (is_waiting && first == b"0".as_slice())
}

// A process behind the reply to a call of this name: the call is due again, or the next one is.
fn behind<'a>(
    process: &Process<'a>,
    due: Option<Due<'a>>,
    name: &[u8],
    reply: Words<'a>,
    line: Line<'a>,
) -> Process<'a> {
    let made = process.made.saturating_add(1);
    let (due, made) = match due {
        Some(due) if is_to_be_made_again(name, reply) && made < due.count => (process.due, made),
        Some(_) => (process.due.saturating_add(1), 0),
        None => (process.due, process.made),
    };
    let pid = process.pid;
    let ended = match name {
        b"exit" | b"killed" => Some(line),
        _ => process.ended,
    };
    Process {
        pid,
        due,
        made,
        is_parked: false,
        ended,
    }
}

impl<'a> Walk<'a> {
    /// The processes behind these lines of a trace, up to before that number.
    pub fn along(
        alloc: Global,
        script: &'a [u8],
        lines: Lines<'a>,
        number: usize,
    ) -> Result<Self, AllocError> {
        let calls = Calls::of(alloc, script)?;
        let mut processes: Vec<Process<'a>> = Vec::new(alloc);
        let due = calls.begin();
        processes.push(Process::at(b"1", due))?;
        let mut walk = Walk { calls, processes };
        for line in lines {
            if line.number >= number {
                break;
            }
            if let Some(entry) = entry_of(line.text) {
                walk.take(entry, line)?;
            }
        }
        Ok(walk)
    }

    // Takes an entry of the trace, which stands in this line.
    fn take(&mut self, entry: Entry<'a>, line: Line<'a>) -> Result<(), AllocError> {
        let name = text_at(entry.call, 0);
        let is_known = self.reply(entry.pid, name, entry.reply, line);
        self.wake(entry.wakes, line);
        if is_known
            && text_at(entry.call, 0) == b"fork".as_slice()
            && are(entry.call, 2)
            && are(entry.reply, 1)
        {
            self.fork(text_at(entry.reply, 0), text_at(entry.call, 1))?;
        }
        Ok(())
    }

    // A process has this reply to its call, or waits in it. Gives whether there is such a process.
    fn reply(&mut self, pid: &[u8], name: &[u8], reply: Words<'a>, line: Line<'a>) -> bool {
        for process in self.processes.iter_mut() {
            if process.pid == pid {
                let due = self.calls.due(process);
                *process = if is_parked(reply) {
                    process.waiting()
                } else {
                    behind(process, due, name, reply, line)
                };
                return true;
            }
        }
        false
    }

    // The callers that an entry wakes have their replies.
    fn wake(&mut self, wakes: Words<'a>, line: Line<'a>) {
        let mut left = wakes;
        for _ in wakes {
            if let Some((wake, further)) = first_wake(left) {
                let _ = self.reply(wake.pid(), b"", wake.reply(), line);
                left = further;
            } else {
                break;
            }
        }
    }

    // A process of this number begins with the block of this name.
    fn fork(&mut self, pid: &'a [u8], name: &'a [u8]) -> Result<(), AllocError> {
        if self.process(pid).is_none() && self.processes.len() < MAX_PROCESSES {
            let due = self.calls.begin_of(name);
            self.processes.push(Process::at(pid, due))?;
        }
        Ok(())
    }

    /// The process of this number.
    pub fn process(&self, pid: &[u8]) -> Option<Process<'a>> {
        for process in &self.processes {
            if process.pid == pid {
                return Some(*process);
            }
        }
        None
    }

    /// The line of the script whose call is due in the process of this number; none behind its last.
    pub fn line_due(&self, pid: &[u8]) -> Option<Line<'a>> {
        let process = self.process(pid)?;
        Some(self.calls.due(&process)?.line)
    }

    /// The number of the first of the processes that neither have ended nor wait; 1 where there is none.
    pub fn first_living(&self) -> &'a [u8] {
        let mut found: Option<&'a [u8]> = None;
        for process in &self.processes {
            let is_first = match found {
                Some(pid) => is_below(process.pid, pid),
                None => true,
            };
            if process.ended.is_none() && !process.is_parked && is_first {
                found = Some(process.pid);
            }
        }
        found.unwrap_or(b"1")
    }
}

// Whether digits are a smaller number than others.
fn is_below(digits: &[u8], others: &[u8]) -> bool {
    digits.len() < others.len() || (digits.len() == others.len() && digits < others)
}
