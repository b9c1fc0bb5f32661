//! How far a process is in its block of the given script.

ghost use Rattle.std.specs.Prelude.{◌≡◌, ◌+◌, [], ◌∷◌, drop, true, false, Some, IfOk, OnOk};
ghost use Rattle.std.specs.Option.{option_copied};
ghost use Rattle.kernel_model.specs.Script as script;
ghost use Rattle.kernel_model.specs.Fitting as fitting;
ghost use Rattle.waiting_model.specs.Fitting as waiting;
ghost use Rattle.posix_mq.specs.Terms.{passed, terms_of};

use number_table::Table;
use pico_base::{Block, Call, Errno, Line, Memory, Reply, Var};
use script_lines::call_naming;
use std::alloc::Global;
use std::collections::VecDeque;
use std::marker::Model;

/// The lines left of its block, with the exit that the block's end stands for; how often the first was tried; the
/// variables; and whether the call that is due waits.
#[derive(Drop)]
pub(crate) struct Progress {
    left: VecDeque<Line>,
    tried: u32,
    vars: Table<u32>,
    parked: bool,
}

impl Model for Progress {
    ghost use Rattle.waiting_model.specs.Fitting.{Progress as Fitted};

    ghost Value = { Fitted };

    ghost view = { λ p. record {
      place = record { left = p.left.items; tried = p.tried; vars = p.vars.entries };
      parked = p.parked;
    } };
}

/// What a line says beside its call: the variable that it sets, and how often it is tried at most.
#[derive(Clone, Copy)]
pub(crate) struct Terms {
    set: Option<Var>,
    tries: u32,
}

/// Whether the call is made once more after this reply, if its line has tries left: nothing was ready for it.
fn asks_again(call: &Call, reply: &Reply) -> bool
    ensures { result ≡ fitting.asks_again call.now (Some reply.now) }
{
    match reply {
        Reply::Fail(Errno::Enomsg | Errno::Eagain | Errno::Enoent) => true,
        Reply::Num(number) => matches!(call, Call::WaitPid { .. }) && *number == 0,
        _ => false,
    }
}

/// Whether the call is made once more after this reply, where it was tried so often before, and is at most so often.
fn is_due_again(call: &Call, reply: &Reply, tried: u32, tries: u32) -> bool
    ensures { result ≡ fitting.is_due_again call.now reply.now tried tries }
{
    tried.saturating_add(1) < tries && asks_again(call, reply)
}

/// The value that a reply gives a variable: a number, or a child's, and else 0.
fn value_in(reply: &Reply) -> u32
    ensures { result ≡ fitting.value_in (Some reply.now) }
{
    match reply {
        Reply::Num(number) => *number,
        Reply::Child { pid, .. } => pid.0,
        _ => 0,
    }
}

/// A line with the same words.
fn copy_of(alloc: Global, line: &Line) -> Result<Line, Memory>
    ensures { IfOk result (λ copy. copy ≡ line.now) }
{
    Ok(Line {
        set: line.set,
        tries: line.tries,
        from: line.from,
        call: line.call.try_copy(alloc)?,
    })
}

fn is_exit(call: &Call) -> bool
    ensures { result ≡ script.is_exit call.now }
{
    matches!(call, Call::Exit { .. })
}

/// The line that a block's end stands for.
fn implied_exit() -> Line
    ensures { result ≡ script.implied_exit }
{
    Line {
        set: None,
        tries: 1,
        from: None,
        call: Call::Exit { status: 0 },
    }
}

/// Lines up to the first exit, or with the one that their end stands for.
fn with_exit(alloc: Global, lines: &[Line]) -> Result<VecDeque<Line>, Memory>
    ensures { IfOk result (λ made. made.items ≡ script.with_exit lines.now) }
{
    let mut made = VecDeque::new(alloc);
    for line in lines {
        made.push_back(copy_of(alloc, line)?)?;
        if is_exit(&line.call) {
            return Ok(made);
        }
    }
    made.push_back(implied_exit())?;
    Ok(made)
}

/// The value of a variable, 0 where nothing has set it.
fn value_of(vars: &Table<u32>, variable: Var) -> u32
    ensures { result ≡ script.value_of vars.now.entries variable }
{
    match vars.get(u32::from(variable.0)) {
        Some(value) => *value,
        None => 0,
    }
}

/// Sets the variable, if there is one.
fn set(vars: &mut Table<u32>, variable: Option<Var>, value: u32) -> Result<(), Memory>
    ensures { OnOk result
        (vars.new.entries ≡ fitting.set_variable vars.old.entries variable value) }
{
    match variable {
        Some(variable) => vars.insert(u32::from(variable.0), value),
        None => Ok(()),
    }
}

/// The same values.
fn copy_vars(alloc: Global, vars: &Table<u32>) -> Result<Table<u32>, Memory>
    ensures { IfOk result (λ copy. copy.entries ≡ vars.now.entries) }
{
    let mut copy = Table::new(alloc);
    vars.rise();
    for entry in vars.as_slice() {
        copy.insert(entry.0, entry.1)?;
    }
    Ok(copy)
}

/// The call of a line: the variable's value stands in place of the number.
fn call_of(alloc: Global, line: &Line, vars: &Table<u32>) -> Result<Call, Memory>
    ensures { IfOk result (λ call. call ≡ script.call_of line.now vars.now.entries) }
{
    match line.from {
        None => line.call.try_copy(alloc),
        Some(variable) => call_naming(alloc, &line.call, value_of(vars, variable)),
    }
}

impl Progress {
    /// At the first line of the block, if there is one, with these variables.
    pub(crate) fn new(
        alloc: Global,
        block: Option<&Block>,
        vars: Table<u32>,
    ) -> Result<Progress, Memory>
        ensures { IfOk result (λ made. made
            ≡ waiting.at_place (fitting.block_place (option_copied block.entry) vars.entries)) }
    {
        let left = match block {
            Some(block) => with_exit(alloc, block.lines.as_slice())?,
            None => VecDeque::new(alloc),
        };
        Ok(Progress {
            left,
            tried: 0,
            vars,
            parked: false,
        })
    }

    /// The call that is due.
    pub(crate) fn due(&self, alloc: Global) -> Result<Option<Call>, Memory>
        ensures { IfOk result (λ call. call ≡ fitting.due self.now.place) }
    {
        match self.left.front() {
            Some(line) => Ok(Some(call_of(alloc, line, &self.vars)?)),
            None => Ok(None),
        }
    }

    /// What the line that is due says.
    fn terms(&self) -> Option<Terms>
        ensures { result ≡ terms_of self.now.place.left }
    {
        match self.left.front() {
            Some(line) => Some(Terms {
                set: line.set,
                tries: line.tries,
            }),
            None => None,
        }
    }

    /// The variables with which a process that this one forks begins.
    pub(crate) fn child_vars(&self, alloc: Global) -> Result<Table<u32>, Memory>
        ensures { IfOk result (λ vars. vars.entries ≡ fitting.child_vars self.now.place) }
    {
        let mut vars = copy_vars(alloc, &self.vars)?;
        if let Some(terms) = self.terms() {
            set(&mut vars, terms.set, 0)?;
        }
        Ok(vars)
    }

    /// The variable of the line is set, and the next line is due.
    fn pass(&mut self, variable: Option<Var>, value: u32) -> Result<(), Memory>
        ensures { OnOk result (self.new ≡ record self.old {
          place = passed self.old.place variable value;
        }) }
    {
        set(&mut self.vars, variable, value)?;
        self.tried = 0;
        let _ = self.left.pop_front();
        Ok(())
    }

    /// The call that is due has this reply: it is due once more, or the next line is.
    fn after_reply(&mut self, call: &Call, reply: &Reply) -> Result<(), Memory>
        ensures { OnOk result (self.new ≡ record self.old {
          place = fitting.place_after self.old.place call.now (Some reply.now);
        }) }
    {
        let Some(terms) = self.terms() else {
            return Ok(());
        };
        if is_due_again(call, reply, self.tried, terms.tries) {
            self.tried += 1;
            Ok(())
        } else {
            self.pass(terms.set, value_in(reply))
        }
    }

    /// The process has made this call, and has this reply.
    fn moves(&mut self, call: &Call, reply: &Reply) -> Result<(), Memory>
        ensures { OnOk result (self.new ≡ record self.old {
          place = fitting.move_on self.old.place call.now (Some reply.now);
        }) }
    {
        if let Call::Killed { .. } = call {
            self.left.clear();
            return Ok(());
        }
        self.after_reply(call, reply)
    }

    /// The process has made this call, which has this reply, or waits.
    fn after_own(&mut self, call: &Call, own: &Option<Reply>) -> Result<(), Memory>
        ensures { OnOk result (self.new ≡ waiting.after_own self.old.place call.now own.now) }
    {
        match own {
            Some(reply) => {
                self.parked = false;
                self.moves(call, reply)
            }
            None => {
                self.parked = true;
                Ok(())
            }
        }
    }

    /// The call that is due has this reply, if there is one.
    fn answered(&mut self, alloc: Global, reply: &Reply) -> Result<(), Memory>
        ensures { OnOk result (self.new ≡ record self.old {
          place = waiting.answered self.old.place (fitting.due self.old.place) reply.now;
        }) }
    {
        match self.due(alloc)? {
            Some(call) => self.after_reply(&call, reply),
            None => Ok(()),
        }
    }

    /// The process is woken with this reply, which counts where it waits.
    pub(crate) fn wakes(&mut self, alloc: Global, reply: &Reply) -> Result<(), Memory>
        ensures { OnOk result (self.new ≡ waiting.after_wake reply.now self.old) }
    {
        if !self.parked {
            return Ok(());
        }
        self.parked = false;
        self.answered(alloc, reply)
    }

    /// The call that waits is withdrawn, with this reply.
    fn withdraws(&mut self, alloc: Global, own: &Option<Reply>) -> Result<(), Memory>
        ensures { OnOk result (self.new ≡ waiting.after_withdrawal own.now self.old) }
    {
        match own {
            Some(reply) => self.wakes(alloc, reply),
            None => Ok(()),
        }
    }

    /// An entry of the process has this call.
    pub(crate) fn goes_on(
        &mut self,
        alloc: Global,
        call: &Call,
        own: &Option<Reply>,
    ) -> Result<(), Memory>
        ensures { OnOk result (self.new ≡ waiting.after_entry call.now own.now self.old) }
    {
        match call {
            Call::Withdraw { .. } => self.withdraws(alloc, own),
            _ => self.after_own(call, own),
        }
    }
}
