//! What a node knows of its process's calls: the line, the tries made, the variables, and the call under way.
ghost use Rattle.std.specs.Prelude.{◌≡◌, ◌↔◌, ◌+◌, ◌<◌, ◌&&◌, nat_lt, false, None, Some, IfOk, IfSome, OnOk, OnErr, IsSome, IsTrue};
ghost use Rattle.std.specs.Option.{option_and_then, option_copied};
ghost use Rattle.kernel_model.specs.Script.{IsSoundScript};
ghost use Rattle.kernel_model.specs.Fitting.{asks_again, child_vars, set_variable, value_in};
ghost use Rattle.kernel_model.specs.Signals.{count_up};
ghost use Rattle.node_model.specs.Caller.{if_it_waits, note_cancel, to_cancel};
ghost use Rattle.node_calls.specs.Caller.{BlockCaller, HasLine, are_rising, answered, beginning, call_due, place_of, started};

use crate::lines::{Terms, as_written, count, terms_at, written_line};
use crate::replies::{tries_again, value_in};
use crate::variables::Variables;
use crate::waits::may_park;
use pico_base::{Call, Memory, Node, Reply, Script, Sig, Vars};
use std::alloc::Global;
use std::marker::Model;

/// Where a process is in its block: the lines passed, how often the next one was tried, the variables, how many calls
/// it has started, the call under way, from its start until its reply is here, and whether a signal has interrupted it
/// already.
#[derive(Debug, Drop)]
pub struct Caller {
    alloc: Global,
    block: Node,
    line: usize,
    tried: u32,
    variables: Variables,
    ticket: u32,
    under_way: Option<Call>,
    noted: bool,
}

impl Model for Caller {
    ghost use Rattle.node_calls.specs.Caller.{BlockCaller};

    ghost Value = { BlockCaller };

    ghost view = { λ c. record {
      block = c.block;
      caller = record {
        line = c.line;
        tried = c.tried;
        vars = c.variables;
        ticket = c.ticket;
        under_way = c.under_way;
        noted = c.noted;
      };
    } };
}

/// The call, where it may have to wait.
fn if_it_waits(call: Option<&Call>) -> Option<&Call>
    ensures { option_copied result ≡ option_and_then if_it_waits (option_copied call.entry) }
{
    match call {
        Some(call) if may_park(call) => Some(call),
        _ => None,
    }
}

impl Caller {
    /// At the first line of the block, with these variables, which come by rising variable. It takes no memory.
    pub fn new(alloc: Global, block: Node, vars: Vars) -> Caller
        requires { IsTrue (are_rising vars) }
        ensures { result ≡ beginning block vars }
    {
        Caller {
            alloc,
            block,
            line: 0,
            tried: 0,
            variables: Variables::new(vars),
            ticket: 0,
            under_way: None,
            noted: false,
        }
    }

    /// Whether the script has the block, and the line that is reached stands in it, an implied `exit 0` counted. It
    /// doesn't once the process has ended.
    pub fn has_line(&self, script: &Script) -> bool
        requires { IsSoundScript script.now }
        ensures { IsTrue result ↔ HasLine script.now self.now }
    {
        self.line < count(script, self.block)
    }

    /// The call due: the end by the signal that dooms the process, or the call of the line that is reached, with its
    /// variable's value. Behind the last line stands `exit 0`, where that isn't an exit itself.
    #[inline(always)]
    pub fn due(&self, script: &Script, doom: Option<Sig>) -> Result<Call, Memory>
        requires { HasLine script.now self.now }
        ensures { IfOk result (λ call. call_due script.now self.now doom ≡ Some call) }
    {
        if let Some(sig) = doom {
            return Ok(Call::Killed { sig });
        }
        match written_line(script, self.block, self.line) {
            Some(line) => self.variables.call_of(self.alloc, line),
            None => Ok(Call::Exit { status: 0 }),
        }
    }

    /// The call due where no signal dooms the process, as the script has it: for a line that is written, and names no
    /// variable. It takes no memory.
    #[inline(always)]
    pub fn written_call<'a>(&self, script: &'a Script) -> Option<&'a Call>
        requires { HasLine script.now self.now }
        ensures { IfSome (option_copied result) (λ call. call_due script.now self.now None ≡ Some call) }
    {
        match written_line(script, self.block, self.line) {
            Some(line) => as_written(line),
            None => None,
        }
    }

    /// Starts a call, and gives its ticket: the calls started up to now. The count stays at 4294967295. It takes no
    /// memory.
    #[inline(always)]
    pub fn start(&mut self, call: Call) -> u32
        requires { self.old.caller.under_way ≡ None }
        ensures started { self.new ≡ started self.old call }
        ensures ticket { result ≡ self.new.caller.ticket }
    {
        self.count();
        self.under_way = Some(call);
        self.ticket
    }

    /// The call under way has its reply. Where that says that nothing was ready, and the line has tries left, the line
    /// is due once more; else its variable is set, and the next line is due. A refusal changes nothing.
    #[inline(always)]
    pub fn answered(&mut self, script: &Script, reply: &Reply) -> Result<(), Memory>
        requires reached { HasLine script.now self.old }
        requires under_way { IsSome self.old.caller.under_way }
        ensures ok { OnOk result
            (IfSome self.old.caller.under_way (λ call. self.new ≡ answered script.now self.old call reply.now)) }
        ensures err { OnErr result (self.new ≡ self.old) }
    {
        let terms = terms_at(script, self.block, self.line);
        if self.tries_again(reply, terms.tries) {
            self.tried += 1;
        } else {
            self.pass(terms, reply)?;
        }
        self.under_way = None;
        Ok(())
    }

    /// A call is started and has its reply at once, as `start` and `answered` have it, so that it is never kept. A
    /// refusal changes nothing.
    pub fn answered_at_once(
        &mut self,
        script: &Script,
        call: &Call,
        reply: &Reply,
    ) -> Result<(), Memory>
        requires reached { HasLine script.now self.old }
        requires none { self.old.caller.under_way ≡ None }
        ensures ok { OnOk result (self.new ≡ answered script.now (started self.old call.now) call.now reply.now) }
        ensures err { OnErr result (self.new ≡ self.old) }
    {
        self.end(script, call, reply)?;
        self.count();
        Ok(())
    }

    /// One more call is started, which no signal has interrupted. The count stays at 4294967295.
    fn count(&mut self)
        ensures { self.new ≡ record self.old {
          caller = record self.old.caller { ticket = count_up self.old.caller.ticket; noted = false };
        } }
    {
        self.ticket = self.ticket.saturating_add(1);
        self.noted = false;
    }

    /// The line is due once more after this reply to its call, or its variable is set and the next line is due.
    fn end(&mut self, script: &Script, call: &Call, reply: &Reply) -> Result<(), Memory>
        requires reached { HasLine script.now self.old }
        requires none { self.old.caller.under_way ≡ None }
        ensures ok { OnOk result (self.new ≡ answered script.now self.old call.now reply.now) }
        ensures err { OnErr result (self.new ≡ self.old) }
    {
        let terms = terms_at(script, self.block, self.line);
        if tries_again(call, reply, self.tried, terms.tries) {
            self.tried += 1;
            Ok(())
        } else {
            self.pass(terms, reply)
        }
    }

    /// Whether the call under way is made once more after this reply, where its line is tried so often at most.
    fn tries_again(&self, reply: &Reply, tries: u32) -> bool
        ensures again { IfSome self.now.caller.under_way (λ call. result
            ≡ (asks_again call (Some reply.now) && nat_lt (self.now.caller.tried + 1) tries)) }
        ensures few { IsTrue result → self.now.caller.tried + 1 < tries }
    {
        match &self.under_way {
            Some(call) => tries_again(call, reply, self.tried, tries),
            None => false,
        }
    }

    /// The variable of the line is set, and the next line is due. A refusal changes nothing.
    fn pass(&mut self, terms: Terms, reply: &Reply) -> Result<(), Memory>
        ensures ok { OnOk result (self.new ≡ record self.old {
          caller = record self.old.caller {
            line = terms.next;
            tried = 0;
            vars = set_variable self.old.caller.vars terms.set (value_in (Some reply.now));
          };
        }) }
        ensures err { OnErr result (self.new ≡ self.old) }
    {
        self.variables.set(terms.set, value_in(reply))?;
        self.line = terms.next;
        self.tried = 0;
        Ok(())
    }

    /// The block, by its node.
    pub fn block(&self) -> Node
        ensures { result ≡ self.now.block }
    {
        self.block
    }

    /// The call under way, or `None` exactly where there is none. It takes no memory.
    pub fn under_way(&self) -> Option<&Call>
        ensures { option_copied result ≡ self.now.caller.under_way }
    {
        self.under_way.as_ref()
    }

    /// The call that a signal interrupts: the one under way, where it may have to wait and none has interrupted it so
    /// far. It takes no memory.
    pub fn to_cancel(&self) -> Option<&Call>
        ensures { option_copied result ≡ to_cancel self.now.caller }
    {
        if self.noted {
            return None;
        }
        if_it_waits(self.under_way.as_ref())
    }

    /// A signal has interrupted the call under way, so that each call is withdrawn once.
    pub fn note_cancel(&mut self)
        ensures { self.new ≡ record self.old { caller = note_cancel self.old.caller } }
    {
        self.noted = true;
    }

    /// The ticket of the call that was started last, 0 before the first one.
    pub fn ticket(&self) -> u32
        ensures { result ≡ self.now.caller.ticket }
    {
        self.ticket
    }

    /// The variables with which the block that the reached line forks begins: those here, with the one that the line
    /// sets at 0.
    pub fn child_vars(&self, script: &Script) -> Result<Vars, Memory>
        requires { HasLine script.now self.now }
        ensures { IfOk result (λ vars. vars ≡ child_vars (place_of script.now self.now)) }
    {
        let terms = terms_at(script, self.block, self.line);
        self.variables.with_zero(self.alloc, terms.set)
    }
}
