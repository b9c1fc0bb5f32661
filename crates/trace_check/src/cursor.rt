//! Where a process of the history is in its block.
ghost use Rattle.std.specs.Prelude.{◌≡◌, is_some, option_copied, IfOk, IfSome, OnOk, IsTrue};
ghost use Rattle.kernel_model.specs.Script.{IsSoundScript};
ghost use Rattle.kernel_model.specs.Fitting.{child_vars, due};
ghost use Rattle.node_calls.specs.Caller.{are_rising};
ghost use Rattle.trace_check.specs.Cursors.{IsIdle, IsSteady, MayMake, after_call, after_withdrawal, answered, beginning, moved, parked, place_of};
ghost use Rattle.trace_check.specs.FirstFault.{is_same_call};

use crate::same::{Texts, is_same_call};
use node_calls::Caller;
use pico_base::{Call, Memory, Node, Reply, Script, Vars};
use std::alloc::Global;

/// Where a process is in its block, with the call that waits there; and whether a signal has ended it.
#[derive(Drop)]
pub(crate) struct Cursor {
    caller: Caller,
    is_killed: bool,
}

impl Cursor {
    /// At the first line of the block, with these variables.
    pub(crate) fn new(alloc: Global, block: Node, vars: Vars) -> Cursor
        requires { IsTrue (are_rising vars) }
        ensures { result ≡ beginning block vars }
    {
        Cursor {
            caller: Caller::new(alloc, block, vars),
            is_killed: false,
        }
    }

    /// Whether its call waits.
    pub(crate) fn is_parked(&self) -> bool
        ensures { result ≡ is_some self.now.caller.caller.under_way }
    {
        self.caller.under_way().is_some()
    }

    /// Whether a call of the script is due, or waits.
    pub(crate) fn has_call(&self, script: &Script) -> bool
        requires { IsSoundScript script.now }
        ensures { result ≡ is_some (due (place_of script.now self.now)) }
    {
        !self.is_killed && self.caller.has_line(script)
    }

    /// The call of the script that is due, or waits.
    pub(crate) fn due(&self, script: &Script) -> Result<Option<Call>, Memory>
        requires { IsSoundScript script.now }
        ensures { IfOk result (λ call. call ≡ due (place_of script.now self.now)) }
    {
        if !self.has_call(script) {
            return Ok(None);
        }
        Ok(Some(self.caller.due(script, None)?))
    }

    /// The call of the script that is due, where it names no variable.
    pub(crate) fn written_call<'a>(&self, script: &'a Script) -> Option<&'a Call>
        requires { IsTrue (is_some (due (place_of script.now self.now))) }
        ensures { IfSome (option_copied result) (λ call. due (place_of script.now self.now) ≡ Some call) }
    {
        self.caller.written_call(script)
    }

    /// Whether the call found is the one that is due. One that names no variable is looked at where it stands in the
    /// script.
    pub(crate) fn is_due(
        &self,
        script: &Script,
        found: &Call,
        texts: &mut Texts,
    ) -> Result<bool, Memory>
        requires { IsTrue (is_some (due (place_of script.now self.now))) }
        ensures { IfOk result
            (λ is. IfSome (due (place_of script.now self.now))
            (λ call. is ≡ is_same_call script.now call found.now)) }
    {
        match self.caller.written_call(script) {
            Some(call) => is_same_call(script, call, found, texts),
            None => is_same_call(script, &self.caller.due(script, None)?, found, texts),
        }
    }

    /// The variables with which a process that this one forks begins.
    pub(crate) fn child_vars(&self, script: &Script) -> Result<Vars, Memory>
        requires sound { IsSoundScript script.now }
        requires due { IsTrue (is_some (due (place_of script.now self.now))) }
        ensures { IfOk result (λ vars. vars ≡ child_vars (place_of script.now self.now)) }
    {
        self.caller.child_vars(script)
    }

    /// The process has made this call, and has this reply.
    fn moves(&mut self, script: &Script, call: &Call, reply: &Reply) -> Result<(), Memory>
        requires sound { IsSoundScript script.now }
        requires idle { IsIdle self.old }
        requires due { IsTrue (is_some (due (place_of script.now self.old))) }
        ensures { OnOk result (self.new ≡ moved script.now self.old call.now reply.now) }
    {
        if let Call::Killed { .. } = call {
            self.is_killed = true;
            return Ok(());
        }
        self.caller.answered_at_once(script, call, reply)
    }

    /// The call that is due waits.
    fn parks(&mut self, script: &Script) -> Result<(), Memory>
        requires idle { IsIdle self.old }
        requires due { IsTrue (is_some (due (place_of script.now self.old))) }
        ensures { OnOk result (self.new ≡ parked script.now self.old) }
    {
        let call = self.caller.due(script, None)?;
        self.caller.start(call);
        Ok(())
    }

    /// The call that waits, if one does, has this reply.
    pub(crate) fn answers(&mut self, script: &Script, reply: &Reply) -> Result<(), Memory>
        requires { IsSteady script.now self.old }
        ensures { OnOk result (self.new ≡ answered script.now self.old reply.now) }
    {
        if self.is_parked() {
            self.caller.answered(script, reply)
        } else {
            Ok(())
        }
    }

    /// The process has withdrawn the call that waits, and this is its reply.
    fn withdraws(&mut self, script: &Script, own: &Option<Reply>) -> Result<(), Memory>
        requires { IsSteady script.now self.old }
        ensures { OnOk result (self.new ≡ after_withdrawal script.now self.old own.now) }
    {
        match own {
            Some(reply) => self.answers(script, reply),
            None => Ok(()),
        }
    }

    /// The process has made this call, which has this reply, or parks where that is none.
    pub(crate) fn goes_on(
        &mut self,
        script: &Script,
        call: &Call,
        own: &Option<Reply>,
    ) -> Result<(), Memory>
        requires sound { IsSoundScript script.now }
        requires steady { IsSteady script.now self.old }
        requires may { MayMake script.now self.old call.now }
        ensures { OnOk result (self.new ≡ after_call script.now self.old call.now own.now) }
    {
        if let Call::Withdraw { .. } = call {
            return self.withdraws(script, own);
        }
        match own {
            Some(reply) => self.moves(script, call, reply),
            None => self.parks(script),
        }
    }
}
