//! A node starts its process's next call.
ghost use Rattle.std.specs.Prelude.{◌≡◌, IfOk, IfSome, IsTrue, None, OnOk, Some, false, true};
ghost use Rattle.std.specs.Option.{option_copied};
ghost use Rattle.pico_base.specs.Home.{home_of};
ghost use Rattle.pico_base.specs.declared.script.Script.{Script as Scripted};
ghost use Rattle.kernel_model.specs.Row.{Row as AtRow};
ghost use Rattle.kernel_model.specs.Script.{IsSoundScript};
ghost use Rattle.node_state.specs.declared.fault.TurnFault.TheVariants.{NotAllowed};
ghost use Rattle.world_model.specs.Node.{own_row};
ghost use Rattle.world_model.specs.Starting.{run, start, start_by};
ghost use Rattle.node_state.specs.Started.{can_start, started};
ghost use Rattle.node_state.specs.State.{node_of, step_of};
ghost use Rattle.node_state.specs.Turning.{IsFresh, Turns};
ghost use Rattle.start_rules.specs.Own.{IsOwnCall, is_act, start_doomed};

use crate::asking::{may_ask, start_ask, start_at};
use crate::ending::start_end;
use crate::making::{may_start_own, start_own};
use node_state::forms::is_withdrawal;
use node_state::{Growing, State, TurnFault, unreached};
use pico_base::{Call, Home, Memory, Script, Sig, home};
use serve_rules::act_lent;

/// Whether no call is under way, and a further ticket is a number of four bytes.
fn can_start(node: &State) -> bool
    ensures { result ≡ can_start (node_of node.now) }
{
    node.can_run() && node.caller.ticket() < u32::MAX
}

/// Why no call is due: there is no line left. No run leads to a doomed process that has none.
fn no_line(doom: Option<Sig>) -> TurnFault
    ensures { result ≡ NotAllowed → doom ≡ None }
{
    match doom {
        None => TurnFault::NotAllowed,
        Some(_) => TurnFault::from(unreached()),
    }
}

/// Whether the call can be started. No run leads to a node that can't start one on a name, so that isn't asked.
fn may_start(step: &Growing, call: &Call, home: &Home) -> bool
    ensures { (script : Scripted) (row : AtRow) → result ≡ false
        → start_by script (started (step_of step.now) call.now) call.now row home.now ≡ None }
{
    match home {
        Home::Own => may_start_own(step, call),
        Home::Keys | Home::Removal(_) => may_ask(step, call),
        Home::At(_) | Home::Parent => true,
    }
}

/// The call is under way, and is carried out here, or others are asked to.
#[inline(always)]
fn start_by(step: &mut Growing, script: &Script, call: Call, home: Home) -> Result<(), Memory>
    requires sound { IsSoundScript script.now }
    requires can_start { IsTrue (can_start (node_of step.old.node)) }
    ensures { OnOk result ((row : AtRow) → own_row (node_of step.old.node) ≡ Some row
        → start_by script.now (started (step_of step.old) call) call row home ≡ Some (step_of step.new)) }
{
    match home {
        Home::Own => start_own(step, script, call),
        Home::At(name) => start_at(step, script, call, &name),
        Home::Keys | Home::Removal(_) => start_ask(step, script, call),
        Home::Parent => start_end(step, script, call),
    }
}

/// The call due is started.
#[inline(never)]
fn start(step: &mut Growing, script: &Script, call: Call) -> Result<(), TurnFault>
    requires fresh { IsFresh step.old }
    requires sound { IsSoundScript script.now }
    requires can_start { IsTrue (can_start (node_of step.old.node)) }
    ensures { (row : AtRow) → own_row (node_of step.old.node) ≡ Some row
        → Turns (start script.now (node_of step.old.node) row call) step.old step.new result }
{
    if is_withdrawal(&call) {
        return Err(TurnFault::NotAllowed);
    }
    let home = home(step.node.pid, &call);
    if !may_start(step, &call, &home) {
        return Err(TurnFault::NotAllowed);
    }
    Ok(start_by(step, script, call, home)?)
}

/// Whether the call is on the process itself whoever makes it, takes no number, and doesn't wait.
fn is_act(call: &Call) -> bool
    ensures { result ≡ is_act call.now }
{
    match call {
        Call::GetPid | Call::SigPending => true,
        Call::SigAction { .. } | Call::SigProcMask { .. } | Call::Handled { .. } => true,
        Call::WaitPid { nohang, .. } => *nohang,
        _ => false,
    }
}

/// The call, where it is on the process itself and carried out at once.
fn own_only(call: &Call) -> Option<&Call>
    ensures { IfSome (option_copied result) (λ own. (own ≡ call.now) × (is_act own ≡ true)) }
{
    if is_act(call) { Some(call) } else { None }
}

/// The call of the line that is reached, as the script has it, where it is on the process itself and carried out at
/// once.
fn own_call<'a>(node: &State, script: &'a Script) -> Option<&'a Call>
    requires sound { IsSoundScript script.now }
    ensures { IfSome (option_copied result) (IsOwnCall script.now node.now) }
{
    if !node.caller.has_line(script) {
        return None;
    }
    match node.caller.written_call(script) {
        Some(call) => own_only(call),
        None => None,
    }
}

/// The script's own call is started and carried out.
fn start_lent(step: &mut Growing, script: &Script, call: &Call) -> Result<(), TurnFault>
    requires fresh { IsFresh step.old }
    requires sound { IsSoundScript script.now }
    requires can_start { IsTrue (can_start (node_of step.old.node)) }
    requires own { IsOwnCall script.now step.old.node call.now }
    ensures { (row : AtRow) → own_row (node_of step.old.node) ≡ Some row
        → Turns (start script.now (node_of step.old.node) row call.now) step.old step.new result }
{
    Ok(act_lent(step, script, call)?)
}

/// The call due is made, and started. It isn't put into an `Option` on its way: each form that it takes there is one
/// more move of it, which waits for the last. Memory, too, where a doomed process has no line left.
#[inline(always)]
fn start_made(step: &mut Growing, script: &Script, doom: Option<Sig>) -> Result<(), TurnFault>
    requires fresh { IsFresh step.old }
    requires sound { IsSoundScript script.now }
    requires can_start { IsTrue (can_start (node_of step.old.node)) }
    ensures { (row : AtRow) → own_row (node_of step.old.node) ≡ Some row
        → Turns (start_doomed script.now (node_of step.old.node) row doom) step.old step.new result }
{
    if !step.node.caller.has_line(script) {
        return Err(no_line(doom));
    }
    let call = step.node.caller.due(script, doom)?;
    start(step, script, call)
}

/// The call due is started where no signal dooms the process. One on the process itself is lent by the script.
#[inline(always)]
fn start_undoomed(step: &mut Growing, script: &Script) -> Result<(), TurnFault>
    requires fresh { IsFresh step.old }
    requires sound { IsSoundScript script.now }
    requires can_start { IsTrue (can_start (node_of step.old.node)) }
    ensures { (row : AtRow) → own_row (node_of step.old.node) ≡ Some row
        → Turns (start_doomed script.now (node_of step.old.node) row None) step.old step.new result }
{
    match own_call(&step.node, script) {
        Some(call) => start_lent(step, script, call),
        None => start_made(step, script, None),
    }
}

/// The call due is started, by whether a signal dooms the process.
#[inline(always)]
fn start_due(step: &mut Growing, script: &Script, doom: Option<Sig>) -> Result<(), TurnFault>
    requires fresh { IsFresh step.old }
    requires sound { IsSoundScript script.now }
    requires can_start { IsTrue (can_start (node_of step.old.node)) }
    ensures { (row : AtRow) → own_row (node_of step.old.node) ≡ Some row
        → Turns (start_doomed script.now (node_of step.old.node) row doom) step.old step.new result }
{
    match doom {
        Some(sig) => start_made(step, script, Some(sig)),
        None => start_undoomed(step, script),
    }
}

/// The run rule: the node's process starts its call due, which is carried out here or asked for.
///
/// NotAllowed where the process makes no calls, one is under way, all its tickets are used, its row isn't here, or no
/// call is due; where the call ends a wait; and where there is no number left for it, or the leader can't route a get
/// by a key or a removal. Memory, too, where the process is doomed and no line is left, and where the leader can't
/// route a call on a name: no run leads there.
pub fn run(step: &mut Growing, script: &Script) -> Result<(), TurnFault>
    requires fresh { IsFresh step.old }
    requires sound { IsSoundScript script.now }
    ensures { Turns (run script.now (node_of step.old.node)) step.old step.new result }
{
    if !can_start(&step.node) {
        return Err(TurnFault::NotAllowed);
    }
    let Some(row) = step.node.own_row() else {
        return Err(TurnFault::NotAllowed);
    };
    let doom = row.signals.doom();
    start_due(step, script, doom)
}
