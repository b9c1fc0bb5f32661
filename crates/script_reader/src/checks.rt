//! The faults of a line.

ghost use Rattle.std.specs.Prelude.{◌≡◌, ◌+◌, ◌≤◌, ◌<◌, ◌^◌, length};
ghost use Rattle.script_reader.specs.Fault as spec;
ghost use Rattle.script_reader.specs.declared.says.Said.TheVariants.{Calls};

use crate::fault::ScriptFault;
use crate::place::{MAX_BLOCKS, Place, calls_of};
use crate::says::Said;
use pico_base::{Line, Var};

/// The longest line, without its line feed.
pub const MAX_LINE: usize = 4096;

/// The most calls of a script.
const MAX_CALLS: usize = 20_000;

fn is_proc(said: &Said) -> bool
    ensures { result ≡ spec.is_proc said.now }
{
    matches!(said, Said::Opens(_, _) | Said::BadProc)
}

fn is_skipped(said: &Said) -> bool
    ensures { result ≡ spec.is_skipped said.now }
{
    matches!(said, Said::Skipped)
}

fn is_unknown(said: &Said) -> bool
    ensures { result ≡ spec.is_unknown said.now }
{
    matches!(said, Said::Unknown)
}

/// Whether the words aren't those of a line of any form.
fn is_bad(said: &Said) -> bool
    ensures { result ≡ spec.is_bad said.now }
{
    matches!(said, Said::Bad | Said::BadProc)
}

fn is_call(said: &Said) -> bool
    ensures { result ≡ spec.is_call said.now }
{
    matches!(said, Said::Forks(_, _) | Said::Calls(_))
}

/// Whether a block gets the name of an earlier one.
fn repeats(place: &Place, said: &Said) -> bool
    requires { length place.now.blocks < 2 ^ 32 }
    ensures { result ≡ spec.repeats place.now said.now }
{
    match said {
        Said::Opens(_, number) => *number != place.number(),
        _ => false,
    }
}

/// Whether this variable isn't known.
fn is_unset(place: &Place, from: Option<Var>) -> bool
    ensures { result ≡ spec.is_unset place.now from }
{
    match from {
        None => false,
        Some(Var(index)) => !place.known.is_set(usize::from(index)),
    }
}

/// Whether a line uses a variable that isn't known.
fn uses_unset(place: &Place, said: &Said) -> bool
    ensures { result ≡ spec.uses_unset place.now said.now }
{
    match said {
        Said::Calls(line) => is_unset(place, line.from),
        _ => false,
    }
}

/// Whether no block has the name of a fork.
fn forks_nothing(said: &Said) -> bool
    ensures { result ≡ spec.forks_nothing said.now }
{
    matches!(said, Said::Forks(_, None))
}

/// Whether an earlier line forks the same block.
fn forks_again(place: &Place, said: &Said) -> bool
    ensures { result ≡ spec.forks_again place.now said.now }
{
    match said {
        Said::Forks(_, Some(number)) => place.forked.is_set(*number),
        _ => false,
    }
}

/// Whether a fork is of the open block or of an earlier one.
fn forks_back(place: &Place, said: &Said) -> bool
    requires { length place.now.blocks < 2 ^ 32 }
    ensures { result ≡ spec.forks_back place.now said.now }
{
    match said {
        Said::Forks(_, Some(number)) => *number <= place.number(),
        _ => false,
    }
}

/// Whether no earlier line forks the block that begins, which isn't the first.
fn is_never_forked(place: &Place, said: &Said) -> bool
    requires { length place.now.blocks < 2 ^ 32 }
    ensures { result ≡ spec.is_never_forked place.now said.now }
{
    match said {
        Said::Opens(_, number) => 1 < place.number() && !place.forked.is_set(*number),
        _ => false,
    }
}

/// Whether one block too many begins.
fn is_proc_too_many(place: &Place, said: &Said) -> bool
    requires { length place.now.blocks < 2 ^ 32 }
    ensures { result ≡ spec.is_proc_too_many place.now said.now }
{
    match said {
        Said::Opens(_, _) => MAX_BLOCKS < place.number(),
        _ => false,
    }
}

/// Whether a line of this length, which says this in its place, has the fault.
#[tactic(auto, unfolding(crate::specs::Fault::has_fault))]
fn has_fault(place: &Place, size: usize, said: &Said, fault: ScriptFault) -> bool
    requires blocks { length place.now.blocks < 2 ^ 32 }
    requires calls { place.now.calls ≤ 20000 }
    ensures { result ≡ spec.has_fault place.now size said.now fault }
{
    match fault {
        ScriptFault::ScriptTooLong | ScriptFault::NotUtf8 => false,
        ScriptFault::LineTooLong => MAX_LINE < size,
        ScriptFault::NoProc => !place.inside && !(is_proc(said) || is_skipped(said)),
        ScriptFault::NoEnd => place.inside && is_proc(said),
        ScriptFault::UnknownCall => place.inside && is_unknown(said),
        ScriptFault::BadArgument => {
            is_bad(said) || repeats(place, said) || (place.over && is_call(said))
        }
        ScriptFault::UnsetVariable => uses_unset(place, said),
        ScriptFault::UnknownProc => forks_nothing(said),
        ScriptFault::ForkedTwice => forks_again(place, said),
        ScriptFault::NeverForked => is_never_forked(place, said),
        ScriptFault::ForkBackwards => forks_back(place, said),
        ScriptFault::TooManyProcs => is_proc_too_many(place, said),
        ScriptFault::TooManyCalls => MAX_CALLS < place.calls + calls_of(place, said),
    }
}

/// The fault of a line in its place, whatever it says.
#[inline(never)]
#[tactic(auto, unfolding(crate::specs::Fault::fault_of))]
fn any_fault(place: &Place, size: usize, said: &Said) -> Option<ScriptFault>
    requires blocks { length place.now.blocks < 2 ^ 32 }
    requires calls { place.now.calls ≤ 20000 }
    ensures { result ≡ spec.fault_of place.now size said.now }
{
    // Each fault is asked for by its name: the tests of the others then fall away where this is compiled.
    if has_fault(place, size, said, ScriptFault::LineTooLong) {
        Some(ScriptFault::LineTooLong)
    } else if has_fault(place, size, said, ScriptFault::NoProc) {
        Some(ScriptFault::NoProc)
    } else if has_fault(place, size, said, ScriptFault::NoEnd) {
        Some(ScriptFault::NoEnd)
    } else if has_fault(place, size, said, ScriptFault::UnknownCall) {
        Some(ScriptFault::UnknownCall)
    } else if has_fault(place, size, said, ScriptFault::BadArgument) {
        Some(ScriptFault::BadArgument)
    } else if has_fault(place, size, said, ScriptFault::UnsetVariable) {
        Some(ScriptFault::UnsetVariable)
    } else if has_fault(place, size, said, ScriptFault::UnknownProc) {
        Some(ScriptFault::UnknownProc)
    } else if has_fault(place, size, said, ScriptFault::ForkedTwice) {
        Some(ScriptFault::ForkedTwice)
    } else if has_fault(place, size, said, ScriptFault::NeverForked) {
        Some(ScriptFault::NeverForked)
    } else if has_fault(place, size, said, ScriptFault::ForkBackwards) {
        Some(ScriptFault::ForkBackwards)
    } else if has_fault(place, size, said, ScriptFault::TooManyProcs) {
        Some(ScriptFault::TooManyProcs)
    } else if has_fault(place, size, said, ScriptFault::TooManyCalls) {
        Some(ScriptFault::TooManyCalls)
    } else {
        None
    }
}

/// The fault of a call's line in its place. These are few tests, and most lines are such lines.
#[tactic(auto, unfolding(crate::specs::Fault::fault_of, crate::specs::Fault::has_fault))]
fn call_fault(place: &Place, size: usize, line: &Line) -> Option<ScriptFault>
    requires { place.now.calls ≤ 20000 }
    ensures { result ≡ spec.fault_of place.now size (Calls line.now) }
{
    if MAX_LINE < size {
        Some(ScriptFault::LineTooLong)
    } else if !place.inside {
        Some(ScriptFault::NoProc)
    } else if place.over {
        Some(ScriptFault::BadArgument)
    } else if is_unset(place, line.from) {
        Some(ScriptFault::UnsetVariable)
    } else if MAX_CALLS < place.calls + line.tries as usize {
        Some(ScriptFault::TooManyCalls)
    } else {
        None
    }
}

/// The fault of a line of this length, which says this in its place: of those that it has, the one that stands first
/// in `ScriptFault`.
pub fn fault_of(place: &Place, size: usize, said: &Said) -> Option<ScriptFault>
    requires blocks { length place.now.blocks < 2 ^ 32 }
    requires calls { place.now.calls ≤ 20000 }
    ensures { result ≡ spec.fault_of place.now size said.now }
{
    match said {
        Said::Calls(line) => call_fault(place, size, line),
        _ => any_fault(place, size, said),
    }
}
