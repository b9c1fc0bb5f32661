//! A line of a trace beside the one that is expected: the call that is due, and then what that came to.
ghost use Rattle.std.specs.Prelude.{◌≡◌, [], ◌∷◌, ◌++◌, codes, option_copied, IfOk, IfSome, IsTrue, Some};
ghost use Rattle.pico_base.specs.declared.reply.Outcome.{Outcome as OutcomeValue};
ghost use Rattle.pico_base.specs.declared.reply.Reply.TheVariants.{Num};
ghost use Rattle.kernel_model.specs.Trace as trace;
ghost use Rattle.quoted_bytes.specs.Front.{strip};
ghost use Rattle.trace_text.specs.Expected.{EndsWith, numbered};

use crate::entries::{by_number, is_line};
use crate::grammar::is_outcome;
use crate::print_calls::push_call;
use crate::print_entries::{push_by, push_equals, push_own};
use crate::text::push_byte;
use pico_base::{Call, Memory, Node, Outcome, Reply, Script};
use quoted_bytes::strip_front;
use text_fields::number_front;

/// What the line has behind a call and ` = `; none where these don't follow the process's number. They are printed into
/// `scratch`.
fn behind_printed<'a>(
    script: &Script,
    call: &Call,
    behind: &'a [u8],
    scratch: &mut Vec<u8>,
) -> Result<Option<&'a [u8]>, Memory>
    ensures { IfOk result (λ rest. option_copied rest
        ≡ strip (32 ∷ (trace.call_text script.now call.now ++ codes " = ")) behind.now) }
{
    scratch.clear();
    push_byte(scratch, b' ')?;
    push_call(scratch, script, call)?;
    push_equals(scratch)?;
    Ok(strip_front(behind, scratch))
}

/// What a line has behind the process's call and ` = `, by what stands behind the process's number; none where it has
/// another call. `scratch` is room to print the call.
pub fn behind_call<'a>(
    script: &Script,
    call: &Call,
    behind: &'a [u8],
    scratch: &mut Vec<u8>,
) -> Result<Option<&'a [u8]>, Memory>
    ensures { IfOk result (λ rest. option_copied rest
        ≡ strip (32 ∷ (trace.call_text script.now call.now ++ codes " = ")) behind.now) }
{
    match call {
        Call::GetPid => Ok(strip_front(behind, b" getpid = ")),
        _ => behind_printed(script, call, behind, scratch),
    }
}

/// The number that the caller gets, where that is all that the call came to.
fn number_alone(outcome: &Outcome) -> Option<u32>
    ensures { IfSome result (λ number. outcome.now ≡ numbered number) }
{
    if !outcome.woken.as_slice().is_empty() {
        return None;
    }
    match &outcome.own {
        Some(Reply::Num(number)) => Some(*number),
        _ => None,
    }
}

/// Whether the rest of a line is this number by one of the nodes. It is read, which is shorter than to print it.
fn is_number_end(number: u32, rest: &[u8]) -> bool
    ensures { IsTrue result → EndsWith (numbered number) rest.now }
{
    let Some((found, behind)) = number_front(u32::MAX, rest) else {
        return false;
    };
    let Some((_, left)) = by_number(behind) else {
        return false;
    };
    found == number && left.is_empty()
}

/// Whether the rest of a line is this outcome, printed, by one of the nodes.
fn is_printed_end(outcome: &Outcome, rest: &[u8], scratch: &mut Vec<u8>) -> Result<bool, Memory>
    ensures { IfOk result (λ is. IsTrue is → EndsWith outcome.now rest.now) }
{
    if !is_outcome(outcome) {
        return Ok(false);
    }
    scratch.clear();
    push_own(scratch, &outcome.own)?;
    let Some(behind) = strip_front(rest, scratch) else {
        return Ok(false);
    };
    let Some((node, _)) = by_number(behind) else {
        return Ok(false);
    };
    scratch.clear();
    push_by(scratch, Node(node), outcome.woken.as_slice())?;
    Ok(is_line(scratch, behind))
}

/// Whether the rest of a line, behind ` = `, is this outcome by one of the nodes. Else it may be another text of the
/// same, where no line could have that. `scratch` is room to print it.
pub fn is_end(outcome: &Outcome, rest: &[u8], scratch: &mut Vec<u8>) -> Result<bool, Memory>
    ensures { IfOk result (λ is. IsTrue is → EndsWith outcome.now rest.now) }
{
    match number_alone(outcome) {
        Some(number) => Ok(is_number_end(number, rest)),
        None => is_printed_end(outcome, rest, scratch),
    }
}
