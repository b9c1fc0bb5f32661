//! The line of an entry: who made which call, what it came to, who carried it out, and whom that woke.
ghost use Rattle.std.specs.Prelude.{◌≡◌, ◌<◌, ◌≤◌, [], ◌++◌, codes, Some, None, if◌then◌else◌, IfSome, OnOk, nat_lt};
ghost use Rattle.std.specs.List.{flat_map};
ghost use Rattle.std.specs.Fmt.{decimal};
ghost use Rattle.kernel_model.specs.Trace as trace;
ghost use Rattle.pico_base.specs.declared.reply.Reply.TheVariants.{Num};
ghost use Rattle.trace_text.specs.Outcome.{outcome_text};

use crate::fields::push_node;
use crate::print_calls::push_call;
use crate::print_replies::push_reply;
use crate::text::{has_room, push, push_byte, push_growing, push_number_then};
use pico_base::{Call, Entry, Memory, Node, Outcome, Pid, Reply, Script};

pub(crate) fn push_own(out: &mut Vec<u8>, own: &Option<Reply>) -> Result<(), Memory>
    ensures { OnOk result (out.new.items ≡ out.old.items ++ trace.own_text own.now) }
{
    match own {
        None => push(out, b"parked"),
        Some(reply) => push_reply(out, reply),
    }
}

// Who made which call.
fn push_made(out: &mut Vec<u8>, script: &Script, pid: Pid, call: &Call) -> Result<(), Memory>
    ensures { OnOk result (out.new.items ≡ out.old.items ++ trace.made_text script.now pid call.now) }
{
    push_number_then(out, u64::from(pid.0), b' ')?;
    push_call(out, script, call)
}

// A caller that is woken, with its reply.
fn push_wake(out: &mut Vec<u8>, pid: Pid, reply: &Reply) -> Result<(), Memory>
    ensures { OnOk result (out.new.items ≡ out.old.items ++ trace.wake_text (pid, reply.now)) }
{
    push(out, b" wakes ")?;
    push_number_then(out, u64::from(pid.0), b' ')?;
    push_reply(out, reply)
}

fn push_wakes(out: &mut Vec<u8>, woken: &[(Pid, Reply)]) -> Result<(), Memory>
    ensures { OnOk result (out.new.items ≡ out.old.items ++ flat_map trace.wake_text woken.now) }
{
    for (pid, reply) in woken {
        push_wake(out, *pid, reply)?;
    }
    Ok(())
}

/// Adds what a call came to, as a trace has it but for the node: the caller's reply, or `parked` where it has none yet,
/// and ` wakes PID REPLY` for each caller that is woken, in order. Memory: more was needed, and an allocation was
/// refused.
pub fn push_outcome(out: &mut Vec<u8>, outcome: &Outcome) -> Result<(), Memory>
    ensures { OnOk result (out.new.items ≡ out.old.items ++ outcome_text outcome.now) }
{
    push_own(out, &outcome.own)?;
    push_wakes(out, outcome.woken.as_slice())
}

// Who carried it out, where that woke nobody and the node has one digit.
fn push_short_by(out: &mut Vec<u8>, node: u8) -> Result<(), Memory>
    requires { node < 10 }
    ensures { OnOk result (out.new.items ≡ out.old.items ++ trace.by_text node []) }
{
    push(out, &[b' ', b'b', b'y', b' ', b'0' + node, b'\n'])
}

// The same by a node of two digits.
fn push_longer_by(out: &mut Vec<u8>, node: u8) -> Result<(), Memory>
    requires { (10 ≤ node) × (node < 100) }
    ensures { OnOk result (out.new.items ≡ out.old.items ++ trace.by_text node []) }
{
    let (tens, units) = (b'0' + node / 10, b'0' + node % 10);
    push(out, &[b' ', b'b', b'y', b' ', tens, units, b'\n'])
}

// Who carried it out, where that woke nobody.
fn push_by_alone(out: &mut Vec<u8>, node: Node) -> Result<(), Memory>
    ensures { OnOk result (out.new.items ≡ out.old.items ++ trace.by_text node []) }
{
    if node.0 < 100 && has_room(out, 7) {
        if node.0 < 10 {
            return push_short_by(out, node.0);
        }
        return push_longer_by(out, node.0);
    }
    push_any_by(out, node)
}

// The same by any node.
#[inline(never)]
fn push_any_by(out: &mut Vec<u8>, node: Node) -> Result<(), Memory>
    ensures { OnOk result (out.new.items ≡ out.old.items ++ trace.by_text node []) }
{
    push(out, b" by ")?;
    push_number_then(out, u64::from(node.0), b'\n')
}

// Who carried it out, and whom that woke. It stands apart, so that the end of most lines saves no registers for it.
#[inline(never)]
fn push_by_and_wakes(out: &mut Vec<u8>, node: Node, woken: &[(Pid, Reply)]) -> Result<(), Memory>
    ensures { OnOk result (out.new.items ≡ out.old.items ++ trace.by_text node woken.now) }
{
    push(out, b" by ")?;
    push_node(out, node)?;
    push_wakes(out, woken)?;
    push_byte(out, b'\n')
}

pub(crate) fn push_by(out: &mut Vec<u8>, node: Node, woken: &[(Pid, Reply)]) -> Result<(), Memory>
    ensures { OnOk result (out.new.items ≡ out.old.items ++ trace.by_text node woken.now) }
{
    if woken.is_empty() {
        return push_by_alone(out, node);
    }
    push_by_and_wakes(out, node, woken)
}

// The number as a byte, where it has one digit.
fn digit(number: u32) -> Option<u8>
    ensures { result ≡ (if nat_lt number 10 then Some number else None) }
{
    if number < 10 {
        Some(number as u8)
    } else {
        None
    }
}

// The number that a caller gets, where it has one digit.
fn digit_of(own: &Option<Reply>) -> Option<u8>
    ensures below { IfSome result (λ number. number < 10) }
    ensures own { IfSome result (λ number. own.now ≡ Some (Num number)) }
{
    match own {
        Some(Reply::Num(number)) => digit(*number),
        _ => None,
    }
}

// The end of most lines, at once: a number of one digit, a node of one digit, and nobody woken.
fn push_short_end(out: &mut Vec<u8>, number: u8, node: u8) -> Result<(), Memory>
    requires { (number < 10) × (node < 10) }
    ensures { OnOk result
        (out.new.items ≡ out.old.items ++ (codes " = " ++ decimal number ++ trace.by_text node [])) }
{
    let (first, last) = (b'0' + number, b'0' + node);
    push(
        out,
        &[b' ', b'=', b' ', first, b' ', b'b', b'y', b' ', last, b'\n'],
    )
}

// The same by a node of two digits.
fn push_longer_end(out: &mut Vec<u8>, number: u8, node: u8) -> Result<(), Memory>
    requires { (number < 10) × (10 ≤ node) × (node < 100) }
    ensures { OnOk result
        (out.new.items ≡ out.old.items ++ (codes " = " ++ decimal number ++ trace.by_text node [])) }
{
    let (first, tens, units) = (b'0' + number, b'0' + node / 10, b'0' + node % 10);
    push(
        out,
        &[
            b' ', b'=', b' ', first, b' ', b'b', b'y', b' ', tens, units, b'\n',
        ],
    )
}

fn push_digit_and_by(out: &mut Vec<u8>, number: u8) -> Result<(), Memory>
    requires { number < 10 }
    ensures { OnOk result
        (out.new.items ≡ out.old.items ++ (codes " = " ++ decimal number ++ codes " by ")) }
{
    let digit = b'0' + number;
    push(out, &[b' ', b'=', b' ', digit, b' ', b'b', b'y', b' '])
}

// The same by any node.
fn push_digit_end(out: &mut Vec<u8>, number: u8, node: Node) -> Result<(), Memory>
    requires { number < 10 }
    ensures { OnOk result
        (out.new.items ≡ out.old.items ++ (codes " = " ++ decimal number ++ trace.by_text node [])) }
{
    if node.0 < 10 {
        return push_short_end(out, number, node.0);
    }
    if node.0 < 100 {
        return push_longer_end(out, number, node.0);
    }
    push_digit_and_by(out, number)?;
    push_number_then(out, u64::from(node.0), b'\n')
}

// What stands in front of what a call came to.
#[inline(always)]
pub(crate) fn push_equals(out: &mut Vec<u8>) -> Result<(), Memory>
    ensures { OnOk result (out.new.items ≡ out.old.items ++ codes " = ") }
{
    if has_room(out, 3) {
        return push(out, &[b' ', b'=', b' ']);
    }
    push_growing(out, b" = ")
}

// The end of any line.
#[inline(always)]
fn push_long_end(out: &mut Vec<u8>, outcome: &Outcome, node: Node) -> Result<(), Memory>
    ensures { OnOk result
        (out.new.items ≡ out.old.items
        ++ (codes " = " ++ trace.own_text outcome.now.own ++ trace.by_text node outcome.now.woken)) }
{
    push_equals(out)?;
    push_own(out, &outcome.own)?;
    push_by(out, node, outcome.woken.as_slice())
}

// What a call came to, and who carried it out.
fn push_end(out: &mut Vec<u8>, outcome: &Outcome, node: Node) -> Result<(), Memory>
    ensures { OnOk result
        (out.new.items ≡ out.old.items
        ++ (codes " = " ++ trace.own_text outcome.now.own ++ trace.by_text node outcome.now.woken)) }
{
    if outcome.woken.as_slice().is_empty() && node.0 < 100 && has_room(out, 11) {
        if let Some(number) = digit_of(&outcome.own) {
            return push_digit_end(out, number, node);
        }
    }
    push_long_end(out, outcome, node)
}

pub(crate) fn push_entry(out: &mut Vec<u8>, script: &Script, entry: &Entry) -> Result<(), Memory>
    ensures { OnOk result (out.new.items ≡ out.old.items ++ trace.entry_line script.now entry.now) }
{
    push_made(out, script, entry.pid, &entry.call)?;
    push_end(out, &entry.outcome, entry.by)
}
