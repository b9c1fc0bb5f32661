//! Operations, values and sets of signals at the front of a text.
ghost use Rattle.std.specs.Prelude.{◌≡◌, ◌≤◌, IfOk, IfSome, option_map};
ghost use Rattle.pico_base.specs.Signal.{put_at};
ghost use Rattle.text_fields.specs.Fields.{step_at, steps_at, number_at, signal_at, behind_comma, joined_at, all_at, in_front, values_at, set_from, set_at};

use crate::names::{flag_front, signal_front};
use crate::numbers::{number_front, signed_front};
use pico_base::{Memory, SemStep, Sequence, Sig, SigSet, Steps, Values};
use quoted_bytes::strip_front;
use std::alloc::Global;

/// The greatest number of a semaphore, and the greatest that an operation adds or takes.
const MAX_NUMBER: u32 = 65_535;

/// An operation behind a blank.
#[tactic(auto, unfolding(crate::specs::Fields::step_at))]
fn step_front(bytes: &[u8]) -> Option<(SemStep, &[u8])>
    ensures { option_map (λ x. (x.0, x.1.now)) result ≡ step_at bytes.now }
{
    let front = strip_front(bytes, b" ")?;
    let (num, rest) = number_front(MAX_NUMBER, front)?;
    let rest = strip_front(rest, b":")?;
    let (add, rest) = signed_front(MAX_NUMBER, rest)?;
    let (nowait, rest) = flag_front(rest, b":nowait");
    let num = num as u16;
    Some((SemStep { num, add, nowait }, rest))
}

/// Operations, each behind a blank.
pub fn steps_front(alloc: Global, bytes: &[u8]) -> Result<(Steps, &[u8]), Memory>
    ensures { IfOk result (λ x. (x.0, x.1.now) ≡ steps_at bytes.now) }
{
    let mut steps = Sequence::new(alloc);
    let mut rest = bytes;
    for _ in 0..bytes.len() {
        let Some((step, after)) = step_front(rest) else {
            return Ok((steps, rest));
        };
        steps.push(step)?;
        rest = after;
    }
    Ok((steps, rest))
}

/// A value behind a comma.
fn next_value(limit: u32, bytes: &[u8]) -> Option<(u32, &[u8])>
    requires { 9 ≤ limit }
    ensures { option_map (λ x. (x.0, x.1.now)) result ≡ behind_comma (number_at limit) bytes.now }
{
    number_front(limit, strip_front(bytes, b",")?)
}

/// Values up to the limit, with commas between them.
#[tactic(auto, unfolding(crate::specs::Fields::values_at))]
pub fn values_front(
    alloc: Global,
    limit: u32,
    bytes: &[u8],
) -> Result<Option<(Values, &[u8])>, Memory>
    requires { 9 ≤ limit }
    ensures { IfOk result (λ values. option_map (λ x. (x.0, x.1.now)) values ≡ values_at limit bytes.now) }
{
    let Some((first, rest)) = number_front(limit, bytes) else {
        return Ok(None);
    };
    match further_values(alloc, limit, first, rest) {
        Ok(values) => Ok(Some(values)),
        Err(memory) => Err(memory),
    }
}

/// The first value, and those behind commas.
fn further_values(
    alloc: Global,
    limit: u32,
    first: u32,
    bytes: &[u8],
) -> Result<(Values, &[u8]), Memory>
    requires { 9 ≤ limit }
    ensures { IfOk result (λ x. (x.0, x.1.now) ≡ in_front first (all_at (behind_comma (number_at limit)) bytes.now)) }
{
    let mut values = Sequence::new(alloc);
    values.push(first)?;
    let mut rest = bytes;
    for _ in 0..bytes.len() {
        let Some((value, after)) = next_value(limit, rest) else {
            return Ok((values, rest));
        };
        values.push(value)?;
        rest = after;
    }
    Ok((values, rest))
}

/// A signal behind a comma.
fn next_signal(bytes: &[u8]) -> Option<(Sig, &[u8])>
    ensures { option_map (λ x. (x.0, x.1.now)) result ≡ behind_comma signal_at bytes.now }
{
    signal_front(strip_front(bytes, b",")?)
}

/// The set of the first signal and those behind commas.
fn further_signals(first: Sig, bytes: &[u8]) -> (SigSet, &[u8])
    ensures { (result.0, result.1.now) ≡ set_from (in_front first (all_at (behind_comma signal_at) bytes.now)) }
{
    let mut set = SigSet::empty().with(first);
    let mut rest = bytes;
    for _ in 0..bytes.len() {
        let Some((sig, after)) = next_signal(rest) else {
            return (set, rest);
        };
        set = set.with(sig);
        rest = after;
    }
    (set, rest)
}

/// A set of signals: `none`, or their names with commas between them.
#[tactic(auto, unfolding(crate::specs::Fields::set_at))]
pub fn set_front(bytes: &[u8]) -> Option<(SigSet, &[u8])>
    ensures { option_map (λ x. (x.0, x.1.now)) result ≡ set_at bytes.now }
{
    if let Some(rest) = strip_front(bytes, b"none") {
        return Some((SigSet::empty(), rest));
    }
    let (first, rest) = signal_front(bytes)?;
    Some(further_signals(first, rest))
}
