//! Looks at many streams.
ghost use Rattle.std.specs.Prelude.{◌≡◌, IfOk};
ghost use Rattle.log_model.specs.Looks.{Looks};
ghost use Rattle.log_model.specs.declared.found.Found.TheVariants.{Nothing};
ghost use Rattle.node_lines.specs.Lines.{AreSameLines, after_silences, may_look};

use crate::line::Line;
use log_model::Found;
use pico_base::{Memory, Node};
use std::sync::Wait;

/// Whether a line is looked at.
fn may_look(only: &Option<Node>, other: Node) -> bool
    ensures { result ≡ may_look only.now other }
{
    match only {
        Some(only) => other == *only,
        None => true,
    }
}

/// Looks at the lines one after the other, at each or at that with the node `only` alone, up to the first that gives a
/// whole frame, or bytes that are none. Where memory is refused a piece may be lost. One look at the bell of the first
/// line stands for all where it is silent, so the streams to one node are to be made with one bell: no clause says so.
pub fn look_at_each<R: Wait>(
    rt: &R,
    lines: &mut [Line],
    only: Option<Node>,
) -> Result<Found, Memory>
    ensures looks { IfOk result (λ found. Looks (may_look only) lines.old found lines.new) }
    ensures same { AreSameLines lines.old lines.new }
{
    if are_silent(lines) {
        note_silence(lines, &only);
        Ok(Found::Nothing)
    } else {
        look_until_found(rt, lines, &only)
    }
}

/// Whether nothing is on its way on any of the lines, by the bell that they share: one look in place of a look at each.
#[inline(always)]
pub fn are_silent(lines: &[Line]) -> bool {
    match lines.first() {
        Some(line) => line.is_silent(),
        None => true,
    }
}

/// Notes on each line, or on that with the node `only` alone, a look that found nothing.
fn note_silence(lines: &mut [Line], only: &Option<Node>)
    ensures looks { Looks (may_look only.now) lines.old Nothing lines.new }
    ensures same { AreSameLines lines.old lines.new }
{
    for line in lines.iter_mut() {
        if may_look(only, line.other()) {
            line.were_empty(1);
        }
    }
}

/// Notes on each line so many looks that found nothing, each made where [`are_silent`] said so, since a line was last
/// looked at by itself: no clause ties them to that.
pub fn note_silences(lines: &mut [Line], looks: u64)
    ensures { lines.new ≡ after_silences looks lines.old }
{
    if looks == 0 {
        return;
    }
    for line in lines.iter_mut() {
        line.were_empty(looks);
    }
}

/// Looks at each line by itself.
fn look_until_found<R: Wait>(
    rt: &R,
    lines: &mut [Line],
    only: &Option<Node>,
) -> Result<Found, Memory>
    ensures looks { IfOk result (λ found. Looks (may_look only.now) lines.old found lines.new) }
    ensures same { AreSameLines lines.old lines.new }
{
    let mut part = false;
    for line in lines.iter_mut() {
        if may_look(only, line.other()) {
            match line.look(rt)? {
                Found::Nothing => {}
                Found::Part => part = true,
                found => return Ok(found),
            }
        }
    }
    if part {
        Ok(Found::Part)
    } else {
        Ok(Found::Nothing)
    }
}
