//! A trace's verdict.
ghost use Rattle.std.specs.Prelude.{◌≡◌, ◌⊎◌, ◌≤◌, ◌<◌, ◌^◌, ◌∷◌, [], List, length, IfOk, Ok, Err};
ghost use Rattle.pico_base.specs.declared.reply.Entry.{Entry as EntryValue};
ghost use Rattle.kernel_model.specs.Script.{IsSoundScript};
ghost use Rattle.waiting_model.specs.Kernel.{opening};
ghost use Rattle.trace_text.specs.Totals.{tally_of};
ghost use Rattle.trace_check.specs.Cursors.{beginning};
ghost use Rattle.trace_check.specs.FirstFault.{CountsLegal, Gives, IsLegalTrace, verdict_of};

use crate::judge::Judge;
use pico_base::Script;
use std::alloc::Global;
use trace_text::{CheckFault, MAX_TRACE, fits, next_line};
use waiting_laws::{entries_move_marks, entries_wake_rightly};

/// The bytes are the text, with any nodes, of a history that is legal and fits the script whole.
#[derive(Clone, Copy, Debug, PartialEq, Eq)]
pub struct Legal {
    /// How many entries the history has, at most 67,108,863.
    pub entries: u32,
}

/// Judges the lines in order, up to the first fault.
fn judge_lines(
    judge: &mut Judge,
    scratch: &mut Vec<u8>,
    script: &Script,
    bytes: &[u8],
    first_line: u32,
) -> Result<Legal, CheckFault>
    requires sound { IsSoundScript script.now }
    requires first { first_line < 2 ^ 31 }
    requires kernel { judge.old.kernel ≡ opening }
    requires cursors { judge.old.cursors.entries ≡ (1, beginning 1 []) ∷ [] }
    requires tally { judge.old.tally ≡ tally_of [] }
    ensures { Gives result (verdict_of script.now bytes.now first_line) }
{
    let mut rest = bytes;
    let mut left = MAX_TRACE;
    let mut line = first_line;
    for _ in 0..bytes.len() {
        let Some((text, after)) = next_line(rest) else {
            return Err(CheckFault::NotATrace { line });
        };
        if !fits(left, text) {
            return Err(CheckFault::NotATrace { line });
        }
        if judge.is_totals(text, scratch)? {
            return judge.totals(script, line, line - first_line, after);
        }
        if !judge.line(script, line, text, scratch)? {
            return Err(judge.fault());
        }
        left -= text.len() + 1;
        line += 1;
        rest = after;
    }
    Err(CheckFault::NotATrace { line })
}

/// Judges the lines from the opening on.
fn judge(alloc: Global, script: &Script, bytes: &[u8], first_line: u32) -> Result<Legal, CheckFault>
    requires sound { IsSoundScript script.now }
    requires first { first_line < 2 ^ 31 }
    ensures { Gives result (verdict_of script.now bytes.now first_line) }
{
    let mut judge = Judge::new(alloc)?;
    let mut scratch = Vec::new(alloc);
    judge_lines(&mut judge, &mut scratch, script, bytes, first_line)
}

/// Judges the bytes of a trace of a script, whose first line has the number `first_line`. Legal comes exactly where the
/// bytes are the text, with any nodes, of a history that is legal and fits the script whole, within the limits of a
/// trace. Else the first fault comes, in the order of the lines and, on one line, in this order:
///
/// 1. `NotATrace`: the line is none of a trace, or has other totals; or a line follows the totals; or a limit is
///    passed; or the bytes end before the totals, at the line behind the last one.
/// 2. `NotTheScript`: the process was not forked, or has ended, or another call is due; or, at the totals, a process
///    has neither ended nor waits, of which that of the smallest number is named. A process that waits has its
///    withdrawal due, from where it waits. One that was doomed, and has had the entry that it may still have, has its
///    end due. In place of the script's call the end by any signal may stand.
/// 3. `Illegal`: the kernel has no transition there, or another outcome: another reply, or other callers that are
/// woken,
///    or with other replies, or in another order.
///
/// `Memory` comes where an allocation was refused.
pub fn check_trace(
    alloc: Global,
    script: &Script,
    bytes: &[u8],
    first_line: u32,
) -> Result<Legal, CheckFault>
    requires sound { IsSoundScript script.now }
    requires some { 1 ≤ first_line }
    requires first { first_line < 2 ^ 31 }
    ensures gives { Gives result (verdict_of script.now bytes.now first_line) }
    // What is legal is the text of a legal history that fits whole, and each such text is legal.
    ensures legal { IfOk result (λ legal. CountsLegal script.now bytes.now legal.entries) }
    ensures only { (history : List EntryValue) → IsLegalTrace script.now bytes.now history
        → (result ≡ Ok (record { entries = length history })) ⊎ (result ≡ Err CheckFault.Memory) }
{
    // Laws of the kernel by which a legal trace is judged to be one.
    entries_move_marks();
    entries_wake_rightly();
    judge(alloc, script, bytes, first_line)
}
