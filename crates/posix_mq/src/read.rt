//! A script of POSIX message queues, line after line.

ghost use Rattle.std.specs.Prelude.{◌≡◌, ◌⊎◌, ◌≤◌, ℕ, IfOk, IfErr, Ok, Err, length};
ghost use Rattle.pico_base.specs.declared.script.Script.{Script as ScriptValue};
ghost use Rattle.script_reader.specs.declared.fault.ScriptFault.{ScriptFault as FaultValue};
ghost use Rattle.kernel_model.specs.Script.{IsSoundScript};
ghost use Rattle.script_reader.specs.Words.{lines_of};
ghost use Rattle.script_reader.specs.Fault as spec;
ghost use Rattle.mq_model.specs.Reading as reading;
ghost use Rattle.mq_model.specs.Reading.{HasFault, IsFirstFault, Reads};
ghost use Rattle.mq_model.specs.Given.{IsGiven};
ghost use Rattle.mq_model.specs.Lines.{script_given};
ghost use Rattle.mq_model.specs.SystemV.{system_v};
ghost use Rattle.posix_mq.specs.Given.{given_in};

use crate::says::read_mq_line;
use crate::script::MqScript;
use pico_base::{Blocks, Script};
use script_reader::{
    MAX_BYTES, Names, Place, Said, ScriptFault, ScriptStop, block_names, ending, fault_of,
    line_of_byte, next_line, valid_len,
};
use std::alloc::Global;

/// The blocks of a text in which the blocks have these names.
fn blocks_with(alloc: Global, names: &Names, text: &[u8]) -> Result<Blocks, ScriptStop>
    requires { length text.now ≤ 1048576 }
    ensures { spec.GivesBlocks result
        (reading.mq_blocks_from names.now (spec.start (length names.now)) 1 (lines_of text.now)) }
{
    let mut place = Place::new(alloc, names.len())?;
    let mut words = Vec::new(alloc);
    let mut rest = text;
    let mut number: u32 = 1;
    while let Some((bytes, after)) = next_line(rest) {
        let mut said = Said::Skipped;
        read_mq_line(alloc, names, &mut words, bytes, &mut said)?;
        if let Some(fault) = fault_of(&place, bytes.len(), &said) {
            return Err(ScriptStop::At {
                line: number,
                fault,
            });
        }
        place.go_behind(alloc, said)?;
        rest = after;
        number += 1;
    }
    ending(place, number)
}

/// A fault at the line of the byte behind so many.
fn at_byte(count: usize, bytes: &[u8], fault: ScriptFault) -> ScriptStop
    requires small { count ≤ 1048576 }
    requires within { count ≤ length bytes.now }
    ensures { result ≡ ScriptStop.At (spec.line_behind count bytes.now) fault }
{
    ScriptStop::At {
        line: line_of_byte(count, bytes),
        fault,
    }
}

/// A given script of at most 1,048,576 bytes.
#[tactic(auto, unfolding(mq_model::specs::Reading::mq_blocks_of))]
fn short_given(alloc: Global, bytes: &[u8]) -> Result<Script, ScriptStop>
    requires { length bytes.now ≤ 1048576 }
    ensures { spec.Gives result (spec.script_from (reading.mq_blocks_of (lines_of bytes.now))) }
{
    let names = block_names(alloc, bytes)?;
    let blocks = blocks_with(alloc, &names, bytes)?;
    Ok(Script { blocks })
}

/// The outcome of the whole text.
#[tactic(auto, unfolding(mq_model::specs::Reading::outcome))]
fn outcome_of(alloc: Global, bytes: &[u8]) -> Result<Script, ScriptStop>
    ensures { spec.Gives result (reading.outcome bytes.now) }
{
    if bytes.len() > MAX_BYTES {
        return Err(at_byte(MAX_BYTES, bytes, ScriptFault::ScriptTooLong));
    }
    let valid = valid_len(bytes);
    if valid < bytes.len() {
        return Err(at_byte(valid, bytes, ScriptFault::NotUtf8));
    }
    short_given(alloc, bytes)
}

/// The given script that the bytes are the text of: its calls on queues are in System V's words.
fn read_given(alloc: Global, bytes: &[u8]) -> Result<Script, ScriptStop>
    ensures ok { IfOk result (Reads bytes.now) }
    ensures sound { IfOk result IsSoundScript }
    ensures sound_script { IfOk result (λ given. IsSoundScript (system_v given)) }
    ensures is_given { IfOk result IsGiven }
    ensures fault { IfErr result (HasFault bytes.now) }
    ensures only { (given : ScriptValue) → Reads bytes.now given → (result ≡ Ok given)
        ⊎ (result ≡ Err ScriptStop.Memory) }
    ensures only_fault { (line : ℕ) (fault : FaultValue) → IsFirstFault bytes.now line fault
        → (result ≡ Err (ScriptStop.At line fault)) ⊎ (result ≡ Err ScriptStop.Memory) }
{
    outcome_of(alloc, bytes)
}

/// The script that the bytes are the text of, with the calls of POSIX message queues in place of System V's: the
/// script of System V that runs it, and the given call of each line. A fault is the first one, as `read_script` has it.
pub fn read_mq(alloc: Global, bytes: &[u8]) -> Result<MqScript, ScriptStop>
    // The bytes are the text of what is read, and it is run as it should be.
    ensures ok { IfOk result (λ read. Reads bytes.now (script_given read.script read.lines)) }
    ensures runs { IfOk result (λ read. read.script ≡ system_v (script_given read.script read.lines)) }
    ensures lines { IfOk result (λ read. read.lines ≡ given_in (script_given read.script read.lines)) }
    ensures sound { IfOk result (λ read. IsSoundScript (script_given read.script read.lines)) }
    ensures sound_script { IfOk result (λ read. IsSoundScript read.script) }
    ensures is_given { IfOk result (λ read. IsGiven (script_given read.script read.lines)) }
    // A fault is the first one.
    ensures fault { IfErr result (HasFault bytes.now) }
    // A text of a script is read, and one with a fault is refused for it, unless memory runs out.
    ensures only { (given : ScriptValue) → Reads bytes.now given
        → IfOk result (λ read. (script_given read.script read.lines ≡ given) × (read.script ≡ system_v given))
        × IfErr result (λ stop. stop ≡ ScriptStop.Memory) }
    ensures only_fault { (line : ℕ) (fault : FaultValue) → IsFirstFault bytes.now line fault
        → (result ≡ Err (ScriptStop.At line fault)) ⊎ (result ≡ Err ScriptStop.Memory) }
{
    let given = read_given(alloc, bytes)?;
    Ok(MqScript::of(alloc, &given)?)
}
