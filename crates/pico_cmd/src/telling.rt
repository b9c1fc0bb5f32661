//! What is told of a run as it goes on, so that its world needn't keep the whole journal.
ghost use Rattle.std.specs.Prelude.{◌≡◌, ◌++◌, true, false, List, [], IfOk, OnOk, IfSome, IsSome};
ghost use Rattle.pico_base.specs.declared.reply.Entry.{Entry as EntryValue};
ghost use Rattle.pico_base.specs.declared.script.Script.{Script as ScriptValue};
ghost use Rattle.kernel_model.specs.Trace.{totals_line};
ghost use Rattle.world_model.specs.World.{World as MachineWorld};
ghost use Rattle.pico_cmd.specs.Telling.{MakeUp, Tells, lines_if};

use pico_base::{Bytes, Entry, Memory, Script};
use std::alloc::Global;
use trace_text::{Tally, push_entries, push_tally};
use world_core::StreamingWorld;

// How many entries a world keeps at most before they are told: so few that they are told, and their memory is used
// again, while it is near to the processor.
const AT_ONCE: usize = 16;

/// What was told so far of a history: the text of its lines, where they are wanted, and what the totals count.
#[derive(Drop)]
pub struct Telling {
    pub lines: bool,
    pub text: Vec<u8>,
    pub tally: Tally,
}

impl Telling {
    /// Nothing is told yet, and lines are wanted. Their text stands in the memory of bytes that are no longer wanted: a
    /// page that is touched first costs more than one that was used before.
    pub fn of_lines(used: Bytes) -> Telling
        ensures wanted { result.lines ≡ true }
        ensures tells { (script : ScriptValue) → Tells script [] result }
    {
        let mut text = used.into_vec();
        text.clear();
        Telling {
            lines: true,
            text,
            tally: Tally::new(),
        }
    }

    /// Nothing is told yet, and no lines are wanted.
    pub fn of_totals(alloc: Global) -> Telling
        ensures wanted { result.lines ≡ false }
        ensures tells { (script : ScriptValue) → Tells script [] result }
    {
        Telling {
            lines: false,
            text: Vec::new(alloc),
            tally: Tally::new(),
        }
    }

    // Adds the lines of these entries, where they are wanted.
    fn add_lines(&mut self, script: &Script, entries: &[Entry]) -> Result<(), Memory>
        ensures text { OnOk result
            (self.new.text.items ≡ self.old.text.items ++ lines_if self.old.lines script.now entries.now) }
        ensures lines { self.new.lines ≡ self.old.lines }
        ensures tally { self.new.tally ≡ self.old.tally }
    {
        if self.lines {
            push_entries(&mut self.text, script, entries)?;
        }
        Ok(())
    }

    /// Tells further entries.
    pub fn tell(&mut self, script: &Script, entries: &[Entry]) -> Result<(), Memory>
        ensures tells { (told : List EntryValue) → Tells script.now told self.old
            → OnOk result (Tells script.now (told ++ entries.now) self.new) }
        ensures lines { self.new.lines ≡ self.old.lines }
    {
        self.add_lines(script, entries)?;
        self.tally.add(entries)
    }

    /// The text of the lines, where they are wanted, and of the totals line.
    pub fn finish(self) -> Result<Bytes, Memory>
        ensures { (script : ScriptValue) (history : List EntryValue) → Tells script history self
            → IfOk result (λ text. text ≡ lines_if self.lines script history ++ totals_line history) }
    {
        let Telling {
            mut text,
            tally,
            ..
        } = self;
        push_tally(&mut text, &tally)?;
        Ok(Bytes::from_vec(text))
    }
}

/// Tells all that the world keeps, and has it let go.
#[inline(always)]
pub fn tell_all(telling: &mut Telling, world: &mut StreamingWorld) -> Result<(), Memory>
    requires { IsSome world.old }
    ensures told { (whole : MachineWorld) → MakeUp whole telling.old world.old
        → OnOk result (MakeUp whole telling.new world.new) }
    ensures let_go { OnOk result (IfSome world.new (λ w. w.journal ≡ [])) }
    ensures lines { telling.new.lines ≡ telling.old.lines }
{
    telling.tell(world.script(), world.recent().as_slice())?;
    world.let_go();
    Ok(())
}

/// Tells what the world keeps where that is much.
#[inline(always)]
pub fn tell_if_much(telling: &mut Telling, world: &mut StreamingWorld) -> Result<(), Memory>
    requires { IsSome world.old }
    ensures told { (whole : MachineWorld) → MakeUp whole telling.old world.old
        → OnOk result (MakeUp whole telling.new world.new) }
    ensures lines { telling.new.lines ≡ telling.old.lines }
{
    if world.recent().len() < AT_ONCE {
        return Ok(());
    }
    tell_all(telling, world)
}
