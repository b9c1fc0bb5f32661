//! The known runs are played, all by one function: what owns a world does nothing else, so that its proof stays small.
ghost use Rattle.std.specs.Prelude.{◌≡◌, Some, OnOk, IfOk, IfSome, IsSome};
ghost use Rattle.std.specs.Option.{option_map};
ghost use Rattle.kernel_model.specs.Script.{IsSoundScript};
ghost use Rattle.world_model.specs.World.{opening_world};
ghost use Rattle.world_model.specs.Example.{after_events};

mod rows;

use pico_base::{Event, Memory, Node, Script};
use rows::{DRAWN, Drawn, ROWS, Row};
use script_reader::read_script;
use std::alloc::Global;
use std::test::Fail;
use trace_text::write_trace;
use world_core::World;

/// The world of a script after these events, one after another; none where one of them may not come when it comes. An
/// `Err` says that an allocation was refused.
fn play(alloc: Global, script: Script, events: &[Event]) -> Result<Option<World>, Memory>
    requires sound { IsSoundScript script }
    ensures world { IfOk result
        (λ played. played ≡ option_map Some (after_events (opening_world script) events.now)) }
    ensures whole { IfOk result (λ played. IfSome played IsSome) }
{
    let mut world = World::start(alloc, script)?;
    for event in events {
        if !world.enabled(*event) {
            return Ok(None);
        }
        world.step(*event)?;
    }
    Ok(Some(world))
}

fn node_of(word: &str) -> Option<Node> {
    let number: u8 = word.parse().ok()?;
    if number == 0 || number > 32 {
        return None;
    }
    Some(Node(number))
}

fn event_of(word: &str) -> Option<Event> {
    match word.split_once('<') {
        Some((node, from)) => Some(Event::Take {
            node: node_of(node)?,
            from: node_of(from)?,
        }),
        None => Some(Event::Run(node_of(word)?)),
    }
}

fn events_of(alloc: Global, words: &str) -> Result<Vec<Event>, Fail> {
    let mut events = Vec::new(alloc);
    for word in words.split_whitespace() {
        events.push(event_of(word).ok_or("a word that is no event")?)?;
    }
    Ok(events)
}

fn trace_of(alloc: Global, world: &World) -> Result<String, Memory>
    requires { IsSome world.now }
{
    let trace = write_trace(alloc, world.script(), world.journal())?;
    Ok(String::from_utf8_lossy(alloc, trace.as_slice())?)
}

// The trace that the events of the row leave, whether no event may come then, and whether a process waits for good
// then; in place of a trace it is said where one of them may not come when it comes.
fn trace_after(alloc: Global, row: &Row) -> Result<(String, bool, bool), Fail> {
    let script = read_script(alloc, row.script.as_bytes())?;
    let events = events_of(alloc, row.events)?;
    let Some(world) = play(alloc, script, &events)? else {
        return Ok(("an event may not come".to_string(alloc)?, false, false));
    };
    let rests = world.at_rest();
    Ok((trace_of(alloc, &world)?, rests, rests && world.is_stalled()))
}

// Carries out an event that may come next.
fn carry_out(world: &mut World, event: &Event) -> Result<bool, Memory>
    requires { IsSome world.old }
    ensures { OnOk result (IsSome world.new) }
{
    if world.enabled(*event) {
        world.step(*event)?;
        return Ok(true);
    }
    Ok(false)
}

// Carries out the event that this number chooses, and says whether there is one.
fn turn(world: &mut World, number: u64) -> Result<bool, Memory>
    requires { IsSome world.old }
    ensures { OnOk result (IsSome world.new) }
{
    let count = u64::from(world.count());
    if count == 0 {
        return Ok(false);
    }
    match world.nth((number % count) as u32) {
        Some(event) => carry_out(world, &event),
        None => Ok(false),
    }
}

// Chooses events by numbers drawn from this one on, until no event may come.
fn run_drawn(world: &mut World, seed: u32) -> Result<(), Memory>
    requires { IsSome world.old }
    ensures { OnOk result (IsSome world.new) }
{
    let mut drawn = u64::from(seed);
    for _ in 0..1000 {
        drawn = 48_271 * (drawn % 2_147_483_647) % 2_147_483_647;
        if !turn(world, drawn)? {
            break;
        }
    }
    Ok(())
}

// The lines that have this word.
fn lines_with(alloc: Global, text: &str, word: &str) -> Result<String, Memory> {
    let mut found = String::new(alloc);
    for line in text.lines() {
        if line.contains(word) {
            found.push_str(line)?;
            found.push('\n')?;
        }
    }
    Ok(found)
}

// The lines of the trace that have the row's word, once the script has come to rest by the numbers drawn from this one
// on; none where it doesn't.
fn lines_at_rest(alloc: Global, row: &Drawn, seed: u32) -> Result<Option<String>, Fail> {
    let mut world = World::start(alloc, read_script(alloc, row.script.as_bytes())?)?;
    run_drawn(&mut world, seed)?;
    if !world.at_rest() {
        return Ok(None);
    }
    let trace = trace_of(alloc, &world)?;
    Ok(Some(lines_with(alloc, trace.as_str(), row.word)?))
}

#[test]
fn known_runs_leave_their_traces(rt: HostRuntime) -> Result<(), Fail> {
    for row in &ROWS {
        let (trace, rests, stalled) = trace_after(rt.alloc(), row)?;
        assert!(rt; trace.as_str() == row.trace, "{}", row.name);
        assert!(rt; rests == row.rests, "{}", row.name);
        assert!(rt; stalled == row.stalled, "{}", row.name);
    }
    Ok(())
}

#[test]
fn schedules_leave_the_same_lines(rt: HostRuntime) -> Result<(), Fail> {
    for row in &DRAWN {
        for seed in 1..=row.seeds {
            let lines = lines_at_rest(rt.alloc(), row, seed)?.ok_or("it doesn't come to rest")?;
            assert!(rt; lines.as_str() == row.lines, "by {seed}");
        }
    }
    Ok(())
}
