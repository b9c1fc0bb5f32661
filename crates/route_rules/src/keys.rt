//! The leader gets a queue or a set by its key (POSIX.1-2017: msgget, semget).
ghost use Rattle.std.specs.Prelude.{◌≡◌, ℕ, OnOk, Some, None, false};
ghost use Rattle.std.specs.Option.{option_map};
ghost use Rattle.pico_base.specs.declared.numbers.Kind.TheVariants as kinds;
ghost use Rattle.pico_base.specs.declared.script.Script.{Script as Scripted};
ghost use Rattle.rpc_frame.specs.declared.asked.Asked.{Asked as AskedCall};
ghost use Rattle.kernel_model.specs.Script.{IsSoundScript};
ghost use Rattle.world_model.specs.Numbers.{take_number};
ghost use Rattle.world_model.specs.Keys.{find_set, get_by_key, get_queue, get_set, make_queue};
ghost use Rattle.node_state.specs.State.{node_of, step_of};
ghost use Rattle.node_state.specs.Turning.{Turns};
ghost use Rattle.route_rules.specs.Making.{create_sized, put_in_place};

use key_table::KeyAnswer;
use node_state::forms::is_bad_count;
use node_state::{Growing, TurnFault, unreached};
use number_rules::{may_take_number, new_queue, new_set, take_number};
use pico_base::{Call, Errno, Id, Key, Kind, Memory, Name, Reply, Script};
use rpc_frame::Asked;

/// A new queue or set is at this node, and the call is carried out with its number.
fn put_in_place(
    step: &mut Growing,
    script: &Script,
    asked: Asked,
    name: Name,
    number: u32,
) -> Result<(), Memory>
    requires sound { IsSoundScript script.now }
    ensures { OnOk result (step_of step.new ≡ put_in_place script.now (step_of step.old) asked name number) }
{
    let here = step.node.number();
    let _ = step.node.leader.directory.place(name, here)?;
    step.carry_out(script, asked, Reply::Num(number))
}

/// A new queue is made for the key.
fn make_queue(step: &mut Growing, script: &Script, asked: Asked, key: Key) -> Result<(), Memory>
    requires sound { IsSoundScript script.now }
    ensures { OnOk result
        (option_map (make_queue script.now (step_of step.old) asked key) (take_number (node_of step.old.node) kinds.Msg)
        ≡ Some (step_of step.new)) }
{
    let number = take_number(&mut step.node, Kind::Msg)?;
    let name = new_queue(&mut step.node, number)?;
    step.node.leader.bind_queue(key, Id(number))?;
    put_in_place(step, script, asked, name, number)
}

/// A new set of so many semaphores is made for the key. Memory, too, where that isn't a size of a set.
fn make_set(
    step: &mut Growing,
    script: &Script,
    asked: Asked,
    key: Key,
    count: u32,
) -> Result<(), Memory>
    requires sound { IsSoundScript script.now }
    ensures { OnOk result (create_sized script.now (step_of step.old) asked key count ≡ Some (step_of step.new)) }
{
    let number = take_number(&mut step.node, Kind::Sem)?;
    let name = new_set(&mut step.node, number, count)?;
    step.node.leader.bind_set(key, Id(number), count)?;
    put_in_place(step, script, asked, name, number)
}

/// A get of a queue, by what its key leads to.
fn get_queue(
    step: &mut Growing,
    script: &Script,
    asked: Asked,
    key: Key,
    answer: KeyAnswer,
) -> Result<(), Memory>
    requires sound { IsSoundScript script.now }
    ensures { OnOk result (get_queue script.now (step_of step.old) asked key answer ≡ Some (step_of step.new)) }
{
    match answer {
        KeyAnswer::Found { id, .. } => step.carry_out(script, asked, Reply::Num(id.0)),
        KeyAnswer::Create => make_queue(step, script, asked, key),
        KeyAnswer::Fail(errno) => step.carry_out(script, asked, Reply::Fail(errno)),
    }
}

/// What a get of a set that is there comes to.
fn find_set(id: Id, size: u32, count: u32) -> Reply
    ensures { result ≡ find_set id size count }
{
    if count == 0 || count <= size {
        Reply::Num(id.0)
    } else {
        Reply::Fail(Errno::Einval)
    }
}

/// A new set for the key, where it may have so many semaphores.
fn create_set(
    step: &mut Growing,
    script: &Script,
    asked: Asked,
    key: Key,
    count: u32,
) -> Result<(), Memory>
    requires sound { IsSoundScript script.now }
    ensures { OnOk result (create_sized script.now (step_of step.old) asked key count ≡ Some (step_of step.new)) }
{
    if is_bad_count(count) {
        step.carry_out(script, asked, Reply::Fail(Errno::Einval))
    } else {
        make_set(step, script, asked, key, count)
    }
}

/// A get of a set, by what its key leads to.
fn get_set(
    step: &mut Growing,
    script: &Script,
    asked: Asked,
    key: Key,
    count: u32,
    answer: KeyAnswer,
) -> Result<(), Memory>
    requires sound { IsSoundScript script.now }
    ensures { OnOk result (get_set script.now (step_of step.old) asked key count answer ≡ Some (step_of step.new)) }
{
    match answer {
        KeyAnswer::Found { id, count: size } => {
            step.carry_out(script, asked, find_set(id, size, count))
        }
        KeyAnswer::Create => create_set(step, script, asked, key, count),
        KeyAnswer::Fail(errno) => step.carry_out(script, asked, Reply::Fail(errno)),
    }
}

/// Whether a get of a queue can be carried out: a new queue needs a number.
fn may_get_queue(step: &Growing, answer: KeyAnswer) -> bool
    ensures { (script : Scripted) (asked : AskedCall) (key : ℕ) → result ≡ false
        → get_queue script (step_of step.now) asked key answer ≡ None }
{
    match answer {
        KeyAnswer::Create => may_take_number(&step.node, Kind::Msg),
        _ => true,
    }
}

/// Whether a get of a set can be carried out: a new set needs a number.
fn may_get_set(step: &Growing, count: u32, answer: KeyAnswer) -> bool
    ensures { (script : Scripted) (asked : AskedCall) (key : ℕ) → result ≡ false
        → get_set script (step_of step.now) asked key count answer ≡ None }
{
    match answer {
        KeyAnswer::Create => is_bad_count(count) || may_take_number(&step.node, Kind::Sem),
        _ => true,
    }
}

/// A get of a queue, by what its key leads to, where it can be carried out.
fn get_queue_if(
    step: &mut Growing,
    script: &Script,
    asked: Asked,
    key: Key,
    answer: KeyAnswer,
) -> Result<(), TurnFault>
    requires sound { IsSoundScript script.now }
    ensures { Turns (get_queue script.now (step_of step.old) asked key answer) step.old step.new result }
{
    if !may_get_queue(step, answer) {
        return Err(TurnFault::NotAllowed);
    }
    Ok(get_queue(step, script, asked, key, answer)?)
}

/// A get of a set, by what its key leads to, where it can be carried out.
fn get_set_if(
    step: &mut Growing,
    script: &Script,
    asked: Asked,
    key: Key,
    count: u32,
    answer: KeyAnswer,
) -> Result<(), TurnFault>
    requires sound { IsSoundScript script.now }
    ensures { Turns (get_set script.now (step_of step.old) asked key count answer) step.old step.new result }
{
    if !may_get_set(step, count, answer) {
        return Err(TurnFault::NotAllowed);
    }
    Ok(get_set(step, script, asked, key, count, answer)?)
}

/// A get by a key, where it can be carried out: the key is looked up once.
pub(crate) fn get_by_key_if(
    step: &mut Growing,
    script: &Script,
    asked: Asked,
) -> Result<(), TurnFault>
    requires sound { IsSoundScript script.now }
    ensures { Turns (get_by_key script.now (step_of step.old) asked asked.call) step.old step.new result }
{
    match &asked.call {
        Call::MsgGet {
            key: Some(key),
            create,
            excl,
        } => {
            let key = *key;
            let answer = step.node.leader.queue_answer(key, *create, *excl);
            get_queue_if(step, script, asked, key, answer)
        }
        Call::SemGet {
            key: Some(key),
            count,
            create,
            excl,
        } => {
            let key = *key;
            let count = *count;
            let answer = step.node.leader.set_answer(key, *create, *excl);
            get_set_if(step, script, asked, key, count, answer)
        }
        _ => Err(TurnFault::NotAllowed),
    }
}

/// Whether the leader can carry out a get by a key.
pub(crate) fn may_get_by_key(step: &Growing, call: &Call) -> bool
    ensures { (script : Scripted) (asked : AskedCall) → result ≡ false
        → get_by_key script (step_of step.now) asked call.now ≡ None }
{
    match call {
        Call::MsgGet {
            key: Some(key),
            create,
            excl,
        } => {
            let answer = step.node.leader.queue_answer(*key, *create, *excl);
            may_get_queue(step, answer)
        }
        Call::SemGet {
            key: Some(key),
            count,
            create,
            excl,
        } => {
            let answer = step.node.leader.set_answer(*key, *create, *excl);
            may_get_set(step, *count, answer)
        }
        _ => false,
    }
}

/// A get by a key. Memory, too, where the call isn't one, or there is no number to give.
pub(crate) fn get_by_key(step: &mut Growing, script: &Script, asked: Asked) -> Result<(), Memory>
    requires sound { IsSoundScript script.now }
    ensures { OnOk result (get_by_key script.now (step_of step.old) asked asked.call ≡ Some (step_of step.new)) }
{
    match &asked.call {
        Call::MsgGet {
            key: Some(key),
            create,
            excl,
        } => {
            let key = *key;
            let answer = step.node.leader.queue_answer(key, *create, *excl);
            get_queue(step, script, asked, key, answer)
        }
        Call::SemGet {
            key: Some(key),
            count,
            create,
            excl,
        } => {
            let key = *key;
            let count = *count;
            let answer = step.node.leader.set_answer(key, *create, *excl);
            get_set(step, script, asked, key, count, answer)
        }
        _ => Err(unreached()),
    }
}
