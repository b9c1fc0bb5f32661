//! Where the processes of a history are in their blocks of the given script.

ghost use Rattle.std.specs.Prelude.{◌≡◌, fold, Some, IfOk, OnOk};
ghost use Rattle.std.specs.Option.{option_copied};
ghost use Rattle.number_maps.specs.Maps.{get};
ghost use Rattle.kernel_model.specs.Fitting as fitting;
ghost use Rattle.waiting_model.specs.Fitting as waiting;
ghost use Rattle.mq_model.specs.Shown as shown;
ghost use Rattle.posix_mq.specs.Followed as followed;

use crate::progress::Progress;
use number_table::Table;
use pico_base::{Block, Call, Entry, Memory, Node, Pid, Reply, Script};
use std::alloc::Global;

/// The processes that were forked, and process 1, by number.
pub(crate) type Places = Table<Progress>;

/// The block of a node.
fn block_of(script: &Script, node: Node) -> Option<&Block>
    ensures { option_copied result ≡ fitting.block_at script.now node }
{
    script.blocks.as_slice().get(node.0 as usize - 1)
}

/// Before the first entry.
pub(crate) fn opening(alloc: Global, script: &Script) -> Result<Places, Memory>
    ensures { IfOk result (λ places. places.entries ≡ waiting.opening_places script.now) }
{
    let first = Progress::new(alloc, block_of(script, Node(1)), Table::new(alloc))?;
    let mut places = Table::new(alloc);
    places.insert(1, first)?;
    Ok(places)
}

/// The call of the given script that is due for a process.
pub(crate) fn due_in(alloc: Global, places: &Places, pid: Pid) -> Result<Option<Call>, Memory>
    ensures { IfOk result (λ call. call ≡ shown.due_in (get places.now.entries pid)) }
{
    match places.get(pid.0) {
        Some(progress) => progress.due(alloc),
        None => Ok(None),
    }
}

/// The process that a call of this one forks with this reply.
fn forked_by(
    alloc: Global,
    script: &Script,
    parent: &Progress,
    call: &Call,
    own: &Option<Reply>,
) -> Result<Option<(Pid, Progress)>, Memory>
    ensures { IfOk result
        (λ child. child ≡ followed.forked_by script.now parent.now.place call.now own.now) }
{
    let Call::Fork { block } = call else {
        return Ok(None);
    };
    let Some(Reply::Num(child)) = own else {
        return Ok(None);
    };
    let vars = parent.child_vars(alloc)?;
    let progress = Progress::new(alloc, block_of(script, *block), vars)?;
    Ok(Some((Pid(*child), progress)))
}

/// The process of this number goes on, where it is there.
fn move_at(
    alloc: Global,
    places: &mut Places,
    pid: Pid,
    call: &Call,
    own: &Option<Reply>,
) -> Result<(), Memory>
    ensures { OnOk result (places.new.entries
        ≡ followed.moved_at places.old.entries pid call.now own.now (get places.old.entries pid)) }
{
    match places.find(pid.0) {
        Some(place) => places.value_mut(pid.0, place).goes_on(alloc, call, own),
        None => Ok(()),
    }
}

/// One who is woken goes on with its reply.
fn wake(alloc: Global, places: &mut Places, pid: Pid, reply: &Reply) -> Result<(), Memory>
    ensures { OnOk result
        (places.new.entries ≡ waiting.after_woken places.old.entries (pid, reply.now)) }
{
    match places.find(pid.0) {
        Some(place) => places.value_mut(pid.0, place).wakes(alloc, reply),
        None => Ok(()),
    }
}

/// All who are woken go on.
fn wake_all(alloc: Global, places: &mut Places, woken: &[(Pid, Reply)]) -> Result<(), Memory>
    ensures { OnOk result
        (places.new.entries ≡ fold waiting.after_woken places.old.entries woken.now) }
{
    for (pid, reply) in woken {
        wake(alloc, places, *pid, reply)?;
    }
    Ok(())
}

/// A forked process begins.
fn begin(places: &mut Places, forked: Option<(Pid, Progress)>) -> Result<(), Memory>
    ensures { OnOk result (places.new.entries ≡ followed.with_forked places.old.entries forked) }
{
    match forked {
        Some((child, progress)) => places.insert(child.0, progress),
        None => Ok(()),
    }
}

/// Behind an entry. That of a process that isn't there changes nothing.
pub(crate) fn pass(
    alloc: Global,
    script: &Script,
    places: &mut Places,
    entry: &Entry,
) -> Result<(), Memory>
    ensures { OnOk result (places.new.entries
        ≡ shown.places_behind script.now places.old.entries entry.now
        (get places.old.entries entry.now.pid)) }
{
    let (call, own) = (&entry.call, &entry.outcome.own);
    let Some(parent) = places.get(entry.pid.0) else {
        return Ok(());
    };
    let forked = forked_by(alloc, script, parent, call, own)?;
    move_at(alloc, places, entry.pid, call, own)?;
    begin(places, forked)?;
    wake_all(alloc, places, entry.outcome.woken.as_slice())
}
