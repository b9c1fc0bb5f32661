//! The watches over what a node holds.
ghost use Rattle.std.specs.Prelude.{◌≡◌, IfOk, OnOk, unwrap_or};
ghost use Rattle.number_maps.specs.Maps.{get, put, without};
ghost use Rattle.migrate.specs.Watching.{move_at, watching_after, watching_anew};
ghost use Rattle.node_model.specs.Kinds.{none_named};
ghost use Rattle.node_model.specs.Watches.{moves_to, unwatch, with_read};

use migrate::Watch;
use pico_base::{Memory, Name, Node};
use std::alloc::Global;
use std::collections::BTreeMap;
use std::marker::Model;

/// The watches over the names of one kind, by number.
type ByNumber = BTreeMap<u32, Watch>;

/// Who reads the names that a node holds, which says when a name moves to another node. A name without a watch has been
/// read by nobody since this node owns it.
#[derive(Drop)]
pub struct Watches {
    processes: ByNumber,
    queues: ByNumber,
    sets: ByNumber,
}

impl Model for Watches {
    ghost use Rattle.node_model.specs.Watches.{Watches as WatchesValue};

    ghost Value = { WatchesValue };

    ghost view = { λ w. record {
      processes = w.processes.entries;
      queues = w.queues.entries;
      sets = w.sets.entries;
    } };
}

/// A node reads the name of this number. The node to which the name moves then.
#[inline(always)]
fn note(
    watches: &mut ByNumber,
    number: u32,
    owner: Node,
    reader: Node,
) -> Result<Option<Node>, Memory>
    ensures moves { IfOk result (λ to.
        to ≡ move_at (unwrap_or (get watches.old.entries number) (watching_anew owner)) reader) }
    ensures noted { OnOk result (watches.new.entries ≡ put watches.old.entries number
        (watching_after (unwrap_or (get watches.old.entries number) (watching_anew owner)) reader)) }
{
    match watches.get_mut(&number) {
        Some(watch) => Ok(watch.note(reader)),
        None => note_first(watches, number, owner, reader),
    }
}

/// A node reads the name of this number, which nobody has read yet.
fn note_first(
    watches: &mut ByNumber,
    number: u32,
    owner: Node,
    reader: Node,
) -> Result<Option<Node>, Memory>
    ensures moves { IfOk result (λ to. to ≡ move_at (watching_anew owner) reader) }
    ensures noted { OnOk result (watches.new.entries
        ≡ put watches.old.entries number (watching_after (watching_anew owner) reader)) }
{
    let mut watch = Watch::new(owner);
    let to = watch.note(reader);
    watches.insert(number, watch)?;
    Ok(to)
}

/// The name of this number has no watch any more.
fn forget(watches: &mut ByNumber, number: u32)
    ensures { watches.new.entries ≡ without watches.old.entries number }
{
    // The length is asked because its clauses say that the numbers rise before the removal; those of the removal say
    // so only of what is left.
    let _ = watches.len();
    let _ = watches.remove(&number);
}

impl Watches {
    /// No watches. It takes no memory.
    pub fn new(alloc: Global) -> Watches
        ensures { result ≡ none_named }
    {
        Watches {
            processes: BTreeMap::new(alloc),
            queues: BTreeMap::new(alloc),
            sets: BTreeMap::new(alloc),
        }
    }

    /// A node reads a name that this node owns. The node to which the name moves then. Where memory is refused the node
    /// is spent, and nothing is said of what is left.
    pub fn read(&mut self, owner: Node, name: Name, reader: Node) -> Result<Option<Node>, Memory>
        ensures moves { IfOk result (λ to. to ≡ moves_to self.old owner name reader) }
        ensures noted { OnOk result (self.new ≡ with_read self.old owner name reader) }
    {
        match name {
            Name::Proc(pid) => note(&mut self.processes, pid.0, owner, reader),
            Name::Msg(id) => note(&mut self.queues, id.0, owner, reader),
            Name::Sem(id) => note(&mut self.sets, id.0, owner, reader),
        }
    }

    /// The name's deed goes away, and its watch with it.
    pub fn unwatch(&mut self, name: Name)
        ensures { self.new ≡ unwatch self.old name }
    {
        match name {
            Name::Proc(pid) => forget(&mut self.processes, pid.0),
            Name::Msg(id) => forget(&mut self.queues, id.0),
            Name::Sem(id) => forget(&mut self.sets, id.0),
        }
    }
}
