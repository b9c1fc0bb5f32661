//! What the leader has besides.
ghost use Rattle.std.specs.Prelude.{◌≡◌, IfOk, IsTrue, None, OnOk, is_some};
ghost use Rattle.std.specs.FinMap as map;
ghost use Rattle.number_maps.specs.Maps.{get};
ghost use Rattle.key_table.specs.KeyMap.{key_answer};
ghost use Rattle.world_model.specs.Keys.{bind, without_key};
ghost use Rattle.world_model.specs.Moves.{is_at};
ghost use Rattle.world_model.specs.Node.{opening_leader};
ghost use Rattle.node_model.specs.Directory.{arrive, is_coming, is_known, place_of, recall};
ghost use Rattle.lease_leader.specs.Places.{is_at as is_placed};
ghost use Rattle.node_state.specs.Keys.{bindings};
ghost use Rattle.node_state.specs.Leader.{leader_of};

use crate::fault::unreached;
use key_table::{KeyAnswer, Keys};
use lease_leader::Directory;
use node_model::Route;
use pico_base::{Id, Key, Memory, Name, Node};
use std::alloc::Global;

/// The directory, and the keys of queues and of sets.
#[derive(Drop)]
pub struct Leader {
    pub directory: Directory,
    pub queue_keys: Keys,
    pub set_keys: Keys,
}

/// The deed of a name that is at a node is on its way.
fn recall(directory: &mut Directory, name: &Name)
    requires { IsTrue (is_placed directory.old name.now) }
    ensures { directory.new ≡ recall directory.old name.now None }
{
    directory.recall(*name, None)
}

/// A name that is on its way is at this node.
fn arrive(directory: &mut Directory, name: &Name, node: Node)
    requires { IsTrue (is_coming directory.old name.now) }
    ensures { directory.new ≡ arrive directory.old name.now node }
{
    let _ = directory.arrive(*name, node);
}

/// Whether the key is bound.
fn is_bound(keys: &Keys, key: Key) -> bool
    ensures { result ≡ is_some (map.get keys.now key) }
{
    !matches!(keys.get(key, true, true), KeyAnswer::Create)
}

/// The key leads to the queue, or to the set of so many semaphores. Memory, too, where the key is bound, or another key
/// leads there.
fn bind(keys: &mut Keys, key: Key, id: Id, count: u32) -> Result<(), Memory>
    ensures { OnOk result (bindings keys.new ≡ bind (bindings keys.old) key id count) }
{
    if is_bound(keys, key) || keys.has_key(id) {
        return Err(unreached());
    }
    keys.bind(key, id, count)
}

impl Leader {
    /// As the leader begins.
    pub fn new(alloc: Global) -> Result<Leader, Memory>
        ensures { IfOk result (λ leader. leader_of leader ≡ opening_leader) }
    {
        Ok(Leader {
            directory: Directory::new(alloc)?,
            queue_keys: Keys::new(alloc)?,
            set_keys: Keys::new(alloc)?,
        })
    }

    /// Whether the name has a place.
    pub fn knows(&self, name: Name) -> bool
        ensures { result ≡ is_known self.now.directory name }
    {
        matches!(self.directory.route(name), Route::At(_) | Route::Coming)
    }

    /// Whether the name is at a node.
    pub fn is_placed(&self, name: Name) -> bool
        ensures { result ≡ is_placed self.now.directory name }
    {
        matches!(self.directory.route(name), Route::At(_))
    }

    /// Whether the name is on its way to the leader.
    pub fn is_coming(&self, name: Name) -> bool
        ensures { result ≡ is_coming self.now.directory name }
    {
        matches!(self.directory.route(name), Route::Coming)
    }

    /// Whether the name is at this node.
    pub fn is_at(&self, name: Name, node: Node) -> bool
        ensures { result ≡ is_at node (place_of self.now.directory name) }
    {
        match self.directory.route(name) {
            Route::At(owner) => owner == node,
            _ => false,
        }
    }

    /// A name that is at a node is at another one at once.
    pub fn move_to(&mut self, name: Name, node: Node)
        requires { IsTrue (is_placed self.old.directory name) }
        ensures { self.new ≡ record self.old { directory = arrive self.old.directory name node } }
    {
        recall(&mut self.directory, &name);
        arrive(&mut self.directory, &name, node);
    }

    /// What a get of a queue by this key comes to.
    pub fn queue_answer(&self, key: Key, create: bool, excl: bool) -> KeyAnswer
        ensures { result ≡ key_answer (get (leader_of self.now).queue_keys key) create excl }
    {
        self.queue_keys.get(key, create, excl)
    }

    /// What a get of a set by this key comes to.
    pub fn set_answer(&self, key: Key, create: bool, excl: bool) -> KeyAnswer
        ensures { result ≡ key_answer (get (leader_of self.now).set_keys key) create excl }
    {
        self.set_keys.get(key, create, excl)
    }

    /// The key leads to the queue. Memory, too, where the key is bound, or another key leads to the queue.
    pub fn bind_queue(&mut self, key: Key, id: Id) -> Result<(), Memory>
        ensures { OnOk result (leader_of self.new
            ≡ record (leader_of self.old) { queue_keys = bind (leader_of self.old).queue_keys key id 0 }) }
    {
        bind(&mut self.queue_keys, key, id, 0)
    }

    /// The key leads to the set of so many semaphores. Memory, too, where the key is bound, or another key leads to the
    /// set.
    pub fn bind_set(&mut self, key: Key, id: Id, count: u32) -> Result<(), Memory>
        ensures { OnOk result (leader_of self.new
            ≡ record (leader_of self.old) { set_keys = bind (leader_of self.old).set_keys key id count }) }
    {
        bind(&mut self.set_keys, key, id, count)
    }

    /// No key leads to the name any more.
    pub fn unbind(&mut self, name: Name)
        ensures { leader_of self.new ≡ without_key (leader_of self.old) name }
    {
        match name {
            Name::Proc(_) => {}
            Name::Msg(id) => {
                let _ = self.queue_keys.unbind(id);
            }
            Name::Sem(id) => {
                let _ = self.set_keys.unbind(id);
            }
        }
    }
}
