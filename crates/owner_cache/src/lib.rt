//! Which node last answered for a name. It may be out of date: then the node that is asked says so.
#![tactic(auto)]

ghost use Rattle.std.specs.Prelude.{◌≡◌, [], Some, IsSome, IfSome, IfOk, OnOk, OnErr};
ghost use Rattle.node_model.specs.Cache.{forget, learn, look, owner_in};

use lru::LruCache;
use pico_base::{Memory, Name, Node};
use std::alloc::Global;
use std::marker::Model;
use std::num::NonZeroUsize;

/// How many names a cache has room for.
const NAMES: usize = 64;

/// The owners of at most 64 names, which contracts see as a list of names and nodes, the most recently used first.
#[derive(Drop)]
pub struct Cache {
    owners: LruCache<Name, Node>,
}

impl Model for Cache {
    ghost use Rattle.std.specs.Prelude.{List, ℕ};
    ghost use Rattle.std.specs.Coded.{coded_list, coded×, coded_ℕ};
    ghost use Rattle.owner_cache.specs.Coded.{coded_name};
    ghost use Rattle.node_model.specs.Cache.{Cache as Value_};
    ghost use Rattle.owner_cache.specs.Distinct.{IsWithin};

    ghost Value = { Value_ };

    ghost coded = { coded_list (coded× coded_name coded_ℕ) };

    ghost view = { λ c. c.owners.entries };

    ghost invariant = { λ c. IsWithin c.owners.entries c.owners.cap };
}

impl Cache {
    /// A cache without names.
    pub fn new(alloc: Global) -> Result<Cache, Memory>
        ensures { IfOk result (λ cache. cache ≡ []) }
    {
        let places = NonZeroUsize::new(NAMES).unwrap();
        Ok(Cache {
            owners: LruCache::new(alloc, places)?,
        })
    }

    /// The node of the name, if it is the one used last. To use it again changes nothing.
    #[inline]
    fn last_owner(&self, name: &Name) -> Option<Node>
        ensures owner { IfSome result (λ node. owner_in self.now name.now ≡ Some node) }
        ensures used { IsSome result → look self.now name.now ≡ self.now }
        ensures known { IfSome result (λ node. learn self.now name.now node ≡ self.now) }
    {
        let (last, node) = self.owners.peek_mru()?;
        if *last == *name { Some(*node) } else { None }
    }

    /// The node that last answered for the name, where that is known. The name is then the one used last.
    pub fn look(&mut self, name: Name) -> Option<Node>
        ensures owner { result ≡ owner_in self.old name }
        ensures used { self.new ≡ look self.old name }
    {
        match self.last_owner(&name) {
            Some(node) => Some(node),
            None => self.look_up(&name),
        }
    }

    /// The same of a name that may stand anywhere.
    fn look_up(&mut self, name: &Name) -> Option<Node>
        ensures owner { result ≡ owner_in self.old name.now }
        ensures used { self.new ≡ look self.old name.now }
    {
        self.owners.get(name).copied()
    }

    /// Notes that this node has answered for the name, which is then the one used last. Past 64 names the one used
    /// longest ago is forgotten. A refusal for want of memory changes nothing.
    pub fn learn(&mut self, name: Name, node: Node) -> Result<(), Memory>
        ensures ok { OnOk result (self.new ≡ learn self.old name node) }
        ensures err { OnErr result (self.new ≡ self.old) }
    {
        match self.last_owner(&name) {
            Some(last) if last.0 == node.0 => Ok(()),
            _ => self.put(&name, node),
        }
    }

    /// The same of a name or a node that may be new.
    fn put(&mut self, name: &Name, node: Node) -> Result<(), Memory>
        ensures ok { OnOk result (self.new ≡ learn self.old name.now node) }
        ensures err { OnErr result (self.new ≡ self.old) }
    {
        let _ = self.owners.put(*name, node)?;
        Ok(())
    }

    /// Forgets the name.
    pub fn forget(&mut self, name: Name)
        ensures { self.new ≡ forget self.old name }
    {
        let _ = self.owners.pop(&name);
    }
}
