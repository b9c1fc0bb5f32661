//! The keys of one kind: which queue or set a key is bound to, and how many semaphores that set has.
#![tactic(auto)]

ghost use Rattle.std.specs.Prelude.{◌≡◌, ◌↔◌, None, IsTrue, OnOk, OnErr, IfOk};
ghost use Rattle.std.specs.FinMap as map;
ghost use Rattle.key_table.specs.KeyMap.{key_answer, without_id, Binds};

use indexmap::IndexMap;
use pico_base::{Errno, Id, Key, Memory};
use std::alloc::Global;
use std::marker::Model;

/// How many bindings a new table has room for.
const ROOM: usize = 8;

/// What a key is bound to: a queue or a set, with the number of its semaphores.
#[derive(Clone, Copy, Debug, PartialEq, Eq)]
pub struct Bound {
    pub id: Id,
    pub count: u32,
}

/// What a get by a key comes to.
#[derive(Clone, Copy, Debug, PartialEq, Eq)]
pub enum KeyAnswer {
    /// The key is bound.
    Found { id: Id, count: u32 },
    /// The key isn't bound, and a new queue or set is to be created for it.
    Create,
    /// The call is refused: ENOENT where the key isn't bound and nothing may be created, EEXIST where
    /// it is bound and something has to be.
    Fail(Errno),
}

/// The bound keys, which contracts see as a finite map from keys to what they are bound to.
#[derive(Debug, Drop)]
pub struct Keys {
    by_key: IndexMap<u32, Bound>,
    key_of: IndexMap<u32, u32>,
}

impl Model for Keys {
    ghost use Rattle.std.specs.Prelude.{nat_eq};
    ghost use Rattle.std.specs.Coded.{coded_ℕ};
    ghost use Rattle.std.specs.FinMap as map;
    ghost use Rattle.indexmap.specs.IndexMap.{get};
    ghost use Rattle.key_table.specs.KeyMap.{KeyMap, coded_bound};
    ghost use Rattle.key_table.specs.Agreement.{Agree};

    ghost Value = { KeyMap };

    ghost coded = { map.code coded_ℕ coded_bound };

    ghost view = { λ k. map.from_entries k.by_key.entries };

    ghost invariant = { λ k. Agree (get nat_eq k.by_key) (get nat_eq k.key_of) };
}

/// What a get comes to by what its key is bound to.
fn answer(bound: Option<Bound>, create: bool, excl: bool) -> KeyAnswer
    ensures { result ≡ key_answer bound create excl }
{
    match bound {
        Some(_) if create && excl => KeyAnswer::Fail(Errno::Eexist),
        Some(Bound { id, count }) => KeyAnswer::Found { id, count },
        None if create => KeyAnswer::Create,
        None => KeyAnswer::Fail(Errno::Enoent),
    }
}

impl Keys {
    /// A table without a bound key.
    pub fn new(alloc: Global) -> Result<Keys, Memory>
        ensures { IfOk result (λ keys. keys ≡ map.empty) }
    {
        Ok(Keys {
            by_key: IndexMap::with_capacity(alloc, ROOM)?,
            key_of: IndexMap::with_capacity(alloc, ROOM)?,
        })
    }

    /// What `msgget` or `semget` with this key comes to (POSIX.1-2017: XSI Interprocess Communication).
    pub fn get(&self, key: Key, create: bool, excl: bool) -> KeyAnswer
        ensures { result ≡ key_answer (map.get self.now key) create excl }
    {
        answer(self.by_key.get(&key.0).copied(), create, excl)
    }

    /// Binds a key that isn't bound to an identifier that no key is bound to. A refusal for want of
    /// memory changes nothing.
    pub fn bind(&mut self, key: Key, id: Id, count: u32) -> Result<(), Memory>
        requires unbound { map.get self.old key ≡ None }
        requires not_there { Binds self.old id → ⊥ }
        ensures ok { OnOk result (self.new ≡ map.insert self.old key (record { id = id; count = count })) }
        ensures err { OnErr result (self.new ≡ self.old) }
    {
        self.by_key.reserve(1)?;
        self.key_of.insert(id.0, key.0)?;
        let _ = self.by_key.insert(key.0, Bound { id, count }).unwrap();
        Ok(())
    }

    /// Whether a key is bound to the identifier.
    pub fn has_key(&self, id: Id) -> bool
        ensures { IsTrue result ↔ Binds self.now id }
    {
        self.key_of.contains_key(&id.0)
    }

    /// Unbinds the key that is bound to the identifier, and answers whether there was one. The other
    /// keys stay.
    pub fn unbind(&mut self, id: Id) -> bool
        ensures bound { IsTrue result ↔ Binds self.old id }
        ensures unbound { self.new ≡ without_id self.old id }
        ensures gone { Binds self.new id → ⊥ }
    {
        match self.key_of.swap_remove(&id.0) {
            None => false,
            Some(key) => {
                let _ = self.by_key.swap_remove(&key);
                true
            }
        }
    }
}
