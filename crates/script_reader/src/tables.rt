//! Tables for variables and for names.

ghost use Rattle.std.specs.Prelude.{◌≡◌, [], length, slice_index_or, slice_set, replicate, false, true, bytes_eq, position, IfOk, IfSome, OnOk, ◌<◌};
ghost use Rattle.script_reader.specs.Says.{with_name, number_of};
ghost use Rattle.script_reader.specs.Fault.{no_flags, is_at, known_with};

use indexmap::IndexSet;
use pico_base::{Memory, Var};
use std::alloc::Global;
use std::marker::Model;

/// A truth value for each number below a length, which contracts see as a list.
#[derive(Drop)]
pub(crate) struct Flags {
    flags: Vec<bool>,
}

impl Model for Flags {
    ghost use Rattle.std.specs.Prelude.{List, Bool};
    ghost use Rattle.std.specs.Coded.{coded_list, coded_bool};

    ghost Value = { List Bool };

    ghost coded = { coded_list coded_bool };

    ghost view = { λ f. f.flags.items };
}

impl Flags {
    /// So many flags, none of which is set.
    #[tactic(auto, unfolding(crate::specs::Fault::no_flags))]
    pub(crate) fn new(alloc: Global, count: usize) -> Result<Flags, Memory>
        ensures { IfOk result (λ flags. flags ≡ no_flags count) }
    {
        Ok(Flags {
            flags: vec![in alloc; false; count]?,
        })
    }

    /// Equal flags.
    pub(crate) fn try_copy(&self, alloc: Global) -> Result<Flags, Memory>
        ensures { IfOk result (λ copy. copy ≡ self.now) }
    {
        Ok(Flags {
            flags: Vec::from_slice(alloc, self.flags.as_slice())?,
        })
    }

    /// Whether this flag is set. One that isn't there is not.
    pub(crate) fn is_set(&self, index: usize) -> bool
        ensures { result ≡ is_at self.now index }
    {
        match self.flags.get(index) {
            Some(flag) => *flag,
            None => false,
        }
    }

    /// Sets this flag, where it is there.
    pub(crate) fn set(&mut self, index: usize)
        ensures { self.new ≡ slice_set self.old index true }
    {
        if let Some(flag) = self.flags.get_mut(index) {
            *flag = true;
        }
    }

    /// Notes the variable that a line sets.
    pub(crate) fn note(&mut self, set: Option<Var>)
        ensures { self.new ≡ known_with self.old set }
    {
        if let Some(variable) = set {
            self.set(usize::from(variable.0));
        }
    }
}

/// Different names in the order of their first mention, which contracts see as a list. The names of a text's blocks
/// give the blocks their numbers.
#[derive(Drop)]
pub struct Names {
    names: IndexSet<Vec<u8>>,
}

impl Model for Names {
    ghost use Rattle.std.specs.Prelude.{List, ℕ, map};
    ghost use Rattle.std.specs.Coded.{coded_list, coded_ℕ};

    ghost Value = { List (List ℕ) };

    ghost coded = { coded_list (coded_list coded_ℕ) };

    ghost view = { λ n. map (λ name. name.items) n.names.keys };
}

impl Names {
    /// No names.
    pub(crate) fn new(alloc: Global) -> Names
        ensures { result ≡ [] }
    {
        Names {
            names: IndexSet::new(alloc),
        }
    }

    /// How many names there are.
    pub fn len(&self) -> usize
        ensures { result ≡ length self.now }
    {
        self.names.len()
    }

    /// Mentions a name.
    pub(crate) fn mention(&mut self, alloc: Global, name: &[u8]) -> Result<(), Memory>
        ensures { OnOk result (self.new ≡ with_name self.old name.now) }
    {
        self.names.insert(Vec::from_slice(alloc, name)?)?;
        Ok(())
    }

    /// The place of a name, counted from 0.
    fn place(&self, name: &[u8]) -> Option<usize>
        ensures value { result ≡ position (bytes_eq name.now) self.now }
        ensures small { IfSome result (λ place. place < length self.now) }
    {
        self.names.get_index_of(name)
    }

    /// The number of the block of this name, counted from 1.
    #[tactic(auto, unfolding(crate::specs::Says::number_of))]
    pub fn number(&self, name: &[u8]) -> Option<usize>
        ensures { result ≡ number_of self.now name.now }
    {
        let _count = self.len();
        let place = self.place(name)?;
        Some(place + 1)
    }
}
