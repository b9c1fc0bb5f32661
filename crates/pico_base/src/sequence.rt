//! A list that contracts see as a list of its items.
ghost use Rattle.std.specs.Prelude.{◌≡◌, [], ◌∷◌, ◌++◌, length, IfOk, OnOk, OnErr};
ghost use Rattle.std.specs.Borrow.{sem};
ghost use Rattle.std.specs.Cmp.Lexicographic.{pointwise, lists_per, lists_equiv};
ghost use Rattle.pico_base.specs.Lending.{lends_items};

use crate::Memory;
use std::alloc::Global;
use std::marker::Model;

/// A list that contracts see as the list of its items. It is made from a `Vec` and gives it back.
#[derive(Debug, Drop)]
pub struct Sequence<T> {
    items: Vec<T>,
}

impl<T> Model for Sequence<T> {
    ghost use Rattle.std.specs.Prelude.{List};
    ghost use Rattle.std.specs.Coded.{coded_list};

    ghost Value = { List T };

    ghost coded = { coded_list T.code };

    ghost view = { λ s. s.items.items };
}

/// A text: each item is one byte.
pub type Bytes = Sequence<u8>;

/// The values of a semaphore set, each from 0 to 32767 in a set, and any u32 in a call.
pub type Values = Sequence<u32>;

impl<T> Sequence<T> {
    /// The empty list. It takes no memory.
    pub fn new(alloc: Global) -> Self
        ensures { result ≡ [] }
    {
        Sequence {
            items: Vec::new(alloc),
        }
    }

    /// The list of these items.
    pub fn from_vec(items: Vec<T>) -> Self
        ensures { result ≡ items.items }
    {
        Sequence { items }
    }

    /// The items. It takes no memory.
    pub fn into_vec(self) -> Vec<T>
        ensures { result.items ≡ self }
    {
        self.items
    }

    /// The items, in order.
    pub fn as_slice(&self) -> &[T]
        ensures { result.now ≡ self.now }
    {
        self.items.as_slice()
    }

    /// The items, to be changed. It takes no memory.
    pub fn as_mut_vec(&mut self) -> &mut Vec<T>
        ensures* writes_back { sem 𝓛 (lends_items T.row self.entry result) }
        ensures value { result.now.items ≡ self.old }
    {
        &mut self.items
    }

    /// How many items there are.
    pub fn len(&self) -> usize
        ensures { result ≡ length self.now }
    {
        self.items.len()
    }

    /// Adds an item at the end. A refusal changes nothing.
    #[inline(always)]
    pub fn push(&mut self, item: T) -> Result<(), Memory>
    where
        T: Drop,
        ensures ok { OnOk result (self.new ≡ self.old ++ item ∷ []) }
        ensures err { OnErr result (self.new ≡ self.old) }
    {
        self.items.push(item)?;
        Ok(())
    }
}

impl<T: PartialEq> PartialEq for Sequence<T> {
    ghost eq = { pointwise T.eq };

    ghost laws = { lists_per T.laws };

    fn eq(&self, other: &Self) -> bool {
        self.items == other.items
    }
}

impl<T: Eq> Eq for Sequence<T> {
    ghost laws = { lists_equiv T.Eq.laws };
}

impl<T: Copy> Sequence<T> {
    /// A list of the same items.
    pub fn try_copy(&self, alloc: Global) -> Result<Self, Memory>
        ensures { IfOk result (λ copy. copy ≡ self.now) }
    {
        Ok(Sequence {
            items: Vec::from_slice(alloc, self.items.as_slice())?,
        })
    }
}

impl Sequence<u8> {
    /// A copy of these bytes.
    pub fn from_slice(alloc: Global, from: &[u8]) -> Result<Self, Memory>
        ensures { IfOk result (λ bytes. bytes ≡ from.now) }
    {
        Ok(Sequence {
            items: Vec::from_slice(alloc, from)?,
        })
    }
}
