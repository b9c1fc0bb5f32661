//! Several items one behind the other, as they are read and written.
ghost use Rattle.std.specs.Prelude.{◌≡◌, ◌++◌, ℕ, List, Option, OnOk};
ghost use Rattle.std.specs.List.{flat_map, AllByRecursion};
ghost use Rattle.frame_bytes.specs.Readers.{Gives, many};

use crate::fields::Read;
use pico_base::Memory;
use std::alloc::Global;

/// What several of stand one behind the other.
pub(crate) trait Item: Sized + Drop {
    /// The reader of the item.
    ghost reader: { List ℕ → Option (Self × List ℕ) };

    /// The item's bytes.
    ghost spelling: { Self → List ℕ };

    /// The item's numbers are in the ranges of their types.
    ghost fits: { Self → Type 0 };

    /// What is asked of an item that is written, beside the ranges of its fields' types.
    ghost within: { Self → Type 0 };

    /// An item, and the bytes behind it.
    fn read(alloc: Global, bytes: &[u8]) -> Read<'_, Self>
        ensures { Gives (λ x. (x.0, x.1.now)) result (reader bytes.now) };

    /// Adds the item's bytes at the end.
    fn put(&self, out: &mut Vec<u8>) -> Result<(), Memory>
        requires { within self.now }
        ensures bytes { OnOk result (out.new.items ≡ out.old.items ++ spelling self.now) }
        ensures fits { OnOk result (fits self.now) };
}

/// So many items.
pub(crate) fn many<T: Item>(alloc: Global, count: usize, bytes: &[u8]) -> Read<'_, Vec<T>>
    ensures { Gives (λ x. (x.0.items, x.1.now)) result (many T.reader count bytes.now) }
{
    let mut items = Vec::new(alloc);
    let mut rest = bytes;
    for _ in 0..count {
        let (item, after) = T::read(alloc, rest)?;
        items.push(item)?;
        rest = after;
    }
    Ok((items, rest))
}

/// Adds the items' bytes at the end.
pub(crate) fn put_many<T: Item>(out: &mut Vec<u8>, items: &[T]) -> Result<(), Memory>
    requires { AllByRecursion T.within items.now }
    ensures bytes { OnOk result (out.new.items ≡ out.old.items ++ flat_map T.spelling items.now) }
    ensures fits { OnOk result (AllByRecursion T.fits items.now) }
{
    for item in items {
        item.put(out)?;
    }
    Ok(())
}
