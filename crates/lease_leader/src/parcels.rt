//! Which names have a deed in a parcel that is held: how many deeds of each name there are.
ghost use Rattle.std.specs.Prelude.{◌≡◌, ◌≤◌, ◌<◌, ◌+◌, ◌^◌, [], OnOk, OnErr, if◌then◌else◌, length, nat_lt};
ghost use Rattle.indexmap.specs.IndexMap.{spare};
ghost use Rattle.pico_base.specs.declared.numbers.Name.{Name as NameValue};
ghost use Rattle.node_model.specs.Kinds.{is_same_name};
ghost use Rattle.lease_leader.specs.Counting.{AllAreIn, AllHaveGone, AreIn, HaveCome, HaveGone, count_in, deeds_in};

use indexmap::IndexMap;
use node_model::Held;
use pico_base::{Memory, Name};
use rpc_frame::PackedDeed;
use std::alloc::Global;
use std::marker::Model;

/// How many deeds there are of a name, for those that have any.
type Counts = IndexMap<Name, u64>;

/// How many deeds of each name there are in the parcels that are held for processes.
#[derive(Drop)]
pub(crate) struct Parcels {
    counts: Counts,
    // how many deeds have come so far, so that no count is above it
    ever: u64,
}

impl Model for Parcels {
    ghost use Rattle.std.specs.Prelude.{◌≤◌};
    ghost use Rattle.pico_base.specs.declared.numbers.Name.{Name as Named};
    ghost use Rattle.lease_leader.specs.Counting.{Counts as CountsValue, count_in};

    ghost Value = { CountsValue };

    ghost view = { λ p. p.counts.entries };

    ghost invariant = { λ p. (name : Named) → count_in p.counts.entries name ≤ p.ever };
}

/// The deeds that count, of an item that is held for this name.
pub(crate) fn deeds_in<'a>(holder: &Name, item: &'a Held) -> &'a [PackedDeed]
    ensures { result.now ≡ deeds_in holder.now item.now }
{
    match (holder, item) {
        (Name::Proc(_), Held::Ending(parcel)) => parcel.deeds.as_slice(),
        _ => &[],
    }
}

fn count_of(counts: &Counts, name: &Name) -> u64
    ensures { result ≡ count_in counts.now.entries name.now }
{
    counts.get(name).copied().unwrap_or(0)
}

/// A deed of the name comes.
fn count_up(counts: &mut Counts, name: &Name)
    requires room { 0 < spare counts.old }
    requires fits { count_in counts.old.entries name.now + 1 < 2 ^ 64 }
    ensures counts { (q : NameValue) → count_in counts.new.entries q
        ≡ count_in counts.old.entries q + (if is_same_name q name.now then 1 else 0) }
    ensures room { spare counts.old ≤ spare counts.new + 1 }
{
    let count = count_of(counts, name);
    let _ = counts.insert(*name, count + 1).unwrap();
}

/// A deed of the name goes.
fn count_down(counts: &mut Counts, name: &Name)
    requires { 0 < count_in counts.old.entries name.now }
    ensures { (q : NameValue) → count_in counts.new.entries q + (if is_same_name q name.now then 1 else 0)
        ≡ count_in counts.old.entries q }
{
    let count = count_of(counts, name);
    if count == 1 {
        let _ = counts.swap_remove(name);
    } else {
        let _ = counts.insert(*name, count - 1).unwrap();
    }
}

/// These deeds come, for which there is room.
fn count_all(counts: &mut Counts, deeds: &[PackedDeed])
    requires room { length deeds.now ≤ spare counts.old }
    requires fits { (q : NameValue) → count_in counts.old.entries q + length deeds.now < 2 ^ 64 }
    ensures { HaveCome deeds.now counts.old.entries counts.new.entries }
{
    for deed in deeds {
        count_up(counts, &deed.name);
    }
}

/// These deeds go.
fn discount_all(counts: &mut Counts, deeds: &[PackedDeed])
    requires { AreIn counts.old.entries deeds.now }
    ensures { HaveGone deeds.now counts.old.entries counts.new.entries }
{
    for deed in deeds {
        count_down(counts, &deed.name);
    }
}

impl Parcels {
    /// No parcel is held. It takes no memory.
    pub(crate) fn new(alloc: Global) -> Parcels
        ensures { result ≡ [] }
    {
        Parcels {
            counts: IndexMap::new(alloc),
            ever: 0,
        }
    }

    /// Whether there is a deed of the name.
    pub(crate) fn has(&self, name: &Name) -> bool
        ensures { result ≡ nat_lt 0 (count_in self.now name.now) }
    {
        count_of(&self.counts, name) > 0
    }

    /// These deeds come. A refusal for want of memory changes nothing.
    pub(crate) fn add(&mut self, deeds: &[PackedDeed]) -> Result<(), Memory>
        ensures ok { OnOk result (HaveCome deeds.now self.old self.new) }
        ensures err { OnErr result (self.new ≡ self.old) }
    {
        let ever = self.ever.checked_add(deeds.len() as u64).ok_or(Memory)?;
        self.counts.reserve(deeds.len())?;
        count_all(&mut self.counts, deeds);
        self.ever = ever;
        Ok(())
    }

    /// These deeds go.
    pub(crate) fn remove(&mut self, deeds: &[PackedDeed])
        requires { AreIn self.old deeds.now }
        ensures { HaveGone deeds.now self.old self.new }
    {
        discount_all(&mut self.counts, deeds);
    }

    /// The deeds of these items, which were held for this name, go.
    pub(crate) fn remove_all(&mut self, holder: &Name, items: &[Held])
        requires { AllAreIn self.old holder.now items.now }
        ensures { AllHaveGone holder.now items.now self.old self.new }
    {
        for item in items {
            self.remove(deeds_in(holder, item));
        }
    }
}
