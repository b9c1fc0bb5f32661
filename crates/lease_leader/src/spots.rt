//! What the leader keeps of the known names, by name.
ghost use Rattle.std.specs.Prelude.{◌≡◌, ◌≤◌, ◌↔◌, ℕ, Some, None, IsTrue, IsSome, IfSome, OnOk, OnErr, IfErr, is_some};
ghost use Rattle.std.specs.Option.{option_copied};
ghost use Rattle.number_maps.specs.Maps.{get, put};
ghost use Rattle.number_maps.specs.Rising.{IsRising};
ghost use Rattle.node_model.specs.Kinds.{for_kind, get_named, none_named, put_named};
ghost use Rattle.lease_leader.specs.Places.{with_item};

use crate::spot::Spot;
use node_model::Held;
use number_table::Table;
use pico_base::{Kind, Memory, Name};
use std::alloc::Global;
use std::marker::Model;
use std::mem;

/// The spots of one kind, by number.
type Numbers = Table<Spot>;

/// The spots of the known names, which contracts see as a finite map from names.
#[derive(Drop)]
pub(crate) struct Spots {
    processes: Numbers,
    queues: Numbers,
    sets: Numbers,
}

impl Model for Spots {
    ghost use Rattle.node_model.specs.Kinds.{Named};
    ghost use Rattle.lease_leader.specs.declared.spot.Spot.{Spot as SpotValue};

    ghost Value = { Named SpotValue };

    ghost view = { λ s. record {
      processes = s.processes.entries;
      queues = s.queues.entries;
      sets = s.sets.entries;
    } };
}

/// Puts another spot in the place of one that is there, which it gives back.
fn replace_at(spots: &mut Numbers, number: u32, spot: Spot) -> Spot
    requires { IsSome (get spots.old.entries number) }
    ensures spots { spots.new.entries ≡ put spots.old.entries number spot }
    ensures was { get spots.old.entries number ≡ Some result }
    ensures rising { IsRising spots.old.entries }
{
    spots.rise();
    mem::replace(spots.entry_mut(number), spot)
}

/// Holds a further item at a spot that is there.
fn hold_at(alloc: Global, spots: &mut Numbers, number: u32, item: Held) -> Result<(), Held>
    requires { IsSome (get spots.old.entries number) }
    ensures ok { OnOk result (IfSome (get spots.old.entries number)
        (λ spot. spots.new.entries ≡ put spots.old.entries number (with_item spot item))) }
    ensures err { OnErr result (spots.new.entries ≡ spots.old.entries) }
    ensures back { IfErr result (λ back. back ≡ item) }
    ensures rising { IsRising spots.old.entries }
{
    spots.rise();
    spots.entry_mut(number).hold(alloc, item)
}

impl Spots {
    /// No names. It takes no memory.
    pub(crate) fn new(alloc: Global) -> Spots
        ensures { result ≡ none_named }
    {
        Spots {
            processes: Table::new(alloc),
            queues: Table::new(alloc),
            sets: Table::new(alloc),
        }
    }

    /// The spot of the name, where that is known.
    #[inline(always)]
    pub(crate) fn get(&self, name: &Name) -> Option<&Spot>
        ensures { option_copied result ≡ get_named self.now name.now }
    {
        match name {
            Name::Proc(pid) => self.processes.get(pid.0),
            Name::Msg(id) => self.queues.get(id.0),
            Name::Sem(id) => self.sets.get(id.0),
        }
    }

    /// Whether the name is known.
    pub(crate) fn has(&self, name: &Name) -> bool
        ensures { result ≡ is_some (get_named self.now name.now) }
    {
        match name {
            Name::Proc(pid) => self.processes.has(pid.0),
            Name::Msg(id) => self.queues.has(id.0),
            Name::Sem(id) => self.sets.has(id.0),
        }
    }

    /// Whether each known name of the kind has a number below this one.
    pub(crate) fn are_below(&self, kind: Kind, number: u32) -> bool
        ensures { IsTrue result ↔ ((q : ℕ) → number ≤ q → get (for_kind self.now kind) q ≡ None) }
    {
        match kind {
            Kind::Proc => self.processes.are_below(number),
            Kind::Msg => self.queues.are_below(number),
            Kind::Sem => self.sets.are_below(number),
        }
    }

    /// The processes' spots are by rising number.
    pub(crate) fn rise(&self)
        ensures { IsRising self.now.processes }
    {
        self.processes.rise();
    }

    /// Puts a spot. A refusal for want of memory changes nothing.
    pub(crate) fn insert(&mut self, name: &Name, spot: Spot) -> Result<(), Memory>
        ensures ok { OnOk result (self.new ≡ put_named self.old name.now spot) }
        ensures err { OnErr result (self.new ≡ self.old) }
        ensures rising { IsRising self.old.processes }
    {
        self.processes.rise();
        match name {
            Name::Proc(pid) => self.processes.insert(pid.0, spot)?,
            Name::Msg(id) => self.queues.insert(id.0, spot)?,
            Name::Sem(id) => self.sets.insert(id.0, spot)?,
        };
        Ok(())
    }

    /// Puts another spot in the place of one that is there, which it gives back.
    pub(crate) fn replace(&mut self, name: &Name, spot: Spot) -> Spot
        requires { IsSome (get_named self.old name.now) }
        ensures spots { self.new ≡ put_named self.old name.now spot }
        ensures was { get_named self.old name.now ≡ Some result }
        ensures rising { IsRising self.old.processes }
    {
        self.processes.rise();
        match name {
            Name::Proc(pid) => replace_at(&mut self.processes, pid.0, spot),
            Name::Msg(id) => replace_at(&mut self.queues, id.0, spot),
            Name::Sem(id) => replace_at(&mut self.sets, id.0, spot),
        }
    }

    /// Holds a further item for a name that is known: it is on its way. A refusal hands the item back and changes
    /// nothing.
    pub(crate) fn hold(&mut self, alloc: Global, name: &Name, item: Held) -> Result<(), Held>
        requires { IsSome (get_named self.old name.now) }
        ensures ok { OnOk result (IfSome (get_named self.old name.now)
            (λ spot. self.new ≡ put_named self.old name.now (with_item spot item))) }
        ensures err { OnErr result (self.new ≡ self.old) }
        ensures back { IfErr result (λ back. back ≡ item) }
        ensures rising { IsRising self.old.processes }
    {
        self.processes.rise();
        match name {
            Name::Proc(pid) => hold_at(alloc, &mut self.processes, pid.0, item),
            Name::Msg(id) => hold_at(alloc, &mut self.queues, id.0, item),
            Name::Sem(id) => hold_at(alloc, &mut self.sets, id.0, item),
        }
    }
}
