//! Many deeds packed or unpacked at once.
ghost use Rattle.std.specs.Prelude.{◌≡◌, ◌≤◌, ◌<◌, ◌+◌, ◌++◌, ◌∷◌, [], Err, Ok, IsOk, IfOk, IfErr, OnOk, OnErr, List, length};
ghost use Rattle.std.specs.List.{IsDistinct};
ghost use Rattle.pico_base.specs.declared.fault.UnpackFault.TheVariants.{NotABody};
ghost use Rattle.pico_base.specs.declared.numbers.Name.{Name as Named};
ghost use Rattle.node_model.specs.Kinds.{is_same_name, name_of, none_named, put_all};
ghost use Rattle.deed_box.specs.Deeds.{AreAbsent, all_deeds, deeds_of};
ghost use Rattle.deed_box.specs.Packing.{AllFit, ArePackedDeeds, SomeIsNoDeed, names_of};

use crate::{Deed, Deeds, Shared};
use pico_base::{Id, Kind, Memory, Name, Pid, UnpackFault};
use rpc_frame::{PackedDeed, PackedDeeds};
use std::alloc::Global;

/// The name of a kind and a number.
fn name_of(kind: Kind, number: u32) -> Name
    ensures { result ≡ name_of kind number }
{
    match kind {
        Kind::Proc => Name::Proc(Pid(number)),
        Kind::Msg => Name::Msg(Id(number)),
        Kind::Sem => Name::Sem(Id(number)),
    }
}

/// The deeds of one kind, packed, in order.
fn pack_kind<B: Shared>(
    alloc: Global,
    kind: Kind,
    entries: &[(u32, B)],
) -> Result<Vec<PackedDeed>, Memory>
    requires { AllFit B.fits (deeds_of (name_of kind) entries.now) }
    ensures { IfOk result
        (λ packed. ArePackedDeeds B.fits B.IsSpelled (deeds_of (name_of kind) entries.now) packed.items) }
{
    let mut packed = Vec::with_capacity(alloc, entries.len())?;
    for entry in entries {
        let deed = Deed::create_packed(alloc, name_of(kind, entry.0), &entry.1)?;
        packed.push(deed)?;
    }
    Ok(packed)
}

/// The deeds that were packed, in order.
fn unpack_all<B: Shared + Drop>(
    alloc: Global,
    packed: &[PackedDeed],
) -> Result<Vec<(Name, B)>, UnpackFault>
    ensures ok { IfOk result (λ deeds. ArePackedDeeds B.fits B.IsSpelled deeds.items packed.now) }
    ensures count { IfOk result (λ deeds. length deeds.items ≡ length packed.now) }
    ensures not_a_body { result ≡ Err NotABody → SomeIsNoDeed B.fits B.IsSpelled packed.now }
{
    let mut deeds = Vec::with_capacity(alloc, packed.len())?;
    for deed in packed {
        match B::unpack(alloc, deed.name, deed.body.as_slice()) {
            Ok(body) => deeds.push((deed.name, body))?,
            Err(fault) => return Err(fault),
        }
    }
    Ok(deeds)
}

impl<B: Shared + Drop> Deeds<B> {
    /// Unpacks and puts deeds of different names that aren't there, all or none of them. NotABody comes exactly where
    /// the bytes of one of them spell no body that goes with its name. A refusal changes nothing and hands them back.
    /// What room there was beyond theirs is there.
    pub fn put_packed(&mut self, packed: PackedDeeds) -> Result<(), (UnpackFault, PackedDeeds)>
        requires distinct { IsDistinct is_same_name (names_of packed) }
        requires absent { AreAbsent self.old.bodies (names_of packed) }
        ensures ok { OnOk result
            ((deeds : List (Named × B)) × ArePackedDeeds B.fits B.IsSpelled deeds packed
            × (self.new.bodies ≡ put_all self.old.bodies deeds)) }
        ensures spare { OnOk result (self.old.spare ≤ self.new.spare + length packed) }
        ensures not_a_body { IfErr result (λ back. back.0 ≡ NotABody → SomeIsNoDeed B.fits B.IsSpelled packed) }
        ensures err { OnErr result (self.new.bodies ≡ self.old.bodies) }
        ensures back { IfErr result (λ back. back.1 ≡ packed) }
    {
        match self.unpack_and_put(packed.as_slice()) {
            Ok(()) => Ok(()),
            Err(fault) => Err((fault, packed)),
        }
    }

    fn unpack_and_put(&mut self, packed: &[PackedDeed]) -> Result<(), UnpackFault>
        ensures ok { OnOk result
            ((deeds : List (Named × B)) × ArePackedDeeds B.fits B.IsSpelled deeds packed.now
            × (self.new.bodies ≡ put_all self.old.bodies deeds)) }
        ensures spare { OnOk result (self.old.spare ≤ self.new.spare + length packed.now) }
        ensures not_a_body { result ≡ Err NotABody → SomeIsNoDeed B.fits B.IsSpelled packed.now }
        ensures err { OnErr result (self.new.bodies ≡ self.old.bodies) }
    {
        let deeds = unpack_all(self.allocator(), packed)?;
        self.reserve_many(deeds.len())?;
        self.set_all(deeds);
        Ok(())
    }

    /// Puts deeds for which there is room.
    fn set_all(&mut self, deeds: Vec<(Name, B)>)
        requires { length deeds.items ≤ self.old.spare }
        ensures bodies { self.new.bodies ≡ put_all self.old.bodies deeds.items }
        ensures spare { self.old.spare ≤ self.new.spare + length deeds.items }
    {
        for (name, body) in deeds {
            self.set(name, body);
        }
    }

    /// Packs all deeds in the order queues, sets, processes, by rising number within a kind, and holds none any more. A
    /// refusal changes nothing.
    pub fn pack_all(&mut self) -> Result<PackedDeeds, Memory>
        requires { AllFit B.fits (all_deeds self.old.bodies) }
        ensures packed { IfOk result (ArePackedDeeds B.fits B.IsSpelled (all_deeds self.old.bodies)) }
        ensures none { OnOk result (self.new.bodies ≡ none_named) }
        ensures err { OnErr result (self.new.bodies ≡ self.old.bodies) }
    {
        let packed = self.packed()?;
        self.clear();
        Ok(packed)
    }
}

impl<B: Shared> Deeds<B> {
    /// All deeds, packed, in the order in which they are handed over.
    fn packed(&self) -> Result<PackedDeeds, Memory>
        requires { AllFit B.fits (all_deeds self.now.bodies) }
        ensures { IfOk result (ArePackedDeeds B.fits B.IsSpelled (all_deeds self.now.bodies)) }
    {
        let alloc = self.allocator();
        let mut packed = pack_kind(alloc, Kind::Msg, self.queues())?;
        let mut sets = pack_kind(alloc, Kind::Sem, self.sets())?;
        let mut processes = pack_kind(alloc, Kind::Proc, self.processes())?;
        packed.append(&mut sets)?;
        packed.append(&mut processes)?;
        Ok(PackedDeeds::from_vec(packed))
    }
}
