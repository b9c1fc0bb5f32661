//! Deeds of a small body are handed over.
ghost use Rattle.std.specs.Prelude.{◌≡◌, ◌∷◌, [], IfOk};
ghost use Rattle.pico_base.specs.declared.numbers.Name.TheVariants.{Msg, Proc, Sem};
ghost use Rattle.deed_box.specs.Packing.{names_of};

use deed_box::{Deeds, Shared};
use exit_handover::{Stage, begin, give_all};
use pico_base::{Bytes, Call, Id, Memory, Name, Node, Pid, UnpackFault};
use rpc_frame::{Frame, Frames, PackedDeed, PackedDeeds};
use std::alloc::Global;
use std::mem::ManuallyDrop;
use std::test::Fail;

/// A body of one byte, which goes with any name.
#[derive(Drop)]
struct Tally {
    count: u8,
}

impl Shared for Tally {
    ghost use Rattle.std.specs.Prelude.{◌≡◌, [], ◌∷◌, true};
    ghost use Rattle.std.proofs.Common.{ap, sym, ◌∙◌, get_or};

    ghost fits = { λ tally name. true };

    ghost IsSpelled = { λ tally bytes. bytes ≡ tally.count ∷ [] };

    fn fits(&self, _: Name) -> bool {
        true
    }

    fn pack(&self, alloc: Global) -> Result<Bytes, Memory> {
        let mut bytes = Vec::new(alloc);
        bytes.push(self.count)?;
        Ok(Bytes::from_vec(bytes))
    }

    fn unpack(_: Global, _: Name, bytes: &[u8]) -> Result<Self, UnpackFault> {
        match bytes {
            [count] => Ok(Tally { count: *count }),
            _ => Err(UnpackFault::NotABody),
        }
    }

    ghost one_body = { λ name body other bytes fits also spelled again.
        ap (λ xs. record { count = get_or xs 0 0 }) (sym spelled ∙ again) };

    ghost one_spelling = { λ body bytes other spelled again. spelled ∙ sym again };
}

/// A packed deed.
fn packed(alloc: Global, name: Name, count: u8) -> Result<PackedDeed, Memory>
    ensures { IfOk result (λ deed. deed.name ≡ name) }
{
    Ok(PackedDeed {
        name,
        body: Bytes::from_slice(alloc, &[count])?,
    })
}

/// Deeds of each kind, in no order.
fn deeds_of_all_kinds(alloc: Global) -> Result<PackedDeeds, Memory>
    ensures { IfOk result (λ deeds. names_of deeds ≡ Sem 1 ∷ Msg 9 ∷ Proc 2 ∷ Msg 3 ∷ []) }
{
    let mut deeds = Vec::new(alloc);
    deeds.push(packed(alloc, Name::Sem(Id(1)), 1)?)?;
    deeds.push(packed(alloc, Name::Msg(Id(9)), 2)?)?;
    deeds.push(packed(alloc, Name::Proc(Pid(2)), 3)?)?;
    deeds.push(packed(alloc, Name::Msg(Id(3)), 4)?)?;
    Ok(PackedDeeds::from_vec(deeds))
}

/// The table that holds them.
fn held(alloc: Global) -> Result<Deeds<Tally>, Fail> {
    let mut deeds: Deeds<Tally> = Deeds::new(alloc)?;
    if deeds.put_packed(deeds_of_all_kinds(alloc)?).is_err() {
        return Err("not put".into());
    }
    Ok(deeds)
}

/// Hands over all tallies, which go with any name, at the end of process 2.
fn give_tallies(alloc: Global, deeds: &mut Deeds<Tally>) -> Result<Frames, Memory> {
    give_all(alloc, deeds, Pid(2), Pid(1), Call::Exit { status: 7 })
}

/// What each frame hands over, in order.
fn given() -> [(Name, u8); 4] {
    [
        (Name::Msg(Id(3)), 4),
        (Name::Msg(Id(9)), 2),
        (Name::Sem(Id(1)), 1),
        (Name::Proc(Pid(2)), 3),
    ]
}

fn is_deed(deed: &PackedDeed, wanted: (Name, u8)) -> bool {
    deed.name == wanted.0 && deed.body.as_slice() == [wanted.1].as_slice()
}

/// Whether the frame brings this deed alone.
fn brings(frame: &Frame, wanted: (Name, u8)) -> bool {
    match frame {
        Frame::GiveBack { deed } => is_deed(deed, wanted),
        Frame::Left { parcel } => match parcel.deeds.as_slice() {
            [deed] => is_deed(deed, wanted),
            _ => false,
        },
        _ => false,
    }
}

/// Whether the frames bring those deeds.
fn bring_all(frames: &Frames) -> bool {
    for (frame, wanted) in frames.as_slice().iter().zip(given()) {
        if !brings(frame, wanted) {
            return false;
        }
    }
    frames.len() == 4
}

#[test]
fn all_deeds_are_given(rt: HostRuntime) -> Result<(), Fail> {
    // It is never taken apart, so that its owner is cheaper to prove.
    let mut deeds = ManuallyDrop::new(held(rt.alloc())?);
    let frames = give_tallies(rt.alloc(), &mut deeds)?;
    assert!(rt; bring_all(&frames));
    assert!(rt; !deeds.has(Name::Msg(Id(3))));
    Ok(())
}

/// Whether the frame tells the leader that process 2 leaves, with its parent and that one's node.
fn is_leaving(frame: &Frame) -> bool {
    match frame {
        Frame::Leaving {
            pid,
            parent,
            parent_node,
        } => (*pid, *parent, *parent_node) == (Pid(2), Pid(1), Node(1)),
        _ => false,
    }
}

#[test]
fn a_living_node_begins_to_leave(rt: HostRuntime) {
    let (stage, frame) = begin(Stage::Living, Pid(2), Pid(1), Node(1));
    assert!(rt; stage == Stage::Leaving);
    assert!(rt; is_leaving(&frame));
}
