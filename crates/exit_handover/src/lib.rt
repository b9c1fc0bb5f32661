//! How a node leaves once its process has made its last call: it says so, and when the leader asks for them it hands
//! over all deeds that it holds.
#![tactic(auto)]

ghost use Rattle.std.specs.Prelude.{◌≡◌, ◌⊎◌, IfOk, OnOk, OnErr, map};
ghost use Rattle.rpc_frame.specs.declared.frame.Frame.TheVariants as frames;
ghost use Rattle.node_model.specs.Kinds.{none_named};
ghost use Rattle.deed_box.specs.Deeds.{all_deeds};
ghost use Rattle.deed_box.specs.Packing.{AllFit};
ghost use Rattle.exit_handover.specs.Giving.{HandsOver, objects_in, processes_in};

use deed_box::{Deeds, Shared};
use pico_base::{Call, Memory, Name, Node, Pid};
use rpc_frame::{Frame, Frames, PackedDeed, PackedDeeds, Parcel};
use std::alloc::Global;

/// The life of a node from its birth on.
#[derive(Clone, Copy, Debug, PartialEq, Eq)]
pub enum Stage {
    /// Its process makes calls.
    Living,
    /// It has told the leader that its process makes none any more.
    Leaving,
    /// It has handed over all deeds.
    Left,
}

/// What a living node does at its process's last call: it tells the leader, and is leaving.
pub fn begin(stage: Stage, pid: Pid, parent: Pid, parent_node: Node) -> (Stage, Frame)
    requires { stage ≡ Stage.Living }
    ensures { result ≡ (Stage.Leaving, frames.Leaving pid parent parent_node) }
{
    match stage {
        Stage::Living => (
            Stage::Leaving,
            Frame::Leaving {
                pid,
                parent,
                parent_node,
            },
        ),
        Stage::Leaving | Stage::Left => unreachable!(),
    }
}

/// Deeds of queues and sets as frames that give them back, and those of processes.
#[derive(Drop)]
struct Sorted {
    frames: Vec<Frame>,
    processes: Vec<PackedDeed>,
}

/// Sorts packed deeds, and keeps their order.
fn sort(alloc: Global, packed: Vec<PackedDeed>) -> Result<Sorted, Memory>
    ensures { IfOk result (λ sorted.
        (sorted.frames.items ≡ map (λ deed. frames.GiveBack deed) (objects_in packed.items))
        × (sorted.processes.items ≡ processes_in packed.items)) }
{
    let mut frames = Vec::with_capacity(alloc, packed.len())?;
    let mut processes = Vec::new(alloc);
    for deed in packed {
        match deed.name {
            Name::Proc(_) => processes.push(deed)?,
            Name::Msg(_) | Name::Sem(_) => frames.push(Frame::GiveBack { deed })?,
        }
    }
    Ok(Sorted { frames, processes })
}

/// Packs and hands over all deeds: each queue and set by a frame of its own, queues first, each kind by rising number,
/// and then all processes by rising number in the parcel that ends this node's process with this call. The table is
/// then empty. After a refusal for want of memory it is as before or empty.
pub fn give_all<B: Shared + Drop>(
    alloc: Global,
    deeds: &mut Deeds<B>,
    pid: Pid,
    parent: Pid,
    call: Call,
) -> Result<Frames, Memory>
    requires { AllFit B.fits (all_deeds deeds.old.bodies) }
    ensures given { IfOk result (HandsOver B.fits B.IsSpelled deeds.old.bodies pid parent call) }
    ensures none { OnOk result (deeds.new.bodies ≡ none_named) }
    ensures err { OnErr result ((deeds.new.bodies ≡ deeds.old.bodies) ⊎ (deeds.new.bodies ≡ none_named)) }
{
    let packed = deeds.pack_all()?;
    let Sorted {
        mut frames,
        processes,
    } = sort(alloc, packed.into_vec())?;
    let deeds = PackedDeeds::from_vec(processes);
    frames.push(Frame::Left {
        parcel: Parcel {
            pid,
            parent,
            call,
            deeds,
        },
    })?;
    Ok(Frames::from_vec(frames))
}
