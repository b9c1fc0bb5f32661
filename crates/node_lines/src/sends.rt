//! Frames to other nodes.
ghost use Rattle.std.specs.Prelude.{◌≡◌, [], ◌∷◌, IsTrue, OnOk, map};
ghost use Rattle.std.specs.List.{AllByRecursion};
ghost use Rattle.frame_bytes.specs.Limits.{IsWithinLimits};
ghost use Rattle.frame_bytes.specs.Ranges.{IsFrame};
ghost use Rattle.log_model.specs.Turns.{has_line, may_send, with_sent};
ghost use Rattle.node_lines.specs.Lines.{AreSameLines};

use crate::line::Line;
use frame_bytes::{encode, is_within_limits};
use pico_base::{Memory, Node};
use rpc_frame::Frame;
use std::alloc::Global;
use std::sync::Wait;

/// Whether there is a line with this node.
fn has_line(lines: &[Line], to: Node) -> bool
    ensures { result ≡ has_line lines.now to }
{
    lines.iter().any(|line| line.other() == to)
}

/// Whether each frame may be sent: it has a spelling, and there is a line with its receiver. It takes no memory.
pub fn may_send(lines: &[Line], sends: &[(Node, Frame)]) -> bool
    ensures { result ≡ may_send lines.now sends.now }
{
    sends.iter().all(|(to, frame)| has_line(lines, *to) && is_within_limits(frame))
}

/// Sends each frame to its receiver, in order and all under this stamp; each has a spelling. Where memory is refused a
/// front of them, and a part of one, may be sent.
pub fn send_each<R: Wait>(
    rt: &R,
    alloc: Global,
    lines: &mut [Line],
    stamp: u64,
    sends: &[(Node, Frame)],
) -> Result<(), Memory>
    requires { IsTrue (may_send lines.old sends.now) }
    ensures frames { OnOk result (AllByRecursion (λ s. IsFrame s.1) sends.now) }
    ensures sent { OnOk result (lines.new ≡ map (with_sent stamp sends.now) lines.old) }
    ensures same { AreSameLines lines.old lines.new }
{
    for (to, frame) in sends {
        send_one(rt, alloc, lines, stamp, *to, frame)?;
    }
    Ok(())
}

/// Sends a frame on the line with this node.
fn send_one<R: Wait>(
    rt: &R,
    alloc: Global,
    lines: &mut [Line],
    stamp: u64,
    to: Node,
    frame: &Frame,
) -> Result<(), Memory>
    requires { IsWithinLimits frame.now }
    ensures frame { OnOk result (IsFrame frame.now) }
    ensures sent { OnOk result (lines.new ≡ map (with_sent stamp ((to, frame.now) ∷ [])) lines.old) }
    ensures same { AreSameLines lines.old lines.new }
{
    let bytes = encode(alloc, frame)?;
    for line in lines.iter_mut() {
        if line.other() == to {
            line.send(rt, stamp, bytes.as_slice())?;
        }
    }
    Ok(())
}
