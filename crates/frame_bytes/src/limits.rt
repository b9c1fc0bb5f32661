//! Whether a frame keeps to the limits, tested before it is spelled. A list is counted before it is walked, so one
//! that is too long costs nothing, however long it is.
ghost use Rattle.std.specs.Prelude.{◌≡◌, ◌&&◌, length, nat_lt};
ghost use Rattle.std.specs.List.{list_all};
ghost use Rattle.frame_bytes.specs.Fields.{name_number};
ghost use Rattle.frame_bytes.specs.Calls.{is_object};
ghost use Rattle.frame_bytes.specs.Frames.{frame_body, max_frame};
ghost use Rattle.frame_bytes.specs.Limits.{are_deeds, are_vars, has_fields, is_call, is_count, is_deed, is_frame, is_half, is_last_call, is_nonzero, is_parcel, is_reply, is_sigarg, is_text, is_withdrawal};

use crate::frame_reading::{are_processes, have_order};
use crate::lengths::body_len;
use crate::splitting::MAX_FRAME;
use pico_base::{Bytes, Call, Name, Reply, SigArg, Vars};
use rpc_frame::{Frame, PackedDeed, PackedDeeds, Parcel};

/// Whether the text's length has 4 bytes.
fn is_text(bytes: &Bytes) -> bool
    ensures { result ≡ is_text bytes.now }
{
    bytes.len() < 1 << 32
}

/// Whether the count has 2 bytes.
fn is_half(count: usize) -> bool
    ensures { result ≡ is_half count }
{
    count < 1 << 16
}

/// Whether the count has 2 bytes and is at least 1.
fn is_count(count: usize) -> bool
    ensures { result ≡ is_count count }
{
    is_half(count) && count > 0
}

/// Whether `kill` with it is for another node: a number that is no signal's is refused by the caller itself.
fn is_sigarg(sig: SigArg) -> bool
    ensures { result ≡ is_sigarg sig }
{
    match sig {
        SigArg::Zero | SigArg::Is(_) => true,
        SigArg::Bad => false,
    }
}

/// Whether the name's number is at least 1.
fn has_number(name: Name) -> bool
    ensures { result ≡ is_nonzero (name_number name) }
{
    match name {
        Name::Proc(pid) => pid.0 > 0,
        Name::Msg(id) | Name::Sem(id) => id.0 > 0,
    }
}

/// Whether the call is one that one node asks another to carry out.
fn is_call(call: &Call) -> bool
    ensures { result ≡ is_call call.now }
{
    match call {
        Call::Kill { sig, .. } => is_sigarg(*sig),
        Call::MsgGet { key: Some(key), .. } => key.0 > 0,
        Call::SemGet { key: Some(key), .. } => key.0 > 0,
        Call::MsgSnd { text, .. } => is_text(text),
        Call::SemOp { steps, .. } => is_count(steps.len()),
        Call::SemSetAll { values, .. } => is_count(values.len()),
        Call::MsgRcv { .. }
        | Call::MsgStat { .. }
        | Call::MsgSet { .. }
        | Call::MsgRmid { .. }
        | Call::SemGetVal { .. }
        | Call::SemSetVal { .. }
        | Call::SemGetAll { .. }
        | Call::SemGetPid { .. }
        | Call::SemGetNcnt { .. }
        | Call::SemGetZcnt { .. }
        | Call::SemRmid { .. } => true,
        _ => false,
    }
}

/// Whether the call ends a process.
fn is_last_call(call: &Call) -> bool
    ensures { result ≡ is_last_call call.now }
{
    match call {
        Call::Exit { .. } | Call::Killed { .. } => true,
        _ => false,
    }
}

/// Whether the name is one of a queue or a set, where a call may wait.
fn is_object(name: Name) -> bool
    ensures { result ≡ is_object name }
{
    match name {
        Name::Proc(_) => false,
        Name::Msg(_) | Name::Sem(_) => true,
    }
}

/// Whether the call ends a wait at a queue or a set.
fn is_withdrawal(call: &Call) -> bool
    ensures { result ≡ is_withdrawal call.now }
{
    match call {
        Call::Withdraw { name } => is_object(*name),
        _ => false,
    }
}

/// Whether the reply is one of a call that another node carries out.
fn is_reply(reply: &Reply) -> bool
    ensures { result ≡ is_reply reply.now }
{
    match reply {
        Reply::Num(_) | Reply::Stat { .. } | Reply::Fail(_) => true,
        Reply::Message { text, .. } => is_text(text),
        Reply::All(values) => is_half(values.len()),
        _ => false,
    }
}

/// Whether a deed has a spelling.
fn is_deed(deed: &PackedDeed) -> bool
    ensures { result ≡ is_deed deed.now }
{
    has_number(deed.name) && is_text(&deed.body)
}

/// Whether each deed has a spelling.
fn are_all_deeds(deeds: &[PackedDeed]) -> bool
    ensures { result ≡ list_all is_deed deeds.now }
{
    for deed in deeds {
        if !is_deed(deed) {
            return false;
        }
    }
    true
}

/// Whether the deeds of a parcel are at most 255, each with a spelling, of processes by rising number.
fn are_deeds(deeds: &PackedDeeds) -> bool
    ensures { result ≡ are_deeds deeds.now }
{
    deeds.len() < 256 && are_all_deeds(deeds.as_slice()) && are_processes(deeds.as_slice())
}

/// Whether a parcel has a spelling.
fn is_parcel(parcel: &Parcel) -> bool
    ensures { result ≡ is_parcel parcel.now }
{
    is_last_call(&parcel.call) && are_deeds(&parcel.deeds)
}

/// Whether the count of the variables has 2 bytes, and their indices rise.
fn are_vars(vars: &Vars) -> bool
    ensures { result ≡ are_vars vars.now }
{
    is_half(vars.len()) && have_order(vars.as_slice())
}

/// Whether the ticket and the call are those of a call that is under way.
fn is_asking(ticket: u32, call: &Call) -> bool
    ensures { result ≡ is_nonzero ticket && is_call call.now }
{
    ticket > 0 && is_call(call)
}

/// Whether the values of the fields are those that have a spelling.
#[inline(always)]
fn has_fields(frame: &Frame) -> bool
    ensures { result ≡ has_fields frame.now }
{
    match frame {
        Frame::Ask { ticket, call, .. } => is_asking(*ticket, call),
        Frame::Request { ticket, call, .. } => is_asking(*ticket, call),
        Frame::Forward { asked } => is_asking(asked.ticket, &asked.call),
        Frame::Bounce { asked } => is_asking(asked.ticket, &asked.call),
        Frame::Answer { ticket, reply } => *ticket > 0 && is_reply(reply),
        Frame::NotOwner { ticket } => *ticket > 0,
        Frame::LeaseAsk { .. } | Frame::Lease { .. } | Frame::Leaving { .. } | Frame::RecallAll => {
            true
        }
        Frame::Placed { name, .. } => has_number(*name),
        Frame::Checkpoint { deed, vars, .. } => is_deed(deed) && are_vars(vars),
        Frame::Suggest { name, .. } => has_number(*name),
        Frame::Recall { name } => has_number(*name),
        Frame::GiveBack { deed } => is_deed(deed),
        Frame::Grant { deed } => is_deed(deed),
        Frame::Left { parcel } => is_parcel(parcel),
        Frame::ExitTo { parcel } => is_parcel(parcel),
        Frame::Cancel { asked } => asked.ticket > 0 && is_withdrawal(&asked.call),
    }
}

/// Whether the frame keeps to the limits, so that `encode` takes it: its tickets, keys and the numbers of its names
/// are at least 1, its texts and lists are no longer than their counts can say, with 255 deeds of a parcel at most,
/// what has an order keeps it, its calls and replies are of those that go from node to node, and its body is no
/// longer than 262144 bytes. Any frame can be tested, and it takes no memory.
pub fn is_within_limits(frame: &Frame) -> bool
    ensures { result ≡ is_frame frame.now }
{
    has_fields(frame) && body_len(frame) <= MAX_FRAME as usize
}

/// Whether the frame keeps to the limits with room for one byte more: so much does a call grow where the leader sends
/// it on, since the frame names the caller's node then. Any frame can be tested, and it takes no memory.
pub fn has_room_to_go_on(frame: &Frame) -> bool
    ensures { result ≡ has_fields frame.now && nat_lt (length (frame_body frame.now)) max_frame }
{
    has_fields(frame) && body_len(frame) < MAX_FRAME as usize
}
