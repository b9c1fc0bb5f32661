//! How many bytes a frame's body has, field by field. The fields keep to their limits, so no sum overflows: `few`
//! bounds what a caller adds to.
ghost use Rattle.std.specs.Prelude.{◌≡◌, ◌<◌, ◌≤◌, ◌^◌, IsTrue, length};
ghost use Rattle.frame_bytes.specs.Fields.{text};
ghost use Rattle.frame_bytes.specs.Calls.{call_bytes, steps_field, values_field};
ghost use Rattle.frame_bytes.specs.Replies.{reply_bytes};
ghost use Rattle.frame_bytes.specs.Frames.{deed_field, deeds_field, frame_body, parcel_field, vars_field};
ghost use Rattle.frame_bytes.specs.Limits.{are_deeds, are_vars, has_fields, is_call, is_count, is_deed, is_half, is_last_call, is_parcel, is_reply, is_text};

use pico_base::{Bytes, Call, Reply, Steps, Values, Vars};
use rpc_frame::{Frame, PackedDeed, PackedDeeds, Parcel};

/// The bytes of a number that has 4, signed or not.
const WORD: usize = 4;

/// The bytes of a number that has 2.
const HALF: usize = 2;

/// The bytes of a name: its kind and its number.
const NAME: usize = 1 + WORD;

/// A text: its length, and so many bytes.
fn text_len(bytes: &Bytes) -> usize
    requires { IsTrue (is_text bytes.now) }
    ensures len { result ≡ length (text bytes.now) }
    ensures few { result < 2 ^ 33 }
{
    WORD + bytes.len()
}

/// Operations of `semop`: their count, and a number, what is added and a flag for each.
fn steps_len(steps: &Steps) -> usize
    requires { IsTrue (is_count (length steps.now)) }
    ensures len { result ≡ length (steps_field steps.now) }
    ensures few { result < 2 ^ 33 }
{
    HALF + (HALF + WORD + 1) * steps.len()
}

/// Values of a set: their count, and a number for each.
fn values_len(values: &Values) -> usize
    requires { IsTrue (is_half (length values.now)) }
    ensures len { result ≡ length (values_field values.now) }
    ensures few { result < 2 ^ 33 }
{
    HALF + WORD * values.len()
}

/// Variables: their count, and an index and a value for each.
fn vars_len(vars: &Vars) -> usize
    requires { IsTrue (are_vars vars.now) }
    ensures len { result ≡ length (vars_field vars.now) }
    ensures few { result < 2 ^ 33 }
{
    HALF + (HALF + WORD) * vars.len()
}

/// A deed: its name and its body.
fn deed_len(deed: &PackedDeed) -> usize
    requires { IsTrue (is_deed deed.now) }
    ensures len { result ≡ length (deed_field deed.now) }
    ensures few { result < 2 ^ 34 }
{
    NAME + text_len(&deed.body)
}

/// The deeds of a parcel: their count in one byte, and each of them.
fn deeds_len(deeds: &PackedDeeds) -> usize
    requires { IsTrue (are_deeds deeds.now) }
    ensures len { result ≡ length (deeds_field deeds.now) }
    ensures few { result < 2 ^ 43 }
{
    let mut len = 1;
    for deed in deeds.as_slice() {
        len += deed_len(deed);
    }
    len
}

/// A call that one node asks another to carry out: its code and its arguments.
fn call_len(call: &Call) -> usize
    requires { IsTrue (is_call call.now) }
    ensures len { result ≡ length (call_bytes call.now) }
    ensures few { result < 2 ^ 34 }
{
    match call {
        Call::Kill { .. } => 1 + WORD + 1,
        Call::MsgGet { .. } => 1 + WORD + 2,
        Call::MsgSnd { text, .. } => 1 + 2 * WORD + text_len(text) + 1,
        Call::MsgRcv { .. } => 1 + 3 * WORD + 2,
        Call::MsgSet { .. } => 1 + 2 * WORD,
        Call::SemGet { .. } => 1 + 2 * WORD + 2,
        Call::SemOp { steps, .. } => 1 + WORD + steps_len(steps),
        Call::SemGetVal { .. }
        | Call::SemGetPid { .. }
        | Call::SemGetNcnt { .. }
        | Call::SemGetZcnt { .. } => 1 + WORD + HALF,
        Call::SemSetVal { .. } => 1 + WORD + HALF + WORD,
        Call::SemSetAll { values, .. } => 1 + WORD + values_len(values),
        Call::MsgStat { .. }
        | Call::MsgRmid { .. }
        | Call::SemGetAll { .. }
        | Call::SemRmid { .. } => 1 + WORD,
        _ => unreachable!(),
    }
}

/// A call that ends a process: its code and its argument.
fn last_call_len(call: &Call) -> usize
    requires { IsTrue (is_last_call call.now) }
    ensures len { result ≡ length (call_bytes call.now) }
    ensures few { result ≤ 3 }
{
    match call {
        Call::Exit { .. } => 1 + HALF,
        Call::Killed { .. } => 1 + 1,
        _ => unreachable!(),
    }
}

/// A reply that goes from node to node: its code and its values.
fn reply_len(reply: &Reply) -> usize
    requires { IsTrue (is_reply reply.now) }
    ensures len { result ≡ length (reply_bytes reply.now) }
    ensures few { result < 2 ^ 34 }
{
    match reply {
        Reply::Num(_) => 1 + WORD,
        Reply::Message { text, .. } => 1 + WORD + text_len(text),
        Reply::Stat { .. } => 1 + 4 * WORD,
        Reply::All(values) => 1 + values_len(values),
        Reply::Fail(_) => 1 + 1,
        _ => unreachable!(),
    }
}

/// A parcel: the process and its parent, its last call and the deeds.
fn parcel_len(parcel: &Parcel) -> usize
    requires { IsTrue (is_parcel parcel.now) }
    ensures len { result ≡ length (parcel_field parcel.now) }
    ensures few { result < 2 ^ 44 }
{
    2 * WORD + last_call_len(&parcel.call) + deeds_len(&parcel.deeds)
}

/// What stands behind the frame's length: the code of its kind and the kind's fields.
#[inline(always)]
pub(crate) fn body_len(frame: &Frame) -> usize
    requires { IsTrue (has_fields frame.now) }
    ensures { result ≡ length (frame_body frame.now) }
{
    match frame {
        Frame::Ask { call, .. } => 1 + 2 * WORD + call_len(call),
        Frame::Request { call, .. } => 1 + 2 * WORD + call_len(call),
        Frame::Forward { asked } => 1 + 1 + 2 * WORD + call_len(&asked.call),
        Frame::Bounce { asked } => 1 + 1 + 2 * WORD + call_len(&asked.call),
        Frame::Answer { reply, .. } => 1 + WORD + reply_len(reply),
        Frame::NotOwner { .. } => 1 + WORD,
        Frame::LeaseAsk { .. } => 1 + 1,
        Frame::Lease { .. } => 1 + 1 + WORD,
        Frame::Placed { .. } | Frame::Suggest { .. } => 1 + NAME + 1,
        Frame::Checkpoint { deed, vars, .. } => 1 + 2 * WORD + deed_len(deed) + vars_len(vars),
        Frame::Recall { .. } => 1 + NAME,
        Frame::GiveBack { deed } => 1 + deed_len(deed),
        Frame::Grant { deed } => 1 + deed_len(deed),
        Frame::Leaving { .. } => 1 + 2 * WORD + 1,
        Frame::RecallAll => 1,
        Frame::Left { parcel } => 1 + parcel_len(parcel),
        Frame::ExitTo { parcel } => 1 + parcel_len(parcel),
        Frame::Cancel { .. } => 1 + 1 + 2 * WORD + 1 + NAME,
    }
}
