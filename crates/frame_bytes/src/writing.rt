//! Frames as they are written: each function adds a field at the end, and finds its numbers in their types' ranges.
ghost use Rattle.std.specs.Prelude.{◌≡◌, ◌++◌, ◌∷◌, [], FitsSigned, IsTrue, length, OnOk};
ghost use Rattle.std.specs.Int.{to_be_bytes, w16, w32};
ghost use Rattle.std.specs.List.{AllByRecursion};
ghost use Rattle.frame_bytes.specs.Fields.{IsHalf, IsNode, IsWord, flag_byte, half, kind_byte, name_field, sigarg_byte, signed, text, word};
ghost use Rattle.frame_bytes.specs.Calls.{call_bytes, steps_field, values_field};
ghost use Rattle.frame_bytes.specs.Replies.{reply_bytes};
ghost use Rattle.frame_bytes.specs.Frames.{asked_field, asking, deed_field, deeds_field, frame_body, parcel_field, vars_field};
ghost use Rattle.frame_bytes.specs.Limits.{are_deeds, are_vars, has_fields, is_call, is_count, is_deed, is_half, is_last_call, is_parcel, is_reply, is_text, is_withdrawal};
ghost use Rattle.frame_bytes.specs.Ranges.{HasAskedRanges, HasAskingRanges, HasCallRanges, HasCheckpointRanges, HasDeedRange, HasNameRange, HasParcelRanges, HasRanges, HasReplyRanges, HasStepRanges, HasValueRanges};

use crate::many::put_many;
use byteorder::{BigEndian, ByteOrder};
use pico_base::{Bytes, Call, Kind, Memory, Name, Node, Pid, Reply, SigArg, Steps, Values, Vars};
use rpc_frame::{Asked, Frame, PackedDeed, PackedDeeds, Parcel};

/// A number in 4 bytes, the high ones first.
fn four_bytes(number: u32) -> [u8; 4]
    ensures { result ≡ to_be_bytes w32 number }
{
    let mut bytes = [0; 4];
    BigEndian::write_u32(&mut bytes, number);
    bytes
}

/// A number in 2 bytes, the high one first.
fn two_bytes(number: u16) -> [u8; 2]
    ensures { result ≡ to_be_bytes w16 number }
{
    let mut bytes = [0; 2];
    BigEndian::write_u16(&mut bytes, number);
    bytes
}

pub(crate) fn put_text(out: &mut Vec<u8>, bytes: &Bytes) -> Result<(), Memory>
    requires { IsTrue (is_text bytes.now) }
    ensures { OnOk result (out.new.items ≡ out.old.items ++ text bytes.now) }
{
    out.extend_from_slice(&four_bytes(bytes.len() as u32))?;
    out.extend_from_slice(bytes.as_slice())?;
    Ok(())
}

pub(crate) fn put_word(out: &mut Vec<u8>, number: u32) -> Result<(), Memory>
    ensures bytes { OnOk result (out.new.items ≡ out.old.items ++ word number) }
    ensures fits { OnOk result (IsWord number) }
{
    out.extend_from_slice(&four_bytes(number))?;
    Ok(())
}

pub(crate) fn put_flag(out: &mut Vec<u8>, flag: bool) -> Result<(), Memory>
    ensures { OnOk result (out.new.items ≡ out.old.items ++ flag_byte flag ∷ []) }
{
    out.push(u8::from(flag))?;
    Ok(())
}

pub(crate) fn put_signed(out: &mut Vec<u8>, number: i32) -> Result<(), Memory>
    ensures { OnOk result (out.new.items ≡ out.old.items ++ signed number) }
{
    out.extend_from_slice(&four_bytes(number.cast_unsigned()))?;
    Ok(())
}

fn put_steps(out: &mut Vec<u8>, steps: &Steps) -> Result<(), Memory>
    requires { IsTrue (is_count (length steps.now)) }
    ensures bytes { OnOk result (out.new.items ≡ out.old.items ++ steps_field steps.now) }
    ensures fits { OnOk result (AllByRecursion HasStepRanges steps.now) }
{
    out.extend_from_slice(&two_bytes(steps.len() as u16))?;
    put_many(out, steps.as_slice())?;
    Ok(())
}

fn put_values(out: &mut Vec<u8>, values: &Values) -> Result<(), Memory>
    requires { IsTrue (is_half (length values.now)) }
    ensures bytes { OnOk result (out.new.items ≡ out.old.items ++ values_field values.now) }
    ensures fits { OnOk result (AllByRecursion IsWord values.now) }
{
    out.extend_from_slice(&two_bytes(values.len() as u16))?;
    put_many(out, values.as_slice())?;
    Ok(())
}

pub(crate) fn put_name(out: &mut Vec<u8>, name: Name) -> Result<(), Memory>
    ensures bytes { OnOk result (out.new.items ≡ out.old.items ++ name_field name) }
    ensures fits { OnOk result (HasNameRange name) }
{
    let (kind, number) = match name {
        Name::Proc(pid) => (1, pid.0),
        Name::Msg(id) => (2, id.0),
        Name::Sem(id) => (3, id.0),
    };
    out.push(kind)?;
    put_word(out, number)?;
    Ok(())
}

pub(crate) fn put_deed(out: &mut Vec<u8>, deed: &PackedDeed) -> Result<(), Memory>
    requires { IsTrue (is_deed deed.now) }
    ensures bytes { OnOk result (out.new.items ≡ out.old.items ++ deed_field deed.now) }
    ensures fits { OnOk result (HasDeedRange deed.now) }
{
    put_name(out, deed.name)?;
    put_text(out, &deed.body)?;
    Ok(())
}

fn sigarg_byte(sig: SigArg) -> u8
    ensures { result ≡ sigarg_byte sig }
{
    match sig {
        SigArg::Zero | SigArg::Bad => 0,
        SigArg::Is(sig) => sig as u8,
    }
}

fn kind_byte(kind: Kind) -> u8
    ensures { result ≡ kind_byte kind }
{
    match kind {
        Kind::Proc => 1,
        Kind::Msg => 2,
        Kind::Sem => 3,
    }
}

/// Adds a code, and a number of 4 bytes.
fn put_one(out: &mut Vec<u8>, code: u8, number: u32) -> Result<(), Memory>
    ensures bytes { OnOk result (out.new.items ≡ out.old.items ++ code ∷ word number) }
    ensures fits { OnOk result (IsWord number) }
{
    out.push(code)?;
    put_word(out, number)
}

/// Adds a code, an identifier, and the number of a semaphore.
fn put_number(out: &mut Vec<u8>, code: u8, id: u32, num: u16) -> Result<(), Memory>
    ensures bytes { OnOk result (out.new.items ≡ out.old.items ++ code ∷ (word id ++ half num)) }
    ensures fits { OnOk result (IsWord id × IsHalf num) }
{
    put_one(out, code, id)?;
    out.extend_from_slice(&num.to_be_bytes())?;
    Ok(())
}

fn put_flags(out: &mut Vec<u8>, first: bool, second: bool) -> Result<(), Memory>
    ensures { OnOk result (out.new.items ≡ out.old.items ++ flag_byte first ∷ flag_byte second ∷ []) }
{
    put_flag(out, first)?;
    put_flag(out, second)
}

fn put_get(out: &mut Vec<u8>, key: u32, create: bool, excl: bool) -> Result<(), Memory>
    ensures bytes { OnOk result (out.new.items
        ≡ out.old.items ++ 2 ∷ (word key ++ flag_byte create ∷ flag_byte excl ∷ [])) }
    ensures fits { OnOk result (IsWord key) }
{
    put_one(out, 2, key)?;
    put_flags(out, create, excl)
}

fn put_set_get(
    out: &mut Vec<u8>,
    key: u32,
    count: u32,
    create: bool,
    excl: bool,
) -> Result<(), Memory>
    ensures bytes { OnOk result (out.new.items
        ≡ out.old.items ++ 8 ∷ (word key ++ (word count ++ flag_byte create ∷ flag_byte excl ∷ []))) }
    ensures fits { OnOk result (IsWord key × IsWord count) }
{
    put_one(out, 8, key)?;
    put_word(out, count)?;
    put_flags(out, create, excl)
}

/// Adds a code, an identifier, and a message's type.
fn put_typed(out: &mut Vec<u8>, code: u8, id: u32, class: i32) -> Result<(), Memory>
    ensures bytes { OnOk result (out.new.items ≡ out.old.items ++ code ∷ (word id ++ signed class)) }
    ensures fits { OnOk result (IsWord id × FitsSigned w32 class) }
{
    put_one(out, code, id)?;
    put_signed(out, class)
}

fn put_send(
    out: &mut Vec<u8>,
    id: u32,
    class: i32,
    bytes: &Bytes,
    nowait: bool,
) -> Result<(), Memory>
    requires { IsTrue (is_text bytes.now) }
    ensures bytes { OnOk result (out.new.items
        ≡ out.old.items ++ 3 ∷ (word id ++ (signed class ++ (text bytes.now ++ flag_byte nowait ∷ [])))) }
    ensures fits { OnOk result (IsWord id × FitsSigned w32 class) }
{
    put_typed(out, 3, id, class)?;
    put_text(out, bytes)?;
    put_flag(out, nowait)
}

fn put_receive(
    out: &mut Vec<u8>,
    id: u32,
    class: i32,
    size: u32,
    noerror: bool,
    nowait: bool,
) -> Result<(), Memory>
    ensures bytes { OnOk result (out.new.items
        ≡ out.old.items ++ 4
        ∷ (word id ++ (signed class ++ (word size ++ flag_byte noerror ∷ flag_byte nowait ∷ [])))) }
    ensures fits { OnOk result (IsWord id × FitsSigned w32 class × IsWord size) }
{
    put_typed(out, 4, id, class)?;
    put_word(out, size)?;
    put_flags(out, noerror, nowait)
}

/// Adds a call that one node asks another to carry out.
fn put_call(out: &mut Vec<u8>, call: &Call) -> Result<(), Memory>
    requires { IsTrue (is_call call.now) }
    ensures bytes { OnOk result (out.new.items ≡ out.old.items ++ call_bytes call.now) }
    ensures fits { OnOk result (HasCallRanges call.now) }
{
    match call {
        Call::Kill { pid, sig } => {
            put_one(out, 1, pid.0)?;
            out.push(sigarg_byte(*sig))?;
            Ok(())
        }
        Call::MsgGet {
            key: Some(key),
            create,
            excl,
        } => put_get(out, key.0, *create, *excl),
        Call::MsgSnd {
            id,
            class,
            text,
            nowait,
        } => put_send(out, id.0, *class, text, *nowait),
        Call::MsgRcv {
            id,
            class,
            size,
            noerror,
            nowait,
        } => put_receive(out, id.0, *class, *size, *noerror, *nowait),
        Call::MsgStat { id } => put_one(out, 5, id.0),
        Call::MsgSet { id, qbytes } => {
            put_one(out, 6, id.0)?;
            put_word(out, *qbytes)
        }
        Call::MsgRmid { id } => put_one(out, 7, id.0),
        Call::SemGet {
            key: Some(key),
            count,
            create,
            excl,
        } => put_set_get(out, key.0, *count, *create, *excl),
        Call::SemOp { id, steps } => {
            put_one(out, 9, id.0)?;
            put_steps(out, steps)
        }
        Call::SemGetVal { id, num } => put_number(out, 10, id.0, *num),
        Call::SemSetVal { id, num, value } => {
            put_number(out, 11, id.0, *num)?;
            put_word(out, *value)
        }
        Call::SemGetAll { id } => put_one(out, 12, id.0),
        Call::SemSetAll { id, values } => {
            put_one(out, 13, id.0)?;
            put_values(out, values)
        }
        Call::SemGetPid { id, num } => put_number(out, 14, id.0, *num),
        Call::SemGetNcnt { id, num } => put_number(out, 15, id.0, *num),
        Call::SemGetZcnt { id, num } => put_number(out, 16, id.0, *num),
        Call::SemRmid { id } => put_one(out, 17, id.0),
        _ => unreachable!(),
    }
}

/// Adds a call that ends a process.
fn put_last_call(out: &mut Vec<u8>, call: &Call) -> Result<(), Memory>
    requires { IsTrue (is_last_call call.now) }
    ensures bytes { OnOk result (out.new.items ≡ out.old.items ++ call_bytes call.now) }
    ensures fits { OnOk result (HasCallRanges call.now) }
{
    match call {
        Call::Exit { status } => {
            out.push(18)?;
            out.extend_from_slice(&status.to_be_bytes())?;
            Ok(())
        }
        Call::Killed { sig } => {
            out.push(19)?;
            out.push(*sig as u8)?;
            Ok(())
        }
        _ => unreachable!(),
    }
}

fn put_stat(out: &mut Vec<u8>, qnum: u32, qbytes: u32, lspid: u32, lrpid: u32) -> Result<(), Memory>
    ensures bytes { OnOk result (out.new.items
        ≡ out.old.items ++ 3 ∷ (word qnum ++ (word qbytes ++ (word lspid ++ word lrpid)))) }
    ensures fits { OnOk result (IsWord qnum × IsWord qbytes × IsWord lspid × IsWord lrpid) }
{
    put_one(out, 3, qnum)?;
    put_word(out, qbytes)?;
    put_word(out, lspid)?;
    put_word(out, lrpid)
}

fn put_message(out: &mut Vec<u8>, class: i32, bytes: &Bytes) -> Result<(), Memory>
    requires { IsTrue (is_text bytes.now) }
    ensures bytes { OnOk result (out.new.items ≡ out.old.items ++ 2 ∷ (signed class ++ text bytes.now)) }
    ensures fits { OnOk result (FitsSigned w32 class) }
{
    out.push(2)?;
    put_signed(out, class)?;
    put_text(out, bytes)
}

/// Adds a reply that goes from node to node.
fn put_reply(out: &mut Vec<u8>, reply: &Reply) -> Result<(), Memory>
    requires { IsTrue (is_reply reply.now) }
    ensures bytes { OnOk result (out.new.items ≡ out.old.items ++ reply_bytes reply.now) }
    ensures fits { OnOk result (HasReplyRanges reply.now) }
{
    match reply {
        Reply::Num(number) => put_one(out, 1, *number),
        Reply::Message { class, text } => put_message(out, *class, text),
        Reply::Stat {
            qnum,
            qbytes,
            lspid,
            lrpid,
        } => put_stat(out, *qnum, *qbytes, lspid.0, lrpid.0),
        Reply::All(values) => {
            out.push(4)?;
            put_values(out, values)
        }
        Reply::Fail(errno) => {
            out.push(5)?;
            out.push(*errno as u8)?;
            Ok(())
        }
        _ => unreachable!(),
    }
}

fn put_vars(out: &mut Vec<u8>, vars: &Vars) -> Result<(), Memory>
    requires { IsTrue (are_vars vars.now) }
    ensures bytes { OnOk result (out.new.items ≡ out.old.items ++ vars_field vars.now) }
    ensures fits { OnOk result (AllByRecursion HasValueRanges vars.now) }
{
    out.extend_from_slice(&two_bytes(vars.len() as u16))?;
    put_many(out, vars.as_slice())
}

fn put_deeds(out: &mut Vec<u8>, deeds: &PackedDeeds) -> Result<(), Memory>
    requires { IsTrue (are_deeds deeds.now) }
    ensures bytes { OnOk result (out.new.items ≡ out.old.items ++ deeds_field deeds.now) }
    ensures fits { OnOk result (AllByRecursion HasDeedRange deeds.now) }
{
    out.push(deeds.len() as u8)?;
    put_many(out, deeds.as_slice())
}

fn put_parcel(out: &mut Vec<u8>, parcel: &Parcel) -> Result<(), Memory>
    requires { IsTrue (is_parcel parcel.now) }
    ensures bytes { OnOk result (out.new.items ≡ out.old.items ++ parcel_field parcel.now) }
    ensures fits { OnOk result (HasParcelRanges parcel.now) }
{
    put_word(out, parcel.pid.0)?;
    put_word(out, parcel.parent.0)?;
    put_last_call(out, &parcel.call)?;
    put_deeds(out, &parcel.deeds)
}

/// Adds what Ask and Request say of a call.
fn put_asking(out: &mut Vec<u8>, ticket: u32, pid: Pid, call: &Call) -> Result<(), Memory>
    requires { IsTrue (is_call call.now) }
    ensures bytes { OnOk result (out.new.items ≡ out.old.items ++ asking ticket pid call.now) }
    ensures fits { OnOk result (HasAskingRanges ticket pid call.now) }
{
    put_word(out, ticket)?;
    put_word(out, pid.0)?;
    put_call(out, call)
}

/// Adds the bytes of a call that was asked for, as Forward and Bounce bring it. A refusal of memory may leave a part of
/// them.
pub fn put_asked(out: &mut Vec<u8>, asked: &Asked) -> Result<(), Memory>
    requires { IsTrue (is_call asked.now.call) }
    ensures bytes { OnOk result (out.new.items ≡ out.old.items ++ asked_field asked.now) }
    ensures fits { OnOk result (HasAskedRanges asked.now) }
{
    put_node(out, asked.caller)?;
    put_asking(out, asked.ticket, asked.pid, &asked.call)
}

/// Adds a withdrawal that was asked for, as Cancel brings it.
fn put_cancelled(out: &mut Vec<u8>, asked: &Asked) -> Result<(), Memory>
    requires { IsTrue (is_withdrawal asked.now.call) }
    ensures bytes { OnOk result (out.new.items ≡ out.old.items ++ asked_field asked.now) }
    ensures fits { OnOk result (HasAskedRanges asked.now) }
{
    put_node(out, asked.caller)?;
    put_word(out, asked.ticket)?;
    put_word(out, asked.pid.0)?;
    put_withdrawal(out, &asked.call)
}

/// Adds a call that ends a wait at a queue or a set.
fn put_withdrawal(out: &mut Vec<u8>, call: &Call) -> Result<(), Memory>
    requires { IsTrue (is_withdrawal call.now) }
    ensures bytes { OnOk result (out.new.items ≡ out.old.items ++ call_bytes call.now) }
    ensures fits { OnOk result (HasCallRanges call.now) }
{
    match call {
        Call::Withdraw { name } => {
            out.push(20)?;
            put_name(out, *name)
        }
        _ => unreachable!(),
    }
}

fn put_node(out: &mut Vec<u8>, node: Node) -> Result<(), Memory>
    ensures bytes { OnOk result (out.new.items ≡ out.old.items ++ node ∷ []) }
    ensures fits { OnOk result (IsNode node) }
{
    out.push(node.0)?;
    Ok(())
}

/// Adds a code, a name, and a node.
fn put_place(out: &mut Vec<u8>, code: u8, name: Name, node: Node) -> Result<(), Memory>
    ensures bytes { OnOk result (out.new.items ≡ out.old.items ++ code ∷ (name_field name ++ node ∷ [])) }
    ensures fits { OnOk result (HasNameRange name × IsNode node) }
{
    out.push(code)?;
    put_name(out, name)?;
    put_node(out, node)
}

fn put_checkpoint(
    out: &mut Vec<u8>,
    pid: Pid,
    parent: Pid,
    deed: &PackedDeed,
    vars: &Vars,
) -> Result<(), Memory>
    requires deed { IsTrue (is_deed deed.now) }
    requires vars { IsTrue (are_vars vars.now) }
    ensures bytes { OnOk result (out.new.items
        ≡ out.old.items ++ 10 ∷ (word pid ++ (word parent ++ (deed_field deed.now ++ vars_field vars.now)))) }
    ensures fits { OnOk result (HasCheckpointRanges pid parent deed.now vars.now) }
{
    put_one(out, 10, pid.0)?;
    put_word(out, parent.0)?;
    put_deed(out, deed)?;
    put_vars(out, vars)
}

fn put_leaving(out: &mut Vec<u8>, pid: Pid, parent: Pid, node: Node) -> Result<(), Memory>
    ensures bytes { OnOk result (out.new.items ≡ out.old.items ++ 15 ∷ (word pid ++ (word parent ++ node ∷ []))) }
    ensures fits { OnOk result (IsWord pid × IsWord parent × IsNode node) }
{
    put_one(out, 15, pid.0)?;
    put_word(out, parent.0)?;
    put_node(out, node)
}

/// Adds a kind's code, and its fields.
pub(crate) fn put_frame(out: &mut Vec<u8>, frame: &Frame) -> Result<(), Memory>
    requires { IsTrue (has_fields frame.now) }
    ensures bytes { OnOk result (out.new.items ≡ out.old.items ++ frame_body frame.now) }
    ensures fits { OnOk result (HasRanges frame.now) }
{
    match frame {
        Frame::Ask { ticket, pid, call } => {
            out.push(1)?;
            put_asking(out, *ticket, *pid, call)
        }
        Frame::Request { ticket, pid, call } => {
            out.push(2)?;
            put_asking(out, *ticket, *pid, call)
        }
        Frame::Forward { asked } => {
            out.push(3)?;
            put_asked(out, asked)
        }
        Frame::Bounce { asked } => {
            out.push(4)?;
            put_asked(out, asked)
        }
        Frame::Answer { ticket, reply } => {
            put_one(out, 5, *ticket)?;
            put_reply(out, reply)
        }
        Frame::NotOwner { ticket } => put_one(out, 6, *ticket),
        Frame::LeaseAsk { kind } => {
            out.push(7)?;
            out.push(kind_byte(*kind))?;
            Ok(())
        }
        Frame::Lease { kind, first } => {
            out.push(8)?;
            put_one(out, kind_byte(*kind), *first)
        }
        Frame::Placed { name, node } => put_place(out, 9, *name, *node),
        Frame::Checkpoint {
            pid,
            parent,
            deed,
            vars,
        } => put_checkpoint(out, *pid, *parent, deed, vars),
        Frame::Suggest { name, node } => put_place(out, 11, *name, *node),
        Frame::Recall { name } => {
            out.push(12)?;
            put_name(out, *name)
        }
        Frame::GiveBack { deed } => {
            out.push(13)?;
            put_deed(out, deed)
        }
        Frame::Grant { deed } => {
            out.push(14)?;
            put_deed(out, deed)
        }
        Frame::Leaving {
            pid,
            parent,
            parent_node,
        } => put_leaving(out, *pid, *parent, *parent_node),
        Frame::RecallAll => {
            out.push(16)?;
            Ok(())
        }
        Frame::Left { parcel } => {
            out.push(17)?;
            put_parcel(out, parcel)
        }
        Frame::ExitTo { parcel } => {
            out.push(18)?;
            put_parcel(out, parcel)
        }
        Frame::Cancel { asked } => {
            out.push(19)?;
            put_cancelled(out, asked)
        }
    }
}
