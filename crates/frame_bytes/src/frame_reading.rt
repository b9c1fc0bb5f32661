//! Frames as they are read.
ghost use Rattle.std.specs.Prelude.{◌≡◌, ℕ, List, Some, map};
ghost use Rattle.rpc_frame.specs.declared.frame.Frame.TheVariants as frames;
ghost use Rattle.frame_bytes.specs.Readers.{Gives, pick, two, three, four};
ghost use Rattle.frame_bytes.specs.Fields.{kind_at, name_at, node_at, positive_at, rise_from, word_at};
ghost use Rattle.frame_bytes.specs.Calls.{asked_call_at};
ghost use Rattle.frame_bytes.specs.Replies.{reply_at};
ghost use Rattle.frame_bytes.specs.Frames.{process_of, are_processes, asked_at, cancelled_at, deed_at, deeds_at, frame_at, frame_rows, have_order, parcel_at, vars_at, whole_at};

use crate::call_reading::{asked_call, last_call, withdrawal};
use crate::fields::{Read, byte, half, kind, name_of, named, node, positive, text, word};
use crate::many::{Item, many};
use crate::reply_reading::reply;
use crate::writing::{put_deed, put_word};
use pico_base::{Memory, Name, Node, Pid, UnpackFault, Var, Vars};
use rpc_frame::{Asked, Frame, PackedDeed, PackedDeeds, Parcel};
use std::alloc::Global;

#[tactic(auto, unfolding(crate::specs::Frames::deed_at))]
fn deed(alloc: Global, bytes: &[u8]) -> Read<'_, PackedDeed>
    ensures { Gives (λ x. (x.0, x.1.now)) result (deed_at bytes.now) }
{
    let ((kind, number), rest) = named(bytes)?;
    let (body, rest) = text(alloc, rest)?;
    let name = name_of(kind, number);
    Ok((PackedDeed { name, body }, rest))
}

impl Item for PackedDeed {
    ghost use Rattle.std.specs.Prelude.{IsTrue};
    ghost use Rattle.frame_bytes.specs.Frames.{deed_at, deed_field};
    ghost use Rattle.frame_bytes.specs.Limits.{is_deed};
    ghost use Rattle.frame_bytes.specs.Ranges.{HasDeedRange};

    ghost reader = { deed_at };

    ghost spelling = { deed_field };

    ghost fits = { λ d. HasDeedRange d };

    ghost within = { λ d. IsTrue (is_deed d) };

    fn read(alloc: Global, bytes: &[u8]) -> Read<'_, PackedDeed> {
        deed(alloc, bytes)
    }

    fn put(&self, out: &mut Vec<u8>) -> Result<(), Memory> {
        put_deed(out, self)
    }
}

/// The number of a process, and 0 for another name.
fn process_of(name: Name) -> u32
    ensures { result ≡ process_of name }
{
    match name {
        Name::Proc(pid) => pid.0,
        Name::Msg(_) | Name::Sem(_) => 0,
    }
}

/// Whether they are deeds of processes by rising number.
pub(crate) fn are_processes(deeds: &[PackedDeed]) -> bool
    ensures { result ≡ are_processes deeds.now }
{
    let mut last = 0;
    for deed in deeds {
        let number = process_of(deed.name);
        if number <= last {
            return false;
        }
        last = number;
    }
    true
}

#[tactic(auto, unfolding(crate::specs::Frames::deeds_at))]
fn deeds(alloc: Global, bytes: &[u8]) -> Read<'_, PackedDeeds>
    ensures { Gives (λ x. (x.0, x.1.now)) result (deeds_at bytes.now) }
{
    let (count, rest) = byte(bytes)?;
    let (deeds, rest) = many(alloc, count as usize, rest)?;
    if !are_processes(deeds.as_slice()) {
        return Err(UnpackFault::NotABody);
    }
    Ok((PackedDeeds::from_vec(deeds), rest))
}

impl Item for (Var, u32) {
    ghost use Rattle.frame_bytes.specs.Frames.{value_at, value_field};
    ghost use Rattle.frame_bytes.specs.Ranges.{HasValueRanges};

    ghost reader = { value_at };

    ghost spelling = { value_field };

    ghost fits = { λ v. HasValueRanges v };

    ghost within = { λ _. Unit {0} };

    #[tactic(auto, unfolding(crate::specs::Frames::value_at, crate::specs::Frames::index_at))]
    fn read(_alloc: Global, bytes: &[u8]) -> Read<'_, (Var, u32)> {
        let (index, rest) = half(bytes)?;
        if index > 2885 {
            return Err(UnpackFault::NotABody);
        }
        let (value, rest) = word(rest)?;
        Ok(((Var(index), value), rest))
    }

    fn put(&self, out: &mut Vec<u8>) -> Result<(), Memory> {
        out.extend_from_slice(&self.0.0.to_be_bytes())?;
        put_word(out, self.1)
    }
}

/// Whether each variable's index is above the one before it.
pub(crate) fn have_order(vars: &[(Var, u32)]) -> bool
    ensures { result ≡ have_order vars.now }
{
    let mut least = 0;
    for (var, _) in vars {
        if var.0 < least {
            return false;
        }
        least = var.0 + 1;
    }
    true
}

#[tactic(auto, unfolding(crate::specs::Frames::vars_at))]
fn vars(alloc: Global, bytes: &[u8]) -> Read<'_, Vars>
    ensures { Gives (λ x. (x.0, x.1.now)) result (vars_at bytes.now) }
{
    let (count, rest) = half(bytes)?;
    let (vars, rest) = many(alloc, count as usize, rest)?;
    if !have_order(vars.as_slice()) {
        return Err(UnpackFault::NotABody);
    }
    Ok((Vars::from_vec(vars), rest))
}

#[tactic(auto, unfolding(crate::specs::Frames::parcel_at))]
fn parcel(alloc: Global, bytes: &[u8]) -> Read<'_, Parcel>
    ensures { Gives (λ x. (x.0, x.1.now)) result (parcel_at bytes.now) }
{
    let (pid, rest) = word(bytes)?;
    let (parent, rest) = word(rest)?;
    let (call, rest) = last_call(rest)?;
    let (deeds, rest) = deeds(alloc, rest)?;
    let parcel = Parcel {
        pid: Pid(pid),
        parent: Pid(parent),
        call,
        deeds,
    };
    Ok((parcel, rest))
}

/// A call that was asked for, as Forward and Bounce bring it: the node of its caller (1 byte), the ticket, the process
/// number, and the call. `NotABody` comes exactly where no such field stands there.
#[tactic(auto, unfolding(crate::specs::Frames::asked_at))]
pub fn read_asked(alloc: Global, bytes: &[u8]) -> Read<'_, Asked>
    ensures { Gives (λ x. (x.0, x.1.now)) result (asked_at bytes.now) }
{
    let (caller, rest) = node(bytes)?;
    let (ticket, rest) = positive(rest)?;
    let (pid, rest) = word(rest)?;
    let (call, rest) = asked_call(alloc, rest)?;
    let asked = Asked {
        caller: Node(caller),
        ticket,
        pid: Pid(pid),
        call,
    };
    Ok((asked, rest))
}

/// The same of a withdrawal, as Cancel brings it.
#[tactic(auto, unfolding(crate::specs::Frames::cancelled_at))]
fn cancelled(bytes: &[u8]) -> Read<'_, Asked>
    ensures { Gives (λ x. (x.0, x.1.now)) result (cancelled_at bytes.now) }
{
    let (caller, rest) = node(bytes)?;
    let (ticket, rest) = positive(rest)?;
    let (pid, rest) = word(rest)?;
    let (call, rest) = withdrawal(rest)?;
    let asked = Asked {
        caller: Node(caller),
        ticket,
        pid: Pid(pid),
        call,
    };
    Ok((asked, rest))
}

fn ask(alloc: Global, bytes: &[u8]) -> Read<'_, Frame>
    ensures { Gives (λ x. (x.0, x.1.now)) result (three positive_at word_at asked_call_at frames.Ask bytes.now) }
{
    let (ticket, rest) = positive(bytes)?;
    let (pid, rest) = word(rest)?;
    let (call, rest) = asked_call(alloc, rest)?;
    let pid = Pid(pid);
    Ok((Frame::Ask { ticket, pid, call }, rest))
}

fn request(alloc: Global, bytes: &[u8]) -> Read<'_, Frame>
    ensures { Gives (λ x. (x.0, x.1.now)) result (three positive_at word_at asked_call_at frames.Request bytes.now) }
{
    let (ticket, rest) = positive(bytes)?;
    let (pid, rest) = word(rest)?;
    let (call, rest) = asked_call(alloc, rest)?;
    let pid = Pid(pid);
    Ok((Frame::Request { ticket, pid, call }, rest))
}

fn answer(alloc: Global, bytes: &[u8]) -> Read<'_, Frame>
    ensures { Gives (λ x. (x.0, x.1.now)) result (two positive_at reply_at frames.Answer bytes.now) }
{
    let (ticket, rest) = positive(bytes)?;
    let (reply, rest) = reply(alloc, rest)?;
    Ok((Frame::Answer { ticket, reply }, rest))
}

fn lease(bytes: &[u8]) -> Read<'_, Frame>
    ensures { Gives (λ x. (x.0, x.1.now)) result (two kind_at word_at frames.Lease bytes.now) }
{
    let (kind, rest) = kind(bytes)?;
    let (first, rest) = word(rest)?;
    Ok((Frame::Lease { kind, first }, rest))
}

fn placed(bytes: &[u8]) -> Read<'_, Frame>
    ensures { Gives (λ x. (x.0, x.1.now)) result (two name_at node_at frames.Placed bytes.now) }
{
    let ((kind, number), rest) = named(bytes)?;
    let (node, rest) = node(rest)?;
    let name = name_of(kind, number);
    let node = Node(node);
    Ok((Frame::Placed { name, node }, rest))
}

fn checkpoint(alloc: Global, bytes: &[u8]) -> Read<'_, Frame>
    ensures { Gives (λ x. (x.0, x.1.now)) result (four word_at word_at deed_at vars_at frames.Checkpoint bytes.now) }
{
    let (pid, rest) = word(bytes)?;
    let (parent, rest) = word(rest)?;
    let (deed, rest) = deed(alloc, rest)?;
    let (vars, rest) = vars(alloc, rest)?;
    let frame = Frame::Checkpoint {
        pid: Pid(pid),
        parent: Pid(parent),
        deed,
        vars,
    };
    Ok((frame, rest))
}

fn suggest(bytes: &[u8]) -> Read<'_, Frame>
    ensures { Gives (λ x. (x.0, x.1.now)) result (two name_at node_at frames.Suggest bytes.now) }
{
    let ((kind, number), rest) = named(bytes)?;
    let (node, rest) = node(rest)?;
    let name = name_of(kind, number);
    let node = Node(node);
    Ok((Frame::Suggest { name, node }, rest))
}

fn leaving(bytes: &[u8]) -> Read<'_, Frame>
    ensures { Gives (λ x. (x.0, x.1.now)) result (three word_at word_at node_at frames.Leaving bytes.now) }
{
    let (pid, rest) = word(bytes)?;
    let (parent, rest) = word(rest)?;
    let (node, rest) = node(rest)?;
    let frame = Frame::Leaving {
        pid: Pid(pid),
        parent: Pid(parent),
        parent_node: Node(node),
    };
    Ok((frame, rest))
}

/// The fields of the kind with this code.
fn frame_fields(alloc: Global, code: u8, bytes: &[u8]) -> Read<'_, Frame>
    ensures { Gives (λ x. (x.0, x.1.now)) result (pick frame_rows code bytes.now) }
{
    match code {
        1 => ask(alloc, bytes),
        2 => request(alloc, bytes),
        3 => {
            let (asked, rest) = read_asked(alloc, bytes)?;
            Ok((Frame::Forward { asked }, rest))
        }
        4 => {
            let (asked, rest) = read_asked(alloc, bytes)?;
            Ok((Frame::Bounce { asked }, rest))
        }
        5 => answer(alloc, bytes),
        6 => {
            let (ticket, rest) = positive(bytes)?;
            Ok((Frame::NotOwner { ticket }, rest))
        }
        7 => {
            let (kind, rest) = kind(bytes)?;
            Ok((Frame::LeaseAsk { kind }, rest))
        }
        8 => lease(bytes),
        9 => placed(bytes),
        10 => checkpoint(alloc, bytes),
        11 => suggest(bytes),
        12 => {
            let ((kind, number), rest) = named(bytes)?;
            let name = name_of(kind, number);
            Ok((Frame::Recall { name }, rest))
        }
        13 => {
            let (deed, rest) = deed(alloc, bytes)?;
            Ok((Frame::GiveBack { deed }, rest))
        }
        14 => {
            let (deed, rest) = deed(alloc, bytes)?;
            Ok((Frame::Grant { deed }, rest))
        }
        15 => leaving(bytes),
        16 => Ok((Frame::RecallAll, bytes)),
        17 => {
            let (parcel, rest) = parcel(alloc, bytes)?;
            Ok((Frame::Left { parcel }, rest))
        }
        18 => {
            let (parcel, rest) = parcel(alloc, bytes)?;
            Ok((Frame::ExitTo { parcel }, rest))
        }
        19 => {
            let (asked, rest) = cancelled(bytes)?;
            Ok((Frame::Cancel { asked }, rest))
        }
        _ => Err(UnpackFault::NotABody),
    }
}

/// A kind's code, and its fields.
#[tactic(auto, unfolding(crate::specs::Frames::frame_at))]
fn frame(alloc: Global, bytes: &[u8]) -> Read<'_, Frame>
    ensures { Gives (λ x. (x.0, x.1.now)) result (frame_at bytes.now) }
{
    let (code, rest) = byte(bytes)?;
    frame_fields(alloc, code, rest)
}

/// The frame that all of the bytes spell. NotABody: they spell none.
#[tactic(auto, unfolding(crate::specs::Frames::whole_at))]
pub(crate) fn whole(alloc: Global, bytes: &[u8]) -> Result<Frame, UnpackFault>
    ensures { Gives (λ f. f) result (whole_at bytes.now) }
{
    let (frame, rest) = frame(alloc, bytes)?;
    if !rest.is_empty() {
        return Err(UnpackFault::NotABody);
    }
    Ok(frame)
}
