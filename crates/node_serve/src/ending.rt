//! A process ends where its parent's deed is.
ghost use Rattle.std.specs.Prelude.{◌≡◌, ◌+◌, ◌<◌, ◌≤◌, IfOk, IfErr, IsTrue, None, OnErr, OnOk, Some, fold};
ghost use Rattle.std.specs.List.{IsDistinct};
ghost use Rattle.kernel_model.specs.Row.{ignores_children, lists};
ghost use Rattle.node_model.specs.Kinds.{get_named, is_same_name};
ghost use Rattle.pico_base.specs.declared.numbers.Name.TheVariants.{Proc};
ghost use Rattle.node_model.specs.Parcels.{ending_of};
ghost use Rattle.deed_box.specs.Deeds.{AreAbsent};
ghost use Rattle.deed_box.specs.Packing.{SomeIsNoDeed, names_of};
ghost use Rattle.node_serve.specs.Bodies.{body_of, row_of};
ghost use Rattle.node_serve.specs.Ending.{AnswersAt, Commits, EndsAsInKernels, NotesEnd, TakesThenWakes, WakesParent, answered, bury_but, child_after, fits_as_read, gone_held, keeps, kept_as, lets, lists_child, lives, parent_after, replace_held, row_after};
ghost use Rattle.node_serve.specs.Serving.{child_in};
ghost use Rattle.node_serve.specs.Waits.{alone};
ghost use Rattle.node_serve.specs.Spelled.{IsSpelled, suits};
ghost use Rattle.pico_base.specs.declared.fault.UnpackFault.TheVariants.{NotABody};
ghost use Rattle.node_serve.specs.declared.ending.ServeFault.TheVariants.{NotABody as NoBody};

use crate::rows::reap;
use crate::serving::{bury, child_in};
use crate::{Body, Row};
use deed_box::Deeds;
use pico_base::{Call, Ending, Memory, Name, Pid, Reply, Sig, UnpackFault};
use rpc_frame::{PackedDeed, Parcel};
use std::alloc::Global;
use thiserror::Error;

/// Why the end of a process was not carried out.
#[derive(Clone, Copy, Debug, PartialEq, Eq, Error)]
pub enum ServeFault {
    /// An allocation was refused.
    #[error("out of memory")]
    Memory,
    /// The bytes of a deed of the parcel spell no body that goes with its name.
    #[error("not a body")]
    NotABody,
}

/// The same want of a deed's bytes.
fn fault_of(fault: UnpackFault) -> ServeFault
    ensures { result ≡ NoBody → fault ≡ NotABody }
{
    match fault {
        UnpackFault::Memory => ServeFault::Memory,
        UnpackFault::NotABody => ServeFault::NotABody,
    }
}

/// The ending that a call gives its caller: the low eight bits of an exit's status, or a signal.
pub(crate) fn ending_of(call: &Call) -> Ending
    ensures { result ≡ ending_of call.now }
{
    match call {
        Call::Killed { sig } => Ending::Killed(*sig),
        Call::Exit { status } => Ending::Exited((*status % 256) as u8),
        _ => Ending::Exited(0),
    }
}

/// A child of this row's process has ended. What becomes of the child: its ending is kept, unless it is ignored.
fn end_child_of(row: &mut Row, child: Pid, ending: Ending) -> Body
    requires { IsTrue (lists row.old.family child) }
    ensures parent { row_of row.new ≡ row_after (row_of row.old) child ending }
    ensures child { body_of result ≡ kept_as (ignores_children (row_of row.old)) ending }
{
    let ignored = row.signals.ignores(Sig::Chld);
    row.family.child_ended(child, ending, ignored);
    if ignored {
        return Body::Gone;
    }
    row.signals.raise(Sig::Chld);
    Body::Ended(ending)
}

/// The parent of a process that ends. What becomes of the process.
pub(crate) fn end_child(parent: &mut Body, child: Pid, ending: Ending) -> Body
    ensures parent { body_of parent.new ≡ parent_after (body_of parent.old) child ending }
    ensures child { body_of result ≡ child_after (body_of parent.old) child ending }
{
    match parent {
        Body::Living(row) if row.family.lists(child) => end_child_of(row, child, ending),
        _ => Body::Gone,
    }
}

/// The names of packed deeds, in order.
fn names_of(alloc: Global, deeds: &[PackedDeed]) -> Result<Vec<Name>, Memory>
    ensures { IfOk result (λ names. names.items ≡ names_of deeds.now) }
{
    let mut names = Vec::with_capacity(alloc, deeds.len())?;
    for deed in deeds {
        names.push(deed.name)?;
    }
    Ok(names)
}

/// Another body for a name, where that is held.
fn replace(deeds: &mut Deeds<Body>, name: Name, body: Body)
    ensures bodies { deeds.new.bodies ≡ replace_held deeds.old.bodies name body }
    ensures spare { deeds.new.spare ≡ deeds.old.spare }
{
    if let Some(held) = deeds.get_mut(name) {
        *held = body;
    }
}

/// All of these that are held are gone.
fn bury_all(deeds: &mut Deeds<Body>, names: &[Name])
    ensures bodies { deeds.new.bodies ≡ fold gone_held deeds.old.bodies names.now }
    ensures spare { deeds.new.spare ≡ deeds.old.spare }
{
    for name in names {
        replace(deeds, *name, Body::Gone);
    }
}

/// Whether the body is a living process's that lists the child.
fn lists(body: &Body, child: Pid) -> bool
    ensures { result ≡ lists_child child (Some (body_of body.now)) }
{
    match body {
        Body::Living(row) => row.family.lists(child),
        _ => false,
    }
}

/// Whether the parent's deed is held, and the parent lists the child.
fn keeps(deeds: &Deeds<Body>, parent: Pid, child: Pid) -> bool
    ensures { result ≡ keeps deeds.now.bodies parent child }
{
    match deeds.get(Name::Proc(parent)) {
        Some(body) => lists(body, child),
        None => false,
    }
}

/// A parent that is held and lists the child notes its end. What becomes of the child.
fn note_end(deeds: &mut Deeds<Body>, parent: Pid, child: Pid, ending: Ending) -> Body
    ensures notes { NotesEnd deeds.old.bodies parent child ending deeds.new.bodies result }
    ensures spare { deeds.new.spare ≡ deeds.old.spare }
{
    if !keeps(deeds, parent, child) {
        return Body::Gone;
    }
    match deeds.get_mut(Name::Proc(parent)) {
        Some(body) => end_child(body, child, ending),
        None => Body::Gone,
    }
}

/// Whether the parent's deed is held, and it lives.
fn lives(deeds: &Deeds<Body>, parent: Pid) -> bool
    ensures { result ≡ lives (get_named deeds.now.bodies (Proc parent)) }
{
    match deeds.get(Name::Proc(parent)) {
        Some(body) => matches!(body, Body::Living(_)),
        None => false,
    }
}

/// The process with this body waits for its children. Its reply, if it has one now.
fn answer(body: &mut Body, child: Option<Pid>) -> Option<Reply>
    ensures { answered (body_of body.old) child ≡ alone (body_of body.new) result }
{
    match body {
        Body::Living(row) => reap(row, child, false),
        _ => None,
    }
}

/// The parent, which is held, waits for its children. Its reply, if it has one now.
fn answer_at(deeds: &mut Deeds<Body>, parent: Pid, child: Option<Pid>) -> Option<Reply>
    ensures answers { AnswersAt deeds.old.bodies parent child deeds.new.bodies result }
    ensures spare { deeds.new.spare ≡ deeds.old.spare }
{
    match deeds.get_mut(Name::Proc(parent)) {
        Some(body) => answer(body, child),
        None => None,
    }
}

/// The child that a reply names is gone, unless it is the parent itself.
fn bury_but(deeds: &mut Deeds<Body>, parent: Pid, own: &Option<Reply>)
    requires { 0 < deeds.old.spare }
    ensures { deeds.new.bodies ≡ bury_but parent (child_in own.now) deeds.old.bodies }
{
    match child_in(own) {
        Some(child) if child.0 != parent.0 => bury(deeds, child),
        _ => {}
    }
}

/// The parent may be parked in `waitpid`, for these children. Its reply, if it has one now; the child that it found is
/// gone.
fn wake_parent(deeds: &mut Deeds<Body>, parent: Pid, awaits: Option<Option<Pid>>) -> Option<Reply>
    requires { 0 < deeds.old.spare }
    ensures { WakesParent deeds.old.bodies parent awaits deeds.new.bodies result }
{
    let Some(child) = awaits else {
        return None;
    };
    if !lives(deeds, parent) {
        return None;
    }
    let own = answer_at(deeds, parent, child);
    bury_but(deeds, parent, &own);
    own
}

/// Room for so many deeds, and for one more.
fn reserve_beyond(deeds: &mut Deeds<Body>, count: usize) -> Result<(), Memory>
    ensures room { OnOk result (count + 1 ≤ deeds.new.spare) }
    ensures same { deeds.new.bodies ≡ deeds.old.bodies }
{
    if count >= u32::MAX as usize {
        return Err(Memory);
    }
    deeds.reserve(count as u32 + 1)
}

/// Takes the deeds of a parcel where its process's parent is, and ends the process; the parent may be parked in
/// `waitpid`, for these children. A refusal changes no deed and hands the parcel back.
fn take_parcel(
    alloc: Global,
    deeds: &mut Deeds<Body>,
    parcel: Parcel,
    awaits: Option<Option<Pid>>,
) -> Result<Option<Reply>, (ServeFault, Parcel)>
    requires distinct { IsDistinct is_same_name (names_of parcel.deeds) }
    requires absent { AreAbsent deeds.old.bodies (names_of parcel.deeds) }
    ensures ok { IfOk result (TakesThenWakes deeds.old.bodies parcel awaits deeds.new.bodies) }
    ensures not_a_body { IfErr result (λ back. back.0 ≡ NoBody → SomeIsNoDeed suits IsSpelled parcel.deeds) }
    ensures err { OnErr result (deeds.new.bodies ≡ deeds.old.bodies) }
    ensures back { IfErr result (λ back. back.1 ≡ parcel) }
{
    let names = match names_of(alloc, parcel.deeds.as_slice()) {
        Ok(names) => names,
        Err(_) => return Err((ServeFault::Memory, parcel)),
    };
    if reserve_beyond(deeds, parcel.deeds.len()).is_err() {
        return Err((ServeFault::Memory, parcel));
    }
    let Parcel {
        pid,
        parent,
        call,
        deeds: packed,
    } = parcel;
    if let Err((fault, deeds)) = deeds.put_packed(packed) {
        let parcel = Parcel {
            pid,
            parent,
            call,
            deeds,
        };
        return Err((fault_of(fault), parcel));
    }
    let kept = note_end(deeds, parent, pid, ending_of(&call));
    bury_all(deeds, names.as_slice());
    replace(deeds, Name::Proc(pid), kept);
    Ok(wake_parent(deeds, parent, awaits))
}

/// Ends the process of a parcel where its parent's deed is. The parent notes the end, if it lives; all processes of the
/// parcel are gone, but for the one that ends where its parent keeps its ending. Where the parent is parked in a
/// `waitpid` that waits for these children it may have its reply, which is given; a child that it found is gone. `ok`
/// says so by the definition of an exit that is carried out, and `kernel`, of a parent that isn't parked, by the
/// transition of any valid kernel that agrees with the deeds and the parcel. A refusal changes no deed and hands the
/// parcel back; NotABody comes exactly where a deed of the parcel spells no body that goes with its name.
pub fn commit_exit(
    alloc: Global,
    deeds: &mut Deeds<Body>,
    parcel: Parcel,
    awaits: Option<Option<Pid>>,
) -> Result<Option<Reply>, (ServeFault, Parcel)>
    requires parent { IsTrue (lets parcel.pid (get_named deeds.old.bodies (Proc parcel.parent))) }
    requires absent { AreAbsent deeds.old.bodies (names_of parcel.deeds) }
    requires fits { IsTrue (fits_as_read parcel) }
    ensures ok { IfOk result (Commits deeds.old.bodies parcel awaits deeds.new.bodies) }
    ensures kernel { OnOk result (awaits ≡ None → EndsAsInKernels deeds.old.bodies parcel deeds.new.bodies) }
    ensures not_a_body { IfErr result (λ back. back.0 ≡ NoBody → SomeIsNoDeed suits IsSpelled parcel.deeds) }
    ensures err { OnErr result (deeds.new.bodies ≡ deeds.old.bodies) }
    ensures back { IfErr result (λ back. back.1 ≡ parcel) }
{
    take_parcel(alloc, deeds, parcel, awaits)
}
