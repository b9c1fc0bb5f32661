//! Bodies as bytes, and a process's end under its parent.
ghost use Rattle.std.specs.Prelude.{◌≡◌, ◌≤◌, ◌∷◌, [], Some, IfOk, IsTrue};
ghost use Rattle.pico_base.specs.declared.numbers.Name.TheVariants.{Proc};
ghost use Rattle.deed_box.specs.Packing.{names_of, IsPackedDeed};
ghost use Rattle.node_model.specs.Bodies.{is_living_body};
ghost use Rattle.node_serve.specs.Bodies.{body_of};
ghost use Rattle.node_serve.specs.Ending.{fits_as_read, lets};
ghost use Rattle.node_serve.specs.Spelled.{suits, IsSpelled};
ghost use Rattle.node_serve.specs.declared.body.Body.TheVariants.{Ended};

use deed_box::{Deed, Deeds, Shared};
use fork_wait::Family;
use node_serve::{Body, Row, Served, Who, commit_exit, serve};
use pico_base::{
    Bytes, Call, Ending, How, Id, Memory, Name, Node, Pid, Reply, Sig, SigSet, UnpackFault,
};
use rpc_frame::{PackedDeed, PackedDeeds, Parcel};
use signal_state::Signals;
use std::alloc::Global;
use std::mem::ManuallyDrop;
use std::process::Abort;
use std::test::Fail;
use sysv_msg::HeldQueue;

/// A body that is never taken apart, so that its owner is cheaper to prove.
type Kept = ManuallyDrop<Body>;

/// Whether the bytes are those of the body that they are read as.
fn is_again(alloc: Global, name: Name, bytes: &[u8]) -> Result<bool, Fail> {
    let again: Kept = ManuallyDrop::new(Body::unpack(alloc, name, bytes)?);
    Ok(again.pack(alloc)?.as_slice() == bytes)
}

/// Whether the body's bytes are those of the body that they are read as.
fn comes_back(alloc: Global, body: &Body, name: Name) -> Result<bool, Fail> {
    let bytes = body.pack(alloc)?;
    is_again(alloc, name, bytes.as_slice())
}

/// A process that masks USR1.
fn masking(alloc: Global) -> Result<Kept, Memory> {
    let mut signals = Signals::new();
    signals.mask(How::Block, SigSet::empty().with(Sig::Usr1));
    let family = Family::new(alloc)?;
    Ok(ManuallyDrop::new(Body::Living(Row { signals, family })))
}

#[test]
fn a_process_s_body_comes_back(rt: HostRuntime) -> Result<(), Fail> {
    let body = masking(rt.alloc())?;
    assert!(rt; comes_back(rt.alloc(), &body, Name::Proc(Pid(1)))?);
    Ok(())
}

/// A queue with one message.
fn queue_with_one(alloc: Global) -> Result<Kept, Memory> {
    let text = Bytes::from_slice(alloc, b"abc")?;
    let mut queue = HeldQueue::new(alloc)?;
    let _ = queue.send(Pid(1), 1, text);
    Ok(ManuallyDrop::new(Body::Queue(queue)))
}

#[test]
fn a_queue_s_body_comes_back(rt: HostRuntime) -> Result<(), Fail> {
    let body = queue_with_one(rt.alloc())?;
    assert!(rt; comes_back(rt.alloc(), &body, Name::Msg(Id(1)))?);
    Ok(())
}

/// Whether the bytes are no body that goes with the name.
fn is_refused(alloc: Global, name: Name, bytes: &[u8]) -> bool {
    Body::unpack(alloc, name, bytes).err() == Some(UnpackFault::NotABody)
}

#[test]
fn a_removed_queue_s_body_is_no_process_s(rt: HostRuntime) -> Result<(), Fail> {
    let name = Name::Msg(Id(1));
    assert!(rt; is_again(rt.alloc(), name, &[6])?);
    assert!(rt; comes_back(rt.alloc(), &Body::Removed, name)?);
    assert!(rt; is_refused(rt.alloc(), Name::Proc(Pid(1)), &[6]));
    assert!(rt; is_refused(rt.alloc(), name, &[6, 6]));
    Ok(())
}

/// The deed of a process that has ended so.
fn ended(alloc: Global, pid: u32, ending: Ending) -> Result<PackedDeed, Memory>
    ensures { IfOk result (IsPackedDeed suits IsSpelled (Proc pid, Ended ending)) }
{
    let body = Body::Ended(ending);
    Deed::create_packed(alloc, Name::Proc(Pid(pid)), &body)
}

/// What process 2 hands over to process 1 at its end: its own deed, and those of three children that have ended.
fn parcel_of(alloc: Global, own: &Body) -> Result<Parcel, Memory>
    requires { IsTrue (is_living_body (body_of own.now)) }
    ensures fits { IfOk result (λ parcel. IsTrue (fits_as_read parcel)) }
    ensures names { IfOk result
        (λ parcel. names_of parcel.deeds ≡ Proc 2 ∷ Proc 3 ∷ Proc 4 ∷ Proc 5 ∷ []) }
    ensures process { IfOk result (λ parcel. parcel.pid ≡ 2) }
    ensures parent { IfOk result (λ parcel. parcel.parent ≡ 1) }
{
    let mut deeds = Vec::new(alloc);
    deeds.push(Deed::create_packed(alloc, Name::Proc(Pid(2)), own)?)?;
    deeds.push(ended(alloc, 3, Ending::Exited(1))?)?;
    deeds.push(ended(alloc, 4, Ending::Killed(Sig::Term))?)?;
    deeds.push(Deed::create_packed(alloc, Name::Proc(Pid(5)), &Body::Gone)?)?;
    Ok(Parcel {
        pid: Pid(2),
        parent: Pid(1),
        call: Call::Exit { status: 263 },
        deeds: PackedDeeds::from_vec(deeds),
    })
}

/// A living process with new signals and this child.
fn process_with(alloc: Global, child: Pid) -> Result<Body, Memory>
    requires { 1 ≤ child }
    ensures lives { IfOk result (λ body. IsTrue (is_living_body (body_of body))) }
    ensures suits { IfOk result (λ body. IsTrue (suits body (Proc 1))) }
    ensures lets { IfOk result (λ body. IsTrue (lets child (Some body))) }
{
    let mut family = Family::new(alloc)?;
    family.add(child);
    Ok(Body::Living(Row {
        signals: Signals::new(),
        family,
    }))
}

/// The same, where it has the child 6.
fn parcel_of_2(alloc: Global) -> Result<Parcel, Memory>
    ensures fits { IfOk result (λ parcel. IsTrue (fits_as_read parcel)) }
    ensures names { IfOk result
        (λ parcel. names_of parcel.deeds ≡ Proc 2 ∷ Proc 3 ∷ Proc 4 ∷ Proc 5 ∷ []) }
    ensures process { IfOk result (λ parcel. parcel.pid ≡ 2) }
    ensures parent { IfOk result (λ parcel. parcel.parent ≡ 1) }
{
    let own = process_with(alloc, Pid(6))?;
    parcel_of(alloc, &own)
}

/// The deeds that process 1 is left with by the end of process 2, and its reply where it waits for these children.
fn end_under_parent(
    rt: &impl Abort,
    alloc: Global,
    awaits: Option<Option<Pid>>,
) -> Result<(Deeds<Body>, Option<Reply>), Fail> {
    let parcel = parcel_of_2(alloc)?;
    let parent = process_with(alloc, Pid(2))?;
    let mut deeds: Deeds<Body> = Deeds::new(alloc)?;
    deeds.reserve(1)?;
    match deeds.put(Deed::create(Name::Proc(Pid(1)), parent)) {
        Ok(()) => {}
        Err(_) => unreachable!(),
    }
    let Ok(own) = commit_exit(alloc, &mut deeds, parcel, awaits) else {
        panic!(rt; "refused");
    };
    Ok((deeds, own))
}

/// The processes that have ended, and the bytes of their bodies: process 2 keeps its ending, and its children are gone.
static ENDED: [(u32, &[u8]); 4] = [(2, &[2, 0, 7]), (3, &[3]), (4, &[3]), (5, &[3])];

/// Whether the process's body has these bytes.
fn has_bytes(alloc: Global, deeds: &Deeds<Body>, pid: u32, bytes: &[u8]) -> Result<bool, Fail> {
    let body = deeds.get(Name::Proc(Pid(pid))).ok_or("no deed")?;
    Ok(body.pack(alloc)?.as_slice() == bytes)
}

/// Whether process 1 finds that process 2 has ended, where it asks for the end of any child.
fn finds_it(alloc: Global, deeds: &mut Deeds<Body>) -> Result<bool, Fail> {
    let wait = Call::WaitPid {
        child: None,
        nohang: true,
    };
    let who = Who {
        caller: Node(1),
        ticket: 1,
        pid: Pid(1),
    };
    match serve(alloc, deeds, &who, &wait)? {
        Served::Did { own, .. } => Ok(is_end_of_2(&own)),
        _ => Ok(false),
    }
}

fn is_end_of_2(own: &Option<Reply>) -> bool {
    let child = Reply::Child {
        pid: Pid(2),
        ending: Ending::Exited(7),
    };
    *own == Some(child)
}

#[test]
fn a_process_ends_under_its_parent(rt: HostRuntime) -> Result<(), Fail> {
    let (deeds, own) = end_under_parent(&rt, rt.alloc(), None)?;
    let mut deeds = ManuallyDrop::new(deeds);
    assert!(rt; own.is_none());
    for (pid, bytes) in &ENDED {
        assert!(rt; has_bytes(rt.alloc(), &deeds, *pid, bytes)?, "{pid}");
    }
    assert!(rt; finds_it(rt.alloc(), &mut deeds)?);
    Ok(())
}

/// A parent that waits for any child has its reply, and the child that it found is gone.
#[test]
fn a_parent_that_waits_is_woken(rt: HostRuntime) -> Result<(), Fail> {
    let (deeds, own) = end_under_parent(&rt, rt.alloc(), Some(None))?;
    let deeds = ManuallyDrop::new(deeds);
    assert!(rt; is_end_of_2(&own));
    assert!(rt; has_bytes(rt.alloc(), &deeds, 2, &[3])?);
    Ok(())
}
