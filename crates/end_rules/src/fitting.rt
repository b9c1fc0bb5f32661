//! Whether a parcel fits a node.
ghost use Rattle.std.specs.Prelude.{◌≡◌, ◌&&◌, IfOk, Some};
ghost use Rattle.std.specs.List.{list_all};
ghost use Rattle.std.specs.Option.{option_map};
ghost use Rattle.number_maps.specs.Maps.{get};
ghost use Rattle.node_model.specs.Bodies.{is_over_body};
ghost use Rattle.node_model.specs.Parcels.{are_rising, fits_bodies, has_own_row, is_held_none, is_over_but_for, numbered_body, read_deeds};
ghost use Rattle.node_model.specs.Spelling.{read_body};
ghost use Rattle.node_serve.specs.Bodies.{bodies_of, body_of, numbered_of};
ghost use Rattle.end_rules.specs.Fitting.{fits_deeds, is_above, numbered};

use deed_box::{Deeds, Shared};
use node_serve::Body;
use pico_base::{Call, Memory, Name, Pid, UnpackFault};
use rpc_frame::{PackedDeed, Parcel};
use std::alloc::Global;

/// A process's number, and the body of its deed.
type Numbered = (u32, Body);

/// The body that the bytes are read as, under the name.
fn read(alloc: Global, name: Name, bytes: &[u8]) -> Result<Option<Body>, Memory>
    ensures { IfOk result (λ read. option_map body_of read ≡ read_body name bytes.now) }
{
    match <Body as Shared>::unpack(alloc, name, bytes) {
        Ok(body) => Ok(Some(body)),
        Err(UnpackFault::NotABody) => Ok(None),
        Err(UnpackFault::Memory) => Err(Memory),
    }
}

/// A process's deed with its number, where its bytes are those of a body.
fn numbered_body(alloc: Global, deed: &PackedDeed) -> Result<Option<Numbered>, Memory>
    ensures { IfOk result (λ read. option_map numbered read ≡ numbered_body deed.now deed.now.name) }
{
    let Name::Proc(pid) = deed.name else {
        return Ok(None);
    };
    match read(alloc, deed.name, deed.body.as_slice())? {
        Some(body) => Ok(Some((pid.0, body))),
        None => Ok(None),
    }
}

/// The bodies of all these deeds, where they are process deeds with bodies.
fn read_deeds(alloc: Global, deeds: &[PackedDeed]) -> Result<Option<Vec<Numbered>>, Memory>
    ensures { IfOk result (λ read. option_map (λ bodies. numbered_of bodies.items) read ≡ read_deeds deeds.now) }
{
    let mut bodies = Vec::with_capacity(alloc, deeds.len())?;
    for deed in deeds {
        match numbered_body(alloc, deed)? {
            Some(body) => bodies.push(body)?,
            None => return Ok(None),
        }
    }
    Ok(Some(bodies))
}

/// Whether the number may stand behind the last one.
fn is_above(last: Option<u32>, number: u32) -> bool
    ensures { result ≡ is_above last number }
{
    match last {
        Some(last) => last < number,
        None => true,
    }
}

/// Whether they stand by rising number.
fn are_rising(bodies: &[Numbered]) -> bool
    ensures { result ≡ are_rising (numbered_of bodies.now) }
{
    let mut last = None;
    for (number, _) in bodies {
        if !is_above(last, *number) {
            return false;
        }
        last = Some(*number);
    }
    true
}

/// Whether it is the body of a living process that may end by the call.
fn may_end_with(body: &Body, call: &Call) -> bool
    ensures { result ≡ has_own_row call.now (Some (body_of body.now)) }
{
    match (body, call) {
        (Body::Living(_), Call::Exit { .. }) => true,
        (Body::Living(row), Call::Killed { sig }) => row.signals.doom() == Some(*sig),
        _ => false,
    }
}

/// Whether the process's own body is there, and says that it lives and may end by the call.
fn has_own_row(bodies: &[Numbered], pid: Pid, call: &Call) -> bool
    ensures { result ≡ has_own_row call.now (get (numbered_of bodies.now) pid) }
{
    for (number, body) in bodies {
        if *number == pid.0 {
            return may_end_with(body, call);
        }
    }
    false
}

/// Whether its process has ended, or is gone.
fn is_over(body: &Body) -> bool
    ensures { result ≡ is_over_body (body_of body.now) }
{
    matches!(body, Body::Ended(_) | Body::Gone)
}

/// Whether it is this process's, or its process has ended.
fn is_over_but_for(pid: Pid, entry: &Numbered) -> bool
    ensures { result ≡ is_over_but_for pid (numbered entry.now) }
{
    entry.0 == pid.0 || is_over(&entry.1)
}

/// Whether all but this process have ended.
fn are_over_but_for(bodies: &[Numbered], pid: Pid) -> bool
    ensures { result ≡ list_all (λ entry. is_over_but_for pid (numbered entry)) bodies.now }
{
    bodies.iter().all(|entry| is_over_but_for(pid, entry))
}

/// Whether the process isn't held here.
fn is_held_none(deeds: &Deeds<Body>, entry: &Numbered) -> bool
    ensures { result ≡ is_held_none (bodies_of deeds.now.bodies) (numbered entry.now) }
{
    !deeds.has(Name::Proc(Pid(entry.0)))
}

/// Whether none of the processes is held here.
fn are_held_none(deeds: &Deeds<Body>, bodies: &[Numbered]) -> bool
    ensures { result ≡ list_all (λ entry. is_held_none (bodies_of deeds.now.bodies) (numbered entry)) bodies.now }
{
    bodies.iter().all(|entry| is_held_none(deeds, entry))
}

/// Whether all but the parcel's own process have ended, and none of them is held here.
fn are_over(deeds: &Deeds<Body>, pid: Pid, bodies: &[Numbered]) -> bool
    ensures { result ≡ (list_all (is_over_but_for pid) (numbered_of bodies.now)
        && list_all (is_held_none (bodies_of deeds.now.bodies)) (numbered_of bodies.now)) }
{
    are_over_but_for(bodies, pid) && are_held_none(deeds, bodies)
}

/// Whether the parcel, which has these bodies, fits a node with these deeds.
fn fits_bodies(deeds: &Deeds<Body>, parcel: &Parcel, bodies: &[Numbered]) -> bool
    ensures { result ≡ fits_bodies (bodies_of deeds.now.bodies) parcel.now (numbered_of bodies.now) }
{
    if !are_rising(bodies) || !has_own_row(bodies, parcel.pid, &parcel.call) {
        return false;
    }
    are_over(deeds, parcel.pid, bodies)
}

/// Whether the parcel fits a node with these deeds.
pub(crate) fn fits(alloc: Global, deeds: &Deeds<Body>, parcel: &Parcel) -> Result<bool, Memory>
    ensures { IfOk result (λ fits. fits ≡ fits_deeds (bodies_of deeds.now.bodies) parcel.now) }
{
    match read_deeds(alloc, parcel.deeds.as_slice())? {
        Some(bodies) => Ok(fits_bodies(deeds, parcel, bodies.as_slice())),
        None => Ok(false),
    }
}
