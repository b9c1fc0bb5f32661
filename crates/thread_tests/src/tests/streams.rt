//! A long frame in pieces, a sender and a taker on two threads, and what is left when both ends are together again.
ghost use Rattle.std.specs.Prelude.{◌≡◌, IfOk};

use pico_base::Memory;
use std::alloc::Global;
use std::mem::ManuallyDrop;
use std::sync::Wait;
use std::sync::atomic::{AtomicU64, Ordering};
use std::test::*;
use std::thread;
use std::thread::{Threads, join};
use stream_pair::{Bell, Company, In, Out, Piece, Rest, pair, pair_to, settle};

/// Looks that find nothing yet, of who takes beside a sender.
const PATIENCE: u32 = 1000;

/// Whether the piece has this stamp and these bytes.
fn is_piece(piece: Option<Piece>, stamp: u64, bytes: &[u8]) -> bool {
    match piece {
        Some(piece) => piece.stamp == stamp && piece.bytes.as_slice() == bytes,
        None => false,
    }
}

/// The stamp of the next piece, and how many bytes it has.
fn taken<R: Wait>(rt: &R, into: &mut In) -> Option<(u64, usize)> {
    let piece = into.take(rt)?;
    Some((piece.stamp, piece.bytes.len()))
}

/// A stream's ends that are never taken apart, so that their owners are cheaper to prove.
type Ends = (ManuallyDrop<Out>, ManuallyDrop<In>);

fn kept_pair(alloc: Global) -> Result<Ends, Memory> {
    let (out, into) = pair(alloc)?;
    Ok((ManuallyDrop::new(out), ManuallyDrop::new(into)))
}

/// Whether all three pieces of a frame of 1200 bytes came. Where an allocation was refused, the first ones come, and no
/// others.
fn are_pieces(sent: bool, pieces: [Option<(u64, usize)>; 3]) -> bool {
    if sent {
        pieces == [Some((7, 512)), Some((7, 512)), Some((7, 176))]
    } else {
        pieces[2].is_none() && (pieces[0].is_some() || pieces[1].is_none())
    }
}

#[test]
fn a_long_frame_goes_in_three_pieces(rt: HostRuntime) -> Result<(), Fail> {
    let (mut out, mut into) = kept_pair(rt.alloc())?;
    assert!(rt; taken(&rt, &mut into).is_none());
    let sent = out.send(&rt, 7, &[5; 1200]).is_ok();
    let pieces = [
        taken(&rt, &mut into),
        taken(&rt, &mut into),
        taken(&rt, &mut into),
    ];
    assert!(rt; are_pieces(sent, pieces), "{pieces:?}");
    assert!(rt; taken(&rt, &mut into).is_none());
    Ok(())
}

/// Sends three short frames, of which one is empty, and one of 513 bytes.
fn send_four<R: Wait>(rt: &R, out: &mut Out) -> Result<(), Memory>
    ensures { out.new.stream ≡ out.old.stream }
{
    out.send(rt, 1, b"one")?;
    out.send(rt, 2, b"")?;
    out.send(rt, 3, b"three")?;
    out.send(rt, 4, &[4; 513])
}

/// Whether all but the first of them is left.
fn are_left<R: Wait>(rt: &R, rest: &mut Rest) -> bool {
    is_piece(rest.next(rt), 3, b"three")
        && is_piece(rest.next(rt), 4, &[4; 512])
        && is_piece(rest.next(rt), 4, b"\x04")
        && rest.next(rt).is_none()
        && rest.next(rt).is_none()
}

#[test]
fn what_was_not_taken_is_left(rt: HostRuntime) -> Result<(), Fail> {
    let (mut out, mut into) = pair(rt.alloc())?;
    send_four(&rt, &mut out)?;
    into.tell(out.receipt());
    assert!(rt; is_piece(into.take(&rt), 1, b"one"));
    let mut rest = settle(&rt, out, into);
    assert!(rt; are_left(&rt, &mut rest));
    Ok(())
}

/// Sends 50 events of 700 bytes, each of the byte of its stamp.
fn send_fifty<R: Wait>(rt: &R, mut out: Out) -> Result<Out, Memory>
    ensures { IfOk result (λ o. o.stream ≡ out.stream) }
{
    for stamp in 1..51u8 {
        out.send(rt, u64::from(stamp), &[stamp; 700])?;
    }
    Ok(out)
}

/// Takes what comes.
fn take_some<R: Wait>(
    rt: &R,
    mut into: In,
    mut pieces: Vec<Piece>,
) -> Result<(In, Vec<Piece>), Memory>
    ensures { IfOk result (λ r. r.0.stream ≡ into.stream) }
{
    for _ in 0..PATIENCE {
        match into.take(rt) {
            Some(piece) => pieces.push(piece)?,
            None => thread::yield_now(),
        }
    }
    Ok((into, pieces))
}

/// Takes what is left, of at most 100 pieces.
fn take_rest<R: Wait>(rt: &R, rest: &mut Rest, pieces: &mut Vec<Piece>) -> Result<(), Memory> {
    for _ in 0..100 {
        if let Some(piece) = rest.next(rt) {
            pieces.push(piece)?;
        }
    }
    Ok(())
}

/// What one thread takes beside another that sends, and then what is left.
fn send_and_take<R: Threads + Wait + Sync>(rt: &R, alloc: Global) -> Result<Vec<Piece>, Memory> {
    let (out, into) = pair(alloc)?;
    let pieces = Vec::new(alloc);
    let (out, taken) = join(
        rt,
        move ||
            ensures { IfOk result (λ o. o.stream ≡ out.stream) }
        { send_fifty(rt, out) },
        move ||
            ensures { IfOk result (λ r. r.0.stream ≡ into.stream) }
        { take_some(rt, into, pieces) },
    );
    let (into, mut pieces) = taken?;
    let mut rest = settle(rt, out?, into);
    take_rest(rt, &mut rest, &mut pieces)?;
    Ok(pieces)
}

/// Whether this is the piece at that place of fifty frames of 700 bytes, each of the byte of its stamp.
fn is_of_fifty(place: usize, piece: &Piece) -> bool {
    let stamp = place as u64 / 2 + 1;
    let size = if place % 2 == 0 { 512 } else { 188 };
    piece.stamp == stamp
        && piece.bytes.len() == size
        && piece
            .bytes
            .as_slice()
            .iter()
            .all(|byte| u64::from(*byte) == stamp)
}

#[test]
fn two_threads(rt: HostRuntime) -> Result<(), Fail> {
    let pieces = send_and_take(&rt, rt.alloc())?;
    assert!(rt; pieces.len() == 100);
    for (place, piece) in pieces.iter().enumerate() {
        assert!(rt; is_of_fifty(place, piece), "{place}");
    }
    Ok(())
}

/// A new bell, which is never taken apart.
fn kept_bell(alloc: Global) -> Result<ManuallyDrop<Bell>, Memory> {
    Ok(ManuallyDrop::new(Bell::new(alloc, &Company::new(alloc)?)?))
}

fn kept_pair_to(alloc: Global, bell: &Bell) -> Result<Ends, Memory> {
    let (out, into) = pair_to(alloc, bell)?;
    Ok((ManuallyDrop::new(out), ManuallyDrop::new(into)))
}

/// Whether a send is heard until its last piece is taken, where one of two pieces was sent on the first stream and one
/// of one on the second.
fn is_heard_to_the_end<R: Wait>(rt: &R, bell: &Bell, first: &mut In, second: &mut In) -> bool {
    !bell.is_silent()
        && taken(rt, first) == Some((1, 512))
        && taken(rt, second) == Some((2, 3))
        && taken(rt, second).is_none()
        && !bell.is_silent()
        && taken(rt, first) == Some((1, 1))
        && bell.is_silent()
}

/// A send is heard until its last piece is taken, on whichever stream it came.
#[test]
fn a_bell_is_silent_where_all_is_taken(rt: HostRuntime) -> Result<(), Fail> {
    let bell = kept_bell(rt.alloc())?;
    let (mut first, mut from_first) = kept_pair_to(rt.alloc(), &bell)?;
    let (mut second, mut from_second) = kept_pair_to(rt.alloc(), &bell)?;
    assert!(rt; bell.is_silent());
    first.send(&rt, 1, &[1; 513])?;
    second.send(&rt, 2, b"two")?;
    assert!(rt; is_heard_to_the_end(&rt, &bell, &mut from_first, &mut from_second));
    from_first.were_empty(1);
    from_second.were_empty(1);
    assert!(rt; taken(&rt, &mut from_first).is_none());
    Ok(())
}

/// Sends 200 short pieces, and tells of each once its sending is over.
fn send_and_tell<R: Wait>(rt: &R, out: &mut Out, told: &AtomicU64) -> Result<(), Memory> {
    for stamp in 1..201u8 {
        out.send(rt, u64::from(stamp), b"piece")?;
        told.store(u64::from(stamp), Ordering::SeqCst);
    }
    Ok(())
}

/// Looks at both streams, by the bell where it is silent. False: it was silent while a piece that had been told of was
/// not taken.
fn takes_all_it_is_told_of<R: Wait>(
    rt: &R,
    bell: &Bell,
    first: &mut In,
    second: &mut In,
    told: (&AtomicU64, &AtomicU64),
) -> bool {
    let mut taken = 0u64;
    for _ in 0..PATIENCE {
        let known = told
            .0
            .load(Ordering::SeqCst)
            .saturating_add(told.1.load(Ordering::SeqCst));
        if bell.is_silent() {
            if taken < known {
                return false;
            }
            first.were_empty(1);
            second.were_empty(1);
            thread::yield_now();
        } else {
            taken = taken.saturating_add(u64::from(first.take(rt).is_some()));
            taken = taken.saturating_add(u64::from(second.take(rt).is_some()));
        }
    }
    true
}

/// Two senders and one receiver.
#[test]
fn no_silence_hides_a_piece(rt: HostRuntime) -> Result<(), Fail> {
    let bell = kept_bell(rt.alloc())?;
    let (mut first, mut from_first) = kept_pair_to(rt.alloc(), &bell)?;
    let (mut second, mut from_second) = kept_pair_to(rt.alloc(), &bell)?;
    let told = (AtomicU64::new(0), AtomicU64::new(0));
    let (sent, is_right) = join(
        &rt,
        || {
            join(
                &rt,
                || send_and_tell(&rt, &mut first, &told.0),
                || send_and_tell(&rt, &mut second, &told.1),
            )
        },
        || {
            takes_all_it_is_told_of(
                &rt,
                &bell,
                &mut from_first,
                &mut from_second,
                (&told.0, &told.1),
            )
        },
    );
    sent.0?;
    sent.1?;
    assert!(rt; is_right);
    for _ in 0..400 {
        from_first.take(&rt);
        from_second.take(&rt);
    }
    assert!(rt; bell.is_silent());
    Ok(())
}
