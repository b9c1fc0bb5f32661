//! The names of signals, errors, actions and changes of a mask added to a text, and the text of a set of signals.
ghost use Rattle.std.specs.Prelude.{◌≡◌, [], ◌∷◌, ◌++◌, map, if◌then◌else◌, IfOk, OnOk};
ghost use Rattle.std.specs.List.{filter, list_any};
ghost use Rattle.pico_base.specs.Signal.{at, all_signals};
ghost use Rattle.kernel_model.specs.Trace as trace;

use crate::text::{push, push_byte, push_known};
use pico_base::{Act, Errno, Memory, SIGNALS, Sig, SigArg, SigSet};

// Adds a signal's name. Here and below a name is added as a constant: bytes of a number known to the compiler are
// stored, and others are copied by a call.
#[inline(never)]
fn push_signal_name(out: &mut Vec<u8>, sig: Sig) -> Result<(), Memory>
    ensures { OnOk result (out.new.items ≡ out.old.items ++ trace.signal_name sig) }
{
    match sig {
        Sig::Hup => push_known(out, b"HUP"),
        Sig::Int => push_known(out, b"INT"),
        Sig::Quit => push_known(out, b"QUIT"),
        Sig::Kill => push_known(out, b"KILL"),
        Sig::Usr1 => push_known(out, b"USR1"),
        Sig::Usr2 => push_known(out, b"USR2"),
        Sig::Pipe => push_known(out, b"PIPE"),
        Sig::Alrm => push_known(out, b"ALRM"),
        Sig::Term => push_known(out, b"TERM"),
        Sig::Chld => push_known(out, b"CHLD"),
    }
}

#[inline(never)]
pub(crate) fn push_error_name(out: &mut Vec<u8>, errno: Errno) -> Result<(), Memory>
    ensures { OnOk result (out.new.items ≡ out.old.items ++ trace.error_name errno) }
{
    match errno {
        Errno::Esrch => push_known(out, b"ESRCH"),
        Errno::Einval => push_known(out, b"EINVAL"),
        Errno::Echild => push_known(out, b"ECHILD"),
        Errno::Enoent => push_known(out, b"ENOENT"),
        Errno::Eexist => push_known(out, b"EEXIST"),
        Errno::Enomsg => push_known(out, b"ENOMSG"),
        Errno::Eagain => push_known(out, b"EAGAIN"),
        Errno::E2big => push_known(out, b"E2BIG"),
        Errno::Efbig => push_known(out, b"EFBIG"),
        Errno::Erange => push_known(out, b"ERANGE"),
        Errno::Eidrm => push_known(out, b"EIDRM"),
        Errno::Eintr => push_known(out, b"EINTR"),
    }
}

pub(crate) fn push_action_name(out: &mut Vec<u8>, act: Act) -> Result<(), Memory>
    ensures { OnOk result (out.new.items ≡ out.old.items ++ trace.action_name act) }
{
    match act {
        Act::Dfl => push(out, b"dfl"),
        Act::Ign => push(out, b"ign"),
        Act::Catch => push(out, b"catch"),
    }
}

pub(crate) fn push_signal_argument(out: &mut Vec<u8>, sig: SigArg) -> Result<(), Memory>
    ensures { OnOk result (out.new.items ≡ out.old.items ++ trace.signal_argument sig) }
{
    match sig {
        SigArg::Zero => push(out, b"0"),
        SigArg::Is(sig) => push_signal_name(out, sig),
        SigArg::Bad => push(out, b"badsig"),
    }
}

#[inline(never)]
pub(crate) fn push_signal_call(out: &mut Vec<u8>, name: &[u8], sig: Sig) -> Result<(), Memory>
    ensures { OnOk result (out.new.items ≡ out.old.items ++ name.now ++ trace.signal_name sig) }
{
    push_known(out, name)?;
    push_signal_name(out, sig)
}

// A signal's name, behind a comma where a name stands before it.
fn push_member(out: &mut Vec<u8>, begun: bool, sig: Sig) -> Result<(), Memory>
    ensures { OnOk result (out.new.items ≡ out.old.items ++ (if begun then 44 ∷ [] else []) ++ trace.signal_name sig) }
{
    if begun {
        push_byte(out, b',')?;
    }
    push_signal_name(out, sig)
}

// Which signals of the table are in the set.
fn marks_of(set: SigSet) -> [bool; 10]
    ensures { result ≡ map (at set) all_signals }
{
    [
        set.has(Sig::Hup),
        set.has(Sig::Int),
        set.has(Sig::Quit),
        set.has(Sig::Kill),
        set.has(Sig::Usr1),
        set.has(Sig::Usr2),
        set.has(Sig::Pipe),
        set.has(Sig::Alrm),
        set.has(Sig::Term),
        set.has(Sig::Chld),
    ]
}

// Adds the names of a set's signals joined by commas, and gives whether there are any.
fn push_members(out: &mut Vec<u8>, set: SigSet) -> Result<bool, Memory>
    ensures names { OnOk result
        (out.new.items ≡ out.old.items ++ trace.commas trace.signal_name (filter (at set) all_signals)) }
    ensures any { IfOk result (λ any. any ≡ list_any (at set) all_signals) }
{
    let marks = marks_of(set);
    let mut begun = false;
    for place in 0..SIGNALS.len() {
        if marks[place] {
            push_member(out, begun, SIGNALS[place])?;
            begun = true;
        }
    }
    Ok(begun)
}

/// Adds a set of signals: their names joined by commas, in the order of the table, or `none`.
pub fn push_set(out: &mut Vec<u8>, set: SigSet) -> Result<(), Memory>
    ensures { OnOk result (out.new.items ≡ out.old.items ++ trace.set_text set) }
{
    if push_members(out, set)? {
        return Ok(());
    }
    push_known(out, b"none")
}
