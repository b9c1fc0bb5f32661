//! The names of signals, of what a signal does and of how a mask changes.
ghost use Rattle.std.specs.Prelude.{◌≡◌};
ghost use Rattle.kernel_model.specs.Trace as trace;

use pico_base::{Act, How, Sig, SigArg};

/// A signal's name.
pub fn signal_name(sig: Sig) -> &'static [u8]
    ensures { result.now ≡ trace.signal_name sig }
{
    match sig {
        Sig::Hup => b"HUP",
        Sig::Int => b"INT",
        Sig::Quit => b"QUIT",
        Sig::Kill => b"KILL",
        Sig::Usr1 => b"USR1",
        Sig::Usr2 => b"USR2",
        Sig::Pipe => b"PIPE",
        Sig::Alrm => b"ALRM",
        Sig::Term => b"TERM",
        Sig::Chld => b"CHLD",
    }
}

/// A signal as a call names it: its name, `0` for none, or `badsig` for a number of no signal.
pub fn signal_argument(sig: SigArg) -> &'static [u8]
    ensures { result.now ≡ trace.signal_argument sig }
{
    match sig {
        SigArg::Zero => b"0",
        SigArg::Is(sig) => signal_name(sig),
        SigArg::Bad => b"badsig",
    }
}

/// The name of what a signal does: `dfl`, `ign` or `catch`.
pub fn action_name(act: Act) -> &'static [u8]
    ensures { result.now ≡ trace.action_name act }
{
    match act {
        Act::Dfl => b"dfl",
        Act::Ign => b"ign",
        Act::Catch => b"catch",
    }
}

/// The name of how a mask changes: `block`, `unblock` or `setmask`.
pub fn how_name(how: How) -> &'static [u8]
    ensures { result.now ≡ trace.how_name how }
{
    match how {
        How::Block => b"block",
        How::Unblock => b"unblock",
        How::SetMask => b"setmask",
    }
}
