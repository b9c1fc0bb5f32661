//! What a reply does to the caller's place.
ghost use Rattle.std.specs.Prelude.{◌≡◌, ◌+◌, ◌&&◌, nat_lt, Some};
ghost use Rattle.kernel_model.specs.Fitting.{asks_again, value_in};

use pico_base::{Call, Errno, Reply};

/// Whether the call is made once more after this reply, if its line has tries left: nothing was ready for it.
fn asks_again(call: &Call, reply: &Reply) -> bool
    ensures { result ≡ asks_again call.now (Some reply.now) }
{
    match reply {
        Reply::Fail(Errno::Enomsg | Errno::Eagain | Errno::Enoent) => true,
        Reply::Num(number) => matches!(call, Call::WaitPid { .. }) && *number == 0,
        _ => false,
    }
}

/// Whether the call is made once more after this reply, where it was tried so often before, and is at most so often.
pub(crate) fn tries_again(call: &Call, reply: &Reply, tried: u32, tries: u32) -> bool
    ensures { result ≡ (asks_again call.now (Some reply.now) && nat_lt (tried + 1) tries) }
{
    tried.saturating_add(1) < tries && asks_again(call, reply)
}

/// The value that a reply gives a variable: a number, or a child's, and else 0.
pub(crate) fn value_in(reply: &Reply) -> u32
    ensures { result ≡ value_in (Some reply.now) }
{
    match reply {
        Reply::Num(number) => *number,
        Reply::Child { pid, .. } => pid.0,
        _ => 0,
    }
}
