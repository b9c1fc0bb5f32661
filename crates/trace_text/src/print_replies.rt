//! The text of a reply.
ghost use Rattle.std.specs.Prelude.{◌≡◌, ◌∷◌, ◌++◌, codes, OnOk};
ghost use Rattle.std.specs.Fmt.{decimal, signed_decimal};
ghost use Rattle.kernel_model.specs.Trace as trace;
ghost use Rattle.kernel_model.specs.Texts.{message_text};
ghost use Rattle.pico_base.specs.declared.reply.Reply.TheVariants.{Stat};

use crate::fields::{push_labelled, push_pid, push_values};
use crate::names::{push_error_name, push_set, push_signal_call};
use crate::text::{push, push_message, push_number, push_signed_and_space};
use pico_base::{Ending, Memory, Pid, Reply};

fn push_ending(out: &mut Vec<u8>, ending: Ending) -> Result<(), Memory>
    ensures { OnOk result (out.new.items ≡ out.old.items ++ trace.ending_text ending) }
{
    match ending {
        Ending::Exited(status) => {
            push(out, b" exited ")?;
            push_number(out, u64::from(status))
        }
        Ending::Killed(sig) => push_signal_call(out, b" killed ", sig),
    }
}

#[inline(never)]
fn push_child(out: &mut Vec<u8>, pid: Pid, ending: Ending) -> Result<(), Memory>
    ensures { OnOk result (out.new.items ≡ out.old.items ++ decimal pid ++ trace.ending_text ending) }
{
    push_pid(out, pid)?;
    push_ending(out, ending)
}

#[inline(never)]
fn push_received(out: &mut Vec<u8>, class: i32, text: &[u8]) -> Result<(), Memory>
    ensures { OnOk result (out.new.items ≡ out.old.items ++ signed_decimal class ++ 32 ∷ message_text text.now) }
{
    push_signed_and_space(out, class)?;
    push_message(out, text)
}

#[inline(never)]
fn push_stat(
    out: &mut Vec<u8>,
    qnum: u32,
    qbytes: u32,
    lspid: Pid,
    lrpid: Pid,
) -> Result<(), Memory>
    ensures { OnOk result (out.new.items ≡ out.old.items ++ trace.reply_text (Stat qnum qbytes lspid lrpid)) }
{
    push_labelled(out, b"qnum ", u64::from(qnum))?;
    push_labelled(out, b" qbytes ", u64::from(qbytes))?;
    push_labelled(out, b" lspid ", u64::from(lspid.0))?;
    push_labelled(out, b" lrpid ", u64::from(lrpid.0))
}

#[inline(never)]
fn push_all(out: &mut Vec<u8>, values: &[u32]) -> Result<(), Memory>
    ensures { OnOk result (out.new.items ≡ out.old.items ++ codes "all " ++ trace.values_text values.now) }
{
    push(out, b"all ")?;
    push_values(out, values)
}

/// Adds a reply as a trace has it.
pub fn push_reply(out: &mut Vec<u8>, reply: &Reply) -> Result<(), Memory>
    ensures { OnOk result (out.new.items ≡ out.old.items ++ trace.reply_text reply.now) }
{
    match reply {
        Reply::Num(number) => push_number(out, u64::from(*number)),
        Reply::Child { pid, ending } => push_child(out, *pid, *ending),
        Reply::Message { class, text } => push_received(out, *class, text.as_slice()),
        Reply::Bits(set) => push_set(out, *set),
        Reply::Stat {
            qnum,
            qbytes,
            lspid,
            lrpid,
        } => push_stat(out, *qnum, *qbytes, *lspid, *lrpid),
        Reply::All(values) => push_all(out, values.as_slice()),
        Reply::Ended => push(out, b"ended"),
        Reply::Fail(errno) => push_error_name(out, *errno),
    }
}
