//! The fields that calls and replies share: words, numbers with a label, processes, nodes, ids and values.
ghost use Rattle.std.specs.Prelude.{◌≡◌, [], ◌++◌, codes, if◌then◌else◌, OnOk};
ghost use Rattle.std.specs.Fmt.{decimal};
ghost use Rattle.kernel_model.specs.Trace as trace;

use crate::text::{has_room, push, push_byte, push_growing, push_number};
use pico_base::{Id, Memory, Node, Pid};

// A word, with the space before it, where it is wanted.
pub(crate) fn push_word(out: &mut Vec<u8>, wanted: bool, word: &[u8]) -> Result<(), Memory>
    ensures { OnOk result (out.new.items ≡ out.old.items ++ (if wanted then word.now else [])) }
{
    if wanted { push(out, word) } else { Ok(()) }
}

// The word `nowait`, with the space before it, where it is wanted.
#[inline(always)]
pub(crate) fn push_nowait(out: &mut Vec<u8>, wanted: bool) -> Result<(), Memory>
    ensures { OnOk result (out.new.items ≡ out.old.items ++ (if wanted then codes " nowait" else [])) }
{
    if !wanted {
        return Ok(());
    }
    if has_room(out, 7) {
        return push(out, &[b' ', b'n', b'o', b'w', b'a', b'i', b't']);
    }
    push_growing(out, b" nowait")
}

// A label and a number.
pub(crate) fn push_labelled(out: &mut Vec<u8>, label: &[u8], number: u64) -> Result<(), Memory>
    ensures { OnOk result (out.new.items ≡ out.old.items ++ trace.labelled label.now number) }
{
    push(out, label)?;
    push_number(out, number)
}

pub(crate) fn push_pid(out: &mut Vec<u8>, pid: Pid) -> Result<(), Memory>
    ensures { OnOk result (out.new.items ≡ out.old.items ++ decimal pid) }
{
    push_number(out, u64::from(pid.0))
}

pub(crate) fn push_node(out: &mut Vec<u8>, node: Node) -> Result<(), Memory>
    ensures { OnOk result (out.new.items ≡ out.old.items ++ decimal node) }
{
    push_number(out, u64::from(node.0))
}

pub(crate) fn push_id(out: &mut Vec<u8>, id: Id) -> Result<(), Memory>
    ensures { OnOk result (out.new.items ≡ out.old.items ++ decimal id) }
{
    push_number(out, u64::from(id.0))
}

pub(crate) fn push_create_words(out: &mut Vec<u8>, create: bool, excl: bool) -> Result<(), Memory>
    ensures { OnOk result (out.new.items ≡ out.old.items ++ trace.create_words create excl) }
{
    push_word(out, create, b" create")?;
    push_word(out, excl, b" excl")
}

/// Adds numbers joined by commas.
pub fn push_values(out: &mut Vec<u8>, values: &[u32]) -> Result<(), Memory>
    ensures { OnOk result (out.new.items ≡ out.old.items ++ trace.values_text values.now) }
{
    let Some((first, others)) = values.split_first() else {
        return Ok(());
    };
    push_number(out, u64::from(*first))?;
    for value in others {
        push_byte(out, b',')?;
        push_number(out, u64::from(*value))?;
    }
    Ok(())
}
