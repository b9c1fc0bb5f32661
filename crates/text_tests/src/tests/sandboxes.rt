//! Inputs of sandboxes, read and written.
ghost use Rattle.kernel_model.specs.Script.{IsSoundScript};

use pico_base::{Script, Sequence};
use sandbox_set::{BoxFault, BoxStop, Boxes, Journals, boxes_text, read_boxes};
use script_reader::{ScriptFault, read_script};
use std::alloc::Global;
use std::test::Fail;
use trace_text::read_trace;

const SCRIPT: &[u8] = b"proc main
q = msgget private
msgsnd $q 1 \"hi\" nowait
msgrcv $q 0 16 nowait
end
";

const TRACE: &[u8] = b"1 msgget private = 1 by 1
1 msgsnd 1 1 \"hi\" nowait = 0 by 1
1 msgrcv 1 0 16 nowait = 1 \"hi\" by 1
1 exit 0 = ended by 1
totals entries 4 processes 1 notready 0 refused 0
";

/// All of these bytes, one piece behind the other.
fn push_all(out: &mut Vec<u8>, pieces: &[&[u8]]) -> Result<(), Fail> {
    for piece in pieces {
        out.extend_from_slice(piece)?;
    }
    Ok(())
}

/// Two sandboxes of the script.
fn input(alloc: Global) -> Result<Vec<u8>, Fail> {
    let mut out = Vec::new(alloc);
    for name in [b"a".as_slice(), b"b"] {
        push_all(
            &mut out,
            &[
                b"# a sandbox\nsandbox ",
                name,
                b"\n",
                SCRIPT,
                b" endsandbox\n",
            ],
        )?;
    }
    Ok(out)
}

/// Their traces.
fn wanted(alloc: Global) -> Result<Vec<u8>, Fail> {
    let mut out = Vec::new(alloc);
    for name in [b"a".as_slice(), b"b"] {
        push_all(&mut out, &[b"sandbox ", name, b"\n", TRACE])?;
    }
    Ok(out)
}

/// Two journals of the script.
fn journals_of(alloc: Global, script: &Script) -> Result<Journals, Fail>
    requires { IsSoundScript script.now }
{
    let mut journals: Journals = Sequence::new(alloc);
    journals.push(read_trace(alloc, script, TRACE, 1)?)?;
    journals.push(read_trace(alloc, script, TRACE, 1)?)?;
    Ok(journals)
}

/// Whether the text of two sandboxes is the one that is wanted.
fn is_written(alloc: Global, boxes: &Boxes, journals: &Journals) -> Result<bool, Fail> {
    if boxes.len() != 2 || journals.len() != 2 {
        return Ok(false);
    }
    Ok(boxes_text(alloc, boxes, journals)?.as_slice() == wanted(alloc)?.as_slice())
}

/// Whether the second sandbox has this script.
fn has_script(boxes: &Boxes, script: &Script) -> bool {
    match boxes.as_slice() {
        [_, second] => second.script == *script,
        _ => false,
    }
}

#[test]
fn writes_each_trace_under_its_name(rt: HostRuntime) -> Result<(), Fail> {
    let script = read_script(rt.alloc(), SCRIPT)?;
    let journals = journals_of(rt.alloc(), &script)?;
    let boxes = read_boxes(rt.alloc(), input(rt.alloc())?.as_slice())?;
    assert!(rt; has_script(&boxes, &script));
    assert!(rt; is_written(rt.alloc(), &boxes, &journals)?);
    Ok(())
}

/// Why the input isn't one of sandboxes.
fn stop(alloc: Global, input: &[u8]) -> Option<BoxStop> {
    read_boxes(alloc, input).err()
}

/// Behind the first sandbox's script the second has a call that is none.
const UNKNOWN: &[u8] =
    b"sandbox a\nproc m\nend\nendsandbox\nsandbox b\nproc m\nwalk\nend\nendsandbox\n";

#[test]
fn tells_a_fault_with_its_line(rt: HostRuntime) -> Result<(), Fail> {
    let no_end = BoxStop::At {
        line: 2,
        fault: BoxFault::NoEndSandbox,
    };
    assert!(rt; stop(rt.alloc(), b"sandbox a") == Some(no_end));
    let unknown = BoxStop::At {
        line: 7,
        fault: BoxFault::Script(ScriptFault::UnknownCall),
    };
    assert!(rt; stop(rt.alloc(), UNKNOWN) == Some(unknown));
    assert!(rt; format!(in rt.alloc(); "{unknown}")?.as_str() == "line 7: UnknownCall");
    Ok(())
}
