//! Texts with and without a line `trace`.
ghost use Rattle.std.specs.Prelude.{◌≤◌};

use check_input::{Parts, read_checked};
use script_reader::{ScriptFault, ScriptStop};
use std::alloc::Global;
use std::test::Fail;

/// How many blocks the script has.
fn blocks_of(alloc: Global, parts: &Parts) -> Result<usize, ScriptStop>
    requires { 1 ≤ parts.now.first_line }
{
    Ok(read_checked(alloc, parts)?.blocks.len())
}

#[test]
fn cuts_at_the_line_trace(rt: HostRuntime) -> Result<(), Fail> {
    let parts = Parts::of(b"proc a\nend\n trace\r\nx\n");
    assert!(rt;
        parts.trace == b"x\n".as_slice() && parts.first_line == 4 && parts.marker == Some(7)
    );
    assert!(rt; blocks_of(rt.alloc(), &parts)? == 1);
    Ok(())
}

#[test]
fn further_words_are_no_line_trace(rt: HostRuntime) {
    let parts = Parts::of(b"proc a\ntrace x\n");
    assert!(rt; parts.trace.is_empty() && parts.first_line == 3 && parts.marker.is_none());
    let stop = ScriptStop::At {
        line: 2,
        fault: ScriptFault::UnknownCall,
    };
    assert!(rt; blocks_of(rt.alloc(), &parts).err() == Some(stop));
}
