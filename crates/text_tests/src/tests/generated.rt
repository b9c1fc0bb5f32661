//! A few generated scripts, and how many blocks they have.
use script_writer::generate;
use std::test::Fail;

#[test]
fn generates_blocks(rt: HostRuntime) -> Result<(), Fail> {
    let script = generate(rt.alloc(), 1)?;
    assert!(rt; script.blocks.len() == 3);
    Ok(())
}
