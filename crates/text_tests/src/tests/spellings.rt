//! Texts that are read, spelled, and read again.
use pico_base::Bytes;
use script_reader::read_script;
use script_speller::script_text;
use std::alloc::Global;
use std::test::Fail;

/// Not in the shortest form: a comment, blanks, `try 1`, a set out of order, and texts in their longer form.
const LONG: &str = concat!(
    "# a comment\nproc  main\n\tq = msgget private\nz99 = semget 7 2 create excl\nc0 = fork child\n",
    "msgsnd $q -5 \"aaaaaa\" nowait\nmsgsnd $q 1 \"\\x61\\x00\" nowait\nx = try 3 msgrcv $q 0 8 noerror nowait\n",
    "try 1 semop $z99 0:1 1:-2:nowait\nsemctl $z99 setall 1,2\nsigprocmask block CHLD,HUP\nkill $c0 TERM\n",
    "waitpid any nohang\nexit 300\nend\n\nproc child\nmsgctl $q rmid\nhandled TERM\nend\n"
);

/// The same script, in its shortest form.
const SHORT: &str = concat!(
    "proc main\nq = msgget private\nz99 = semget 7 2 create excl\nc0 = fork child\n",
    "msgsnd $q -5 rep:6:a nowait\nmsgsnd $q 1 \"a\\x00\" nowait\nx = try 3 msgrcv $q 0 8 noerror nowait\n",
    "semop $z99 0:1 1:-2:nowait\nsemctl $z99 setall 1,2\nsigprocmask block HUP,CHLD\nkill $c0 TERM\n",
    "waitpid any nohang\nexit 300\nend\nproc child\nmsgctl $q rmid\nhandled TERM\nend"
);

/// The shortest text of the script that this text reads as.
fn spelled(alloc: Global, text: &[u8]) -> Result<Bytes, Fail> {
    let script = read_script(alloc, text)?;
    Ok(script_text(alloc, &script)?)
}

#[test]
fn the_shortest_text_is_given(rt: HostRuntime) -> Result<(), Fail> {
    let text = spelled(rt.alloc(), LONG.as_bytes())?;
    assert!(rt; text.as_slice() == SHORT.as_bytes());
    assert!(rt; spelled(rt.alloc(), SHORT.as_bytes())?.as_slice() == SHORT.as_bytes());
    Ok(())
}
