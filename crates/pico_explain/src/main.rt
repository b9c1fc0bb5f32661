//! The program that says why `pico` refused what it was given. Its first word is the line with which `pico` refused,
//! the others are the words that `pico` was given, and standard input has the bytes. It writes what is told, and
//! nothing where the line is no refusal.
#![tactic(auto)]

use explain::explain;
use std::io::{Read, Write};
use std::rt::Env;
use std::{env, io};

// The words behind the program's name: the line, and those that `pico` was given.
fn words_of<R: Env + AllocGlobal>(rt: &R) -> io::Result<(String, Vec<String>)> {
    let mut args = env::args(rt)?.skip(1);
    let line = match args.next() {
        Some(line) => line,
        None => String::new(rt.alloc()),
    };
    let mut words = Vec::new(rt.alloc());
    for word in args {
        words.push(word)?;
    }
    Ok((line, words))
}

fn run<R: Env + AllocGlobal + Input + Print>(rt: &R) -> io::Result<()> {
    let (line, words) = words_of(rt)?;
    let mut bytes = Vec::new(rt.alloc());
    rt.reader().read_to_end(&mut bytes)?;
    let told = explain(rt.alloc(), line.as_bytes(), &words, &bytes)?;
    io::writer(rt).write_all(&told)
}

fn main(rt: HostRuntime) -> io::Result<()> {
    run(&rt)
}
