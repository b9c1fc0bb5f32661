//! The lines of a sandbox: where they end, and how many nodes they have.

ghost use Rattle.std.specs.Prelude.{◌≡◌, ◌≤◌, false, length, IfOk, IfErr, IfSome, MatchOption};
ghost use Rattle.script_reader.specs.Words.{lines_of};
ghost use Rattle.sandbox_set.specs.Boxes as spec;
ghost use Rattle.sandbox_set.specs.Parts as parts;

use crate::heading::{Heading, heading_in};
use script_reader::next_line;

/// The most nodes of an input: the lines headed by `proc`.
const MAX_NODES: u32 = 32;

/// The lines behind a line `sandbox NAME`, cut where the sandbox ends.
#[derive(Clone, Copy)]
pub(crate) struct Part<'a> {
    /// The bytes of its script.
    pub(crate) script: &'a [u8],
    /// How many lines the script has.
    pub(crate) lines: u32,
    /// What follows the script: a line `endsandbox`, or what breaks the sandbox off.
    pub(crate) behind: &'a [u8],
}

/// Whether a sandbox's script has no further line in front of this one.
fn ends_script(line: &[u8]) -> bool
    ensures { result ≡ spec.ends_script line.now }
{
    matches!(heading_in(line), Heading::Sandbox | Heading::EndSandbox)
}

fn ends_sandbox(line: &[u8]) -> bool
    ensures { result ≡ spec.ends_sandbox line.now }
{
    matches!(heading_in(line), Heading::EndSandbox)
}

/// Whether the line has no words, or is a comment.
pub(crate) fn is_skipped(line: &[u8]) -> bool
    ensures { result ≡ spec.is_skipped line.now }
{
    matches!(heading_in(line), Heading::Skipped)
}

/// Whether the line begins a node's block.
fn heads_node(line: &[u8]) -> bool
    ensures { result ≡ spec.heads_node line.now }
{
    matches!(heading_in(line), Heading::Proc)
}

impl<'a> Part<'a> {
    /// The script at the front of these bytes.
    pub(crate) fn of(bytes: &'a [u8]) -> Part<'a>
        requires { length bytes.now ≤ 1048576 }
        ensures { parts.IsPart bytes.now result.script.now result.lines result.behind.now }
    {
        let mut behind = bytes;
        let mut lines: u32 = 0;
        while let Some((line, after)) = next_line(behind) {
            if ends_script(line) {
                return Part {
                    script: &bytes[..bytes.len() - behind.len()],
                    lines,
                    behind,
                };
            }
            behind = after;
            lines += 1;
        }
        Part {
            script: bytes,
            lines,
            behind,
        }
    }

    /// The bytes behind the line `endsandbox`; none where the sandbox is broken off.
    pub(crate) fn rest(&self) -> Option<&'a [u8]>
        ensures { MatchOption result (parts.is_closed (lines_of self.now.behind.now) ≡ false)
            (λ rest. parts.Closes self.now.behind.now rest.now) }
    {
        match next_line(self.behind) {
            Some((line, after)) if ends_sandbox(line) => Some(after),
            _ => None,
        }
    }
}

/// Whether no line has words.
pub(crate) fn is_wordless(script: &[u8]) -> bool
    ensures { result ≡ spec.is_wordless (lines_of script.now) }
{
    let mut rest = script;
    while let Some((line, after)) = next_line(rest) {
        if !is_skipped(line) {
            return false;
        }
        rest = after;
    }
    true
}

/// How many nodes there are behind a line, of so many before it; none where it is one too many.
fn nodes_behind(nodes: u32, line: &[u8]) -> Option<u32>
    requires { nodes ≤ 32 }
    ensures value { result ≡ parts.nodes_behind nodes line.now }
    ensures small { IfSome result (λ n. n ≤ 32) }
{
    if !heads_node(line) {
        Some(nodes)
    } else if nodes < MAX_NODES {
        Some(nodes + 1)
    } else {
        None
    }
}

/// How many nodes there are behind these lines, of so many before them; or how many of the lines stand before the one
/// that is one too many.
pub(crate) fn nodes_with(before: u32, script: &[u8]) -> Result<u32, u32>
    requires few { before ≤ 32 }
    requires small { length script.now ≤ 1048576 }
    ensures value { result ≡ parts.nodes_with before (lines_of script.now) }
    ensures fit { IfOk result (λ n. n ≤ 32) }
    ensures within { IfErr result (λ k. k ≤ length (lines_of script.now)) }
{
    let mut nodes = before;
    let mut lines: u32 = 0;
    let mut rest = script;
    while let Some((line, after)) = next_line(rest) {
        let Some(more) = nodes_behind(nodes, line) else {
            return Err(lines);
        };
        nodes = more;
        lines += 1;
        rest = after;
    }
    Ok(nodes)
}
