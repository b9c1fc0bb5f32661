//! The parts of a node over deeds as tests: bodies as bytes, what is handed over, a process's end under its parent, the
//! calls of a process, and whom a node asks. They stand apart from the parts, so that the parts' proofs aren't made
//! again for them.
#![tactic(auto)]

#[cfg(test)]
mod tests;
