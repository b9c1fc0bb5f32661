//! The parts of a node as tests: the bytes of each, and what links answer. They stand apart from the parts, so that the
//! parts' proofs aren't made again for them. What calls answer stands in the golden cases.
#![tactic(auto)]

#[cfg(test)]
mod tests;
