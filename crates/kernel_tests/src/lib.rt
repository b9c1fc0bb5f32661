//! The plain kernel as tests: who waits, whom a call wakes, and who withdraws. They stand apart from the kernel, so
//! that its proof isn't made again for them.
#![tactic(auto)]

#[cfg(test)]
mod tests;
