//! Known runs of the machine: each is a script, its events in order, and the trace that is wanted. The tests carry them
//! out, and those who look for what the machine does in a situation find it there.
#![tactic(auto)]

#[cfg(test)]
mod tests;
