//! Two nodes that log, turned by one thread, one event after the other; and one whose stream brings what no node sends.
//! The tests stand apart from the code, so that its proof isn't made again for them.
#![tactic(auto)]

#[cfg(test)]
mod hostile;
#[cfg(test)]
mod tests;
#[cfg(test)]
mod two;
