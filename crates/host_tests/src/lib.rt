//! Sources and sinks as tests: what they tell of each answer that the outside has. They stand apart from the code, so
//! that its proof isn't made again for them.
#![tactic(auto)]

#[cfg(test)]
mod tests;
