//! Frames as bytes, from outside: the tests spell frames and put them together again. They stand apart from the code,
//! so that its proof isn't made again for them.
#![tactic(auto)]

#[cfg(test)]
mod edge_tests;
#[cfg(test)]
mod limit_tests;
#[cfg(test)]
mod tests;
