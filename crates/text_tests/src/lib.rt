//! Scripts, traces, inputs and images as texts, from outside: the tests write them and read them again. They stand
//! apart from the code, so that its proof isn't made again for them. What is said of scripts, words and refused traces
//! stands in the golden cases.
#![tactic(auto)]

#[cfg(test)]
mod tests;
