//! What stands between threads as tests: streams, the journal's lock, and the merge of logs. They stand apart from the
//! code, so that its proof isn't made again for them.
#![tactic(auto)]

#[cfg(test)]
mod tests;
