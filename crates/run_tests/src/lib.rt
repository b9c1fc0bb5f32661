//! Runs with a thread for each picoprocess, under gates that hold nodes or count their turns. The tests stand apart
//! from the code, so that its proof isn't made again for them. That a trace is legal is judged by the golden cases of
//! `run`.
#![tactic(auto)]

#[cfg(test)]
mod gates;
#[cfg(test)]
mod tests;
