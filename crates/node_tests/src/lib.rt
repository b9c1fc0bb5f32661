//! Frames that no run brings a node, offered to it at each moment of its life: the tests say for each whether the node
//! takes it, and that one that it doesn't take changes nothing.
#![tactic(auto)]

#[cfg(test)]
mod tests;
