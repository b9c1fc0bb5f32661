//! What the rules of the whole machine ask besides the invariant: numbers stay small, names lead to nodes, tables stand
//! by rising number. It holds in every world that a run leads to, and in the middle of each event.
#![tactic(auto)]
