//! What the call on a queue or a set answers and leaves, where the queues and sets stand in a map by number, by
//! definitions (`specs/Answers.antt`), and that what code writes back through a map's entry is that change
//! (`proofs/Landing.antt`). No call runs here.
#![tactic(auto)]
