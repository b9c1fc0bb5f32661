//! What holds in every world that a run of the machine leads to.
#![tactic(auto)]
