//! What is still to happen in a world of the whole machine, as a number that each event lowers.
#![tactic(auto)]
