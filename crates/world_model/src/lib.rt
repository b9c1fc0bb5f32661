//! The picoprocess machine by definitions: what a node does in a turn, rule by rule, what a world of nodes and streams
//! of frames is, and what its runs are. `specs/` has a file for each subject. Nothing runs here.
#![tactic(auto)]
