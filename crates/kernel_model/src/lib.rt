//! The kernel of one POSIX system by definitions: what a call does, what a legal history is, and which calls a
//! script makes. `specs/` has a file for each subject. No call runs here.
#![tactic(auto)]
