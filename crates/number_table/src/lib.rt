//! Values by number, in one list in the order of their numbers: quick where numbers are given out in order, with few
//! that are left out.
#![tactic(auto)]

mod table;

pub use table::Table;
