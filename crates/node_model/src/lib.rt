//! The parts of a node by definitions: the leader's directory, the cache of owners, leases, what a node holds and what
//! it carries out on it, deeds on their way, and the caller. The rules of the machine and the contracts of the parts'
//! code cite the same words. `specs/` has a file for each subject.
#![tactic(auto)]

mod held;
mod route;

pub use held::Held;
pub use route::Route;
