//! Why a script was refused. The line and the name of its fault are the program's; what is told of them is found here,
//! by reading the script again.
#![tactic(auto)]

mod blocks;
mod causes;
mod forks;
mod reading;
mod refused;
mod spoken;
mod variables;
mod whole;

pub use refused::explain_script;
