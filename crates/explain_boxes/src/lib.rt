//! Why an input of several sandboxes was refused. The line and the name of its fault are the program's; what is told of
//! them is found here, by reading the input again.
#![tactic(auto)]

mod faults;
mod headings;

pub use faults::explain_boxes;
pub use headings::script_alone;
