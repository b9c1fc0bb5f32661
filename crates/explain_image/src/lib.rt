//! Why an image was refused. The line and the name of its fault are the program's; what is told of them is found here,
//! by reading the image again.
#![tactic(auto)]

mod image;

pub use image::explain_image;
