//! Images of programs, as the file format SQI1 holds them.
#![tactic(auto)]

mod header;
mod image;
mod laws;
mod reading;
mod writing;

pub use image::Image;
pub use laws::one_image;
pub use reading::read_image;
pub use writing::write_image;

#[cfg(test)]
mod tests;
