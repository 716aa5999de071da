//! Generated images: a hypervisor with two nested guests, made of two numbers.
#![tactic(auto)]

mod code;
mod draws;
mod fault;
mod image;
mod instructions;
mod laws;
mod segments;
mod tables;

pub use fault::GenFault;
pub use image::generate;
pub use laws::{generated_code_is_of_forms, generated_images_lie_in_ram};

#[cfg(test)]
mod tests;
