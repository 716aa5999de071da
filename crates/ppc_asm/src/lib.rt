//! The assembler: the image that a source means, or the first wrong line with what is wrong with it.
#![tactic(auto)]

mod filling;
mod image;
mod laws;
mod second;

pub use asm_places::{AsmFault, AsmKind};
pub use image::assemble;
pub use laws::a_source_has_1_to_64_segments;

#[cfg(test)]
mod tests;
