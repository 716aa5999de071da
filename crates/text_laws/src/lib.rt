//! Laws of the text of instructions: the assembler reads it as the form that it was made of.
#![tactic(auto)]

mod laws;

pub use laws::{names_differ, texts_assemble, texts_differ, words_assemble};

#[cfg(test)]
mod tests;
