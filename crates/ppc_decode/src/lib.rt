//! Words of the instruction set to forms, and forms to words: both ways of the instruction table.
#![tactic(auto)]

mod encoder;
mod encodings;
mod fields;

pub use encoder::{OutOfField, decoded_words_encode, encode};
pub use word_decoder::{Decoded, decode};

#[cfg(test)]
mod tests;
