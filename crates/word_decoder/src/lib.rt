//! Words of the instruction set to forms.
#![tactic(auto)]

mod decoded;
mod decoder;
mod fields;
mod opcodes;
mod operands;

pub use decoded::Decoded;
pub use decoder::decode;

#[cfg(test)]
mod tests;
