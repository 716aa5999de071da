//! The text of instructions, as the assembler reads it.
#![tactic(auto)]

mod forms;
mod insn;
mod operands;
mod words;

pub use insn::{print_insn, push_insn};
pub use words::push_word;

#[cfg(test)]
mod tests;
