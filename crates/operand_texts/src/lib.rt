//! How the operands of each operation stand in assembler text, and which marks its name takes.
#![tactic(auto)]

mod fields;
mod kinds;
mod lists;
mod marks;
mod mnemonic;

pub use fields::Field;
pub use kinds::OperandText;
pub use lists::operands;
pub use marks::{takes_absolute, takes_link, takes_overflow, takes_record};
pub use mnemonic::{Mnemonic, takes_marks};

#[cfg(test)]
mod tests;
