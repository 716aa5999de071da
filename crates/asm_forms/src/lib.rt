//! The words of instructions that stand in text: what an operation with marks and the values of its operands make.
#![tactic(auto)]

mod fixed_point;
mod forms;
mod other_units;
mod values;
mod words;

pub use values::Values;
pub use words::word;

#[cfg(test)]
mod tests;
