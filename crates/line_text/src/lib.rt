//! Text that is printed line by line, without memory: a line in a fixed buffer, numbers as text, and
//! lists of lines that are made one at a time.
#![tactic(auto)]

mod line;
mod lines;

pub use line::{CAPACITY, Line};
pub use lines::{Lines, print_lines};

#[cfg(test)]
mod tests;
