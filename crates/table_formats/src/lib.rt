//! The doublewords of radix tables, what each means, and the word of an entry; and whose addresses a quadrant has.
//!
//! Every word has a meaning. Bit 0 is the highest; tables are big-endian in storage, and a word here is the number that
//! its eight bytes make (Power ISA, Book III, 5.7).
#![tactic(auto)]

mod entries;
mod laws;
mod quadrants;
mod roots;

pub use entries::Entry;
pub use laws::{read_words_are_written_back, written_entries_are_read};
pub use quadrants::{Space, quadrant};
pub use roots::{Pate, Prte, Ptcr, Root};

#[cfg(test)]
mod tests;
