//! The walk of an ask (Power ISA, Book III, 5.7), which begins with what is kept and reads the rest now. It reads at most 36
//! words, whatever they are, and ends in a page, in one of six interrupts with its bits, or in a stop.
#![tactic(auto)]

mod faults;
mod inner;
mod laws;
mod processes;
mod readings;
mod stages;
mod targets;
mod walk;

pub use inner::{enter, inside};
pub use laws::walks_raise_six_causes;
pub use processes::{after_process_entry, after_second, at_result, at_table, in_process};
pub use readings::{next_word, reading};
pub use stages::{next, start};
pub use targets::{Target, place_of};
pub use walk::{begin_process, walk_fresh, walk_nested};

#[cfg(test)]
mod tests;
