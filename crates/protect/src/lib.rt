//! Which right of a leaf refuses an access, and which interrupt an ask raises that gets no page.
#![tactic(auto)]

mod denials;
mod faults;

pub use denials::{for_table, permit};
pub use faults::{denial_bits, kind_bits, partition_fault, process_fault, segment_fault};
pub use journal_core::{Denial, Rights, Scope};

#[cfg(test)]
mod tests;
