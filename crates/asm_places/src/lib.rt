//! The places of a source's lines: the names, the segments and the addresses that they make, or the first line that is wrong by
//! itself or by those before it.
#![tactic(auto)]

mod fault;
mod lines;
mod names;
mod pass;
mod places;
mod ranges;
mod segments;
mod sum;

pub use fault::{AsmFault, AsmKind};
pub use lines::{behind_line, line_length};
pub use names::Names;
pub use pass::{first_pass, place_line};
pub use places::{Places, SegmentLine};
pub use ranges::{base_of, in_range, padding_of, space_of};
pub use segments::SegmentLines;
pub use sum::{Sum, worth_of};

#[cfg(test)]
mod tests;
