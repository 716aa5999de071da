//! The report of a machine, as text.
#![tactic(auto)]

mod access_lines;
mod consoles;
mod head;
mod listing;
mod report;
mod step_ends;
mod step_lines;
mod thread_lines;
mod walk_lines;
mod words;

pub use listing::print_listing;
pub use report::{ReportParts, print_report};
pub use step_ends::{LineEnd, line_end};
pub use walk_lines::{print_fill, print_read};

#[cfg(test)]
mod listing_tests;
#[cfg(test)]
mod row_tests;
#[cfg(test)]
mod tests;
#[cfg(test)]
mod walk_row_tests;
