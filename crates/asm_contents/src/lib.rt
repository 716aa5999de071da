//! What each line of a source puts into memory, or what is wrong with it once all names are known.
#![tactic(auto)]

mod content;
mod known;
mod line;
mod numbers;
mod overlap;
mod statement;
mod values;

pub use content::Content;
pub use line::content_of;
pub use values::line_word;

#[cfg(test)]
mod tests;
