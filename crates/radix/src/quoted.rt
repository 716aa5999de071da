//! A word of the command line as a message shows it.

use std::fmt;

/// A word in quotes. A line end, a quote and each character that does not print are written as escapes, such as
/// `\n` or `\u{1b}`, so that a message stays one line and a terminal gets no control byte from a name.
#[derive(Drop)]
pub struct Quoted<'a> {
    /// The word.
    pub text: &'a str,
}

impl<'a> fmt::Display for Quoted<'a> {
    fn fmt<W: fmt::Write>(&self, f: &mut fmt::Formatter<W>) -> fmt::Result {
        write!(f, "'{}'", self.text.escape_debug())
    }
}
