//! Images of programs.

use crate::segments::Segments;

/// What a program begins with: its segments, and where it starts.
#[derive(Debug, Drop)]
pub struct Image {
    /// The address of the first instruction.
    pub entry: u64,
    /// The segments, in the order of the file.
    pub segments: Segments,
}
