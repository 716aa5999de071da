//! Ranges as they are told of.

/// A range of addresses by its two ends.
#[derive(Clone, Copy, Debug, PartialEq, Eq)]
pub struct Span {
    /// The first address.
    pub from: u64,
    /// The first address after the range, or the greatest number where that address is above it.
    pub to: u64,
}
