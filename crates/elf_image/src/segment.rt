//! Ranges of memory that are loaded.

ghost use Rattle.std.specs.Prelude.{◌≡◌, ◌+◌, ◌^◌, ◌≤◌, length};

use crate::bytes::Bytes;

/// A range of memory that is loaded: first its bytes, and after them zeros up to its size.
#[derive(Debug, Drop)]
pub struct Segment {
    /// The address of its first byte.
    pub at: u64,
    /// How many bytes it has in memory.
    pub size: u64,
    /// The bytes that it begins with.
    pub bytes: Bytes,
    pub ghost holds_bytes: { length bytes ≤ size },
    pub ghost ends: { at + size ≤ 2 ^ 64 },
}

impl Segment {
    /// The segment of `size` bytes from the address `at` on that begins with `bytes`.
    pub fn of(at: u64, size: u64, bytes: Bytes) -> Segment
        requires holds_bytes { length bytes ≤ size }
        requires ends { at + size ≤ 2 ^ 64 }
        ensures at { result.at ≡ at }
        ensures size { result.size ≡ size }
        ensures bytes { result.bytes ≡ bytes }
    {
        Segment { at, size, bytes }
    }
}
