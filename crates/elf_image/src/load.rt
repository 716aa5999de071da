//! What a header of a segment asks to load.

ghost use Rattle.std.specs.Prelude.{◌≡◌, ◌+◌, ◌≤◌, length, drop, false};
ghost use Rattle.elf_image.specs.Grammar.{load_of, is_good};

use crate::address_range::{AddressRange, end_of};
use crate::fields::{word_at, xword_at};

/// The type of headers whose segments are loaded.
const LOADED: u32 = 1;

/// What a header of a segment asks to load: bytes of the file, and the range that begins with them.
#[derive(Clone, Copy, Debug)]
pub struct Load {
    /// Where the bytes begin in the file.
    pub offset: u64,
    /// How many bytes the file has of the segment.
    pub filesz: u64,
    /// Where the segment lies in memory.
    pub range: AddressRange,
}

/// Nothing to load, as of a header of another type.
pub const NOTHING: Load = Load {
    offset: 0,
    filesz: 0,
    range: AddressRange { at: 0, size: 0 },
};

/// What a header asks to load.
pub fn read_load(header: &[u8]) -> Load
    requires { 56 ≤ length header.now }
    ensures { result ≡ load_of header.now }
{
    if word_at(header, 0) != LOADED {
        return NOTHING;
    }
    Load {
        offset: xword_at(header, 8),
        filesz: xword_at(header, 32),
        range: AddressRange {
            at: xword_at(header, 24),
            size: xword_at(header, 40),
        },
    }
}

/// Whether what is loaded of a file of `len` bytes has at least as many bytes in memory as in the
/// file, lies within the file where it has bytes there, and does not go on behind the last address.
pub fn is_good(len: usize, load: &Load) -> bool
    ensures { result ≡ is_good len load.now }
{
    if load.filesz > load.range.size {
        return false;
    }
    if load.filesz > 0 && u128::from(load.offset) + u128::from(load.filesz) > len as u128 {
        return false;
    }
    end_of(load.range) <= 1 << 64
}
