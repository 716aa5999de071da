//! Numbers in a file, the lowest byte first.

ghost use Rattle.std.specs.Prelude.{◌≡◌, ◌+◌, ◌≤◌, length};
ghost use Rattle.elf_image.specs.Fields.{half_at, word_at, xword_at};

use byteorder::{ByteOrder, LittleEndian};

/// The number of two bytes at a place.
pub fn half_at(bytes: &[u8], place: usize) -> u16
    requires { place + 2 ≤ length bytes.now }
    ensures { result ≡ half_at bytes.now place }
{
    LittleEndian::read_u16(&bytes[place..])
}

/// The number of four bytes at a place.
pub fn word_at(bytes: &[u8], place: usize) -> u32
    requires { place + 4 ≤ length bytes.now }
    ensures { result ≡ word_at bytes.now place }
{
    LittleEndian::read_u32(&bytes[place..])
}

/// The number of eight bytes at a place.
pub fn xword_at(bytes: &[u8], place: usize) -> u64
    requires { place + 8 ≤ length bytes.now }
    ensures { result ≡ xword_at bytes.now place }
{
    LittleEndian::read_u64(&bytes[place..])
}
