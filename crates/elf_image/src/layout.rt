//! The headers of an ELF file, as bytes.

ghost use Rattle.std.specs.Prelude.{◌≡◌};
ghost use Rattle.elf_image.specs.Header.{header, program_header};

use byteorder::{ByteOrder, LittleEndian};

/// The header of a file that starts at `entry` and has `count` headers of segments.
#[tactic(auto, unfolding(crate::specs::Header::header))]
pub fn header(entry: u64, count: u16) -> [u8; 64]
    ensures { result ≡ header entry count }
{
    let mut out = [0; 64];
    out[..8].copy_from_slice(&[0x7f, b'E', b'L', b'F', 2, 1, 1, 0]);
    LittleEndian::write_u16(&mut out[16..], 2);
    LittleEndian::write_u16(&mut out[18..], 21);
    LittleEndian::write_u32(&mut out[20..], 1);
    LittleEndian::write_u64(&mut out[24..], entry);
    LittleEndian::write_u64(&mut out[32..], 64);
    LittleEndian::write_u32(&mut out[48..], 2);
    LittleEndian::write_u16(&mut out[52..], 64);
    LittleEndian::write_u16(&mut out[54..], 56);
    LittleEndian::write_u16(&mut out[56..], count);
    out
}

/// The header of a segment whose `filesz` bytes stand in the file from `offset` on, and which has
/// `memsz` bytes in memory from `at` on.
#[tactic(auto, unfolding(crate::specs::Header::program_header))]
pub fn program_header(offset: u64, at: u64, filesz: u64, memsz: u64) -> [u8; 56]
    ensures { result ≡ program_header offset at filesz memsz }
{
    let mut out = [0; 56];
    LittleEndian::write_u32(&mut out, 1);
    LittleEndian::write_u32(&mut out[4..], 7);
    LittleEndian::write_u64(&mut out[8..], offset);
    LittleEndian::write_u64(&mut out[16..], at);
    LittleEndian::write_u64(&mut out[24..], at);
    LittleEndian::write_u64(&mut out[32..], filesz);
    LittleEndian::write_u64(&mut out[40..], memsz);
    LittleEndian::write_u64(&mut out[48..], 1);
    out
}
