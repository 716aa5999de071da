//! The header of an ELF file, as it is read.

ghost use Rattle.std.specs.Prelude.{◌≡◌, ◌+◌, ◌*◌, ◌≤◌, length, IfOk};
ghost use Rattle.elf_image.specs.Grammar.{header_of};

use crate::fault::ElfFault;
use crate::fields::{half_at, word_at, xword_at};

/// How many bytes the header of a file has.
pub const HEADER_BYTES: usize = 64;

/// How many bytes the header of a segment has.
pub const SEGMENT_HEADER_BYTES: usize = 56;

/// How many headers of segments a file may have.
pub const MOST_HEADERS: usize = 64;

/// The bytes 7F 45 4C 46 as a number.
const MAGIC: u32 = 0x464c_457f;

/// What the header of a file says.
#[derive(Clone, Copy, Debug)]
pub struct FileHeader {
    /// The address of the first instruction.
    pub entry: u64,
    /// Where the headers of segments begin in the file.
    pub table: u64,
    /// How many headers of segments there are.
    pub count: u16,
}

/// Reads the header of a file.
pub fn read_header(bytes: &[u8]) -> Result<FileHeader, ElfFault>
    ensures header { result ≡ header_of bytes.now }
    ensures table_within { IfOk result (λ h. h.table + 56 * h.count ≤ length bytes.now) }
    ensures few { IfOk result (λ h. h.count ≤ 64) }
{
    if bytes.len() < HEADER_BYTES {
        return Err(ElfFault::Short);
    }
    if word_at(bytes, 0) != MAGIC {
        return Err(ElfFault::Magic);
    }
    if bytes[4] != 2 {
        return Err(ElfFault::Class);
    }
    if bytes[5] != 1 {
        return Err(ElfFault::Order);
    }
    if half_at(bytes, 18) != 21 {
        return Err(ElfFault::Machine);
    }
    let abi = word_at(bytes, 48) % 4;
    if abi != 0 && abi != 2 {
        return Err(ElfFault::Abi);
    }
    let file_type = half_at(bytes, 16);
    if file_type != 2 && file_type != 3 {
        return Err(ElfFault::FileType);
    }
    let table = xword_at(bytes, 32);
    let count = half_at(bytes, 56);
    let end = u128::from(table) + SEGMENT_HEADER_BYTES as u128 * u128::from(count);
    if half_at(bytes, 54) != 56 || count == 0 || end > bytes.len() as u128 {
        return Err(ElfFault::Header);
    }
    if usize::from(count) > MOST_HEADERS {
        return Err(ElfFault::TooMany);
    }
    Ok(FileHeader {
        entry: xword_at(bytes, 24),
        table,
        count,
    })
}
