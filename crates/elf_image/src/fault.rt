//! Why a file is not read, and why an image is not written.

ghost use Rattle.std.specs.Prelude.{◌≡◌};
ghost use Rattle.elf_image.specs.declared.fault.ElfFault.TheVariants as elf_faults;
ghost use Rattle.elf_image.specs.declared.fault.WriteElfFault.TheVariants as write_faults;

use std::alloc::{AllocError, AllocFailed};
use thiserror::Error;

/// The first fault of a file that gives no image. The faults stand in the order of the tests.
#[derive(Clone, Copy, Debug, PartialEq, Eq, Error)]
pub enum ElfFault {
    /// The file has fewer than the 64 bytes of a header.
    #[error("shorter than the header of an ELF file")]
    Short,
    /// The file does not begin with 7F 45 4C 46.
    #[error("not an ELF file")]
    Magic,
    /// Byte 4 is not 2: the file is not one of 64 bits.
    #[error("not an ELF file of 64 bits")]
    Class,
    /// Byte 5 is not 1: the lowest byte of a number does not come first.
    #[error("not a little-endian ELF file")]
    Order,
    /// The half at 18 is not 21: the program is not for 64-bit Power.
    #[error("not for 64-bit Power")]
    Machine,
    /// The low two bits of the word at 48 name an ABI other than the second version.
    #[error("not of the second version of the ABI")]
    Abi,
    /// The half at 16 is neither 2, an executable, nor 3, one that may be moved.
    #[error("not an executable file")]
    FileType,
    /// Headers of segments have not 56 bytes, or there is none, or their table leaves the file.
    #[error("no table of segments within the file")]
    Header,
    /// There are more than 64 headers of segments.
    #[error("more than 64 headers of segments")]
    TooMany,
    /// The segment of the header with this number has more bytes in the file than in memory, or
    /// leaves the file, or goes on behind the last address.
    #[error("the segment of header {0} does not fit")]
    Segment(u8),
    /// The segments of the headers with these numbers meet; the lower number comes first.
    #[error("the segments of headers {0} and {1} meet")]
    Overlap(u8, u8),
    /// Memory ran out. This says nothing of the file.
    #[error("out of memory")]
    Memory,
}

impl From<AllocError> for ElfFault {
    ghost from_gives = { λ _ e. e ≡ elf_faults.Memory };

    fn from(_e: AllocError) -> ElfFault {
        ElfFault::Memory
    }
}

impl<T: Drop> From<AllocFailed<T>> for ElfFault {
    ghost from_gives = { λ _ e. e ≡ elf_faults.Memory };

    fn from(_e: AllocFailed<T>) -> ElfFault {
        ElfFault::Memory
    }
}

/// Why an image is not written.
#[derive(Clone, Copy, Debug, PartialEq, Eq, Error)]
pub enum WriteElfFault {
    /// The image has no segment.
    #[error("an image without segments")]
    NoSegments,
    /// The image has more than 64 segments.
    #[error("an image of more than 64 segments")]
    TooMany,
    /// Memory ran out. This says nothing of the image.
    #[error("out of memory")]
    Memory,
}

impl From<AllocError> for WriteElfFault {
    ghost from_gives = { λ _ e. e ≡ write_faults.Memory };

    fn from(_e: AllocError) -> WriteElfFault {
        WriteElfFault::Memory
    }
}
