//! What is wrong with an image, in plain words.

use elf_image::ElfFault;
use std::fmt;

/// The first fault of a file that is no image.
#[derive(Clone, Copy, Drop)]
pub struct ImageFault {
    /// The fault.
    pub fault: ElfFault,
}

impl fmt::Display for ImageFault {
    fn fmt<W: fmt::Write>(&self, f: &mut fmt::Formatter<W>) -> fmt::Result {
        match self.fault {
            ElfFault::Short => f.write_str("shorter than the header of an ELF file"),
            ElfFault::Magic => f.write_str("not an ELF file"),
            ElfFault::Class => f.write_str("not an ELF file of 64 bits"),
            ElfFault::Order => f.write_str("not a little-endian ELF file"),
            ElfFault::Machine => f.write_str("not a program for 64-bit Power"),
            ElfFault::Abi => f.write_str("not of the second version of the ABI"),
            ElfFault::FileType => f.write_str("not an executable"),
            ElfFault::Header => f.write_str("its table of segments is empty or leaves the file"),
            ElfFault::TooMany => f.write_str("more than 64 headers of segments"),
            ElfFault::Segment(number) => write!(
                f,
                "header {number} has more bytes in the file than in memory, or leaves the file or the address space"
            ),
            ElfFault::Overlap(i, j) => write!(
                f,
                "the segments of headers {i} and {j} have a common address"
            ),
            ElfFault::Memory => f.write_str("out of memory"),
        }
    }
}
