//! Images of programs: what a machine loads, and the ELF files that hold it.
#![tactic(auto)]

mod address_range;
mod bytes;
mod fault;
mod fields;
mod file_header;
mod guests;
mod image;
mod laws;
mod layout;
mod load;
mod places;
mod read;
mod segment;
mod segments;
mod span;
mod table;
mod write;

pub use bytes::Bytes;
pub use fault::{ElfFault, WriteElfFault};
pub use guests::{Guest, Guests};
pub use image::Image;
pub use laws::{
    a_file_means_one_image_or_one_fault, a_written_file_has_its_headers_and_bytes,
    a_written_image_is_read_back, loaded_ranges_lie_in_ram, segments_of_a_file_are_apart,
};
pub use places::bad_place;
pub use read::read_elf;
pub use segment::Segment;
pub use segments::Segments;
pub use span::Span;
pub use write::write_elf;

#[cfg(test)]
mod tests;
