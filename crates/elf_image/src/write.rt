//! Writes the file of an image.

ghost use Rattle.std.specs.Prelude.{◌≡◌, ◌+◌, ◌*◌, ◌^◌, ◌<◌, ◌++◌, length, IfSome, OnOk};
ghost use Rattle.elf_image.specs.Written.{program_headers, bytes_of, Writes};

use crate::bytes::Bytes;
use crate::fault::WriteElfFault;
use crate::file_header::{HEADER_BYTES, MOST_HEADERS, SEGMENT_HEADER_BYTES};
use crate::image::Image;
use crate::layout::{header, program_header};
use crate::segment::Segment;
use std::alloc::{AllocError, Global};

/// How many bytes the file of some segments has, if memory can have as many.
fn file_len(segments: &[Segment]) -> Option<usize>
    requires { length segments.now < 65 }
    ensures { IfSome result (λ len. len ≡ 64 + 56 * length segments.now + length (bytes_of segments.now)) }
{
    let mut len = HEADER_BYTES + SEGMENT_HEADER_BYTES * segments.len();
    for segment in segments {
        len = len.checked_add(segment.bytes.len())?;
    }
    Some(len)
}

/// Puts the headers of segments behind some bytes. The bytes of the segments follow all headers.
fn push_headers(out: &mut Vec<u8>, segments: &[Segment]) -> Result<(), AllocError>
    requires { 64 + 56 * length segments.now + length (bytes_of segments.now) < 2 ^ 64 }
    ensures { OnOk result (out.new.items ≡ out.old.items ++ program_headers (64 + 56 * length segments.now) segments.now) }
{
    let mut offset = (HEADER_BYTES + SEGMENT_HEADER_BYTES * segments.len()) as u64;
    for segment in segments {
        let filesz = segment.bytes.len() as u64;
        out.extend_from_slice(&program_header(offset, segment.at, filesz, segment.size))?;
        offset += filesz;
    }
    Ok(())
}

/// Puts the bytes of segments behind some bytes.
fn push_bytes(out: &mut Vec<u8>, segments: &[Segment]) -> Result<(), AllocError>
    ensures { OnOk result (out.new.items ≡ out.old.items ++ bytes_of segments.now) }
{
    for segment in segments {
        out.extend_from_slice(segment.bytes.as_slice())?;
    }
    Ok(())
}

/// Writes an image as an ELF file, which [`read_elf`](crate::read_elf) reads back.
///
/// A segment of size 0 is written too, with its header. `Memory` may come at any image of 1 to 64
/// segments.
#[tactic(auto, unfolding(crate::specs::Written::written))]
pub fn write_elf(alloc: Global, image: &Image) -> Result<Bytes, WriteElfFault>
    ensures { Writes image.now result }
{
    let segments = image.segments.as_slice();
    if segments.is_empty() {
        return Err(WriteElfFault::NoSegments);
    }
    if segments.len() > MOST_HEADERS {
        return Err(WriteElfFault::TooMany);
    }
    let len = match file_len(segments) {
        Some(len) => len,
        None => return Err(WriteElfFault::Memory),
    };
    let mut out = Vec::with_capacity(alloc, len)?;
    out.extend_from_slice(&header(image.entry, segments.len() as u16))?;
    push_headers(&mut out, segments)?;
    push_bytes(&mut out, segments)?;
    Ok(Bytes::of(out))
}
