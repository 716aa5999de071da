//! Reads the file of an image.

ghost use Rattle.std.specs.Prelude.{◌≡◌, IfOk, None, true, length, take, drop, map};
ghost use Rattle.std.specs.List.{position_from};
ghost use Rattle.elf_image.specs.Parts.{segment_parts};
ghost use Rattle.elf_image.specs.Grammar.{is_good, is_bad, segment_of, segments_of};
ghost use Rattle.elf_image.specs.IsImage.{Reads};

use crate::bytes::Bytes;
use crate::fault::ElfFault;
use crate::file_header::read_header;
use crate::image::Image;
use crate::load::Load;
use crate::segment::Segment;
use crate::segments::Segments;
use crate::table::{first_fault, read_loads};
use std::alloc::{AllocError, Global};

/// The bytes of the file that a load begins with.
fn bytes_of(alloc: Global, file: &[u8], load: &Load) -> Result<Bytes, AllocError>
    requires { is_good (length file.now) load.now ≡ true }
    ensures { IfOk result (λ b. b ≡ take load.now.filesz (drop load.now.offset file.now)) }
{
    if load.filesz == 0 {
        return Ok(Bytes::of(Vec::new(alloc)));
    }
    let behind = &file[load.offset as usize..];
    Ok(Bytes::of(Vec::from_slice(alloc, &behind[..load.filesz as usize])?))
}

/// The segment of a load.
fn load_segment(alloc: Global, file: &[u8], load: &Load) -> Result<Segment, AllocError>
    requires { is_good (length file.now) load.now ≡ true }
    ensures { IfOk result (λ s. segment_parts s ≡ segment_of file.now load.now) }
{
    let bytes = bytes_of(alloc, file, load)?;
    Ok(Segment::of(load.range.at, load.range.size, bytes))
}

/// The segments of the loads that have a size.
fn load_segments(alloc: Global, file: &[u8], loads: &[Load]) -> Result<Segments, AllocError>
    requires { position_from (is_bad (length file.now)) 0 loads.now ≡ None }
    ensures { IfOk result (λ s. map segment_parts s ≡ segments_of file.now loads.now) }
{
    let mut segments = Vec::with_capacity(alloc, loads.len())?;
    for load in loads {
        if load.range.size > 0 {
            segments.push(load_segment(alloc, file, load)?)?;
        }
    }
    Ok(Segments::of(segments))
}

/// Reads an ELF file for 64-bit little-endian Power.
///
/// Answers the image of the file, or its first fault in the order of [`ElfFault`]. `Memory` may come
/// at any file, and says nothing of it.
pub fn read_elf(alloc: Global, bytes: &[u8]) -> Result<Image, ElfFault>
    ensures { Reads bytes.now result }
{
    let header = read_header(bytes)?;
    let count = usize::from(header.count);
    let all = read_loads(bytes, header.table as usize, count);
    let loads = &all[..count];
    match first_fault(bytes.len(), loads) {
        Some(fault) => Err(fault),
        None => Ok(Image {
            entry: header.entry,
            segments: load_segments(alloc, bytes, loads)?,
        }),
    }
}
