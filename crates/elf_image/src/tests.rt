mod places;
mod reading;
mod writing;

use super::*;
use std::alloc::Global;
use std::test::Fail;

/// The file of three words at 0x10000, where the program starts: 38600001, 7C831A14 and 48000000.
const THREE_WORDS: [u8; 132] = [
    // What the file is.
    0x7f, 0x45, 0x4c, 0x46, 2, 1, 1, 0, 0, 0, 0, 0, 0, 0, 0, 0,
    // An executable file for Power, version 1, and where it starts.
    2, 0, 21, 0, 1, 0, 0, 0, 0, 0, 1, 0, 0, 0, 0, 0,
    // Where the headers of segments stand; there are none of sections.
    64, 0, 0, 0, 0, 0, 0, 0, 0, 0, 0, 0, 0, 0, 0, 0,
    // The ABI, the sizes of the two headers, and one segment.
    2, 0, 0, 0, 64, 0, 56, 0, 1, 0, 0, 0, 0, 0, 0, 0,
    // A segment that is loaded, read, written and run, and where its bytes stand.
    1, 0, 0, 0, 7, 0, 0, 0, 120, 0, 0, 0, 0, 0, 0, 0,
    // Where it lies, twice.
    0, 0, 1, 0, 0, 0, 0, 0, 0, 0, 1, 0, 0, 0, 0, 0,
    // Its bytes in the file and in memory, and no alignment.
    12, 0, 0, 0, 0, 0, 0, 0, 12, 0, 0, 0, 0, 0, 0, 0, 1, 0, 0, 0, 0, 0, 0, 0,
    // The words.
    0x01, 0x00, 0x60, 0x38, 0x14, 0x1a, 0x83, 0x7c, 0x00, 0x00, 0x00, 0x48,
];

/// The file with some of its bytes changed.
fn changed(changes: &[(usize, u8)]) -> [u8; 132] {
    let mut bytes = THREE_WORDS;
    for (place, byte) in changes {
        if *place < 132 {
            bytes[*place] = *byte;
        }
    }
    bytes
}

/// The fault of a file, if it has one.
fn refusal(alloc: Global, bytes: &[u8]) -> Option<ElfFault> {
    match read_elf(alloc, bytes) {
        Ok(_) => None,
        Err(fault) => Some(fault),
    }
}

/// The fields of a segment's header that are looked at.
#[derive(Clone, Copy)]
struct Entry {
    kind: u32,
    offset: u64,
    at: u64,
    filesz: u64,
    memsz: u64,
}

/// A header of this type, whose segment has no bytes in the file.
fn without_bytes(kind: u32, at: u64, memsz: u64) -> Entry {
    Entry {
        kind,
        offset: 0,
        at,
        filesz: 0,
        memsz,
    }
}

/// The first 64 bytes of the file of three words, for this many headers of segments.
fn front(alloc: Global, count: u16) -> Result<Vec<u8>, Fail> {
    let mut out = Vec::from_slice(alloc, &THREE_WORDS[..56])?;
    out.extend_from_slice(&count.to_le_bytes())?;
    out.extend_from_slice(&THREE_WORDS[58..64])?;
    Ok(out)
}

/// A file of these headers and of `len` bytes in all, which are AB behind the headers.
///
/// Flags, virtual address and alignment of the headers are such as no writer gives.
fn file(alloc: Global, headers: &[Entry], len: usize) -> Result<Vec<u8>, Fail> {
    let mut out = front(alloc, (headers.len() % 256) as u16)?;
    for header in headers {
        out.extend_from_slice(&header.kind.to_le_bytes())?;
        out.extend_from_slice(&[0xff; 4])?;
        out.extend_from_slice(&header.offset.to_le_bytes())?;
        out.extend_from_slice(&[0x77; 8])?;
        out.extend_from_slice(&header.at.to_le_bytes())?;
        out.extend_from_slice(&header.filesz.to_le_bytes())?;
        out.extend_from_slice(&header.memsz.to_le_bytes())?;
        out.extend_from_slice(&[0x99; 8])?;
    }
    out.resize(len, 0xab)?;
    Ok(out)
}

#[test]
fn makes_segments(rt: HostRuntime) -> Result<(), Fail> {
    let none = Bytes::of(Vec::new(rt.alloc()));
    assert!(rt; none.is_empty());
    let bytes = Bytes::of(vec![in rt.alloc(); 7, 9]?);
    assert_eq!(rt; bytes.len(), 2);
    assert!(rt; !bytes.is_empty());
    let segment = Segment::of(0x1000, 5, bytes);
    assert_eq!(rt; segment.at, 0x1000);
    assert_eq!(rt; segment.size, 5);
    assert_eq!(rt; segment.bytes.as_slice(), [7, 9].as_slice());
    let segments = Segments::of(vec![in rt.alloc(); segment]?);
    assert_eq!(rt; segments.len(), 1);
    assert!(rt; !segments.is_empty());
    Ok(())
}

#[test]
fn says_why(rt: HostRuntime) -> Result<(), Fail> {
    let text = format!(in rt.alloc(); "{}", ElfFault::Overlap(0, 2))?;
    assert_eq!(rt; text.as_str(), "the segments of headers 0 and 2 meet");
    let text = format!(in rt.alloc(); "{}", WriteElfFault::NoSegments)?;
    assert_eq!(rt; text.as_str(), "an image without segments");
    Ok(())
}
