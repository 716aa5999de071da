//! Which files are read, and the first fault of those that are not.

use super::{Entry, THREE_WORDS, changed, file, front, refusal, without_bytes};
use crate::{ElfFault, read_elf};
use std::test::Fail;

/// The file with FF at the places from one to another.
fn filled(mut bytes: [u8; 132], from: usize, to: usize) -> [u8; 132] {
    for place in from..to {
        if place < 132 {
            bytes[place] = 0xff;
        }
    }
    bytes
}

/// The file with this byte, the lowest of the flags, and FF in the others where it is above 7.
fn with_flags(mut bytes: [u8; 132], lowest: u8) -> [u8; 132] {
    let above = if lowest > 7 { 0xff } else { 0 };
    bytes[48] = lowest;
    for place in 49..52 {
        bytes[place] = above;
    }
    bytes
}

#[test]
fn reads_three_words(rt: HostRuntime) -> Result<(), Fail> {
    let image = read_elf(rt.alloc(), &THREE_WORDS)?;
    assert_eq!(rt; image.entry, 0x10000);
    assert_eq!(rt; image.segments.len(), 1);
    let segment = image.segments.as_slice().first().ok_or("a segment")?;
    assert_eq!(rt; segment.at, 0x10000);
    assert_eq!(rt; segment.size, 12);
    let words = [
        0x01, 0x00, 0x60, 0x38, 0x14, 0x1a, 0x83, 0x7c, 0x00, 0x00, 0x00, 0x48,
    ];
    assert_eq!(rt; segment.bytes.as_slice(), words.as_slice());
    Ok(())
}

#[test]
fn a_cut_file_has_the_fault_of_what_is_missing(rt: HostRuntime) {
    let cuts = [
        (0usize, Some(ElfFault::Short)),
        (63, Some(ElfFault::Short)),
        (64, Some(ElfFault::Header)),
        (119, Some(ElfFault::Header)),
        (120, Some(ElfFault::Segment(0))),
        (131, Some(ElfFault::Segment(0))),
        (132, None),
    ];
    for (len, wanted) in cuts {
        assert_eq!(rt; refusal(rt.alloc(), &THREE_WORDS[..len.min(132)]), wanted);
    }
}

#[test]
fn each_test_of_the_header_has_its_fault(rt: HostRuntime) {
    let changes = [
        ((0, 0x7e), ElfFault::Magic),
        ((1, 0x65), ElfFault::Magic),
        ((2, 0x6c), ElfFault::Magic),
        ((3, 0x66), ElfFault::Magic),
        ((4, 1), ElfFault::Class),
        ((5, 2), ElfFault::Order),
        ((18, 20), ElfFault::Machine),
        ((19, 1), ElfFault::Machine),
        ((48, 1), ElfFault::Abi),
        ((48, 3), ElfFault::Abi),
        ((16, 1), ElfFault::FileType),
        ((16, 4), ElfFault::FileType),
        ((54, 64), ElfFault::Header),
        ((56, 0), ElfFault::Header),
        ((39, 0x80), ElfFault::Header),
    ];
    for (change, wanted) in changes {
        assert_eq!(rt; refusal(rt.alloc(), &changed(&[change])), Some(wanted));
    }
    let mut no_offset = THREE_WORDS;
    no_offset[32..40].copy_from_slice(&[0xff; 8]);
    assert_eq!(rt; refusal(rt.alloc(), &no_offset), Some(ElfFault::Header));
}

#[test]
fn fields_that_say_nothing_may_be_anything(rt: HostRuntime) -> Result<(), Fail> {
    // FileType 3. Then the version, the ABI of the system and its version, and the padding;
    // e_version, e_shoff, e_ehsize, e_shentsize, e_shnum and e_shstrndx; and of the segment its
    // flags, virtual address and alignment.
    let mut bytes = changed(&[(16, 3)]);
    for (from, to) in [
        (6, 16),
        (20, 24),
        (40, 48),
        (52, 54),
        (58, 64),
        (68, 72),
        (80, 88),
        (112, 120),
    ] {
        bytes = filled(bytes, from, to);
    }
    for flags in [0, 2, 6] {
        bytes = with_flags(bytes, flags);
        let image = read_elf(rt.alloc(), &bytes)?;
        let segment = image.segments.as_slice().first().ok_or("a segment")?;
        assert_eq!(rt; segment.at, 0x10000);
        assert_eq!(rt; segment.size, 12);
    }
    assert_eq!(rt; refusal(rt.alloc(), &with_flags(bytes, 0xfe)), None);
    Ok(())
}

#[test]
fn of_two_faults_the_earlier_is_told(rt: HostRuntime) -> Result<(), Fail> {
    assert_eq!(rt; refusal(rt.alloc(), &[0; 63]), Some(ElfFault::Short));
    let pairs = [
        ((0, 0), (4, 1), ElfFault::Magic),
        ((4, 1), (5, 2), ElfFault::Class),
        ((5, 2), (18, 20), ElfFault::Order),
        ((18, 20), (48, 1), ElfFault::Machine),
        ((48, 1), (16, 1), ElfFault::Abi),
        ((16, 1), (56, 0), ElfFault::FileType),
    ];
    for (one, other, wanted) in pairs {
        assert_eq!(rt; refusal(rt.alloc(), &changed(&[one, other])), Some(wanted));
    }
    // 65 headers, the first of which has no good segment.
    let mut many = front(rt.alloc(), 65)?;
    many.extend_from_slice(&[1, 0, 0, 0])?;
    many.resize(3703, 0xff)?;
    assert_eq!(rt; refusal(rt.alloc(), &many), Some(ElfFault::Header));
    many.push(0xff)?;
    assert_eq!(rt; refusal(rt.alloc(), &many), Some(ElfFault::TooMany));
    // Two segments that meet, and one that wraps.
    let headers = [
        without_bytes(1, 0x10000, 8),
        without_bytes(1, 0x10004, 8),
        without_bytes(1, 0xffff_ffff_ffff_fff8, 9),
    ];
    let bytes = file(rt.alloc(), &headers, 240)?;
    assert_eq!(rt; refusal(rt.alloc(), &bytes), Some(ElfFault::Segment(2)));
    Ok(())
}

#[test]
fn at_most_64_headers_are_read(rt: HostRuntime) -> Result<(), Fail> {
    let counts = [
        (64, 3648, None),
        (65, 3704, Some(ElfFault::TooMany)),
        (65, 3703, Some(ElfFault::Header)),
        (0xffff, 3_670_024, Some(ElfFault::TooMany)),
    ];
    for (count, len, wanted) in counts {
        // Headers of zeros have type 0.
        let mut bytes = front(rt.alloc(), count)?;
        bytes.resize(len, 0)?;
        assert_eq!(rt; refusal(rt.alloc(), &bytes), wanted);
    }
    Ok(())
}

#[test]
fn segments_that_fit_nowhere_are_told_by_the_number_of_their_header(
    rt: HostRuntime,
) -> Result<(), Fail> {
    let full = |offset: u64, at: u64, filesz: u64, memsz: u64| Entry {
        kind: 1,
        offset,
        at,
        filesz,
        memsz,
    };
    let bad = Some(ElfFault::Segment(1));
    let rows = [
        // More bytes in the file than in memory, also where it has none in memory.
        (full(176, 0x10000, 9, 8), bad),
        (full(176, 0x10000, 1, 0), bad),
        // Bytes up to the end of the file, and one more; an offset at which a sum of 64 bits wraps.
        (full(184, 0x10000, 8, 8), None),
        (full(185, 0x10000, 8, 8), bad),
        (full(0xffff_ffff_ffff_ffff, 0x10000, 8, 8), bad),
        // No bytes in the file, and an offset behind its end.
        (full(193, 0x10000, 0, 0x4000), None),
        // Up to the last address, and one address more.
        (full(176, 0xffff_ffff_ffff_fff8, 8, 8), None),
        (full(176, 0xffff_ffff_ffff_fff8, 8, 9), bad),
        // No bytes at all, with any place.
        (
            full(0xffff_ffff_ffff_ffff, 0xffff_ffff_ffff_ffff, 0, 0),
            None,
        ),
    ];
    for (second, wanted) in rows {
        let bytes = file(rt.alloc(), &[without_bytes(2, 0, 1), second], 192)?;
        assert_eq!(rt; refusal(rt.alloc(), &bytes), wanted);
    }
    Ok(())
}

#[test]
fn only_segments_with_a_size_are_loaded(rt: HostRuntime) -> Result<(), Fail> {
    let mut text = without_bytes(1, 0x10000, 0x20);
    text.offset = 0x200;
    text.filesz = 4;
    let mut past = without_bytes(1, 0x20000, 0x4000);
    past.offset = 0x1000;
    let headers = [
        without_bytes(6, 0x10000, 0x20),
        without_bytes(1, 0x10000, 0),
        text,
        without_bytes(0x6474_e551, 0x10000, 0x20),
        past,
    ];
    let mut bytes = file(rt.alloc(), &headers, 0x200)?;
    bytes.extend_from_slice(&[1, 2, 3, 4])?;
    let image = read_elf(rt.alloc(), &bytes)?;
    assert_eq!(rt; image.segments.len(), 2);
    let first = image.segments.as_slice().first().ok_or("a segment")?;
    assert_eq!(rt; (first.at, first.size), (0x10000, 0x20));
    assert_eq!(rt; first.bytes.as_slice(), [1, 2, 3, 4].as_slice());
    let last = image.segments.as_slice().last().ok_or("a segment")?;
    assert_eq!(rt; (last.at, last.size), (0x20000, 0x4000));
    assert!(rt; last.bytes.is_empty());
    Ok(())
}

#[test]
fn the_first_two_segments_that_meet_are_told(rt: HostRuntime) -> Result<(), Fail> {
    let two = |second: u64| [without_bytes(1, 0x10000, 8), without_bytes(1, second, 8)];
    let bytes = file(rt.alloc(), &two(0x10004), 176)?;
    assert_eq!(rt; refusal(rt.alloc(), &bytes), Some(ElfFault::Overlap(0, 1)));
    let bytes = file(rt.alloc(), &two(0x10008), 176)?;
    assert_eq!(rt; refusal(rt.alloc(), &bytes), None);
    // The numbers count headers of other types.
    let between = [
        without_bytes(1, 0x10000, 8),
        without_bytes(2, 0x10000, 8),
        without_bytes(1, 0x10004, 8),
    ];
    let bytes = file(rt.alloc(), &between, 232)?;
    assert_eq!(rt; refusal(rt.alloc(), &bytes), Some(ElfFault::Overlap(0, 2)));
    // The third meets both others.
    let three = [
        without_bytes(1, 0x10000, 8),
        without_bytes(1, 0x10008, 8),
        without_bytes(1, 0x10004, 8),
    ];
    let bytes = file(rt.alloc(), &three, 232)?;
    assert_eq!(rt; refusal(rt.alloc(), &bytes), Some(ElfFault::Overlap(0, 2)));
    // The third meets the second, before the fourth meets the first.
    let four = [
        without_bytes(1, 0x10000, 8),
        without_bytes(1, 0x20000, 8),
        without_bytes(1, 0x20007, 8),
        without_bytes(1, 0x10007, 8),
    ];
    let bytes = file(rt.alloc(), &four, 288)?;
    assert_eq!(rt; refusal(rt.alloc(), &bytes), Some(ElfFault::Overlap(1, 2)));
    Ok(())
}
