use super::*;
use crate::draws::all_draws;
use elf_image::Image;
use std::test::Fail;

/// The word at a place in the segment with a number.
fn word(image: &Image, number: usize, place: usize) -> Option<u32> {
    let segment = image.segments.as_slice().get(number)?;
    match segment.bytes.as_slice().get(place..)? {
        [a, b, c, d, ..] => Some(u32::from_le_bytes([*a, *b, *c, *d])),
        _ => None,
    }
}

/// The doubleword at a place in the segment with a number, which is big-endian.
fn doubleword(image: &Image, number: usize, place: usize) -> Option<u64> {
    let high = word(image, number, place)?.swap_bytes();
    let low = word(image, number, place.checked_add(4)?)?.swap_bytes();
    Some(u64::from(high) << 32 | u64::from(low))
}

#[test]
fn a_size_is_from_1_to_64(rt: HostRuntime) -> Result<(), Fail> {
    for size in [0, 65] {
        let refused = generate(rt.alloc(), 1, size);
        assert!(rt; matches!(refused, Err(GenFault::SizeLimit)));
    }
    let text = format!(in rt.alloc(); "{}", GenFault::SizeLimit)?;
    assert_eq!(rt; text.as_str(), "the size is not from 1 to 64");
    Ok(())
}

#[test]
fn draws_are_those_of_the_seed(rt: HostRuntime) -> Result<(), Fail> {
    let draws = all_draws(rt.alloc(), 7, 16)?;
    let first = [14, 15, 1, 1, 9, 3, 8, 4];
    let second = [13, 3, 12, 15, 8, 1, 6, 2];
    assert_eq!(rt; draws.as_slice().get(..8), Some(first.as_slice()));
    assert_eq!(rt; draws.as_slice().get(16..24), Some(second.as_slice()));
    assert_eq!(rt; draws.len(), 32);
    let draws = all_draws(rt.alloc(), 18_446_744_073_709_551_615, 64)?;
    let first = [40, 55, 21, 2];
    let second = [43, 60, 18, 15];
    assert_eq!(rt; draws.as_slice().get(..4), Some(first.as_slice()));
    assert_eq!(rt; draws.as_slice().get(64..68), Some(second.as_slice()));
    Ok(())
}

#[test]
fn an_image_has_seven_segments(rt: HostRuntime) -> Result<(), Fail> {
    let wanted = [
        (0xc00, 44),
        (0x1_0000, 68),
        (0x2_0000, 48),
        (0x10_0000, 12288),
        (0x11_0000, 24576),
        (0x20_0000, 12288),
        (0x21_0000, 24576),
    ];
    let image = generate(rt.alloc(), 1, 1)?;
    assert_eq!(rt; image.entry, 0x1_0000);
    assert_eq!(rt; image.segments.len(), wanted.len());
    for (segment, (at, size)) in image.segments.as_slice().iter().zip(wanted) {
        assert_eq!(rt; (segment.at, segment.size), (at, size));
        assert_eq!(rt; segment.bytes.len() as u64, size);
    }
    Ok(())
}

#[test]
fn the_code_has_the_words_of_the_assembler(rt: HostRuntime) -> Result<(), Fail> {
    let image = generate(rt.alloc(), 7, 16)?;
    let words = [
        // The handler: mfspr, sync, tlbie, eieio, tlbsync, sync, addi, stb, xori, mtspr and rfid.
        (0, 0, 0x7e9f_4aa6),
        (0, 4, 0x7c40_04ac),
        (0, 8, 0x7e81_c264),
        (0, 12, 0x7c00_06ac),
        (0, 16, 0x7c00_046c),
        (0, 20, 0x7c40_04ac),
        (0, 24, 0x3ab5_0001),
        (0, 28, 0x9ab6_0000),
        (0, 32, 0x6a94_0003),
        (0, 36, 0x7e9f_4ba6),
        (0, 40, 0x4c00_0024),
        // The start: the first addis, that of -32768, rldicr and hrfid.
        (1, 0, 0x3c80_0002),
        (1, 36, 0x3cc0_8000),
        (1, 40, 0x78c6_07c6),
        (1, 64, 0x4c00_0224),
        // A visit of page 30, sc and the branch back over 16 visits; a visit of page 29.
        (4, 0x5000, 0x3cc0_0001),
        (4, 0x5004, 0x60c6_e000),
        (4, 0x5008, 0xe8e6_0000),
        (4, 0x500c, 0x38e7_0001),
        (4, 0x5010, 0xf8e6_0000),
        (4, 0x5140, 0x4400_0022),
        (4, 0x5144, 0x4bff_febc),
        (4, 0x5148, 0),
        (6, 0x5004, 0x60c6_d000),
    ];
    for (number, place, wanted) in words {
        assert_eq!(rt; word(&image, number, place), Some(wanted), "at {place}");
    }
    Ok(())
}

#[test]
fn the_tables_have_their_entries(rt: HostRuntime) -> Result<(), Fail> {
    let image = generate(rt.alloc(), 1, 1)?;
    let entries = [
        // The partition table.
        (2, 0x10, 0x8000_0000_0010_000a),
        (2, 0x20, 0x8000_0000_0020_000a),
        // The tree of guest 1: its root, and the first and the last leaf.
        (3, 0, 0x8000_0000_0010_2009),
        (3, 0x1ff8, 0),
        (3, 0x2000, 0xc000_0000_0011_0187),
        (3, 0x23f8, 0xc000_0000_0018_f187),
        (3, 0x2400, 0),
        // The tables of guest 2, and the root of its tree.
        (5, 0, 0x8000_0000_0020_2009),
        (6, 0x10, 0x200a),
        (6, 0x2000, 0x8000_0000_0000_4009),
        (6, 0x4000, 0xc000_0000_0000_0187),
        (6, 0x43f8, 0xc000_0000_0007_f187),
    ];
    for (number, place, wanted) in entries {
        assert_eq!(rt;
            doubleword(&image, number, place),
            Some(wanted),
            "at {place}"
        );
    }
    Ok(())
}
