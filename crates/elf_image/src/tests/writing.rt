//! The files of images, and what is read back of them.

use super::THREE_WORDS;
use crate::*;
use std::alloc::Global;
use std::test::Fail;

/// The bytes `from`, `from + 1` and so on, `len` of them.
fn bytes(alloc: Global, from: u8, len: u8) -> Result<Bytes, Fail> {
    let mut items = Vec::new(alloc);
    for i in 0..len {
        items.push(from.wrapping_add(i))?;
    }
    Ok(Bytes::of(items))
}

/// An image of `count` segments, 4096 addresses apart, of which each third, from `empty` on, is empty.
///
/// The others have as many bytes as their number says, and eight zeros behind them.
fn image(alloc: Global, entry: u64, count: u8, empty: u8) -> Result<Image, Fail> {
    let mut segments = Vec::new(alloc);
    for number in 0..count {
        let at = 0x10000 + 0x1000 * u64::from(number);
        if number % 3 == empty {
            segments.push(Segment::of(at, 0, Bytes::of(Vec::new(alloc))))?;
        } else {
            let size = u64::from(number) + 8;
            let some = bytes(alloc, number, number)?;
            if some.len() as u64 > size {
                return Err("more bytes than were asked for".into());
            }
            segments.push(Segment::of(at, size, some))?;
        }
    }
    Ok(Image {
        entry,
        segments: Segments::of(segments),
    })
}

/// The two segments lie in one place and begin with the same bytes.
fn is_same(a: &Segment, b: &Segment) -> bool {
    a.at == b.at && a.size == b.size && a.bytes.as_slice() == b.bytes.as_slice()
}

/// The image that is read back of a file of this image has its entry and its segments that are not
/// empty.
fn comes_back(alloc: Global, image: &Image) -> Result<bool, Fail> {
    let file = write_elf(alloc, image)?;
    let back = read_elf(alloc, file.as_slice())?;
    let mut rest = back.segments.as_slice();
    for segment in image.segments.as_slice() {
        if segment.size > 0 {
            match rest {
                [first, more @ ..] => {
                    if !is_same(segment, first) {
                        return Ok(false);
                    }
                    rest = more;
                }
                [] => return Ok(false),
            }
        }
    }
    Ok(rest.is_empty() && back.entry == image.entry)
}

#[test]
fn the_file_of_three_words_is_written_as_it_was(rt: HostRuntime) -> Result<(), Fail> {
    let image = read_elf(rt.alloc(), &THREE_WORDS)?;
    let file = write_elf(rt.alloc(), &image)?;
    assert_eq!(rt; file.as_slice(), THREE_WORDS.as_slice());
    Ok(())
}

#[test]
fn images_are_read_back_without_their_empty_segments(rt: HostRuntime) -> Result<(), Fail> {
    for count in [1u8, 2, 64] {
        for empty in 0u8..4 {
            let low = image(rt.alloc(), 0, count, empty)?;
            assert!(rt; comes_back(rt.alloc(), &low)?);
            let high = image(rt.alloc(), 0xffff_ffff_ffff_ffff, count, empty)?;
            assert!(rt; comes_back(rt.alloc(), &high)?);
        }
    }
    Ok(())
}

#[test]
fn an_image_of_no_segment_or_of_65_is_not_written(rt: HostRuntime) -> Result<(), Fail> {
    let none = image(rt.alloc(), 0, 0, 0)?;
    let refused = write_elf(rt.alloc(), &none);
    assert!(rt; matches!(refused, Err(WriteElfFault::NoSegments)));
    let many = image(rt.alloc(), 0, 65, 3)?;
    let refused = write_elf(rt.alloc(), &many);
    assert!(rt; matches!(refused, Err(WriteElfFault::TooMany)));
    Ok(())
}
