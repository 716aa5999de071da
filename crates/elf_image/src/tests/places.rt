use crate::*;
use std::alloc::Global;
use std::test::Fail;

/// An image with segments of zeros at these addresses and of these sizes.
fn image(alloc: Global, ranges: &[(u64, u64)]) -> Result<Image, Fail> {
    let mut segments = Vec::new(alloc);
    for (at, size) in ranges {
        let room = u64::MAX - *at;
        if *size > 0 && *size - 1 > room {
            return Err("a range behind the last address".into());
        }
        segments.push(Segment::of(*at, *size, Bytes::of(Vec::new(alloc))))?;
    }
    Ok(Image {
        entry: 0x10000,
        segments: Segments::of(segments),
    })
}

/// Guests of zeros at these addresses and of these sizes.
fn guests(alloc: Global, ranges: &[(u64, usize)]) -> Result<Guests, Fail> {
    let mut guests = Guests::new(alloc);
    for (at, size) in ranges {
        let bytes = Bytes::of(vec![in alloc; 0; *size]?);
        guests.push(Guest { at: *at, bytes })?;
    }
    Ok(guests)
}

fn span(from: u64, to: u64) -> Span {
    Span { from, to }
}

#[test]
fn a_range_that_leaves_ram_is_told_with_that_of_ram(rt: HostRuntime) -> Result<(), Fail> {
    let none = guests(rt.alloc(), &[])?;
    let ram = span(0, 0x100_0000);
    let border = image(rt.alloc(), &[(0xff_fffc, 8)])?;
    let pair = (span(0xff_fffc, 0x100_0004), ram);
    assert_eq!(rt; bad_place(&border, &none, 16), Some(pair));
    assert_eq!(rt; bad_place(&border, &none, 17), None);
    let last = image(rt.alloc(), &[(0xffff_ffff_ffff_fff8, 8)])?;
    let pair = (span(0xffff_ffff_ffff_fff8, 0xffff_ffff_ffff_ffff), ram);
    assert_eq!(rt; bad_place(&last, &none, 16), Some(pair));
    Ok(())
}

#[test]
fn a_range_is_told_with_the_first_that_it_meets(rt: HostRuntime) -> Result<(), Fail> {
    let one = image(rt.alloc(), &[(0x10000, 12)])?;
    let over = guests(rt.alloc(), &[(0x10008, 4)])?;
    let pair = (span(0x10008, 0x1000c), span(0x10000, 0x1000c));
    assert_eq!(rt; bad_place(&one, &over, 16), Some(pair));
    // The third meets both others, and the second guest, which leaves RAM too, comes later.
    let three = image(rt.alloc(), &[(0x20000, 8), (0x20008, 8), (0x20004, 8)])?;
    let pair = (span(0x20004, 0x2000c), span(0x20000, 0x20008));
    assert_eq!(rt; bad_place(&three, &over, 16), Some(pair));
    // A guest that meets a segment and leaves RAM.
    let end = image(rt.alloc(), &[(0xff_fff8, 8)])?;
    let both = guests(rt.alloc(), &[(0xff_fffc, 8)])?;
    let pair = (span(0xff_fffc, 0x100_0004), span(0, 0x100_0000));
    assert_eq!(rt; bad_place(&end, &both, 16), Some(pair));
    Ok(())
}

#[test]
fn touching_and_empty_ranges_have_their_places(rt: HostRuntime) -> Result<(), Fail> {
    let touching = image(rt.alloc(), &[(0x10000, 8), (0x10004, 0), (0x10008, 8)])?;
    let beside = guests(
        rt.alloc(),
        &[(0x10010, 4), (0xffff_ffff_ffff_ffff, 0), (0xfffc, 4)],
    )?;
    assert_eq!(rt; bad_place(&touching, &beside, 16), None);
    assert_eq!(rt; beside.as_slice().len(), 3);
    Ok(())
}
