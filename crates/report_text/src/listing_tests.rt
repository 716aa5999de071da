use super::*;
use elf_image::{Bytes, Image, Segment, Segments};
use outer_io::{MemSink, SinkFault};
use std::alloc::Global;
use std::test::Fail;

/// The words of `addi r3,0,1; add r4,r3,r3; b .`.
const THREE_WORDS: [u8; 12] = [1, 0, 0x60, 0x38, 0x14, 0x1a, 0x83, 0x7c, 0, 0, 0, 0x48];

/// An image of one segment, which has these bytes.
fn image_of(alloc: Global, at: u32, bytes: &[u8]) -> Result<Image, Fail> {
    let bytes = Bytes::of(Vec::from_slice(alloc, bytes)?);
    let size = bytes.len() as u64;
    let segment = Segment::of(u64::from(at), size, bytes);
    Ok(Image {
        entry: u64::from(at),
        segments: Segments::of(vec![in alloc; segment]?),
    })
}

#[test]
fn each_word_has_its_address_and_its_text(rt: HostRuntime) -> Result<(), Fail> {
    let image = image_of(rt.alloc(), 0x1_0000, &THREE_WORDS)?;
    let want = "0000000000010000 38600001 addi r3,0,1
0000000000010004 7c831a14 add r4,r3,r3
0000000000010008 48000000 b .+0
";
    let mut out = MemSink::open(rt.alloc(), 4096)?;
    assert_eq!(rt; print_listing(&image, &mut out), Ok(()));
    assert_eq!(rt; out.bytes(), want.as_bytes());
    Ok(())
}

#[test]
fn bytes_behind_the_last_whole_word_have_no_line(rt: HostRuntime) -> Result<(), Fail> {
    let image = image_of(rt.alloc(), 0, b"hello")?;
    let mut out = MemSink::open(rt.alloc(), 4096)?;
    assert_eq!(rt; print_listing(&image, &mut out), Ok(()));
    assert_eq!(rt;
        out.bytes(),
        b"0000000000000000 6c6c6568 xoris r12,r3,25960\n".as_slice()
    );
    Ok(())
}

#[test]
fn segments_come_in_their_order_without_the_zeros_behind_them(rt: HostRuntime) -> Result<(), Fail> {
    let none = Segment::of(0x3000, 0, Bytes::of(Vec::new(rt.alloc())));
    let five = Bytes::of(vec![in rt.alloc(); 0, 0, 0, 0, 0x60]?);
    let last = Segment::of(0xffff_ffff_ffff_fffb, 5, five);
    let four = Bytes::of(vec![in rt.alloc(); 0, 0, 0x63, 0x84]?);
    let zeros_behind = Segment::of(0x2000, 4096, four);
    let image = Image {
        entry: 0x2000,
        segments: Segments::of(vec![in rt.alloc(); none, last, zeros_behind]?),
    };
    let want = "fffffffffffffffb 00000000 .word 0x00000000
0000000000002000 84630000 .word 0x84630000
";
    let mut out = MemSink::open(rt.alloc(), 4096)?;
    assert_eq!(rt; print_listing(&image, &mut out), Ok(()));
    assert_eq!(rt; out.bytes(), want.as_bytes());
    Ok(())
}

#[test]
fn a_fault_at_the_second_line_leaves_a_front(rt: HostRuntime) -> Result<(), Fail> {
    let image = image_of(rt.alloc(), 0x1_0000, &THREE_WORDS)?;
    for (added, want) in [
        (0, "0000000000010000 38600001 addi r3,0,1\n"),
        (
            16,
            "0000000000010000 38600001 addi r3,0,1\n0000000000010004",
        ),
        (
            512,
            "0000000000010000 38600001 addi r3,0,1\n0000000000010004 7c831a14 add r4,r3,r3\n",
        ),
    ] {
        let mut out = MemSink::open(rt.alloc(), 4096)?;
        out.fail_call(2, added)?;
        assert_eq!(rt; print_listing(&image, &mut out), Err(SinkFault));
        assert_eq!(rt; out.bytes(), want.as_bytes());
    }
    Ok(())
}
