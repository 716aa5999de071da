use super::*;
use AsmKind::{Empty, Entry, Overlap, Range, Segments, Unknown};
use elf_image::{Image, write_elf};
use std::alloc::Global;
use std::process::Abort;
use std::test::Fail;

/// The image of a source whose lines are parted by `/`.
fn image(alloc: Global, source: &str) -> Result<Image, AsmFault> {
    let mut bytes = Vec::new(alloc);
    for byte in source.as_bytes().iter() {
        bytes.push(if *byte == b'/' { b'\n' } else { *byte })?;
    }
    assemble(alloc, &bytes)
}

/// Fails unless each source's first fault is of this kind on this line.
fn expect_fault(alloc: Global, rt: &impl Abort, line: u32, kind: AsmKind, sources: &[&str]) {
    for source in sources {
        let fault = image(alloc, source).err();
        assert_eq!(rt; fault, Some(AsmFault::At { line, kind }), "{source}");
    }
}

/// Fails unless the first segment of the source is at the entry and has these bytes.
fn expect_bytes(alloc: Global, rt: &impl Abort, source: &str, wanted: &[u8]) -> Result<(), Fail> {
    let image = image(alloc, source)?;
    let segment = image.segments.as_slice().first().expect(rt, "a segment");
    assert_eq!(rt; segment.at, image.entry, "{source}");
    assert_eq!(rt; segment.bytes.as_slice(), wanted, "{source}");
    Ok(())
}

/// Fails unless the line, alone in a segment at 0, is this word.
fn expect_word(alloc: Global, rt: &impl Abort, line: &str, word: u32) -> Result<(), Fail> {
    let source = format!(in alloc; ".equ k, 0x12348678/.seg 0/e: {line}/.entry e")?;
    expect_bytes(alloc, rt, &source, &word.to_le_bytes())
}

/// Fails unless the line, alone in a segment at 0, is out of range.
fn expect_out_of_range(alloc: Global, rt: &impl Abort, line: &str) -> Result<(), Fail> {
    let source = format!(in alloc; ".equ k, 0x12348678/.seg 0/e: {line}/.entry e")?;
    expect_fault(alloc, rt, 3, Range, &[&source]);
    Ok(())
}

#[test]
fn the_first_program_is_assembled(rt: HostRuntime) -> Result<(), Fail> {
    let source = ".seg 0x10000/e: addi r3,0,1/add r4,r3,r3/b .+0/.entry e";
    let image = image(rt.alloc(), source)?;
    assert_eq!(rt; image.entry, 0x10000);
    assert_eq!(rt; image.segments.len(), 1);
    assert_eq!(rt; write_elf(rt.alloc(), &image)?.len(), 132);
    let wanted = [1, 0, 0x60, 0x38, 0x14, 0x1a, 0x83, 0x7c, 0, 0, 0, 0x48];
    expect_bytes(rt.alloc(), &rt, source, &wanted)
}

#[test]
fn the_first_wrong_line_decides_and_on_it_the_first_kind(rt: HostRuntime) {
    let unknown = [
        ".seg 0/e: b x/.entry e",
        ".seg 0/ori r3,r3,65536+x",
        ".seg 0/rlwinm r3,r4,99,x@l,31",
        ".seg 0/.word 4294967296+x",
    ];
    expect_fault(rt.alloc(), &rt, 2, Unknown, &unknown);
    let too_early = [".seg x", ".equ a, b/.equ b, 1", ".seg a/.equ a, 0"];
    expect_fault(rt.alloc(), &rt, 1, Unknown, &too_early);
    let out_of_range = [
        ".seg 0/addi r3,0,65536/b x",
        ".seg 0/.space 16777217/e: .word e",
        ".seg 0/.space -1",
        ".seg 0/.align 3",
        ".seg 0xfffffffffffffffc/e: .dword 1/.entry e",
    ];
    expect_fault(rt.alloc(), &rt, 2, Range, &out_of_range);
    let first_line = [
        ".seg -1",
        ".seg 18446744073709551615+1",
        ".equ a, -9223372036854775809",
    ];
    expect_fault(rt.alloc(), &rt, 1, Range, &first_line);
    expect_fault(
        rt.alloc(),
        &rt,
        3,
        AsmKind::Form,
        &[".seg 0/addi r3,0,65536/addi"],
    );
}

#[test]
fn segments_meet_by_their_whole_lengths(rt: HostRuntime) -> Result<(), Fail> {
    expect_fault(
        rt.alloc(),
        &rt,
        3,
        Overlap,
        &[".seg 0x1000/.word 1/.seg 0x1002/.word 2/.entry a"],
    );
    let fifth_is_empty = ".seg 0/.word 1/.seg 4/.word 2/.seg 2/.seg 0/.word 9/.entry x";
    expect_fault(rt.alloc(), &rt, 6, Overlap, &[fifth_is_empty]);
    let image = image(
        rt.alloc(),
        ".seg 4/.word 1/.seg 0/e: .word 2/.seg 8/.word 3/.entry e",
    )?;
    assert_eq!(rt; image.segments.len(), 3);
    Ok(())
}

#[test]
fn a_source_has_at_most_64_segments(rt: HostRuntime) -> Result<(), Fail> {
    let mut source = String::new(rt.alloc());
    for i in 0u64..64 {
        source.push_str(&format!(in rt.alloc(); ".seg {}/.word {i}/", i.wrapping_mul(8))?)?;
    }
    let mut good = source.clone()?;
    good.push_str(".equ e, 8/.entry e")?;
    assert_eq!(rt; image(rt.alloc(), &good)?.segments.len(), 64);
    source.push_str(".seg 512/.word 64")?;
    expect_fault(rt.alloc(), &rt, 129, Segments, &[&source]);
    Ok(())
}

#[test]
fn a_source_has_an_entry_and_a_byte(rt: HostRuntime) -> Result<(), Fail> {
    let no_entry = [
        "",
        ".seg 0",
        ".seg 0/.word 1/.equ e, -1/.entry e",
        ".seg 0xfffffffffffffffc/.word 1/e: /.entry e",
        ".seg 0/.word 1/.entry a",
    ];
    expect_fault(rt.alloc(), &rt, 0, Entry, &no_entry);
    expect_fault(rt.alloc(), &rt, 0, Empty, &[".seg 0/e: /.entry e"]);
    let image = image(rt.alloc(), ".seg 0/.seg 0/e: .word 1/.entry e")?;
    let segments = image.segments.as_slice();
    assert_eq!(rt; segments.get(0).map(|segment| segment.size), Some(0));
    assert_eq!(rt; segments.get(1).map(|segment| segment.size), Some(4));
    expect_bytes(
        rt.alloc(),
        &rt,
        ".seg 0xfffffffffffffffc/e: .word 1/.entry e",
        &[1, 0, 0, 0],
    )
}

#[test]
fn numbers_texts_and_zeros_stand_as_they_are_written(rt: HostRuntime) -> Result<(), Fail> {
    expect_word(rt.alloc(), &rt, ".word -2147483648", 0x8000_0000)?;
    expect_word(rt.alloc(), &rt, ".word 4294967295", 0xffff_ffff)?;
    for line in [
        ".word -2147483649",
        ".word 4294967296",
        ".dword 18446744073709551615+1",
        ".bedword -9223372036854775809",
    ] {
        expect_out_of_range(rt.alloc(), &rt, line)?;
    }
    let source = ".seg 0/e: .dword -9223372036854775808/.bedword 1/.ascii \"ab\"/.space 3/.entry e";
    let wanted = [
        0, 0, 0, 0, 0, 0, 0, 0x80, 0, 0, 0, 0, 0, 0, 0, 1, b'a', b'b', 0, 0, 0,
    ];
    expect_bytes(rt.alloc(), &rt, source, &wanted)?;
    let aligned = ".seg 1/e: .align 4/.word 7/.entry e";
    expect_bytes(rt.alloc(), &rt, aligned, &[0, 0, 0, 7, 0, 0, 0])?;
    let image = image(rt.alloc(), ".seg 0/.space 16777216/e: .word 1/.entry e")?;
    assert_eq!(rt; image.entry, 16_777_216);
    Ok(())
}

#[test]
fn branches_reach_their_targets(rt: HostRuntime) -> Result<(), Fail> {
    for (line, word) in [
        ("b e", 0x4800_0000),
        ("b 0x1fffffc", 0x49ff_fffc),
        ("ba 0xfffffffffffffffc", 0x4bff_fffe),
        ("ba 0-4", 0x4bff_fffe),
        ("b 0xfffffffffffffffc", 0x4bff_fffc),
        ("b 0-0xffffffffffffffff-0xffffffffffffffff-2", 0x4800_0000),
        ("bc 20,0,.-8", 0x4280_fff8),
        ("bca 20,0,0-8", 0x4280_fffa),
    ] {
        expect_word(rt.alloc(), &rt, line, word)?;
    }
    for line in [
        "b 0x2000000",
        "b .+2",
        "ba 0xffffffffffffffff+1",
        "bc 20,0,.+32768",
    ] {
        expect_out_of_range(rt.alloc(), &rt, line)?;
    }
    Ok(())
}

#[test]
fn parts_of_a_value_fit_any_16_bits(rt: HostRuntime) -> Result<(), Fail> {
    for (line, word) in [
        ("addis r3,0,k@ha", 0x3c60_1235),
        ("addi r3,r3,k@l", 0x3863_8678),
        ("ori r3,r3,k@l", 0x6063_8678),
        ("addis r3,0,k@h", 0x3c60_1234),
        ("lwz r3,k@l(r3)", 0x8063_8678),
    ] {
        expect_word(rt.alloc(), &rt, line, word)?;
    }
    expect_out_of_range(rt.alloc(), &rt, "rlwinm r3,r4,k@l,0,31")?;
    let behind_all = ".seg 0xfffffffffffffffc/.word 1/e: /.seg 0/ori r3,r3,e@l/.entry e";
    expect_fault(rt.alloc(), &rt, 5, Range, &[behind_all]);
    Ok(())
}

#[test]
fn operands_stand_in_their_fields(rt: HostRuntime) -> Result<(), Fail> {
    for (line, word) in [
        ("ld r3,8(0)", 0xe860_0008),
        ("cmpeqb 3,0,r4,r5", 0x7d84_29c0),
        ("mtcrf r3,255", 0x7c6f_f120),
        ("mtspr 8,r3", 0x7c68_03a6),
        ("tlbie r4,r5,0,1,1", 0x7ca3_2264),
        ("addo. r1,r2,r3", 0x7c22_1e15),
        ("rlwnm r3,r4,r5,0,31", 0x5c83_283e),
        ("maddld r3,r4,r5,r6", 0x1064_29b3),
        ("isel r3,0,r4,5", 0x7c60_215e),
        ("bclrl 20,0", 0x4e80_0021),
        ("cmpi 7,1,r3,-1", 0x2fa3_ffff),
        ("stwcx. r3,0,r4", 0x7c60_212d),
        ("addpcis r3,-1", 0x4c7f_ffc5),
        ("extswsli. r3,r4,63", 0x7c83_fef7),
    ] {
        expect_word(rt.alloc(), &rt, line, word)?;
    }
    for line in [
        "lwzu r3,8(r0)",
        "mtocrf r3,255",
        "sync 3",
        "bcctr 16,0",
        "ld r3,2(r4)",
        "cmpeqb 3,1,r4,r5",
    ] {
        expect_out_of_range(rt.alloc(), &rt, line)?;
    }
    let name_like_a_register = ".seg 0/e: addi r3,0,r5/r5: .word 1/.entry e";
    expect_bytes(
        rt.alloc(),
        &rt,
        name_like_a_register,
        &[4, 0, 0x60, 0x38, 1, 0, 0, 0],
    )
}
