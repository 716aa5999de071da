use super::*;
use crate::lines::line_length;
use AsmKind::{Form, Lex, Lines, NoSegment, Twice};
use std::alloc::Global;
use std::process::Abort;
use std::test::Fail;

/// The first wrong line of a source with its kind, or `None` where the first pass finds no fault.
fn fault(alloc: Global, source: &[u8]) -> Option<AsmFault> {
    first_pass(alloc, source).err()
}

/// Fails unless each source's first fault is of this kind on this line.
fn expect(alloc: Global, rt: &impl Abort, line: u32, kind: AsmKind, sources: &[&str]) {
    for source in sources {
        assert_eq!(rt;
            fault(alloc, source.as_bytes()),
            Some(AsmFault::At { line, kind }),
            "{source}"
        );
    }
}

/// Fails unless the first pass finds no fault in the sources.
fn expect_good(alloc: Global, rt: &impl Abort, sources: &[&str]) {
    for source in sources {
        assert_eq!(rt; fault(alloc, source.as_bytes()), None, "{source}");
    }
}

#[test]
fn a_line_that_is_none_of_the_language_is_named(rt: HostRuntime) {
    expect_good(rt.alloc(), &rt, &["", "# c", ".seg 0"]);
    let forms = [
        ".seg 0\ne: nop",
        ".seg 0\n.word 007",
        ".seg 0\n.word 0x",
        ".seg 0\nadd r32,r0,r0",
        ".seg 0\naddi. r1,r2,3",
        ".seg 0\nlwzu r3,8(0)",
        ".seg 0\naddic r3,0,1",
        ".seg 0\nrfid 0",
        ".seg 0\n.word 2+-3",
        ".seg 0\nb e@l",
        ".seg 0\n.word e@l",
        ".seg 0\nfoo.: .word 1",
        ".seg 0\n.form\n;",
    ];
    expect(rt.alloc(), &rt, 2, Form, &forms);
    let tokens = [
        ".seg 0\n.word 18446744073709551616",
        ".seg 0\n.ascii \"a",
        ".seg 0\n.word 1;",
        ".seg 0\n\u{80}",
        ".seg 0\nabcdefghijklmnopqrstuvwxyz_012345:",
    ];
    expect(rt.alloc(), &rt, 2, Lex, &tokens);
    expect(rt.alloc(), &rt, 1, Lex, &[".seg 0\r\n"]);
    let good = [
        ".seg 0\nabcdefghijklmnopqrstuvwxyz_01234:",
        ".seg 0\n.word 0x00000000000000001",
    ];
    expect_good(rt.alloc(), &rt, &good);
}

#[test]
fn names_are_defined_once_and_bytes_stand_in_segments(rt: HostRuntime) {
    let no_segment = ["a:", ".word 1", ".equ a, .", "x: .seg 0", ".space 0"];
    expect(rt.alloc(), &rt, 1, NoSegment, &no_segment);
    let twice = [
        ".seg 0\ne: .word 1\ne: .word 2",
        ".seg 0\n.equ e, 1\n.equ e, 2",
        ".seg 0\ne: .word 1\n.equ e, 2",
        ".seg 0\n\ne: .equ e, 2",
    ];
    expect(rt.alloc(), &rt, 3, Twice, &twice);
    expect(
        rt.alloc(),
        &rt,
        4,
        Twice,
        &[".seg 0\ne: .word 1\n.entry e\n.entry e"],
    );
}

#[test]
fn names_and_segments_have_the_values_of_their_lines(rt: HostRuntime) -> Result<(), Fail> {
    let places = first_pass(rt.alloc(), b".entry e\n.seg 0\ne: .word 1")?;
    assert_eq!(rt; places.names.value(b"e", 1), Some(0));
    assert!(rt; places.entry.is_some());
    let places = first_pass(rt.alloc(), b".equ a, 5\n.seg 0\n.word a\n.entry a")?;
    assert_eq!(rt; places.names.value(b"a", 1), Some(5));
    let places = first_pass(rt.alloc(), b".seg 0\n.word 1\nx: .seg .+x\n.word 2")?;
    assert_eq!(rt; places.names.value(b"x", 1), Some(4));
    let second = SegmentLine {
        line: 3,
        base: 8,
        size: 4,
    };
    assert_eq!(rt; places.segments.as_slice().get(1).copied(), Some(second));
    let places = first_pass(rt.alloc(), b".seg 0\n.word 1\nx: .align 8\n.word x")?;
    assert_eq!(rt; places.names.value(b"x", 1), Some(4));
    assert_eq!(rt;
        places
            .segments
            .as_slice()
            .first()
            .map(|segment| segment.size),
        Some(12)
    );
    let places = first_pass(rt.alloc(), b".seg 0\n.space n\n.equ n, 4\ne: .word 1")?;
    assert_eq!(rt; places.names.value(b"e", 2), Some(0));
    assert_eq!(rt; places.names.value(b"e", 1), None);
    Ok(())
}

#[test]
fn a_source_has_at_most_65536_lines(rt: HostRuntime) -> Result<(), Fail> {
    let mut source = Vec::new(rt.alloc());
    for _ in 0..65536 {
        source.push(b'\n')?;
    }
    assert_eq!(rt; fault(rt.alloc(), &source), None);
    source.push(b' ')?;
    let at = |kind: AsmKind| AsmFault::At { line: 65537, kind };
    assert_eq!(rt; fault(rt.alloc(), &source), Some(at(Lines)));
    source.push(b',')?;
    assert_eq!(rt; fault(rt.alloc(), &source), Some(at(Form)));
    Ok(())
}

#[test]
fn a_name_is_found_only_among_the_first_known(rt: HostRuntime) -> Result<(), Fail> {
    let mut names = Names::new(rt.alloc());
    names.define(b"start", 0x1_0000)?;
    names.define(b"offset", -8)?;
    assert_eq!(rt; names.len(), 2);
    assert_eq!(rt; names.value(b"start", 2), Some(0x1_0000));
    assert_eq!(rt; names.value(b"offset", 2), Some(-8));
    assert_eq!(rt; names.value(b"start", 1), Some(0x1_0000));
    assert_eq!(rt; names.value(b"offset", 1), None);
    assert_eq!(rt; names.value(b"start", 0), None);
    assert_eq!(rt; names.value(b"star", 2), None);
    Ok(())
}

#[test]
fn an_empty_line_stands_between_two_newlines(rt: HostRuntime) {
    assert_eq!(rt; line_length(b"a\n\nb"), 1);
    assert_eq!(rt; line_length(b"\nb"), 0);
    assert_eq!(rt; line_length(b"b"), 1);
}

#[test]
fn the_address_stands_behind_the_last_segment(rt: HostRuntime) -> Result<(), Fail> {
    let mut segments = SegmentLines::new(rt.alloc());
    assert_eq!(rt; segments.address(), None);
    segments.push(SegmentLine {
        line: 1,
        base: 0x1000,
        size: 4,
    })?;
    segments.push(SegmentLine {
        line: 2,
        base: u64::MAX,
        size: 0,
    })?;
    assert_eq!(rt; segments.address(), Some(0xffff_ffff_ffff_ffff));
    segments.grow(8);
    assert_eq!(rt; segments.address(), Some(0x1_0000_0000_0000_0007));
    assert_eq!(rt;
        segments.as_slice().first().map(|segment| segment.size),
        Some(4)
    );
    Ok(())
}
