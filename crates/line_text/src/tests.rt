ghost use Rattle.std.specs.Prelude.{[], ◌∷◌, ◌++◌, codes};
ghost use Rattle.line_text.specs.Text.{end_of_line};

use super::*;
use outer_io::{MemSink, SinkFault};
use std::test::Fail;

#[test]
fn numbers_in_base_sixteen(rt: HostRuntime) {
    for (width, value, want) in [
        (1, 0, b"0".as_slice()),
        (1, 15, b"f".as_slice()),
        (3, 0, b"000".as_slice()),
        (5, 0x9a_0bc, b"9a0bc".as_slice()),
        (8, 0xffff_fffd, b"fffffffd".as_slice()),
        (16, 1, b"0000000000000001".as_slice()),
        (16, u64::MAX, b"ffffffffffffffff".as_slice()),
    ] {
        let mut line = Line::new();
        line.push_low_hex(width, value);
        assert_eq!(rt; line.as_slice(), want);
    }
}

#[test]
fn a_number_keeps_all_its_digits_or_the_low_ones(rt: HostRuntime) {
    let mut line = Line::new();
    line.push_hex(4, 0xbeef);
    line.push(b' ');
    line.push_low_hex(3, 0xbeef);
    assert_eq!(rt; line.as_slice(), b"beef eef".as_slice());
}

#[test]
fn numbers_in_base_ten(rt: HostRuntime) {
    for (value, want) in [
        (0, b"0".as_slice()),
        (9, b"9".as_slice()),
        (10, b"10".as_slice()),
        (1_048_576, b"1048576".as_slice()),
        (u64::MAX, b"18446744073709551615".as_slice()),
    ] {
        let mut line = Line::new();
        line.push_number(value);
        assert_eq!(rt; line.as_slice(), want);
    }
}

/// Two lines.
#[derive(Drop)]
struct TwoLines;

impl Lines for TwoLines {
    ghost lines = { λ _. (codes "one" ++ end_of_line) ∷ (codes "two" ++ end_of_line) ∷ [] };

    fn count(&self) -> u32 {
        2
    }

    fn line(&self, k: u32, line: &mut Line) {
        line.clear();
        if k == 0 {
            line.push_bytes(b"one\n");
        } else {
            line.push_bytes(b"two\n");
        }
    }
}

#[test]
fn lines_come_one_after_another(rt: HostRuntime) -> Result<(), Fail> {
    let mut out = MemSink::open(rt.alloc(), 64)?;
    assert_eq!(rt; print_lines(&TwoLines, &mut out), Ok(()));
    assert_eq!(rt; out.bytes(), b"one\ntwo\n".as_slice());
    Ok(())
}

#[test]
fn a_fault_leaves_the_lines_before_it(rt: HostRuntime) -> Result<(), Fail> {
    let mut out = MemSink::open(rt.alloc(), 6)?;
    assert_eq!(rt; print_lines(&TwoLines, &mut out), Err(SinkFault));
    assert_eq!(rt; out.bytes(), b"one\n".as_slice());
    Ok(())
}
