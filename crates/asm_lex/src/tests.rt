use super::*;
use TokenKind::{Newline, Number, Sign, Text, Word};
use std::alloc::Global;
use std::process::Abort;
use std::test::Fail;

/// Fails unless the bytes have these tokens.
fn expect(
    alloc: Global,
    rt: &impl Abort,
    bytes: &[u8],
    wanted: &[(TokenKind, usize, usize)],
) -> Result<(), Fail> {
    let found = tokens(alloc, bytes)?;
    assert_eq!(rt; found.len(), wanted.len());
    for (token, wanted) in found.as_slice().iter().zip(wanted) {
        assert_eq!(rt; (token.kind, token.from, token.to), *wanted);
    }
    Ok(())
}

fn fault(alloc: Global, bytes: &[u8]) -> Option<LexFault> {
    tokens(alloc, bytes).err()
}

#[test]
fn each_token_is_as_long_as_it_can_be(rt: HostRuntime) -> Result<(), Fail> {
    expect(rt.alloc(), &rt, b"0x", &[(Number(0), 0, 1), (Word, 1, 2)])?;
    expect(
        rt.alloc(),
        &rt,
        b"007",
        &[(Number(0), 0, 1), (Number(0), 1, 2), (Number(7), 2, 3)],
    )?;
    expect(
        rt.alloc(),
        &rt,
        b"12ab",
        &[(Number(12), 0, 2), (Word, 2, 4)],
    )?;
    expect(rt.alloc(), &rt, b".5", &[(Sign, 0, 1), (Number(5), 1, 2)])?;
    expect(rt.alloc(), &rt, b"a.b", &[(Word, 0, 2), (Word, 2, 3)])?;
    expect(rt.alloc(), &rt, b"..", &[(Sign, 0, 1), (Sign, 1, 2)])?;
    expect(rt.alloc(), &rt, b".seg.", &[(Word, 0, 5)])?;
    expect(
        rt.alloc(),
        &rt,
        b"0x0fFg",
        &[(Number(255), 0, 5), (Word, 5, 6)],
    )
}

#[test]
fn a_line_of_each_statement_has_its_tokens(rt: HostRuntime) -> Result<(), Fail> {
    expect(
        rt.alloc(),
        &rt,
        b"e:\taddi. r1,r2,-3 # c\n",
        &[
            (Word, 0, 1),
            (Sign, 1, 2),
            (Word, 3, 8),
            (Word, 9, 11),
            (Sign, 11, 12),
            (Word, 12, 14),
            (Sign, 14, 15),
            (Sign, 15, 16),
            (Number(3), 16, 17),
            (Newline, 21, 22),
        ],
    )?;
    expect(
        rt.alloc(),
        &rt,
        b".seg 0x1000",
        &[(Word, 0, 4), (Number(4096), 5, 11)],
    )?;
    expect(rt.alloc(), &rt, b".entry e", &[(Word, 0, 6), (Word, 7, 8)])?;
    expect(
        rt.alloc(),
        &rt,
        b".equ a, .+8",
        &[
            (Word, 0, 4),
            (Word, 5, 6),
            (Sign, 6, 7),
            (Sign, 8, 9),
            (Sign, 9, 10),
            (Number(8), 10, 11),
        ],
    )?;
    expect(
        rt.alloc(),
        &rt,
        b".word 1",
        &[(Word, 0, 5), (Number(1), 6, 7)],
    )?;
    expect(
        rt.alloc(),
        &rt,
        b".dword 2",
        &[(Word, 0, 6), (Number(2), 7, 8)],
    )?;
    expect(
        rt.alloc(),
        &rt,
        b".bedword 3",
        &[(Word, 0, 8), (Number(3), 9, 10)],
    )?;
    expect(
        rt.alloc(),
        &rt,
        b".ascii \"a # b\"",
        &[(Word, 0, 6), (Text, 7, 14)],
    )?;
    expect(
        rt.alloc(),
        &rt,
        b".space 4",
        &[(Word, 0, 6), (Number(4), 7, 8)],
    )?;
    expect(
        rt.alloc(),
        &rt,
        b".align 8",
        &[(Word, 0, 6), (Number(8), 7, 8)],
    )?;
    expect(
        rt.alloc(),
        &rt,
        b"lwz r3,k@l(r4)",
        &[
            (Word, 0, 3),
            (Word, 4, 6),
            (Sign, 6, 7),
            (Word, 7, 8),
            (Sign, 8, 9),
            (Word, 9, 10),
            (Sign, 10, 11),
            (Word, 11, 13),
            (Sign, 13, 14),
        ],
    )
}

#[test]
fn a_comment_ends_before_its_newline(rt: HostRuntime) -> Result<(), Fail> {
    expect(rt.alloc(), &rt, b"", &[])?;
    expect(rt.alloc(), &rt, b" \t# \r\x80\"\n", &[(Newline, 7, 8)])?;
    expect(rt.alloc(), &rt, b"#", &[])
}

#[test]
fn numbers_end_below_two_to_the_64(rt: HostRuntime) -> Result<(), Fail> {
    expect(
        rt.alloc(),
        &rt,
        b"18446744073709551615",
        &[(Number(u64::MAX), 0, 20)],
    )?;
    expect(
        rt.alloc(),
        &rt,
        b"0x00000000000000001",
        &[(Number(1), 0, 19)],
    )?;
    let too_wide = Some(LexFault::NumberTooWide(1));
    assert_eq!(rt; fault(rt.alloc(), b" 18446744073709551616"), too_wide);
    assert_eq!(rt; fault(rt.alloc(), b" 0x10000000000000000"), too_wide);
    Ok(())
}

#[test]
fn the_first_byte_that_begins_no_token_is_bad(rt: HostRuntime) {
    assert_eq!(rt; fault(rt.alloc(), b".word 1;"), Some(LexFault::BadByte(7)));
    assert_eq!(rt; fault(rt.alloc(), b"a\r\n"), Some(LexFault::BadByte(1)));
    assert_eq!(rt; fault(rt.alloc(), b"\x80"), Some(LexFault::BadByte(0)));
    assert_eq!(rt;
        fault(rt.alloc(), b".ascii \"a"),
        Some(LexFault::BadByte(7))
    );
    assert_eq!(rt; fault(rt.alloc(), b"\"a\tb\""), Some(LexFault::BadByte(0)));
    assert_eq!(rt; fault(rt.alloc(), b"\"a\\\""), Some(LexFault::BadByte(0)));
}

#[test]
fn a_name_has_at_most_32_bytes(rt: HostRuntime) -> Result<(), Fail> {
    expect(
        rt.alloc(),
        &rt,
        b".abcdefghijklmnopqrstuvwxyz_01234.",
        &[(Word, 0, 34)],
    )?;
    let bytes = b".abcdefghijklmnopqrstuvwxyz_012345";
    assert_eq!(rt; fault(rt.alloc(), bytes), Some(LexFault::BadByte(33)));
    Ok(())
}

#[test]
fn a_lexer_reads_one_token_after_another(rt: HostRuntime) {
    let mut lexer = Lexer::new(b"b .\n;");
    let word = Token {
        kind: Word,
        from: 0,
        to: 1,
    };
    let dot = Token {
        kind: Sign,
        from: 2,
        to: 3,
    };
    let newline = Token {
        kind: Newline,
        from: 3,
        to: 4,
    };
    assert_eq!(rt; lexer.next(), Ok(Some(word)));
    assert_eq!(rt; lexer.next(), Ok(Some(dot)));
    assert_eq!(rt; lexer.next(), Ok(Some(newline)));
    assert_eq!(rt; lexer.next(), Err(LexFault::BadByte(4)));
    assert_eq!(rt; lexer.next(), Err(LexFault::BadByte(4)));
}
