use super::*;
use asm_places::{AsmKind, Places};
use asm_statements::{Pieces, Statement, read_line};
use std::alloc::Global;

fn statement<'a>(line: &'a str) -> Option<Statement<'a>> {
    read_line(Pieces::of_line(line.as_bytes())?)?.statement
}

/// What a line behind no others puts into memory.
fn content<'a>(alloc: Global, line: &'a str) -> Result<Content<'a>, AsmKind> {
    let places = Places::new(alloc);
    content_of(&places, &places, &statement(line))
}

#[test]
fn a_line_puts_its_number_its_text_or_its_zeros_into_memory(rt: HostRuntime) {
    let alloc = rt.alloc();
    assert!(rt; matches!(content(alloc, ".word -2"), Ok(Content::Word(0xffff_fffe))));
    assert!(rt; matches!(content(alloc, ".dword 7"), Ok(Content::Doubleword(7))));
    assert!(rt;
        matches!(
            content(alloc, ".bedword 7"),
            Ok(Content::BigEndianDoubleword(7))
        )
    );
    assert!(rt; matches!(content(alloc, ".space 3"), Ok(Content::Zeros(3))));
    assert!(rt;
        matches!(
            content(alloc, "addi r3,0,5"),
            Ok(Content::Word(0x3860_0005))
        )
    );
    assert!(rt; matches!(content(alloc, ".equ k, 5"), Ok(Content::Nothing)));
    let size = match content(alloc, ".ascii \"ab\"") {
        Ok(content) => content.size(),
        Err(_kind) => 0,
    };
    assert_eq!(rt; size, 2);
    assert!(rt; matches!(content(alloc, ".word k"), Err(AsmKind::Unknown)));
    assert!(rt; matches!(content(alloc, ".space -1"), Err(AsmKind::Range)));
}

#[test]
fn a_branch_has_how_far_its_target_is(rt: HostRuntime) {
    let places = Places::new(rt.alloc());
    let word = match statement("bl 0x20") {
        Some(Statement::Instruction(mnemonic, operands)) => {
            line_word(&places.names, 0x10, mnemonic, operands.as_slice())
        }
        _ => None,
    };
    assert_eq!(rt; word, Some(0x4800_0011));
}
