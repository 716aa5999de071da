use super::*;
use operand_texts::Mnemonic;
use ppc_ops::Op;
use std::process::Abort;

/// What a piece is, as a test compares it.
#[derive(Clone, Copy, Debug, PartialEq, Eq)]
enum Wanted<'a> {
    Number(u64),
    Word(&'a [u8]),
    Text(&'a [u8]),
    Sign(Sign),
}

fn seen<'a>(piece: Piece<'a>) -> Wanted<'a> {
    match piece {
        Piece::Number(n) => Wanted::Number(n),
        Piece::Word(word) => Wanted::Word(word.bytes()),
        Piece::Text(text) => Wanted::Text(text.bytes()),
        Piece::Sign(sign) => Wanted::Sign(sign),
    }
}

fn pieces<'a>(rt: &impl Abort, line: &'a [u8]) -> Pieces<'a> {
    Pieces::of_line(line).expect(
        rt,
        "every byte of the line stands in a token or between tokens",
    )
}

/// Fails unless these are the pieces.
fn expect(rt: &impl Abort, mut pieces: Pieces, wanted: &[Wanted]) {
    for one in wanted {
        assert_eq!(rt; pieces.next().map(seen), Some(*one));
    }
    assert_eq!(rt; pieces.next().map(seen), None);
    assert_eq!(rt; pieces.next().map(seen), None);
}

const LINE: &[u8] = b"e: addi. r1,-3(r2) # c";

#[test]
fn a_line_has_its_tokens_with_what_they_say(rt: HostRuntime) {
    expect(
        &rt,
        pieces(&rt, LINE),
        &[
            Wanted::Word(b"e"),
            Wanted::Sign(Sign::Colon),
            Wanted::Word(b"addi."),
            Wanted::Word(b"r1"),
            Wanted::Sign(Sign::Comma),
            Wanted::Sign(Sign::Minus),
            Wanted::Number(3),
            Wanted::Sign(Sign::Open),
            Wanted::Word(b"r2"),
            Wanted::Sign(Sign::Close),
        ],
    );
    expect(
        &rt,
        pieces(&rt, b".word 0x10+a@l-."),
        &[
            Wanted::Word(b".word"),
            Wanted::Number(16),
            Wanted::Sign(Sign::Plus),
            Wanted::Word(b"a"),
            Wanted::Sign(Sign::At),
            Wanted::Word(b"l"),
            Wanted::Sign(Sign::Minus),
            Wanted::Sign(Sign::Dot),
        ],
    );
    expect(&rt, pieces(&rt, b""), &[]);
    expect(&rt, pieces(&rt, b"\t# a line of a comment"), &[]);
}

#[test]
fn a_text_is_what_stands_between_its_quotes(rt: HostRuntime) {
    let ascii = [Wanted::Word(b".ascii"), Wanted::Text(b"a,b")];
    expect(&rt, pieces(&rt, b".ascii \"a,b\""), &ascii);
    let before = pieces(&rt, b".ascii \"a,b\"").before_comma();
    expect(&rt, before, &ascii);
    expect(&rt, pieces(&rt, b"\"\""), &[Wanted::Text(b"")]);
}

#[test]
fn the_pieces_end_before_the_first_comma_or_bracket(rt: HostRuntime) {
    let first = [
        Wanted::Word(b"e"),
        Wanted::Sign(Sign::Colon),
        Wanted::Word(b"addi."),
        Wanted::Word(b"r1"),
    ];
    expect(&rt, pieces(&rt, LINE).before_comma(), &first);
    expect(&rt, pieces(&rt, LINE).before_open().before_comma(), &first);
    let mut last = pieces(&rt, LINE);
    assert!(&rt; last.skip_past(Sign::Comma));
    expect(
        &rt,
        last.before_open(),
        &[Wanted::Sign(Sign::Minus), Wanted::Number(3)],
    );
}

#[test]
fn a_sign_that_is_not_there_leaves_no_piece(rt: HostRuntime) {
    let mut rest = pieces(&rt, LINE);
    let whole = rest.copy();
    assert!(&rt; rest.skip_past(Sign::Open));
    expect(
        &rt,
        rest.copy(),
        &[Wanted::Word(b"r2"), Wanted::Sign(Sign::Close)],
    );
    assert!(&rt; !rest.skip_past(Sign::Comma));
    expect(&rt, rest, &[]);
    let mut before = whole.before_comma();
    assert!(&rt; !before.skip_past(Sign::Comma));
    expect(&rt, before, &[]);
}

#[test]
fn a_line_with_a_fault_has_no_pieces(rt: HostRuntime) {
    for line in [
        &b".word 1;"[..],
        b".ascii \"a",
        b".word 18446744073709551616",
        b"\x80",
    ] {
        assert!(&rt; Pieces::of_line(line).is_none());
    }
}

fn is_line(line: &str) -> bool {
    match Pieces::of_line(line.as_bytes()) {
        Some(pieces) => read_line(pieces).is_some(),
        None => false,
    }
}

#[test]
fn a_line_is_read_where_it_is_one_of_the_language(rt: HostRuntime) {
    for line in [
        "addic 3,0,1",
        "add r32,r0,r0",
        "addi. r1,r2,3",
        "lwzu r3,8(0)",
        "rfid 0",
        ".word 2+-3",
        "b e@l",
        ".word e@l",
        "foo.: .word 1",
        "Add r1,r2,r3",
        "nop",
        "rfid rfid",
        ".word 1 .word 2",
        ".word 007",
        ".word 0x",
        "a: b: rfid",
        ".equ 5,1",
        ".entry",
        ".ascii e",
    ] {
        assert!(rt; !is_line(line), "{line}");
    }
    for line in [
        "addo. r1,r2,r3",
        "addic. r1,r2,-3",
        "lwz r3,8(0)",
        "lwz r3,k@l(r4)",
        "a: rfid",
        "a:",
        "",
        ".equ a, .+8",
        "cmpeqb 3,1,r4,r5",
        "tlbie r4,r5,0,1,1",
        "bla 0-4",
        "bc 20,0,.-8",
        "bclrl 20,0",
        "stwcx. r3,0,r4",
        ".align 8",
        ".bedword -1",
        "r5: .word r5",
    ] {
        assert!(rt; is_line(line), "{line}");
    }
}

/// The statement of a line.
fn statement<'a>(rt: &impl Abort, line: &'a [u8]) -> Statement<'a> {
    let line = read_line(pieces(rt, line)).expect(rt, "the line is one of the language");
    line.statement.expect(rt, "the line has a statement")
}

/// The mnemonic of a line with an instruction.
fn mnemonic(rt: &impl Abort, line: &str) -> Option<Mnemonic> {
    match statement(rt, line.as_bytes()) {
        Statement::Instruction(mnemonic, _) => Some(mnemonic),
        _ => None,
    }
}

fn is_register(operand: &Operand, number: u8) -> bool {
    match operand {
        Operand::Register(own) => *own == number,
        _ => false,
    }
}

/// Whether an operand is this part of a name's value behind this register.
fn is_part(operand: &Operand, half: Half, name: &[u8], register: u8) -> bool {
    match operand {
        Operand::Displacement(Number::Part(own, spelling), base) => {
            *own == half && spelling.bytes() == name && *base == register
        }
        _ => false,
    }
}

#[test]
fn an_instruction_has_its_marks_and_its_operands(rt: HostRuntime) {
    for (line, op, oe, rc, lk, aa) in [
        ("add r1,r2,r3", Op::Add, false, false, false, false),
        ("addo. r1,r2,r3", Op::Add, true, true, false, false),
        ("addic. r1,r2,-3", Op::AddicDot, false, false, false, false),
        ("stwcx. r3,0,r4", Op::StwcxDot, false, false, false, false),
        ("bclrl 20,0", Op::Bclr, false, false, true, false),
        ("bla 0-4", Op::B, false, false, true, true),
    ] {
        let wanted = Mnemonic { op, oe, rc, lk, aa };
        assert_eq!(rt; mnemonic(&rt, line), Some(wanted), "{line}");
    }
    match statement(&rt, b"lwz r3,k@ha(r4)") {
        Statement::Instruction(_, operands) => {
            let read = operands.as_slice();
            assert_eq!(rt; read.len(), 2);
            assert!(rt; is_register(&read[0], 3));
            assert!(rt; is_part(&read[1], Half::Adjusted, b"k", 4));
        }
        _ => assert!(rt; false, "an instruction"),
    }
}

#[test]
fn a_sum_has_its_terms_with_their_signs(rt: HostRuntime) {
    match statement(&rt, b".word -a+.-3") {
        Statement::Data(width, mut sum) => {
            assert_eq!(rt; width, Width::Word);
            match (sum.next(), sum.next(), sum.next(), sum.next()) {
                (
                    Some(
                        Term {
                            negative: true,
                            atom: Atom::Name(name),
                        },
                    ),
                    Some(
                        Term {
                            negative: false,
                            atom: Atom::Here,
                        },
                    ),
                    Some(
                        Term {
                            negative: true,
                            atom: Atom::Number(3),
                        },
                    ),
                    None,
                ) => assert_eq!(rt; name.bytes(), b"a".as_slice()),
                _ => assert!(rt; false, "a name, the place and a number"),
            }
        }
        _ => assert!(rt; false, "a number"),
    }
}
