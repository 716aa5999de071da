mod cases;

use super::*;
use cases::WORDS;
use ppc_ops::{Insn, Op, row, row_count};
use std::process::Abort;
use word_decoder::{Decoded, decode};

/// The form that a word means.
fn form(rt: &impl Abort, word: u32) -> Insn {
    match decode(word) {
        Decoded::Form(insn) => insn,
        _ => panic!(rt; "the word is no form"),
    }
}

/// Checks that each of the instructions is refused.
fn refuse_each(rt: &impl Abort, insns: &[Insn]) {
    for insn in insns {
        assert_eq!(rt; encode(insn), Err(OutOfField));
    }
}

#[test]
fn each_operation_has_the_word_of_the_assembler(rt: HostRuntime) {
    assert_eq!(rt; WORDS.split_whitespace().count(), usize::from(row_count()));
    for digits in WORDS.split_whitespace() {
        let word = u32::from_str_radix(digits, 16).expect(&rt, "hexadecimal digits");
        assert_eq!(rt; encode(&form(&rt, word)), Ok(word));
    }
}

#[test]
fn words_are_written_from_their_operands(rt: HostRuntime) {
    let add = Insn::Arith {
        op: Op::Add,
        rt: 4,
        ra: 3,
        rb: 3,
        oe: false,
        rc: false,
    };
    assert_eq!(rt;
        encode(&Insn::AddImm {
            op: Op::Addi,
            rt: 3,
            ra: 0,
            si: 1
        }),
        Ok(0x3860_0001)
    );
    assert_eq!(rt; encode(&add), Ok(0x7c83_1a14));
    assert_eq!(rt;
        encode(&Insn::Jump {
            li: 0,
            aa: false,
            lk: false
        }),
        Ok(0x4800_0000)
    );
}

/// Checks that what a word means goes there and back, unless it is an invalid form of the operation.
fn go_there_and_back(rt: &impl Abort, word: u32, op: Op, mask: u32) {
    match decode(word) {
        Decoded::Form(insn) => {
            let encoded = encode(&insn).expect(rt, "a form");
            assert_eq!(rt; decode(encoded), Decoded::Form(insn));
            assert_eq!(rt; encoded & mask, word & mask);
            assert_eq!(rt; encoded & !word, 0);
        }
        other => assert_eq!(rt; other, Decoded::InvalidForm(op)),
    }
}

#[test]
fn least_and_greatest_operands_of_each_operation_go_there_and_back(rt: HostRuntime) {
    for i in 0..row_count() {
        let row = row(i).expect(&rt, "a row");
        go_there_and_back(&rt, row.value, row.op, row.mask);
        go_there_and_back(&rt, row.value | !row.mask, row.op, row.mask);
    }
}

#[test]
fn operands_outside_their_fields_are_refused(rt: HostRuntime) {
    refuse_each(
        &rt,
        &[
            Insn::AddImm {
                op: Op::Addi,
                rt: 32,
                ra: 0,
                si: 0,
            },
            Insn::MoveXer { bf: 8 },
            Insn::Sync { l: 4 },
            Insn::Sc { lev: 2 },
            Insn::MfSpr { rt: 0, spr: 1024 },
            Insn::Jump {
                li: 0x200_0000,
                aa: false,
                lk: false,
            },
            Insn::Jump {
                li: -0x200_0004,
                aa: false,
                lk: false,
            },
            Insn::Jump {
                li: 2,
                aa: false,
                lk: false,
            },
            Insn::Branch {
                bo: 20,
                bi: 0,
                bd: 0x8000,
                aa: false,
                lk: false,
            },
            Insn::Branch {
                bo: 20,
                bi: 0,
                bd: -3,
                aa: false,
                lk: false,
            },
            Insn::Access {
                op: Op::Ld,
                rt: 0,
                ra: 1,
                disp: 6,
            },
            Insn::CmpImm {
                op: Op::Cmpi,
                bf: 0,
                wide: true,
                ra: 0,
                value: 0x8000,
            },
            Insn::CmpImm {
                op: Op::Cmpli,
                bf: 0,
                wide: true,
                ra: 0,
                value: -1,
            },
            Insn::ShiftImm {
                op: Op::Srawi,
                ra: 0,
                rs: 0,
                sh: 32,
                rc: false,
            },
            Insn::ShiftImm {
                op: Op::Sradi,
                ra: 0,
                rs: 0,
                sh: 64,
                rc: false,
            },
            Insn::RotDouble {
                op: Op::Rldcl,
                ra: 0,
                rs: 0,
                by: 32,
                edge: 0,
                rc: false,
            },
            Insn::Arith {
                op: Op::Neg,
                rt: 0,
                ra: 0,
                rb: 1,
                oe: false,
                rc: false,
            },
            Insn::CmpByte {
                op: Op::Cmpeqb,
                bf: 0,
                two: true,
                ra: 0,
                rb: 0,
            },
        ],
    );
}

#[test]
fn operations_of_other_layouts_and_invalid_forms_are_refused(rt: HostRuntime) {
    refuse_each(
        &rt,
        &[
            Insn::AddImm {
                op: Op::Add,
                rt: 0,
                ra: 0,
                si: 0,
            },
            Insn::Message {
                op: Op::Addi,
                rb: 0,
            },
            Insn::Access {
                op: Op::Lwzu,
                rt: 5,
                ra: 5,
                disp: 0,
            },
            Insn::AccessX {
                op: Op::Stdux,
                rt: 5,
                ra: 0,
                rb: 0,
            },
            Insn::BranchReg {
                op: Op::Bcctr,
                bo: 16,
                bi: 0,
                lk: false,
            },
            Insn::MfOneCr { rt: 0, fxm: 3 },
            Insn::Sync { l: 3 },
        ],
    );
}
