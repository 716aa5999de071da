use super::*;
use operand_texts::Mnemonic;
use ppc_ops::Op;
use std::process::Abort;

fn plain(op: Op) -> Mnemonic {
    Mnemonic {
        op,
        oe: false,
        rc: false,
        lk: false,
        aa: false,
    }
}

fn made_by(rt: &impl Abort, mnemonic: Mnemonic, operands: &[i128]) -> Option<u32> {
    let mut values = Values::new();
    for value in operands {
        assert!(rt; values.as_slice().len() < 10);
        values.push(*value);
    }
    word(mnemonic, &values)
}

fn made(rt: &impl Abort, op: Op, operands: &[i128]) -> Option<u32> {
    made_by(rt, plain(op), operands)
}

#[test]
fn operands_stand_in_the_fields_of_the_word(rt: HostRuntime) {
    assert_eq!(rt; made(&rt, Op::Addi, &[3, 0, 1]), Some(0x3860_0001));
    assert_eq!(rt; made(&rt, Op::Addpcis, &[3, -1]), Some(0x4C7F_FFC5));
    assert_eq!(rt; made(&rt, Op::Maddld, &[3, 4, 5, 6]), Some(0x1064_29B3));
    assert_eq!(rt; made(&rt, Op::Rlwnm, &[3, 4, 5, 0, 31]), Some(0x5C83_283E));
    assert_eq!(rt; made(&rt, Op::Rldicl, &[3, 4, 32, 31]), Some(0x7883_07C2));
    assert_eq!(rt; made(&rt, Op::Isel, &[3, 0, 4, 5]), Some(0x7C60_215E));
    assert_eq!(rt; made(&rt, Op::Cmpi, &[7, 1, 3, -1]), Some(0x2FA3_FFFF));
    assert_eq!(rt; made(&rt, Op::Mtcrf, &[3, 255]), Some(0x7C6F_F120));
    assert_eq!(rt; made(&rt, Op::Ld, &[3, 8, 0]), Some(0xE860_0008));
    assert_eq!(rt; made(&rt, Op::StwcxDot, &[3, 0, 4]), Some(0x7C60_212D));
    assert_eq!(rt; made(&rt, Op::Mtspr, &[8, 3]), Some(0x7C68_03A6));
    assert_eq!(rt; made(&rt, Op::Mftb, &[3, 268]), Some(0x7C6C_42E6));
    assert_eq!(rt; made(&rt, Op::Mtmsrd, &[3, 1]), Some(0x7C61_0164));
    assert_eq!(rt; made(&rt, Op::Tlbie, &[4, 5, 0, 1, 1]), Some(0x7CA3_2264));
    assert_eq!(rt; made(&rt, Op::Tlbiel, &[4, 5, 2, 0, 1]), Some(0x7CA9_2224));
    assert_eq!(rt; made(&rt, Op::Sc, &[1]), Some(0x4400_0022));
}

#[test]
fn marks_stand_in_the_word(rt: HostRuntime) {
    let record = |op| Mnemonic {
        rc: true,
        ..plain(op)
    };
    let addo = Mnemonic {
        oe: true,
        ..record(Op::Add)
    };
    let bclrl = Mnemonic {
        lk: true,
        ..plain(Op::Bclr)
    };
    assert_eq!(rt; made_by(&rt, addo, &[1, 2, 3]), Some(0x7C22_1E15));
    assert_eq!(rt;
        made_by(&rt, record(Op::Extswsli), &[3, 4, 63]),
        Some(0x7C83_FEF7)
    );
    assert_eq!(rt; made_by(&rt, bclrl, &[20, 0]), Some(0x4E80_0021));
}

#[test]
fn values_fit_their_fields_or_make_no_word(rt: HostRuntime) {
    assert_eq!(rt; made(&rt, Op::Addi, &[3, 0, 32767]), Some(0x3860_7FFF));
    assert_eq!(rt; made(&rt, Op::Addi, &[3, 0, 32768]), None);
    assert_eq!(rt; made(&rt, Op::Addi, &[3, 0, 65536]), None);
    assert_eq!(rt; made(&rt, Op::Addi, &[32, 0, 1]), None);
    assert_eq!(rt; made(&rt, Op::Ld, &[3, 2, 0]), None);
    assert_eq!(rt; made(&rt, Op::Cmpeqb, &[3, 0, 4, 5]), Some(0x7D84_29C0));
    assert_eq!(rt; made(&rt, Op::Cmpeqb, &[3, 1, 4, 5]), None);
    assert_eq!(rt; made(&rt, Op::B, &[0x1FF_FFFC]), Some(0x49FF_FFFC));
    assert_eq!(rt; made(&rt, Op::B, &[0x200_0000]), None);
    assert_eq!(rt; made(&rt, Op::B, &[2]), None);
}

#[test]
fn invalid_forms_have_no_word(rt: HostRuntime) {
    assert_eq!(rt; made(&rt, Op::Mtocrf, &[3, 255]), None);
    assert_eq!(rt; made(&rt, Op::Bcctr, &[16, 0]), None);
    assert_eq!(rt; made(&rt, Op::Sync, &[3]), None);
    assert_eq!(rt; made(&rt, Op::Lwzu, &[3, 8, 0]), None);
}
