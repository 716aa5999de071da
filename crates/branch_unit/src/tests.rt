use super::*;
use ppc_ops::{Insn, Layout, Op, Xer, is_invalid, layout};

mod branches;
mod conditions;

/// The exception register whose bits are all 0.
const CLEAR: Xer = Xer {
    so: false,
    ov: false,
    ca: false,
    ov32: false,
    ca32: false,
};

#[test]
fn traps_come_in_the_order_that_to_asks_for(rt: HostRuntime) {
    // the values of RA and RB, and the orders in which they stand: as doublewords, and as low words; signed less,
    // signed greater, equal, unsigned less and unsigned greater are 16, 8, 4, 2 and 1
    let pairs: [(u64, u64, u8, u8); 5] = [
        (1, 2, 16 + 2, 16 + 2),
        (2, 1, 8 + 1, 8 + 1),
        (7, 7, 4, 4),
        (u64::MAX, 0, 16 + 1, 16 + 1),
        (0x1_0000_0000, 0x8000_0000, 8 + 1, 8 + 2),
    ];
    let (ra, rb) = (1, 2);
    for (a, b, wide, narrow) in pairs {
        for to in 0..32u8 {
            let td = Insn::Trap {
                op: Op::Td,
                to,
                ra,
                rb,
            };
            let tw = Insn::Trap {
                op: Op::Tw,
                to,
                ra,
                rb,
            };
            assert_eq!(rt; trap(&td, a, b), to & wide != 0, "td {to} {a} {b}");
            assert_eq!(rt; trap(&tw, a, b), to & narrow != 0, "tw {to} {a} {b}");
        }
    }
}

#[test]
fn traps_by_an_immediate_extend_its_sign(rt: HostRuntime) {
    // the value of RA, the orders in which it stands to -1 as a doubleword and as a low word
    let values: [(u64, u8, u8); 4] = [
        (0, 8 + 2, 8 + 2),
        (u64::MAX, 4, 4),
        (0xffff_ffff, 8 + 2, 4),
        (0x7fff_ffff_ffff_fffe, 8 + 2, 16 + 2),
    ];
    let (ra, si) = (1, -1);
    for (a, wide, narrow) in values {
        for to in 0..32u8 {
            let tdi = Insn::TrapImm {
                op: Op::Tdi,
                to,
                ra,
                si,
            };
            let twi = Insn::TrapImm {
                op: Op::Twi,
                to,
                ra,
                si,
            };
            assert_eq!(rt; trap(&tdi, a, 0), to & wide != 0, "tdi {to} {a}");
            assert_eq!(rt; trap(&twi, a, 0), to & narrow != 0, "twi {to} {a}");
        }
    }
}

#[test]
fn isel_takes_the_register_that_a_condition_bit_names(rt: HostRuntime) {
    for bit in 0..32u8 {
        let isel = Insn::Select {
            rt: 3,
            ra: 4,
            rb: 5,
            bit,
        };
        let alone = 0x8000_0000u32 >> bit;
        assert_eq!(rt; select(&isel, 10, 20, alone), 10, "bit {bit} at 1");
        assert_eq!(rt; select(&isel, 10, 20, !alone), 20, "bit {bit} at 0");
    }
}

#[test]
fn setb_gives_minus_one_one_or_zero(rt: HostRuntime) {
    // the field, less being its first bit and greater its second, and the number
    let numbers: [(u32, u64); 6] = [
        (0b1000, u64::MAX),
        (0b1111, u64::MAX),
        (0b0100, 1),
        (0b0111, 1),
        (0b0011, 0),
        (0b0000, 0),
    ];
    for (field, number) in numbers {
        let first = Insn::SetB { rt: 3, bfa: 0 };
        let third = Insn::SetB { rt: 3, bfa: 2 };
        assert_eq!(rt;
            select(&first, 0, 0, field << 28),
            number,
            "field 0 is {field}"
        );
        assert_eq!(rt;
            select(&third, 0, 0, field << 20),
            number,
            "field 2 is {field}"
        );
        assert_eq!(rt; select(&third, 0, 0, !(15 << 20)), 0);
    }
}

#[test]
fn mfcr_gives_all_fields_and_mfocrf_one(rt: HostRuntime) {
    let cr = 0x1234_5678;
    assert_eq!(rt; select(&Insn::MfCr { rt: 3 }, 0, 0, cr), 0x1234_5678);
    for (fxm, field) in [(0x80, 0x1000_0000), (0x04, 0x0600), (0x01, 0x0008)] {
        let mfocrf = Insn::MfOneCr { rt: 3, fxm };
        assert!(rt; !is_invalid(mfocrf));
        assert_eq!(rt; select(&mfocrf, 0, 0, cr), field);
    }
}

#[test]
fn mtcrf_moves_the_fields_that_fxm_names(rt: HostRuntime) {
    let (rs, cr) = (0xffff_ffff_1234_5678, 0xabcd_efab);
    assert_eq!(rt; moved_fields(0xff, rs, cr), 0x1234_5678);
    assert_eq!(rt; moved_fields(0x00, rs, cr), 0xabcd_efab);
    assert_eq!(rt; moved_fields(0x80, rs, cr), 0x1bcd_efab);
    assert_eq!(rt; moved_fields(0x01, rs, cr), 0xabcd_efa8);
    assert_eq!(rt; moved_fields(0x5a, rs, cr), 0xa2c4_5f7b);
    assert_eq!(rt; with_field(cr, 0, 9), 0x9bcd_efab);
    assert_eq!(rt; with_field(cr, 6, 0), 0xabcd_ef0b);
}
