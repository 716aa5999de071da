//! Comparisons, and instructions on the condition register.

use super::*;

/// The values of RA and RB, and the fields that cmp and cmpl give of doublewords, and cmp and cmpl of low words: less 8,
/// greater 4, equal 2.
const ORDERS: [(u64, u64, [u8; 4]); 9] = [
    (0, 0, [2, 2, 2, 2]),
    (0, 1, [8, 8, 8, 8]),
    (1, 0, [4, 4, 4, 4]),
    (u64::MAX, 0, [8, 4, 8, 4]),
    (0x8000_0000_0000_0000, 0x7fff_ffff_ffff_ffff, [8, 4, 4, 8]),
    (0x1_0000_0000, 0, [4, 4, 2, 2]),
    (0x8000_0000, 0x7fff_ffff, [4, 4, 8, 4]),
    (0x7fff_ffff, 0x1_8000_0000, [8, 8, 4, 8]),
    (0xffff_ffff_0000_0001, 2, [8, 4, 8, 8]),
];

#[test]
fn registers_are_compared_as_doublewords_or_low_words(rt: HostRuntime) {
    let (bf, ra, rb) = (3, 1, 2);
    let overflowed = Xer { so: true, ..CLEAR };
    for (a, b, fields) in ORDERS {
        let forms = [
            (Op::Cmp, true),
            (Op::Cmpl, true),
            (Op::Cmp, false),
            (Op::Cmpl, false),
        ];
        for at in 0..4 {
            let (op, wide) = forms[at];
            assert!(rt; layout(op) == Layout::Cmp);
            let insn = Insn::Cmp {
                op,
                bf,
                wide,
                ra,
                rb,
            };
            let want = fields[at];
            assert_eq!(rt; compare(&insn, a, b, CLEAR), want, "{a} {b} {at}");
            assert_eq!(rt; compare(&insn, a, b, overflowed), want + 1, "{a} {b} {at}");
        }
    }
}

#[test]
fn immediates_are_signed_for_cmpi_and_unsigned_for_cmpli(rt: HostRuntime) {
    // the value of RA, and the fields that cmpi with -1 and cmpli with 65535 give of the doubleword and of the low word
    let rows: [(u64, [u8; 4]); 5] = [
        (0, [4, 8, 4, 8]),
        (u64::MAX, [2, 4, 2, 4]),
        (0xffff_ffff, [4, 4, 2, 4]),
        (0xffff, [4, 2, 4, 2]),
        (0x1_8000_0000, [4, 4, 8, 4]),
    ];
    let (bf, ra) = (0, 1);
    for (a, fields) in rows {
        for wide in [true, false] {
            let signed = Insn::CmpImm {
                op: Op::Cmpi,
                bf,
                wide,
                ra,
                value: -1,
            };
            let unsigned = Insn::CmpImm {
                op: Op::Cmpli,
                bf,
                wide,
                ra,
                value: 0xffff,
            };
            let from = if wide { 0 } else { 2 };
            assert_eq!(rt; compare(&signed, a, 0, CLEAR), fields[from], "cmpi {a}");
            assert_eq!(rt;
                compare(&unsigned, a, 0, CLEAR),
                fields[from + 1],
                "cmpli {a}"
            );
        }
    }
}

#[test]
fn bytes_are_sought_in_ranges_or_among_eight(rt: HostRuntime) {
    // the value of RA, whose lowest byte counts; that of RB; and the fields that cmprb gives with one range and with two,
    // and cmpeqb
    let rows: [(u64, u64, [u8; 3]); 8] = [
        (0x41, 0x7a61_5a41, [4, 4, 4]),
        (0xff5a, 0x7a61_5a41, [4, 4, 4]),
        (0x50, 0x7a61_5a41, [4, 4, 0]),
        (0x40, 0x7a61_5a41, [0, 0, 0]),
        (0x61, 0x7a61_5a41, [0, 4, 4]),
        (0x7b, 0x7a61_5a41, [0, 0, 0]),
        (0x50, 0x6061_415a, [0, 0, 0]),
        (0x99, 0x9900_0000_7a61_5a41, [0, 0, 4]),
    ];
    let (bf, ra, rb) = (7, 1, 2);
    let overflowed = Xer { so: true, ..CLEAR };
    for (a, b, fields) in rows {
        for two in [false, true] {
            let op = Op::Cmprb;
            let cmprb = Insn::CmpByte {
                op,
                bf,
                two,
                ra,
                rb,
            };
            let at = if two { 1 } else { 0 };
            assert_eq!(rt;
                compare(&cmprb, a, b, overflowed),
                fields[at],
                "cmprb {a} {b}"
            );
        }
        let cmpeqb = Insn::CmpByte {
            op: Op::Cmpeqb,
            bf,
            two: false,
            ra,
            rb,
        };
        assert_eq!(rt;
            compare(&cmpeqb, a, b, overflowed),
            fields[2],
            "cmpeqb {a} {b}"
        );
    }
}

/// Operations on two bits, and what they give for 0 and 0, 0 and 1, 1 and 0, 1 and 1.
const TRUTHS: [(Op, [u32; 4]); 8] = [
    (Op::Crand, [0, 0, 0, 1]),
    (Op::Cror, [0, 1, 1, 1]),
    (Op::Crxor, [0, 1, 1, 0]),
    (Op::Crnand, [1, 1, 1, 0]),
    (Op::Crnor, [1, 0, 0, 0]),
    (Op::Creqv, [1, 0, 0, 1]),
    (Op::Crandc, [0, 0, 1, 0]),
    (Op::Crorc, [1, 0, 1, 1]),
];

#[test]
fn operations_on_condition_bits_have_their_truth_tables(rt: HostRuntime) {
    let (bt, ba, bb) = (31, 0, 9);
    for (op, table) in TRUTHS {
        assert!(rt; layout(op) == Layout::CrBit);
        let insn = Insn::CrBit { op, bt, ba, bb };
        for x in 0..2u32 {
            for y in 0..2u32 {
                let cr = x << 31 | y << 22 | 0x0030_0800;
                let bit = table[(2 * x + y) as usize];
                assert_eq!(rt; cr_logic(&insn, cr, CLEAR), cr + bit, "{op:?} {x} {y}");
                assert_eq!(rt; cr_logic(&insn, cr + 1, CLEAR), cr + bit, "{op:?} {x} {y}");
            }
        }
    }
}

#[test]
fn fields_are_copied_and_written_from_the_exception_register(rt: HostRuntime) {
    let cr = 0x1234_5678;
    let (ov, ov32, ca, ca32) = (true, true, true, true);
    let down = Insn::CrMove { bf: 1, bfa: 7 };
    let up = Insn::CrMove { bf: 7, bfa: 0 };
    let xers = [
        (Xer { ov, ..CLEAR }, 8),
        (Xer { ov32, ..CLEAR }, 4),
        (Xer { ca, ..CLEAR }, 2),
        (Xer { ca32, ..CLEAR }, 1),
        (Xer { so: true, ..CLEAR }, 0),
    ];
    assert_eq!(rt; cr_logic(&down, cr, CLEAR), 0x1834_5678);
    assert_eq!(rt; cr_logic(&up, cr, CLEAR), 0x1234_5671);
    for (xer, field) in xers {
        let moved = cr_logic(&Insn::MoveXer { bf: 4 }, cr, xer);
        assert_eq!(rt; moved, 0x1234_0678 + field * 0x1000);
    }
}
