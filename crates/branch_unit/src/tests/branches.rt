//! Branches.

use super::*;

/// Values of BO, letters standing for any digit, whether CTR falls, and whether the branch is taken: with CTR 0, 1 and 2
/// before it, each with the condition bit 0 and then 1 (Power ISA, Book I, 2.4, the encodings of BO).
const CHOICES: [(&'static [u8; 5], bool, &'static [u8; 6]); 9] = [
    (b"0000z", true, b"100010"),
    (b"0001z", true, b"001000"),
    (b"001at", false, b"101010"),
    (b"0100z", true, b"010001"),
    (b"0101z", true, b"000100"),
    (b"011at", false, b"010101"),
    (b"1a00t", true, b"110011"),
    (b"1a01t", true, b"001100"),
    (b"1z1zz", false, b"111111"),
];

/// Whether a value of BO has the digits of a pattern.
fn agrees(pattern: &[u8; 5], bo: u8) -> bool {
    let bits = [bo / 16 % 2, bo / 8 % 2, bo / 4 % 2, bo / 2 % 2, bo % 2];
    for k in 0..5 {
        if pattern[k] == b'0' && bits[k] == 1 || pattern[k] == b'1' && bits[k] == 0 {
            return false;
        }
    }
    true
}

/// The row of a value of BO.
fn choice(bo: u8) -> Option<(bool, &'static [u8; 6])> {
    for (pattern, falls, taken) in CHOICES {
        if agrees(pattern, bo) {
            return Some((falls, taken));
        }
    }
    None
}

/// CTR before a branch, CTR where it fell, and whether the condition bit is 1.
const BEFORE: [(u64, u64, bool); 6] = [
    (0, u64::MAX, false),
    (0, u64::MAX, true),
    (1, 0, false),
    (1, 0, true),
    (2, 1, false),
    (2, 1, true),
];

/// What a branch at 1000 leaves, whose LR was 5007.
fn leaves(goes: bool, target: u64, lk: bool, ctr: u64) -> BranchOut {
    let next = if goes { target } else { 0x1004 };
    let lr = if lk { 0x1004 } else { 0x5007 };
    BranchOut { next, lr, ctr }
}

#[test]
fn branches_are_taken_as_bo_says(rt: HostRuntime) {
    let (bi, bd, aa) = (6, 0x40, false);
    for bo in 0..32u8 {
        let (falls, taken) = choice(bo).expect(&rt, "each value of BO has a row");
        for at in 0..6 {
            let (before, fallen, condition) = BEFORE[at];
            let ctr = if falls { fallen } else { before };
            let cr = if condition { 0x0200_0000 } else { 0xfdff_ffff };
            let goes = taken[at] == b'1';
            for lk in [false, true] {
                let bc = Insn::Branch { bo, bi, bd, aa, lk };
                let out = branch(&bc, 0x1000, cr, 0x5007, before, 0x6001);
                assert_eq!(rt; out, leaves(goes, 0x1040, lk, ctr), "bc {bo} {at}");
                let op = Op::Bclr;
                let bclr = Insn::BranchReg { op, bo, bi, lk };
                let out = branch(&bclr, 0x1000, cr, 0x5007, before, 0x6001);
                assert_eq!(rt; out, leaves(goes, 0x5004, lk, ctr), "bclr {bo} {at}");
                let op = Op::Bctar;
                let bctar = Insn::BranchReg { op, bo, bi, lk };
                let out = branch(&bctar, 0x1000, cr, 0x5007, before, 0x6001);
                assert_eq!(rt; out, leaves(goes, 0x6000, lk, ctr), "bctar {bo} {at}");
            }
        }
    }
}

#[test]
fn branches_go_from_here_or_to_the_address_itself(rt: HostRuntime) {
    // the address, the distance, whether it is the address itself, and the target
    let jumps: [(u64, bool, u64); 4] = [
        (0x1000, false, 0x0ffc),
        (0x1000, true, 0xffff_ffff_ffff_fffc),
        (0, false, 0xffff_ffff_ffff_fffc),
        (0xffff_ffff_ffff_fffc, false, 0xffff_ffff_ffff_fff8),
    ];
    for (cia, aa, target) in jumps {
        let (li, lk) = (-4, true);
        let (bo, bi, bd) = (20, 0, -4);
        let jump = branch(&Insn::Jump { li, aa, lk }, cia, 0, 7, 8, 9);
        let always = branch(&Insn::Branch { bo, bi, bd, aa, lk }, cia, 0, 7, 8, 9);
        let out = BranchOut {
            next: target,
            lr: cia.wrapping_add(4),
            ctr: 8,
        };
        assert_eq!(rt; jump, out);
        assert_eq!(rt; always, out);
    }
    let far = Insn::Jump {
        li: 0x1ff_fffc,
        aa: false,
        lk: false,
    };
    assert_eq!(rt; branch(&far, 0x1000, 0, 7, 8, 9).next, 0x200_0ffc);
    assert_eq!(rt; branch(&far, 0x1000, 0, 7, 8, 9).lr, 7);
}

#[test]
fn bcctr_goes_to_the_count_which_stays(rt: HostRuntime) {
    // bit 31 is 1, and the branch is not taken where BO asks that it be 0
    for (bo, next) in [
        (4, 0x1004),
        (7, 0x1004),
        (12, 0x2000),
        (15, 0x2000),
        (20, 0x2000),
    ] {
        let bcctr = Insn::BranchReg {
            op: Op::Bcctr,
            bo,
            bi: 31,
            lk: true,
        };
        assert!(rt; bo < 32 && !is_invalid(bcctr));
        let out = branch(&bcctr, 0x1000, 1, 7, 0x2003, 9);
        assert_eq!(rt; (out.next, out.lr, out.ctr), (next, 0x1004, 0x2003), "{bo}");
    }
}
