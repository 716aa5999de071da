//! The machine state register after each instruction that writes it and after an interrupt, worked from the rules by hand.

use crate::{Hyper, Msr, ProfileBits};

/// The old value, the value that is put in, and the new one: within the profile, or outside it.
type Row = (u64, u64, Result<u64, u64>);

fn wanted(value: Result<u64, u64>) -> Result<Msr, ProfileBits> {
    match value {
        Ok(inside) => Ok(Msr(inside)),
        Err(outside) => Err(ProfileBits(outside)),
    }
}

const MTMSRD: [Row; 11] = [
    (0x9000_0000_0000_1001, 0, Err(0x1000_0000_0000_1001)),
    (
        0x9000_0000_0000_1001,
        0x8000_0000_0000_0000,
        Ok(0x9000_0000_0000_1001),
    ),
    (
        0x9000_0000_0000_1001,
        0x8000_0000_0000_4000,
        Ok(0x9000_0000_0000_d031),
    ),
    (
        0x8000_0000_0000_1001,
        0x9000_0000_0000_9003,
        Ok(0x8000_0000_0000_9003),
    ),
    (
        0x9000_0000_0000_1001,
        0x8000_0000_0000_0032,
        Ok(0x9000_0000_0000_1033),
    ),
    (
        0x9000_0000_0000_1001,
        0x8000_0000_0000_8000,
        Ok(0x9000_0000_0000_9001),
    ),
    (
        0x8000_0000_0000_0001,
        0xffff_ffff_ffff_ffff,
        Err(0xefff_ffff_ffff_efff),
    ),
    (
        0x9000_0000_0000_1001,
        0x8000_0000_0200_0000,
        Err(0x9000_0000_0200_1001),
    ),
    (
        0x9000_0000_0000_1001,
        0x8000_0000_0000_0400,
        Err(0x9000_0000_0000_1401),
    ),
    (
        0x8000_0000_0000_d033,
        0x8000_0000_0000_0000,
        Ok(0x8000_0000_0000_1001),
    ),
    (
        0x9000_0000_0000_0001,
        0x8000_0000_0000_1000,
        Ok(0x9000_0000_0000_0001),
    ),
];

#[test]
fn mtmsrd_keeps_hv_me_and_le_and_problem_state_relocates(rt: HostRuntime) {
    for (old, rs, new) in MTMSRD {
        assert_eq!(rt; Msr(old).after_mtmsrd(rs, false), wanted(new));
    }
}

const MTMSR: [Row; 11] = [
    (0x9000_0000_0000_1001, 0, Ok(0x9000_0000_0000_1001)),
    (
        0x9000_0000_0000_1001,
        0xffff_ffff_0000_0000,
        Ok(0x9000_0000_0000_1001),
    ),
    (0x9000_0000_0000_1001, 0x4000, Ok(0x9000_0000_0000_d031)),
    (0x9000_0000_0000_1001, 0x32, Ok(0x9000_0000_0000_1033)),
    (
        0x8000_0000_0000_1001,
        0x1000_0000_0000_8002,
        Ok(0x8000_0000_0000_9003),
    ),
    (
        0x9000_0000_0000_1001,
        0xffff_ffff,
        Err(0x9000_0000_ffff_ffff),
    ),
    (
        0x9000_0000_0000_1001,
        0x8000_0000,
        Err(0x9000_0000_8000_1001),
    ),
    (0x9000_0000_0000_0001, 0x1000, Ok(0x9000_0000_0000_0001)),
    (0x9000_0000_0000_1001, 0x8000, Ok(0x9000_0000_0000_9001)),
    (0x1000_0000_0000_1001, 0, Err(0x1000_0000_0000_1001)),
    (0x8000_0000_0000_d033, 0, Ok(0x8000_0000_0000_1001)),
];

#[test]
fn mtmsr_keeps_the_high_word_too(rt: HostRuntime) {
    for (old, rs, new) in MTMSR {
        assert_eq!(rt; Msr(old).after_mtmsr(rs, false), wanted(new));
    }
}

const ENABLING: [Row; 10] = [
    (0x9000_0000_0000_1001, 0, Ok(0x9000_0000_0000_1001)),
    (0x9000_0000_0000_1001, 0x8000, Ok(0x9000_0000_0000_9001)),
    (0x9000_0000_0000_1001, 0x2, Ok(0x9000_0000_0000_1003)),
    (0x9000_0000_0000_1001, 0x8002, Ok(0x9000_0000_0000_9003)),
    (
        0x9000_0000_0000_1001,
        0xffff_ffff_ffff_ffff,
        Ok(0x9000_0000_0000_9003),
    ),
    (0x9000_0000_0000_1001, 0x30, Ok(0x9000_0000_0000_1001)),
    (0x9000_0000_0000_1001, 0x4000, Ok(0x9000_0000_0000_1001)),
    (0x8000_0000_0000_d033, 0, Ok(0x8000_0000_0000_5031)),
    (0x1000_0000_0000_1001, 0x8000, Err(0x1000_0000_0000_9001)),
    (0x8000_0000_0000_d033, 0x7ffd, Ok(0x8000_0000_0000_5031)),
];

#[test]
fn with_l_both_take_ee_and_ri_alone(rt: HostRuntime) {
    for (old, rs, new) in ENABLING {
        assert_eq!(rt; Msr(old).after_mtmsrd(rs, true), wanted(new));
        assert_eq!(rt; Msr(old).after_mtmsr(rs, true), wanted(new));
    }
}

const RFID: [Row; 13] = [
    (
        0x9000_0000_0000_1001,
        0x8000_0000_0000_d033,
        Ok(0x8000_0000_0000_d033),
    ),
    (
        0x9000_0000_0000_1001,
        0x8000_0000_0000_4001,
        Ok(0x8000_0000_0000_c031),
    ),
    (
        0x9000_0000_0000_1001,
        0x9000_0000_0000_1001,
        Ok(0x9000_0000_0000_1001),
    ),
    (
        0x9000_0000_0000_1001,
        0x9000_0000_0000_0001,
        Ok(0x9000_0000_0000_0001),
    ),
    (0x9000_0000_0000_1001, 0, Err(0)),
    (
        0x8000_0000_0000_1001,
        0x9000_0000_0000_1001,
        Ok(0x8000_0000_0000_1001),
    ),
    (
        0x8000_0000_0000_1001,
        0x8000_0000_0000_0001,
        Ok(0x8000_0000_0000_1001),
    ),
    (
        0x8000_0000_0000_0001,
        0x9000_0000_0000_9033,
        Ok(0x8000_0000_0000_8033),
    ),
    (
        0x9000_0000_0000_1001,
        0x8000_0000_783f_1001,
        Ok(0x8000_0000_0000_1001),
    ),
    (
        0x9000_0000_0000_1001,
        0xffff_ffff_ffff_ffff,
        Err(0xffff_ffff_87c0_ffff),
    ),
    (
        0x8000_0000_0000_0001,
        0xffff_ffff_ffff_ffff,
        Err(0xefff_ffff_87c0_efff),
    ),
    (
        0x9000_0000_0000_1001,
        0x8000_0000_0000_0400,
        Err(0x8000_0000_0000_0400),
    ),
    (
        0x9000_0000_0000_1001,
        0x8000_0000_0000_0011,
        Ok(0x8000_0000_0000_0011),
    ),
];

#[test]
fn rfid_returns_to_less_and_never_to_hypervisor_state(rt: HostRuntime) {
    for (old, srr1, new) in RFID {
        assert_eq!(rt; Msr(old).after_rfid(srr1), wanted(new));
    }
}

const HRFID: [Row; 11] = [
    (
        0x9000_0000_0000_1001,
        0x8000_0000_0000_1033,
        Ok(0x8000_0000_0000_1033),
    ),
    (
        0x8000_0000_0000_1001,
        0x9000_0000_0000_0001,
        Ok(0x9000_0000_0000_0001),
    ),
    (
        0x9000_0000_0000_1001,
        0x9000_0000_0000_1001,
        Ok(0x9000_0000_0000_1001),
    ),
    (
        0x9000_0000_0000_1001,
        0x8000_0000_0000_0001,
        Ok(0x8000_0000_0000_0001),
    ),
    (
        0x9000_0000_0000_1001,
        0x8000_0000_0000_4001,
        Ok(0x8000_0000_0000_c031),
    ),
    (
        0x9000_0000_0000_1001,
        0x8000_0000_783f_1001,
        Ok(0x8000_0000_0000_1001),
    ),
    (
        0x9000_0000_0000_1001,
        0xffff_ffff_ffff_ffff,
        Err(0xffff_ffff_87c0_ffff),
    ),
    (0x9000_0000_0000_1001, 0, Err(0)),
    (
        0x9000_0000_0000_1001,
        0x8000_0000_0000_0000,
        Err(0x8000_0000_0000_0000),
    ),
    (
        0x9000_0000_0000_1001,
        0x9000_0000_0000_9003,
        Ok(0x9000_0000_0000_9003),
    ),
    (
        0x9000_0000_0000_1001,
        0x8000_0000_0080_0001,
        Err(0x8000_0000_0080_0001),
    ),
];

#[test]
fn hrfid_takes_hv_and_me_of_hsrr1(rt: HostRuntime) {
    for (old, hsrr1, new) in HRFID {
        assert_eq!(rt; Msr(old).after_hrfid(hsrr1), wanted(new));
    }
}

/// The old value, and the new one by `Keep`, `Raise`, `RaiseKeepRi` and `KeepRi`.
const INTERRUPTS: [(u64, [u64; 4]); 10] = [
    (
        0x9000_0000_0000_d033,
        [
            0x9000_0000_0000_1001,
            0x9000_0000_0000_1001,
            0x9000_0000_0000_1003,
            0x9000_0000_0000_1003,
        ],
    ),
    (
        0x8000_0000_0000_d033,
        [
            0x8000_0000_0000_1001,
            0x9000_0000_0000_1001,
            0x9000_0000_0000_1003,
            0x8000_0000_0000_1003,
        ],
    ),
    (
        0x8000_0000_0000_1001,
        [
            0x8000_0000_0000_1001,
            0x9000_0000_0000_1001,
            0x9000_0000_0000_1001,
            0x8000_0000_0000_1001,
        ],
    ),
    (
        0x9000_0000_0000_0003,
        [
            0x9000_0000_0000_0001,
            0x9000_0000_0000_0001,
            0x9000_0000_0000_0003,
            0x9000_0000_0000_0003,
        ],
    ),
    (
        0xffff_ffff_ffff_ffff,
        [
            0xffff_ffff_ffff_3fcd,
            0xffff_ffff_ffff_3fcd,
            0xffff_ffff_ffff_3fcf,
            0xffff_ffff_ffff_3fcf,
        ],
    ),
    (0, [0, 0x1000_0000_0000_0000, 0x1000_0000_0000_0000, 0]),
    (
        0x8000_0000_0000_8001,
        [
            0x8000_0000_0000_0001,
            0x9000_0000_0000_0001,
            0x9000_0000_0000_0001,
            0x8000_0000_0000_0001,
        ],
    ),
    (
        0x8000_0000_0000_4033,
        [
            0x8000_0000_0000_0001,
            0x9000_0000_0000_0001,
            0x9000_0000_0000_0003,
            0x8000_0000_0000_0003,
        ],
    ),
    (
        0x8000_0000_0000_0023,
        [
            0x8000_0000_0000_0001,
            0x9000_0000_0000_0001,
            0x9000_0000_0000_0003,
            0x8000_0000_0000_0003,
        ],
    ),
    (
        0x6fff_ffff_ffff_ffff,
        [
            0x6fff_ffff_ffff_3fcd,
            0x7fff_ffff_ffff_3fcd,
            0x7fff_ffff_ffff_3fcf,
            0x6fff_ffff_ffff_3fcf,
        ],
    ),
];

#[test]
fn an_interrupt_ends_problem_state_and_relocation(rt: HostRuntime) {
    for (old, [keep, raise, raise_keep_ri, keep_ri]) in INTERRUPTS {
        assert_eq!(rt; Msr(old).after_interrupt(Hyper::Keep), Msr(keep));
        assert_eq!(rt; Msr(old).after_interrupt(Hyper::Raise), Msr(raise));
        assert_eq!(rt;
            Msr(old).after_interrupt(Hyper::RaiseKeepRi),
            Msr(raise_keep_ri)
        );
        assert_eq!(rt; Msr(old).after_interrupt(Hyper::KeepRi), Msr(keep_ri));
    }
}

#[test]
fn each_bit_is_read_at_its_place(rt: HostRuntime) {
    let bits = [
        (0x1000_0000_0000_0000, [true, false, false, false, false]),
        (0x4000, [false, true, false, false, false]),
        (0x8000, [false, false, true, false, false]),
        (0x20, [false, false, false, true, false]),
        (0x10, [false, false, false, false, true]),
        (0xefff_ffff_ffff_3fcf, [false, false, false, false, false]),
    ];
    for (value, [hv, pr, ee, ir, dr]) in bits {
        let msr = Msr(value);
        assert_eq!(rt; msr.is_hypervisor(), hv);
        assert_eq!(rt; msr.is_problem(), pr);
        assert_eq!(rt; msr.enables_external(), ee);
        assert_eq!(rt; msr.relocates_fetches(), ir);
        assert_eq!(rt; msr.relocates_data(), dr);
    }
}
