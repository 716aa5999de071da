//! The table of special purpose registers, and the answers to who may use them.

use crate::{Access, Msr, Spr, access, is_hypervisor, is_read_only, number, spr_of, width};

/// The number, the register, its bits, and whether it is the hypervisor's and read only.
const TABLE: [(u16, Spr, u8, bool, bool); 32] = [
    (1, Spr::Xer, 64, false, false),
    (8, Spr::Lr, 64, false, false),
    (9, Spr::Ctr, 64, false, false),
    (18, Spr::Dsisr, 32, false, false),
    (19, Spr::Dar, 64, false, false),
    (22, Spr::Dec, 32, false, false),
    (26, Spr::Srr0, 64, false, false),
    (27, Spr::Srr1, 64, false, false),
    (29, Spr::Amr, 64, false, false),
    (48, Spr::Pidr, 20, false, false),
    (61, Spr::Iamr, 64, false, false),
    (259, Spr::UserSprg3, 64, false, true),
    (268, Spr::Tb, 64, false, true),
    (272, Spr::Sprg0, 64, false, false),
    (273, Spr::Sprg1, 64, false, false),
    (274, Spr::Sprg2, 64, false, false),
    (275, Spr::Sprg3, 64, false, false),
    (287, Spr::Pvr, 64, false, true),
    (304, Spr::Hsprg0, 64, true, false),
    (305, Spr::Hsprg1, 64, true, false),
    (306, Spr::Hdsisr, 32, true, false),
    (307, Spr::Hdar, 64, true, false),
    (310, Spr::Hdec, 32, true, false),
    (314, Spr::Hsrr0, 64, true, false),
    (315, Spr::Hsrr1, 64, true, false),
    (318, Spr::Lpcr, 64, true, false),
    (319, Spr::Lpidr, 12, true, false),
    (339, Spr::Heir, 32, true, false),
    (464, Spr::Ptcr, 64, true, false),
    (815, Spr::Tar, 64, false, false),
    (816, Spr::Asdr, 64, true, false),
    (1023, Spr::Pir, 64, false, true),
];

/// Hypervisor state with SF, ME and LE.
const HOST: Msr = Msr(0x9000_0000_0000_1001);
/// A guest's supervisor.
const GUEST: Msr = Msr(0x8000_0000_0000_1001);
/// Problem state under a hypervisor.
const USER: Msr = Msr(0x8000_0000_0000_d033);
/// Problem state with HV.
const HOST_USER: Msr = Msr(0x9000_0000_0000_d033);

#[test]
fn each_register_has_its_number_width_and_direction(rt: HostRuntime) {
    for (n, spr, bits, hypervisor, read_only) in TABLE {
        assert_eq!(rt; number(spr), n);
        assert_eq!(rt; spr_of(n), Some(spr));
        assert_eq!(rt; width(spr), bits);
        assert_eq!(rt; is_hypervisor(spr), hypervisor);
        assert_eq!(rt; is_read_only(spr), read_only);
    }
}

/// Whether the table has a register of this number.
fn is_listed(n: u16) -> bool {
    for (listed, ..) in TABLE {
        if listed == n {
            return true;
        }
    }
    false
}

#[test]
fn no_other_number_has_a_register(rt: HostRuntime) {
    for n in 0..2048u16 {
        assert_eq!(rt; spr_of(n).is_some(), is_listed(n));
    }
    assert_eq!(rt; spr_of(u16::MAX), None);
}

#[test]
fn problem_state_is_told_of_privilege_before_of_the_profile(rt: HostRuntime) {
    let rows = [
        (287, USER, true, Access::Program),
        (287, USER, false, Access::Program),
        (287, GUEST, true, Access::NotInProfile),
        (287, GUEST, false, Access::Allowed(Spr::Pvr)),
        (1023, HOST_USER, true, Access::Program),
        (1023, HOST, true, Access::NotInProfile),
        (1023, HOST, false, Access::Allowed(Spr::Pir)),
        (16, USER, false, Access::Program),
        (16, GUEST, false, Access::NotInProfile),
        (0, USER, false, Access::NotInProfile),
    ];
    for (n, msr, write, wanted) in rows {
        assert_eq!(rt; access(n, msr, write), wanted);
    }
}

#[test]
fn the_hypervisors_registers_assist_a_guest(rt: HostRuntime) {
    let rows = [
        (318, GUEST, false, Access::Assist),
        (318, GUEST, true, Access::Assist),
        (318, USER, true, Access::Program),
        (318, HOST_USER, true, Access::Program),
        (318, HOST, true, Access::Allowed(Spr::Lpcr)),
        (339, GUEST, true, Access::Assist),
        (339, HOST, true, Access::Allowed(Spr::Heir)),
        (464, GUEST, false, Access::Assist),
        (464, HOST, false, Access::Allowed(Spr::Ptcr)),
    ];
    for (n, msr, write, wanted) in rows {
        assert_eq!(rt; access(n, msr, write), wanted);
    }
}

#[test]
fn problem_state_uses_the_registers_whose_numbers_allow_it(rt: HostRuntime) {
    let rows = [
        (1, USER, true, Access::Allowed(Spr::Xer)),
        (815, USER, true, Access::Allowed(Spr::Tar)),
        (259, USER, false, Access::Allowed(Spr::UserSprg3)),
        (259, USER, true, Access::NotInProfile),
        (259, HOST, true, Access::NotInProfile),
        (275, USER, false, Access::Program),
        (275, GUEST, true, Access::Allowed(Spr::Sprg3)),
        (268, USER, false, Access::Allowed(Spr::Tb)),
        (268, USER, true, Access::NotInProfile),
        (22, USER, false, Access::Program),
    ];
    for (n, msr, write, wanted) in rows {
        assert_eq!(rt; access(n, msr, write), wanted);
    }
}
