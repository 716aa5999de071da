use super::*;
use ppc_spr::{Msr, Spr};

#[test]
fn a_reset_thread_has_its_number_and_its_entry(rt: HostRuntime) {
    let threads = Threads::reset(2, 0x1_0002);
    assert_eq!(rt; threads.count(), 2);
    let second = threads.get(1);
    assert_eq!(rt; second.gpr(3), 1);
    assert_eq!(rt; second.gpr(12), 0x1_0002);
    assert_eq!(rt; second.nia(), 0x1_0000);
    assert_eq!(rt; second.pir, 1);
    assert_eq!(rt; second.msr(), Msr(0x9000_0000_0000_1001));
    assert_eq!(rt; second.lpcr, 0x0250_0000);
    assert_eq!(rt; second.pvr, 0x004e_0000);
}

#[test]
fn a_changed_register_is_read_back(rt: HostRuntime) {
    let mut threads = Threads::reset(2, 0);
    let second = threads.get_mut(1);
    second.set_gpr(5, 7);
    second.set_nia(8);
    assert_eq!(rt; threads.count(), 2);
    assert_eq!(rt; threads.get(1).gpr(5), 7);
    assert_eq!(rt; threads.get(1).nia(), 8);
    assert_eq!(rt; threads.get(0).gpr(5), 0);
    assert_eq!(rt; threads.as_slice().len(), 2);
}

#[test]
fn condition_and_machine_state_are_read_back(rt: HostRuntime) {
    let mut thread = Thread::reset(0, 0);
    thread.set_cr(0x8000_0001);
    thread.set_msr(Msr(0x8000_0000_0000_1033));
    assert_eq!(rt; thread.cr(), 0x8000_0001);
    assert_eq!(rt; thread.msr(), Msr(0x8000_0000_0000_1033));
    assert_eq!(rt; thread.nia(), 0);
}

/// Each special register after all ones were written: those of 12, 20 and 32 bits keep their low bits, the exception
/// register keeps SO, OV, CA, OV32 and CA32.
const ALL_ONES: [(Spr, u64); 32] = [
    (Spr::Xer, 0xe00c_0000),
    (Spr::Lr, 0xffff_ffff_ffff_ffff),
    (Spr::Ctr, 0xffff_ffff_ffff_ffff),
    (Spr::Dsisr, 0xffff_ffff),
    (Spr::Dar, 0xffff_ffff_ffff_ffff),
    (Spr::Dec, 0xffff_ffff),
    (Spr::Srr0, 0xffff_ffff_ffff_ffff),
    (Spr::Srr1, 0xffff_ffff_ffff_ffff),
    (Spr::Amr, 0xffff_ffff_ffff_ffff),
    (Spr::Pidr, 0xf_ffff),
    (Spr::Iamr, 0xffff_ffff_ffff_ffff),
    (Spr::UserSprg3, 0xffff_ffff_ffff_ffff),
    (Spr::Tb, 0xffff_ffff_ffff_ffff),
    (Spr::Sprg0, 0xffff_ffff_ffff_ffff),
    (Spr::Sprg1, 0xffff_ffff_ffff_ffff),
    (Spr::Sprg2, 0xffff_ffff_ffff_ffff),
    (Spr::Sprg3, 0xffff_ffff_ffff_ffff),
    (Spr::Pvr, 0xffff_ffff_ffff_ffff),
    (Spr::Hsprg0, 0xffff_ffff_ffff_ffff),
    (Spr::Hsprg1, 0xffff_ffff_ffff_ffff),
    (Spr::Hdsisr, 0xffff_ffff),
    (Spr::Hdar, 0xffff_ffff_ffff_ffff),
    (Spr::Hdec, 0xffff_ffff),
    (Spr::Hsrr0, 0xffff_ffff_ffff_ffff),
    (Spr::Hsrr1, 0xffff_ffff_ffff_ffff),
    (Spr::Lpcr, 0xffff_ffff_ffff_ffff),
    (Spr::Lpidr, 0xfff),
    (Spr::Heir, 0xffff_ffff),
    (Spr::Ptcr, 0xffff_ffff_ffff_ffff),
    (Spr::Tar, 0xffff_ffff_ffff_ffff),
    (Spr::Asdr, 0xffff_ffff_ffff_ffff),
    (Spr::Pir, 0xffff_ffff_ffff_ffff),
];

#[test]
fn a_special_register_keeps_the_bits_that_it_has(rt: HostRuntime) {
    for (spr, kept) in ALL_ONES {
        let mut thread = Thread::reset(0, 0);
        thread.set_spr(spr, 0xffff_ffff_ffff_ffff);
        assert_eq!(rt; thread.spr(spr), kept);
    }
}

#[test]
fn the_software_use_register_3_has_two_numbers(rt: HostRuntime) {
    let mut thread = Thread::reset(0, 0);
    thread.set_spr(Spr::Sprg3, 7);
    thread.set_spr(Spr::Sprg2, 8);
    assert_eq!(rt; thread.spr(Spr::UserSprg3), 7);
}
