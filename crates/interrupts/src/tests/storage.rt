//! The registers after each interrupt of a translation, in a guest, in a guest's problem state and in hypervisor state, worked
//! from the table by hand. The address of the instruction is 5004.

use super::deliveries::{details, main_registers, thread_in};
use crate::deliver;
use journal_core::Cause;
use thread_regs::Thread;

/// A guest's supervisor with relocation on, a guest's problem state, and hypervisor state with relocation on.
const OLD: [u64; 3] = [
    0x8000_0000_0000_1033,
    0x8000_0000_0000_d033,
    0x9000_0000_0000_1033,
];
/// The new states where SRR0 and SRR1 save: HV stays and RI is 0.
const STAYED: [u64; 3] = [
    0x8000_0000_0000_1001,
    0x8000_0000_0000_1001,
    0x9000_0000_0000_1001,
];
/// The new one where HSRR0 and HSRR1 save: HV is 1 and RI stays.
const RAISED: u64 = 0x9000_0000_0000_1003;

/// The thread after a cause in this state.
fn after(cause: Cause, state: u64) -> Thread {
    let mut thread = thread_in(state);
    thread.nia = 0x5004;
    deliver(&cause, &mut thread);
    thread
}

#[test]
fn a_store_that_the_process_refuses_leaves_dar_and_dsisr(rt: HostRuntime) {
    // bits 38 and 45: a store, to a page that is not marked as changed
    let cause = Cause::DataStorage {
        dar: 0x1_2000,
        dsisr: 0x204_0000,
    };
    for i in 0..3 {
        let thread = after(cause, OLD[i]);
        let main = [0x300, STAYED[i], 0x5004, OLD[i], 0x53, 0x54];
        assert_eq!(rt; main_registers(&thread), main);
        let more = [0x1_2000, 0x204_0000, 0x57, 0x58, 0x59, 0x5a];
        assert_eq!(rt; details(&thread), more);
    }
}

#[test]
fn data_in_no_segment_leaves_dar_alone(rt: HostRuntime) {
    let cause = Cause::DataSegment {
        dar: 0x4000_0000_0000_0000,
    };
    for i in 0..3 {
        let thread = after(cause, OLD[i]);
        let main = [0x380, STAYED[i], 0x5004, OLD[i], 0x53, 0x54];
        assert_eq!(rt; main_registers(&thread), main);
        let more = [0x4000_0000_0000_0000, 0x56, 0x57, 0x58, 0x59, 0x5a];
        assert_eq!(rt; details(&thread), more);
    }
}

#[test]
fn a_fetch_that_the_process_refuses_leaves_bits_of_srr1(rt: HostRuntime) {
    // bit 35: a page that is not to be fetched from
    let saved = [
        0x8000_0000_1000_1033,
        0x8000_0000_1000_d033,
        0x9000_0000_1000_1033,
    ];
    for i in 0..3 {
        let thread = after(Cause::InstStorage { bits: 0x1000_0000 }, OLD[i]);
        let main = [0x400, STAYED[i], 0x5004, saved[i], 0x53, 0x54];
        assert_eq!(rt; main_registers(&thread), main);
        let more = [0x55, 0x56, 0x57, 0x58, 0x59, 0x5a];
        assert_eq!(rt; details(&thread), more);
    }
}

#[test]
fn a_fetch_in_no_segment_leaves_no_more(rt: HostRuntime) {
    for i in 0..3 {
        let thread = after(Cause::InstSegment, OLD[i]);
        let main = [0x480, STAYED[i], 0x5004, OLD[i], 0x53, 0x54];
        assert_eq!(rt; main_registers(&thread), main);
        let more = [0x55, 0x56, 0x57, 0x58, 0x59, 0x5a];
        assert_eq!(rt; details(&thread), more);
    }
}

#[test]
fn a_load_that_the_partition_refuses_leaves_hdar_hdsisr_and_asdr(rt: HostRuntime) {
    // bits 33 and 46: no entry, for an address of a table
    let cause = Cause::HypDataStorage {
        hdar: 0x20_0000,
        hdsisr: 0x4002_0000,
        asdr: 0x7_f000,
    };
    for i in 0..3 {
        let thread = after(cause, OLD[i]);
        let main = [0xe00, RAISED, 0x51, 0x52, 0x5004, OLD[i]];
        assert_eq!(rt; main_registers(&thread), main);
        let more = [0x55, 0x56, 0x20_0000, 0x4002_0000, 0x7_f000, 0x5a];
        assert_eq!(rt; details(&thread), more);
    }
}

#[test]
fn a_fetch_that_the_partition_refuses_leaves_bits_of_hsrr1_and_asdr(rt: HostRuntime) {
    // bit 33: no entry
    let cause = Cause::HypInstStorage {
        bits: 0x4000_0000,
        asdr: 0x7_f000,
    };
    let saved = [
        0x8000_0000_4000_1033,
        0x8000_0000_4000_d033,
        0x9000_0000_4000_1033,
    ];
    for i in 0..3 {
        let thread = after(cause, OLD[i]);
        let main = [0xe20, RAISED, 0x51, 0x52, 0x5004, saved[i]];
        assert_eq!(rt; main_registers(&thread), main);
        let more = [0x55, 0x56, 0x57, 0x58, 0x7_f000, 0x5a];
        assert_eq!(rt; details(&thread), more);
    }
}
