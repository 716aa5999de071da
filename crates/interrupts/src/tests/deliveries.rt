//! The registers after each cause, in hypervisor state with relocation off, in a guest's supervisor state and in its problem
//! state, worked from the table by hand.

ghost use Rattle.std.specs.Prelude.{◌<◌};

use crate::{SavedIn, deliver, interrupt_of, offset};
use journal_core::Cause;
use ppc_spr::{Hyper, Msr};
use thread_regs::Thread;

/// The three old states.
const OLD: [u64; 3] = [
    0x9000_0000_0000_1001,
    0x8000_0000_0000_1033,
    0x8000_0000_0000_d033,
];
/// The new ones where HV stays and RI is 0.
const STAYED: [u64; 3] = [
    0x9000_0000_0000_1001,
    0x8000_0000_0000_1001,
    0x8000_0000_0000_1001,
];
/// Those where HV is 1 and RI stays.
const RAISED: [u64; 3] = [
    0x9000_0000_0000_1001,
    0x9000_0000_0000_1003,
    0x9000_0000_0000_1003,
];
/// Those where HV is 1 and RI is 0.
const CALLED: [u64; 3] = [
    0x9000_0000_0000_1001,
    0x9000_0000_0000_1001,
    0x9000_0000_0000_1001,
];
/// What DAR, DSISR, HDAR, HDSISR, ASDR and HEIR have before.
const DETAILS: [u64; 6] = [0x55, 0x56, 0x57, 0x58, 0x59, 0x5a];

/// A cause, and what it leaves: the next address, the saved address, the saved states, the new states, and DAR, DSISR, HDAR,
/// HDSISR, ASDR and HEIR.
#[derive(Clone, Copy)]
struct Row {
    cause: Cause,
    nia: u64,
    saved_in: SavedIn,
    address: u64,
    saved: [u64; 3],
    states: [u64; 3],
    details: [u64; 6],
}

/// A row that leaves the old state in the saved register, and those other registers as they were.
fn quiet(cause: Cause, nia: u64, saved_in: SavedIn, states: [u64; 3]) -> Row {
    Row {
        cause,
        nia,
        saved_in,
        address: 0x1_0000,
        saved: OLD,
        states,
        details: DETAILS,
    }
}

/// The rows of causes that save in SRR0 and SRR1.
fn srr_rows() -> [Row; 10] {
    [
        Row {
            details: [0x7_1234, 0x4200_0000, 0x57, 0x58, 0x59, 0x5a],
            ..quiet(
                Cause::DataStorage {
                    dar: 0x7_1234,
                    dsisr: 0x4200_0000,
                },
                0x300,
                SavedIn::Srr,
                STAYED,
            )
        },
        Row {
            details: [0x4000_0000_0000_0000, 0x56, 0x57, 0x58, 0x59, 0x5a],
            ..quiet(
                Cause::DataSegment {
                    dar: 0x4000_0000_0000_0000,
                },
                0x380,
                SavedIn::Srr,
                STAYED,
            )
        },
        Row {
            saved: [
                0x9000_0000_4000_1001,
                0x8000_0000_4000_1033,
                0x8000_0000_4000_d033,
            ],
            ..quiet(
                Cause::InstStorage { bits: 0x4000_0000 },
                0x400,
                SavedIn::Srr,
                STAYED,
            )
        },
        quiet(Cause::InstSegment, 0x480, SavedIn::Srr, STAYED),
        Row {
            details: [0x7_1233, 0x56, 0x57, 0x58, 0x59, 0x5a],
            ..quiet(
                Cause::Alignment { dar: 0x7_1233 },
                0x600,
                SavedIn::Srr,
                STAYED,
            )
        },
        Row {
            saved: [
                0x9000_0000_0002_1001,
                0x8000_0000_0002_1033,
                0x8000_0000_0002_d033,
            ],
            ..quiet(
                Cause::Program { bits: 0x2_0000 },
                0x700,
                SavedIn::Srr,
                STAYED,
            )
        },
        Row {
            saved: [
                0x9000_0000_0004_1001,
                0x8000_0000_0004_1033,
                0x8000_0000_0004_d033,
            ],
            ..quiet(
                Cause::Program { bits: 0x4_0000 },
                0x700,
                SavedIn::Srr,
                STAYED,
            )
        },
        quiet(Cause::Decrementer, 0x900, SavedIn::Srr, STAYED),
        Row {
            address: 0x1_0004,
            ..quiet(Cause::SystemCall { lev: 0 }, 0xc00, SavedIn::Srr, STAYED)
        },
        Row {
            address: 0x1_0004,
            ..quiet(Cause::SystemCall { lev: 1 }, 0xc00, SavedIn::Srr, CALLED)
        },
    ]
}

/// The rows of causes that save in HSRR0 and HSRR1.
fn hsrr_rows() -> [Row; 5] {
    [
        quiet(Cause::HypDecrementer, 0x980, SavedIn::Hsrr, RAISED),
        Row {
            details: [0x55, 0x56, 0x7_1234, 0x4200_0000, 0x8_1000, 0x5a],
            ..quiet(
                Cause::HypDataStorage {
                    hdar: 0x7_1234,
                    hdsisr: 0x4200_0000,
                    asdr: 0x8_1000,
                },
                0xe00,
                SavedIn::Hsrr,
                RAISED,
            )
        },
        Row {
            saved: [
                0x9000_0000_4002_1001,
                0x8000_0000_4002_1033,
                0x8000_0000_4002_d033,
            ],
            details: [0x55, 0x56, 0x57, 0x58, 0x8_1000, 0x5a],
            ..quiet(
                Cause::HypInstStorage {
                    bits: 0x4002_0000,
                    asdr: 0x8_1000,
                },
                0xe20,
                SavedIn::Hsrr,
                RAISED,
            )
        },
        Row {
            details: [0x55, 0x56, 0x57, 0x58, 0x59, 0],
            ..quiet(Cause::HypAssist { heir: 0 }, 0xe40, SavedIn::Hsrr, RAISED)
        },
        quiet(Cause::HypDoorbell, 0xe80, SavedIn::Hsrr, RAISED),
    ]
}

/// A thread at 0x10000 in this state.
pub fn thread_in(state: u64) -> Thread {
    Thread {
        msr: Msr(state),
        srr0: 0x51,
        srr1: 0x52,
        hsrr0: 0x53,
        hsrr1: 0x54,
        dar: 0x55,
        dsisr: 0x56,
        hdar: 0x57,
        hdsisr: 0x58,
        asdr: 0x59,
        heir: 0x5a,
        ..Thread::reset(0, 0x1_0000)
    }
}

/// The next address, the machine state, and SRR0, SRR1, HSRR0 and HSRR1.
pub fn main_registers(thread: &Thread) -> [u64; 6] {
    [
        thread.nia,
        thread.msr().0,
        thread.srr0,
        thread.srr1,
        thread.hsrr0,
        thread.hsrr1,
    ]
}

/// What these have after the cause of a row in one of the three states.
fn wanted(row: Row, i: usize) -> [u64; 6]
    requires { i < 3 }
{
    let (nia, state, address, saved) = (row.nia, row.states[i], row.address, row.saved[i]);
    match row.saved_in {
        SavedIn::Srr => [nia, state, address, saved, 0x53, 0x54],
        SavedIn::Hsrr => [nia, state, 0x51, 0x52, address, saved],
    }
}

pub fn details(thread: &Thread) -> [u64; 6] {
    [
        thread.dar,
        u64::from(thread.dsisr),
        thread.hdar,
        u64::from(thread.hdsisr),
        thread.asdr,
        u64::from(thread.heir),
    ]
}

#[test]
fn causes_that_save_in_srr(rt: HostRuntime) {
    for row in srr_rows() {
        for i in 0..3 {
            let mut thread = thread_in(OLD[i]);
            deliver(&row.cause, &mut thread);
            assert_eq!(rt; main_registers(&thread), wanted(row, i));
            assert_eq!(rt; details(&thread), row.details);
        }
    }
}

#[test]
fn causes_that_save_in_hsrr(rt: HostRuntime) {
    for row in hsrr_rows() {
        for i in 0..3 {
            let mut thread = thread_in(OLD[i]);
            deliver(&row.cause, &mut thread);
            assert_eq!(rt; main_registers(&thread), wanted(row, i));
            assert_eq!(rt; details(&thread), row.details);
        }
    }
}

#[test]
fn a_system_call_at_the_last_word_goes_on_at_0(rt: HostRuntime) {
    let mut thread = thread_in(0x9000_0000_0000_1001);
    thread.nia = 0xffff_ffff_ffff_fffc;
    deliver(&Cause::SystemCall { lev: 0 }, &mut thread);
    assert_eq!(rt; thread.srr0, 0);
    assert_eq!(rt; thread.gpr(12), 0x1_0000);
}

#[test]
fn the_offset_is_that_of_the_row(rt: HostRuntime) {
    assert_eq!(rt; offset(&Cause::HypAssist { heir: 0 }), 0xe40);
    let call = interrupt_of(&Cause::SystemCall { lev: 1 });
    assert_eq!(rt; call.offset, 0xc00);
    assert_eq!(rt; call.saved_in, SavedIn::Srr);
    assert_eq!(rt; call.bits, 0);
    assert_eq!(rt; call.hyper, Hyper::Raise);
}
