//! Which states may use which forms.

use super::bench::HERE;
use crate::words::execute_word;
use journal_core::{Cause, Journal, StepEnd, StopName};
use ppc_bus::Bus;
use ppc_spr::Msr;
use real_store::Store;
use std::alloc::Global;
use std::test::Fail;
use thread_regs::Thread;
use translator::Plain;

/// Hypervisor state without relocation.
const HYPERVISOR: u64 = 0x9000_0000_0000_1001;
/// A guest's supervisor with relocation.
const SUPERVISOR: u64 = 0x8000_0000_0000_1033;
/// A guest's user.
const USER: u64 = 0x8000_0000_0000_d033;

/// How a word ends in a thread with this machine state, where r3 is 1.
fn end_in(alloc: Global, msr: u64, word: u32) -> Result<StepEnd, Fail> {
    let mut thread = Thread::reset(0, HERE);
    thread.set_msr(Msr(msr));
    thread.set_gpr(3, 1);
    let mut store = Store::open(alloc, 0x1000)?;
    let mut bus = Bus::new();
    let mut journal = Journal::open(alloc, 1)?;
    let out = execute_word(
        word,
        &mut thread,
        0,
        &mut Plain::new(),
        &mut store,
        &mut bus,
        &mut journal,
        0,
    );
    Ok(out.end)
}

/// How a privileged form ends.
#[derive(Clone, Copy)]
enum Ends {
    /// It ran.
    Ran,
    /// A program interrupt for a privileged instruction.
    Privileged,
    /// The hypervisor is asked for assistance with the word.
    Assist,
    /// Its size does not divide its address, 1.
    Misaligned,
    /// The machine does not execute it yet.
    Unsupported,
    /// This machine state is outside the profile.
    Profile(u64),
}

fn end_of(expected: Ends, word: u32) -> StepEnd {
    match expected {
        Ends::Ran => StepEnd::Ran,
        Ends::Privileged => StepEnd::Took(Cause::Program { bits: 0x4_0000 }),
        Ends::Assist => StepEnd::Took(Cause::HypAssist { heir: word }),
        Ends::Misaligned => StepEnd::Took(Cause::Alignment { dar: 1 }),
        Ends::Unsupported => StepEnd::Stopped(StopName::Unsupported, u64::from(word)),
        Ends::Profile(value) => StepEnd::Stopped(StopName::ProfileBits, value),
    }
}

/// A word, and how it ends in hypervisor state, for a supervisor and for a user.
const PRIVILEGED_FORMS: [(u32, Ends, Ends, Ends); 26] = [
    // mfspr r3,26 and mtspr 26,r3 (SRR0)
    (0x7c7a_02a6, Ends::Ran, Ends::Ran, Ends::Privileged),
    (0x7c7a_03a6, Ends::Ran, Ends::Ran, Ends::Privileged),
    // mfspr r3,314 (HSRR0)
    (0x7c7a_4aa6, Ends::Ran, Ends::Assist, Ends::Privileged),
    // mtspr 339,r3 (HEIR)
    (0x7c73_53a6, Ends::Ran, Ends::Assist, Ends::Privileged),
    // mfmsr r3
    (0x7c60_00a6, Ends::Ran, Ends::Ran, Ends::Privileged),
    // mtmsr r3,1 and mtmsrd r3,1
    (0x7c61_0124, Ends::Ran, Ends::Ran, Ends::Privileged),
    (0x7c61_0164, Ends::Ran, Ends::Ran, Ends::Privileged),
    // rfid and hrfid, whose saved registers are 0
    (
        0x4c00_0024,
        Ends::Profile(0),
        Ends::Profile(0x1000),
        Ends::Privileged,
    ),
    (
        0x4c00_0224,
        Ends::Profile(0),
        Ends::Assist,
        Ends::Privileged,
    ),
    // tlbie r4,r5,0,0,1 and tlbie r4,r5,0,1,1
    (
        0x7ca1_2264,
        Ends::Unsupported,
        Ends::Assist,
        Ends::Privileged,
    ),
    (
        0x7ca3_2264,
        Ends::Unsupported,
        Ends::Assist,
        Ends::Privileged,
    ),
    // tlbiel r4,r5,0,0,1 and tlbiel r4,r5,0,1,1
    (
        0x7ca1_2224,
        Ends::Unsupported,
        Ends::Assist,
        Ends::Privileged,
    ),
    (
        0x7ca3_2224,
        Ends::Unsupported,
        Ends::Unsupported,
        Ends::Privileged,
    ),
    // tlbsync
    (
        0x7c00_046c,
        Ends::Unsupported,
        Ends::Assist,
        Ends::Privileged,
    ),
    // msgsnd r6 and msgclr r6
    (
        0x7c00_319c,
        Ends::Unsupported,
        Ends::Assist,
        Ends::Privileged,
    ),
    (
        0x7c00_31dc,
        Ends::Unsupported,
        Ends::Assist,
        Ends::Privileged,
    ),
    // lwzcix r5,0,r3
    (
        0x7ca0_1e2a,
        Ends::Misaligned,
        Ends::Assist,
        Ends::Privileged,
    ),
    // lhzcix r5,0,r3
    (
        0x7ca0_1e6a,
        Ends::Misaligned,
        Ends::Assist,
        Ends::Privileged,
    ),
    // lbzcix r5,0,r3
    (0x7ca0_1eaa, Ends::Ran, Ends::Assist, Ends::Privileged),
    // stwcix r5,0,r3
    (
        0x7ca0_1f2a,
        Ends::Misaligned,
        Ends::Assist,
        Ends::Privileged,
    ),
    // sthcix r5,0,r3
    (
        0x7ca0_1f6a,
        Ends::Misaligned,
        Ends::Assist,
        Ends::Privileged,
    ),
    // stbcix r5,0,r3
    (0x7ca0_1faa, Ends::Ran, Ends::Assist, Ends::Privileged),
    // stdcix r5,0,r3
    (
        0x7ca0_1fea,
        Ends::Misaligned,
        Ends::Assist,
        Ends::Privileged,
    ),
    // ldcix r5,0,r3
    (
        0x7ca0_1eea,
        Ends::Misaligned,
        Ends::Assist,
        Ends::Privileged,
    ),
    // lwarx r5,0,r3 and stwcx. r5,0,r3
    (
        0x7ca0_1828,
        Ends::Unsupported,
        Ends::Unsupported,
        Ends::Unsupported,
    ),
    (
        0x7ca0_192d,
        Ends::Unsupported,
        Ends::Unsupported,
        Ends::Unsupported,
    ),
];

#[test]
fn each_privileged_form_ends_by_the_state_it_is_in(rt: HostRuntime) -> Result<(), Fail> {
    for (word, hypervisor, supervisor, user) in PRIVILEGED_FORMS {
        let cases = [
            (HYPERVISOR, hypervisor),
            (SUPERVISOR, supervisor),
            (USER, user),
        ];
        for (msr, expected) in cases {
            let end = end_in(rt.alloc(), msr, word)?;
            assert_eq!(rt; end, end_of(expected, word), "{word:x}");
        }
    }
    Ok(())
}
