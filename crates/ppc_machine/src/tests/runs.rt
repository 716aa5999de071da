//! Runs by a schedule.

use super::bench::{bare_machine, machine_at, next_step, run, thread};
use journal_core::{Ended, StepEnd, StopName, Use};
use std::test::Fail;

#[test]
fn three_instructions_run_by_a_schedule(rt: HostRuntime) -> Result<(), Fail> {
    // li r3,1; add r4,r3,r3; b .
    let words = [0x3860_0001, 0x7c83_1a14, 0x4800_0000];
    let mut machine = bare_machine(rt.alloc(), 0x1_0000, &words)?;
    assert_eq!(rt; run(rt.alloc(), &mut machine, 3)?, Ended::AllRun);
    let thread = thread(&machine)?;
    assert_eq!(rt; (thread.gpr(3), thread.gpr(4)), (1, 2));
    assert_eq!(rt; thread.nia(), 0x1_0008);
    assert_eq!(rt; (thread.tb, thread.dec), (3, 0xffff_fffd));
    assert_eq!(rt; machine.memory().load(0x1_0000, 4), Ok(0x3860_0001));
    assert_eq!(rt; machine.journal().counts().steps, 3);
    let row = machine.journal().step(1).ok_or("row")?;
    assert_eq!(rt;
        (row.word, row.uses[0]),
        (Some(0x7c83_1a14), Use::Real(0x1_0004))
    );
    Ok(())
}

#[test]
fn a_word_of_no_form_stops_the_machine_for_good(rt: HostRuntime) -> Result<(), Fail> {
    let mut machine = bare_machine(rt.alloc(), 0x1_0000, &[0xc800_0000])?;
    let stop = StepEnd::Stopped(StopName::Unsupported, 0xc800_0000);
    assert_eq!(rt; next_step(&mut machine)?, stop);
    assert_eq!(rt; next_step(&mut machine)?, stop);
    assert_eq!(rt; machine.journal().counts().steps, 1);
    assert_eq!(rt; thread(&machine)?.tb, 0);
    Ok(())
}

#[test]
fn a_branch_below_address_zero_finds_no_storage(rt: HostRuntime) -> Result<(), Fail> {
    // b .-4
    let mut machine = bare_machine(rt.alloc(), 0, &[0x4bff_fffc])?;
    assert_eq!(rt; next_step(&mut machine)?, StepEnd::Ran);
    let stop = StepEnd::Stopped(StopName::NoStorage, 0x0fff_ffff_ffff_fffc);
    assert_eq!(rt; next_step(&mut machine)?, stop);
    Ok(())
}

/// A program and what is left of it.
#[derive(Clone, Copy)]
struct Program {
    words: [u32; 5],
    steps: u32,
    end: Ended,
    /// How many step rows and device rows there are.
    rows: (u32, u32),
    /// The uses of the last step.
    uses: [Use; 3],
    /// The next address and the time base.
    nia: (u64, u64),
    /// SRR0 and DAR.
    saved: (u64, u64),
}

/// Programs of at most five words, which ask the three devices, set bits of the machine state, or go past the caches.
const PROGRAMS: [Program; 5] = [
    // lis r4,0x1000; ori r5,r4,0x1000; li r6,0; std r6,8(r5); stb r6,0(r4): the console is ejected
    Program {
        words: [
            0x3c80_1000,
            0x6085_1000,
            0x38c0_0000,
            0xf8c5_0008,
            0x98c4_0000,
        ],
        steps: 9,
        end: Ended::Stopped(StopName::NoStorage, 0x1000_0000),
        rows: (5, 1),
        uses: [Use::Real(0x1_0010), Use::Real(0x1000_0000), Use::Unused],
        nia: (0x1_0010, 4),
        saved: (0, 0),
    },
    // lis r4,0x1000; ori r4,r4,0x1000; li r6,1; std r6,8(r4); std r6,8(r4): the control ejects itself
    Program {
        words: [
            0x3c80_1000,
            0x6084_1000,
            0x38c0_0001,
            0xf8c4_0008,
            0xf8c4_0008,
        ],
        steps: 9,
        end: Ended::Stopped(StopName::NoStorage, 0x1000_1008),
        rows: (5, 1),
        uses: [Use::Real(0x1_0010), Use::Real(0x1000_1008), Use::Unused],
        nia: (0x1_0010, 4),
        saved: (0, 0),
    },
    // lis r4,0x1000; ori r4,r4,0x1000; li r3,5; stb r3,0(r4); li r3,6: the control stops the machine
    Program {
        words: [
            0x3c80_1000,
            0x6084_1000,
            0x3860_0005,
            0x9864_0000,
            0x3860_0006,
        ],
        steps: 9,
        end: Ended::Stopped(StopName::DeviceStop, 1),
        rows: (4, 1),
        uses: [Use::Real(0x1_000c), Use::Real(0x1000_1000), Use::Unused],
        nia: (0x1_0010, 4),
        saved: (0, 0),
    },
    // mfmsr r5; ori r5,r5,0x10; mtmsrd r5; lbz r3,0(0): data are translated, and partition 0 has no entry; the fetch is not
    Program {
        words: [0x7ca0_00a6, 0x60a5_0010, 0x7ca0_0164, 0x8860_0000, 0],
        steps: 9,
        end: Ended::Stopped(StopName::HashedPartition, 0),
        rows: (4, 0),
        uses: [Use::Real(0x1_000c), Use::Unused, Use::Unused],
        nia: (0x1_000c, 3),
        saved: (0, 0),
    },
    // li r3,1; ldcix r5,0,r3
    Program {
        words: [0x3860_0001, 0x7ca0_1eea, 0, 0, 0],
        steps: 2,
        end: Ended::AllRun,
        rows: (2, 0),
        uses: [Use::Real(0x1_0004), Use::Unused, Use::Unused],
        nia: (0x600, 2),
        saved: (0x1_0004, 1),
    },
];

#[test]
fn programs_end_at_devices_translation_and_alignment(rt: HostRuntime) -> Result<(), Fail> {
    for program in PROGRAMS {
        let mut machine = machine_at(rt.alloc(), 16, 0x1_0000, &program.words)?;
        let end = run(rt.alloc(), &mut machine, program.steps)?;
        assert_eq!(rt; end, program.end);
        let counts = machine.journal().counts();
        assert_eq!(rt; (counts.steps, counts.devices), program.rows);
        let row = machine
            .journal()
            .step(counts.steps.saturating_sub(1))
            .ok_or("row")?;
        assert_eq!(rt; row.uses, program.uses);
        let thread = thread(&machine)?;
        assert_eq!(rt; (thread.nia(), thread.tb), program.nia);
        assert_eq!(rt; (thread.srr0, thread.dar), program.saved);
    }
    Ok(())
}

#[test]
fn a_store_to_two_pages_is_loaded_back(rt: HostRuntime) -> Result<(), Fail> {
    // li r3,-1; lis r4,2; std r3,-4(r4); ld r5,-4(r4)
    let words = [0x3860_ffff, 0x3c80_0002, 0xf864_fffc, 0xe8a4_fffc];
    let mut machine = machine_at(rt.alloc(), 16, 0x1_0000, &words)?;
    assert_eq!(rt; run(rt.alloc(), &mut machine, 4)?, Ended::AllRun);
    assert_eq!(rt; thread(&machine)?.gpr(5), 0xffff_ffff_ffff_ffff);
    let journal = machine.journal();
    assert_eq!(rt; journal.counts().writes, 2);
    let low = journal.write(0).ok_or("write")?;
    let high = journal.write(1).ok_or("write")?;
    assert_eq!(rt; (low.step, low.at), (2, 0x1_fffc));
    assert_eq!(rt; (high.step, high.at), (2, 0x2_0000));
    Ok(())
}
