ghost use Rattle.std.specs.Prelude.{◌≡◌, None, Some};
ghost use Rattle.thread_regs.specs.Soundness.{IsWithinWidths};

use super::*;
use journal_core::{Ended, Journal, RowKind, StepEnd, StepRow, StopName, Use};
use outer_io::{MemSink, Sink, SinkFault};
use ppc_ops::Xer;
use ppc_spr::Msr;
use std::test::Fail;
use thread_regs::{Thread, Threads};

/// The report after three steps of `addi r3,0,1; add r4,r3,r3; b .` at 0x10000.
const AFTER_THREE_STEPS: &str = "radix 1
end all
steps 3
tb 0000000000000003
thread 0
nia 0000000000010008 msr 9000000000001001
cr 00000000 xer 0000000000000000
lr 0000000000000000 ctr 0000000000000000 tar 0000000000000000
r00 0000000000000000 0000000000000000 0000000000000000 0000000000000001
r04 0000000000000002 0000000000000000 0000000000000000 0000000000000000
r08 0000000000000000 0000000000000000 0000000000000000 0000000000000000
r12 0000000000010000 0000000000000000 0000000000000000 0000000000000000
r16 0000000000000000 0000000000000000 0000000000000000 0000000000000000
r20 0000000000000000 0000000000000000 0000000000000000 0000000000000000
r24 0000000000000000 0000000000000000 0000000000000000 0000000000000000
r28 0000000000000000 0000000000000000 0000000000000000 0000000000000000
srr 0000000000000000 0000000000000000 hsrr 0000000000000000 0000000000000000
dar 0000000000000000 dsisr 00000000
hdar 0000000000000000 hdsisr 00000000 asdr 0000000000000000
heir 00000000 lpidr 000 pidr 00000
dec fffffffd hdec fffffffd
lpcr 0000000002500000 ptcr 0000000000000000
amr 0000000000000000 iamr 0000000000000000
sprg 0000000000000000 0000000000000000 0000000000000000 0000000000000000 hsprg 0000000000000000 0000000000000000
.
";

/// The end of a report, whose thread 1 has another value in each register.
const SECOND_THREAD: &str = "thread 1
nia 0000000000000020 msr 0000000000000021
cr 00000022 xer 00000000a0040000
lr 0000000000000024 ctr 0000000000000025 tar 0000000000000026
r00 0000000000001000 0000000000001001 0000000000001002 0000000000001003
r04 0000000000001004 0000000000001005 0000000000001006 0000000000001007
r08 0000000000001008 0000000000001009 000000000000100a 000000000000100b
r12 000000000000100c 000000000000100d 000000000000100e 000000000000100f
r16 0000000000001010 0000000000001011 0000000000001012 0000000000001013
r20 0000000000001014 0000000000001015 0000000000001016 0000000000001017
r24 0000000000001018 0000000000001019 000000000000101a 000000000000101b
r28 000000000000101c 000000000000101d 000000000000101e 000000000000101f
srr 0000000000000027 0000000000000028 hsrr 0000000000000029 000000000000002a
dar 000000000000002b dsisr 0000002c
hdar 000000000000002d hdsisr 0000002e asdr 000000000000002f
heir 00000030 lpidr abc pidr fedcb
dec 00000033 hdec 00000034
lpcr 0000000000000035 ptcr 0000000000000036
amr 0000000000000037 iamr 0000000000000038
sprg 0000000000000039 000000000000003a 000000000000003b 000000000000003c hsprg 000000000000003d 000000000000003e
.
";

fn step_row(cia: u64, word: u32) -> StepRow
    ensures { result.word ≡ Some word }
{
    StepRow {
        thread: 0,
        cia,
        word: Some(word),
        end: StepEnd::Ran,
        uses: [Use::Real(cia), Use::Unused, Use::Unused],
    }
}

#[test]
fn a_report_after_three_steps(rt: HostRuntime) -> Result<(), Fail> {
    let mut threads = Threads::reset(1, 0x1_0000);
    let thread = threads.get_mut(0);
    thread.set_gpr(3, 1);
    thread.set_gpr(4, 2);
    thread.set_nia(0x1_0008);
    thread.tb = 3;
    thread.dec = 0xffff_fffd;
    thread.hdec = 0xffff_fffd;
    let mut journal = Journal::open(rt.alloc(), 3)?;
    journal.push_step(step_row(0x1_0000, 0x3860_0001));
    journal.push_step(step_row(0x1_0004, 0x7c83_1a14));
    journal.push_step(step_row(0x1_0008, 0x4800_0000));
    let parts = ReportParts {
        threads: &threads,
        journal: &journal,
        end: Ended::AllRun,
    };
    let mut out = MemSink::open(rt.alloc(), 4096)?;
    assert_eq!(rt; print_report(&parts, false, false, &mut out), Ok(()));
    assert_eq!(rt; out.bytes(), AFTER_THREE_STEPS.as_bytes());
    Ok(())
}

fn set_each_register(thread: &mut Thread) {
    for n in 0..32u8 {
        thread.set_gpr(n, 0x1000 + n as u64);
    }
    thread.nia = 0x20;
    thread.msr = Msr(0x21);
    thread.cr = 0x22;
    thread.xer = Xer::of(0xffff_ffff_a004_ffff);
    thread.lr = 0x24;
    thread.ctr = 0x25;
    thread.tar = 0x26;
    thread.srr0 = 0x27;
    thread.srr1 = 0x28;
    thread.hsrr0 = 0x29;
    thread.hsrr1 = 0x2a;
    thread.dar = 0x2b;
    thread.dsisr = 0x2c;
    thread.hdar = 0x2d;
    thread.hdsisr = 0x2e;
    thread.asdr = 0x2f;
    thread.heir = 0x30;
}

fn set_each_control_register(thread: &mut Thread)
    ensures { IsWithinWidths thread.new }
{
    thread.lpidr = 0xabc;
    thread.pidr = 0xf_edcb;
    thread.dec = 0x33;
    thread.hdec = 0x34;
    thread.lpcr = 0x35;
    thread.ptcr = 0x36;
    thread.amr = 0x37;
    thread.iamr = 0x38;
    thread.sprg0 = 0x39;
    thread.sprg1 = 0x3a;
    thread.sprg2 = 0x3b;
    thread.sprg3 = 0x3c;
    thread.hsprg0 = 0x3d;
    thread.hsprg1 = 0x3e;
    thread.tb = 0x3f;
}

#[test]
fn each_register_stands_behind_its_name(rt: HostRuntime) -> Result<(), Fail> {
    let mut threads = Threads::reset(2, 0x1_0000);
    let thread = threads.get_mut(1);
    set_each_register(thread);
    set_each_control_register(thread);
    let journal = Journal::open(rt.alloc(), 1)?;
    let parts = ReportParts {
        threads: &threads,
        journal: &journal,
        end: Ended::AllRun,
    };
    let mut out = MemSink::open(rt.alloc(), 8192)?;
    assert_eq!(rt; print_report(&parts, false, false, &mut out), Ok(()));
    assert!(rt; out.bytes().ends_with(SECOND_THREAD.as_bytes()));
    Ok(())
}

#[test]
fn each_end_has_its_name(rt: HostRuntime) -> Result<(), Fail> {
    let threads = Threads::reset(1, 0);
    let journal = Journal::open(rt.alloc(), 1)?;
    for (end, want) in [
        (
            Ended::ScheduleEnd,
            "radix 1\nend schedule\nsteps 0\ntb 0000000000000000\nthread 0\n",
        ),
        (
            Ended::JournalFull(RowKind::Writes, 7),
            "radix 1\nend full writes 7\nsteps 0\ntb 0000000000000000\nthread 0\n",
        ),
        (
            Ended::Stopped(StopName::Unsupported, 0xc800_0000),
            "radix 1\nend stopped Unsupported 00000000c8000000\nsteps 0\ntb 0000000000000000\nthread 0\n",
        ),
        (
            Ended::Stopped(StopName::InvalidForm, 0x8463_0000),
            "radix 1\nend stopped InvalidForm 0000000084630000\nsteps 0\ntb 0000000000000000\nthread 0\n",
        ),
        (
            Ended::Stopped(StopName::NoStorage, 0xfff0),
            "radix 1\nend stopped NoStorage 000000000000fff0\nsteps 0\ntb 0000000000000000\nthread 0\n",
        ),
    ] {
        let parts = ReportParts {
            threads: &threads,
            journal: &journal,
            end,
        };
        let mut out = MemSink::open(rt.alloc(), 8192)?;
        assert_eq!(rt; print_report(&parts, false, false, &mut out), Ok(()));
        assert!(rt; out.bytes().starts_with(want.as_bytes()));
    }
    Ok(())
}

/// Counts the pieces, and those of them that are one whole line.
#[derive(Drop)]
struct PieceSink {
    pieces: u32,
    whole_lines: u32,
}

fn is_whole_line(bytes: &[u8]) -> bool {
    bytes.last() == Some(&b'\n') && bytes.iter().filter(|byte| **byte == b'\n').count() == 1
}

impl Sink for PieceSink {
    ghost told = { λ _. None };

    ghost faults = { λ _. 0 };

    fn put(&mut self, bytes: &[u8]) -> Result<(), SinkFault> {
        self.pieces = self.pieces.saturating_add(1);
        if is_whole_line(bytes) {
            self.whole_lines = self.whole_lines.saturating_add(1);
        }
        Ok(())
    }
}

#[test]
fn each_piece_is_one_whole_line(rt: HostRuntime) -> Result<(), Fail> {
    let threads = Threads::reset(4, 0x1_0000);
    let journal = Journal::open(rt.alloc(), 1)?;
    let parts = ReportParts {
        threads: &threads,
        journal: &journal,
        end: Ended::JournalFull(RowKind::Steps, 1),
    };
    let mut out = PieceSink {
        pieces: 0,
        whole_lines: 0,
    };
    assert_eq!(rt; print_report(&parts, false, false, &mut out), Ok(()));
    assert_eq!(rt; out.pieces, 4 + 4 * 20 + 1);
    assert_eq!(rt; out.whole_lines, out.pieces);
    Ok(())
}

#[test]
fn a_fault_leaves_a_front_of_the_report(rt: HostRuntime) -> Result<(), Fail> {
    let threads = Threads::reset(1, 0);
    let journal = Journal::open(rt.alloc(), 1)?;
    let parts = ReportParts {
        threads: &threads,
        journal: &journal,
        end: Ended::AllRun,
    };
    let mut out = MemSink::open(rt.alloc(), 24)?;
    assert_eq!(rt;
        print_report(&parts, false, false, &mut out),
        Err(SinkFault)
    );
    assert_eq!(rt; out.bytes(), b"radix 1\nend all\nsteps 0\n".as_slice());
    Ok(())
}
