ghost use Rattle.std.specs.Prelude.{◌≡◌, None, Some};
ghost use Rattle.journal_core.specs.Rows.{HasWord};

use super::*;
use journal_core::{
    Cause, DeviceRow, Ended, Journal, Signal, StepEnd, StepRow, StopName, Use, WriteRow,
};
use outer_io::{MemSink, Sink, SinkFault};
use std::test::Fail;
use thread_regs::Threads;

/// What the rows of `addi r3,0,-1; addis r4,0,2; std r3,-4(r4); ld r5,-4(r4)` say, whose store crosses a page.
const STORE_ACROSS_A_PAGE: &str = "
s 0 0 ran 0000000000010000 3860ffff R0000000000010000 - -
s 1 0 ran 0000000000010004 3c800002 R0000000000010004 - -
s 2 0 ran 0000000000010008 f864fffc R0000000000010008 R000000000001fffc R0000000000020000
s 3 0 ran 000000000001000c e8a4fffc R000000000001000c R000000000001fffc R0000000000020000
w 2 0 000000000001fffc 4 0000000000000000 00000000ffffffff
w 2 0 0000000000020000 4 0000000000000000 00000000ffffffff
.
";

/// Rows with each kind of end and each kind of use.
const EACH_KIND_OF_STEP: &str = "
s 0 3 took 0000000000010004 7ca01eea 600 R0000000000010004 - -
s 1 3 took 0000000000000300 - 400 F3+16 - -
s 2 3 took ffffffffffffffff 44000022 c00 H7:0000000000ab0000 - -
s 3 3 stop 0000000000010010 98c40000 NoStorage 0000000010000000 R0000000000010010 W12:0000000010000000 -
s 4 3 stop 0000000000020000 - GuestZero 0000000000000000 - - -
.
";

/// Rows with each kind of signal.
const EACH_SIGNAL: &str = "
console 0 1 A
s 0 0 ran 0000000000010000 98640000 R0000000000010000 R0000000010000000 -
d 1 0 00000000 1 store 0000000000000041 byte 41
d 1 0 00000004 2 store 0000000000004241 quiet
d 1 1 00000008 8 store 0000000000000000 eject 0
d 1 2 00000000 1 load 0000000000000006 quiet
d 1 7 ffffffff 4 store 00000000ffffffff stop
.
";

/// What two consoles show whose bytes come in turns.
const TWO_CONSOLES: &str = "
console 2 7 Hi\\n\\\\\\x7f~ \nconsole 7 3 \\x00\\xff\\x1f
.
";

fn ran(cia: u64, word: u32, uses: [Use; 3]) -> StepRow
    ensures { HasWord result }
{
    StepRow {
        thread: 0,
        cia,
        word: Some(word),
        end: StepEnd::Ran,
        uses,
    }
}

fn took(cia: u64, word: Option<u32>, cause: Cause, fetch: Use) -> StepRow
    ensures { HasWord result }
{
    StepRow {
        thread: 3,
        cia,
        word,
        end: StepEnd::Took(cause),
        uses: [fetch, Use::Unused, Use::Unused],
    }
}

fn stopped(cia: u64, word: Option<u32>, name: StopName, value: u64, uses: [Use; 3]) -> StepRow
    ensures { HasWord result }
{
    StepRow {
        thread: 3,
        cia,
        word,
        end: StepEnd::Stopped(name, value),
        uses,
    }
}

fn written(step: u32, at: u64) -> WriteRow
    ensures { result.step ≡ step }
{
    WriteRow {
        step,
        thread: 0,
        at,
        size: 4,
        old: 0,
        new: 0xffff_ffff,
    }
}

fn stored(step: u32, slot: u8, offset: u32, size: u8, value: u64, signal: Signal) -> DeviceRow
    ensures { result.step ≡ step }
{
    DeviceRow {
        step,
        slot,
        offset,
        size,
        store: true,
        value,
        signal,
    }
}

fn loaded(step: u32, slot: u8, value: u64) -> DeviceRow
    ensures { result.step ≡ step }
{
    DeviceRow {
        step,
        slot,
        offset: 0,
        size: 1,
        store: false,
        value,
        signal: Signal::Quiet,
    }
}

/// The row of a byte that a console shows in step 0.
fn shown(slot: u8, byte: u8) -> DeviceRow
    ensures { result.step ≡ 0 }
{
    stored(0, slot, 0, 1, u64::from(byte), Signal::Byte(byte))
}

/// Puts the report of a thread at its start, with these rows.
pub(crate) fn report_to<K: Sink>(
    journal: &Journal,
    trace: bool,
    walks: bool,
    out: &mut K,
) -> Result<(), SinkFault> {
    let threads = Threads::reset(1, 0x1_0000);
    let parts = ReportParts {
        threads: &threads,
        journal,
        end: Ended::AllRun,
    };
    print_report(&parts, trace, walks, out)
}

#[test]
fn a_store_across_a_page_has_two_write_rows(rt: HostRuntime) -> Result<(), Fail> {
    let mut journal = Journal::open(rt.alloc(), 4)?;
    let pages = [
        Use::Real(0x1_0008),
        Use::Real(0x1_fffc),
        Use::Real(0x2_0000),
    ];
    let again = [
        Use::Real(0x1_000c),
        Use::Real(0x1_fffc),
        Use::Real(0x2_0000),
    ];
    journal.push_step(ran(
        0x1_0000,
        0x3860_ffff,
        [Use::Real(0x1_0000), Use::Unused, Use::Unused],
    ));
    journal.push_step(ran(
        0x1_0004,
        0x3c80_0002,
        [Use::Real(0x1_0004), Use::Unused, Use::Unused],
    ));
    journal.push_write(written(2, 0x1_fffc));
    journal.push_write(written(2, 0x2_0000));
    journal.push_step(ran(0x1_0008, 0xf864_fffc, pages));
    journal.push_step(ran(0x1_000c, 0xe8a4_fffc, again));
    let mut out = MemSink::open(rt.alloc(), 8192)?;
    assert_eq!(rt; report_to(&journal, true, false, &mut out), Ok(()));
    assert!(rt; out.bytes().ends_with(STORE_ACROSS_A_PAGE.as_bytes()));
    Ok(())
}

#[test]
fn each_kind_of_step_has_its_words(rt: HostRuntime) -> Result<(), Fail> {
    let mut journal = Journal::open(rt.alloc(), 5)?;
    let alignment = Cause::Alignment { dar: 1 };
    let storage = Cause::InstStorage { bits: 0x4000_0000 };
    let call = Cause::SystemCall { lev: 1 };
    let walked = [
        Use::Real(0x1_0010),
        Use::Walked(12, 0x1000_0000),
        Use::Unused,
    ];
    journal.push_step(took(0x1_0004, Some(0x7ca0_1eea), alignment, Use::Real(0x1_0004)));
    journal.push_step(took(0x300, None, storage, Use::Faulted(3, 16)));
    journal.push_step(took(u64::MAX, Some(0x4400_0022), call, Use::Hit(7, 0xab_0000)));
    journal.push_step(stopped(
        0x1_0010,
        Some(0x98c4_0000),
        StopName::NoStorage,
        0x1000_0000,
        walked,
    ));
    journal.push_step(stopped(0x2_0000, None, StopName::GuestZero, 0, [Use::Unused; 3]));
    let mut out = MemSink::open(rt.alloc(), 8192)?;
    assert_eq!(rt; report_to(&journal, true, false, &mut out), Ok(()));
    assert!(rt; out.bytes().ends_with(EACH_KIND_OF_STEP.as_bytes()));
    Ok(())
}

#[test]
fn each_stop_has_its_name(rt: HostRuntime) -> Result<(), Fail> {
    for (name, want) in [
        (StopName::NoStorage, "NoStorage 0000000000000009 - - -\n.\n"),
        (
            StopName::Unsupported,
            "Unsupported 0000000000000009 - - -\n.\n",
        ),
        (
            StopName::InvalidForm,
            "InvalidForm 0000000000000009 - - -\n.\n",
        ),
        (
            StopName::DeviceAccess,
            "DeviceAccess 0000000000000009 - - -\n.\n",
        ),
        (
            StopName::ProfileBits,
            "ProfileBits 0000000000000009 - - -\n.\n",
        ),
        (
            StopName::UnknownSpr,
            "UnknownSpr 0000000000000009 - - -\n.\n",
        ),
        (
            StopName::BadInvalidation,
            "BadInvalidation 0000000000000009 - - -\n.\n",
        ),
        (
            StopName::HashedPartition,
            "HashedPartition 0000000000000009 - - -\n.\n",
        ),
        (StopName::GuestZero, "GuestZero 0000000000000009 - - -\n.\n"),
        (
            StopName::DeviceStop,
            "DeviceStop 0000000000000009 - - -\n.\n",
        ),
    ] {
        let mut journal = Journal::open(rt.alloc(), 1)?;
        journal.push_step(stopped(0, None, name, 9, [Use::Unused; 3]));
        let mut out = MemSink::open(rt.alloc(), 8192)?;
        assert_eq!(rt; report_to(&journal, true, false, &mut out), Ok(()));
        assert!(rt; out.bytes().ends_with(want.as_bytes()));
    }
    Ok(())
}

#[test]
fn each_signal_has_its_words(rt: HostRuntime) -> Result<(), Fail> {
    let mut journal = Journal::open(rt.alloc(), 5)?;
    let store = [Use::Real(0x1_0000), Use::Real(0x1000_0000), Use::Unused];
    journal.push_step(ran(0x1_0000, 0x9864_0000, store));
    journal.push_device(stored(1, 0, 0, 1, 0x41, Signal::Byte(0x41)));
    journal.push_device(stored(1, 0, 4, 2, 0x4241, Signal::Quiet));
    journal.push_device(stored(1, 1, 8, 8, 0, Signal::Eject(0)));
    journal.push_device(loaded(1, 2, 6));
    journal.push_device(stored(1, 7, u32::MAX, 4, 0xffff_ffff, Signal::Stop));
    let mut out = MemSink::open(rt.alloc(), 8192)?;
    assert_eq!(rt; report_to(&journal, true, false, &mut out), Ok(()));
    assert!(rt; out.bytes().ends_with(EACH_SIGNAL.as_bytes()));
    Ok(())
}

#[test]
fn consoles_show_their_own_bytes(rt: HostRuntime) -> Result<(), Fail> {
    let mut journal = Journal::open(rt.alloc(), 10)?;
    journal.push_device(shown(7, 0));
    journal.push_device(shown(2, b'H'));
    journal.push_device(shown(2, b'i'));
    journal.push_device(shown(7, 0xff));
    journal.push_device(shown(2, b'\n'));
    journal.push_device(shown(2, b'\\'));
    journal.push_device(shown(2, 0x7f));
    journal.push_device(shown(7, 0x1f));
    journal.push_device(shown(2, b'~'));
    journal.push_device(shown(2, b' '));
    let mut out = MemSink::open(rt.alloc(), 8192)?;
    assert_eq!(rt; report_to(&journal, false, false, &mut out), Ok(()));
    assert!(rt; out.bytes().ends_with(TWO_CONSOLES.as_bytes()));
    Ok(())
}

/// Counts the pieces, and looks for one that goes on behind a newline.
#[derive(Drop)]
struct PieceSink {
    pieces: u32,
    lines: u32,
    has_bytes_of_two_lines: bool,
}

fn count_newlines(bytes: &[u8]) -> usize {
    bytes.iter().filter(|byte| **byte == b'\n').count()
}

impl Sink for PieceSink {
    ghost told = { λ _. None };

    ghost faults = { λ _. 0 };

    fn put(&mut self, bytes: &[u8]) -> Result<(), SinkFault> {
        self.pieces = self.pieces.saturating_add(1);
        if bytes.last() == Some(&b'\n') {
            self.lines = self.lines.saturating_add(1);
        }
        if count_newlines(bytes) > 1 || count_newlines(bytes) == 1 && bytes.last() != Some(&b'\n') {
            self.has_bytes_of_two_lines = true;
        }
        Ok(())
    }
}

#[test]
fn no_piece_has_bytes_of_two_lines(rt: HostRuntime) -> Result<(), Fail> {
    let mut journal = Journal::open(rt.alloc(), 250)?;
    for k in 0..250u32 {
        journal.push_device(stored(0, 3, k, 1, 0x80, Signal::Byte(0x80)));
    }
    journal.push_step(ran(0x1_0000, 0x9864_0000, [Use::Unused; 3]));
    let mut out = PieceSink {
        pieces: 0,
        lines: 0,
        has_bytes_of_two_lines: false,
    };
    assert_eq!(rt; report_to(&journal, true, false, &mut out), Ok(()));
    assert_eq!(rt; out.lines, 4 + 20 + 1 + 1 + 250 + 1);
    assert!(rt; out.pieces > out.lines + 2);
    assert!(rt; !out.has_bytes_of_two_lines);
    Ok(())
}

#[test]
fn a_fault_at_any_put_leaves_a_front(rt: HostRuntime) -> Result<(), Fail> {
    let mut journal = Journal::open(rt.alloc(), 2)?;
    journal.push_step(ran(0x1_0000, 0x9864_0000, [Use::Unused; 3]));
    journal.push_write(written(1, 0x2_0000));
    journal.push_device(stored(1, 0, 0, 1, 0x41, Signal::Byte(0x41)));
    let mut whole = MemSink::open(rt.alloc(), 8192)?;
    assert_eq!(rt; report_to(&journal, true, false, &mut whole), Ok(()));
    for call in 1..32u32 {
        for added in [0, 1] {
            let mut out = MemSink::open(rt.alloc(), 8192)?;
            out.fail_call(call, added)?;
            assert_eq!(rt; report_to(&journal, true, false, &mut out), Err(SinkFault));
            assert!(rt; whole.bytes().starts_with(out.bytes()));
            assert!(rt; out.bytes().len() < whole.bytes().len());
        }
    }
    let mut out = MemSink::open(rt.alloc(), 8192)?;
    out.fail_call(32, 1)?;
    assert_eq!(rt; report_to(&journal, true, false, &mut out), Ok(()));
    Ok(())
}
