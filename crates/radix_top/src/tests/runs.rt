//! Runs and their reports.

use super::support::{FIRST, ONE_THREAD, image, run};
use crate::Status;
use journal_core::{Ended, StopName};
use std::alloc::Global;
use std::process::Abort;
use std::test::Fail;

/// The report of the first program after three steps.
pub const REPORT: &str = "radix 1
end all
steps 3
tb 0000000000000003
thread 0
nia 0000000000010008 msr 9000000000001001
cr 00000000 xer 0000000000000000
lr 0000000000000000 ctr 0000000000000000 tar 0000000000000000
r00 0000000000000000 0000000000000000 0000000000000000 0000000000000001
r04 0000000000000002 0000000000000000 0000000000000000 0000000000000000
r08 0000000000000000 0000000000000000 0000000000000000 0000000000000000
r12 0000000000010000 0000000000000000 0000000000000000 0000000000000000
r16 0000000000000000 0000000000000000 0000000000000000 0000000000000000
r20 0000000000000000 0000000000000000 0000000000000000 0000000000000000
r24 0000000000000000 0000000000000000 0000000000000000 0000000000000000
r28 0000000000000000 0000000000000000 0000000000000000 0000000000000000
srr 0000000000000000 0000000000000000 hsrr 0000000000000000 0000000000000000
dar 0000000000000000 dsisr 00000000
hdar 0000000000000000 hdsisr 00000000 asdr 0000000000000000
heir 00000000 lpidr 000 pidr 00000
dec fffffffd hdec fffffffd
lpcr 0000000002500000 ptcr 0000000000000000
amr 0000000000000000 iamr 0000000000000000
sprg 0000000000000000 0000000000000000 0000000000000000 0000000000000000 hsprg 0000000000000000 0000000000000000
.
";

#[test]
fn the_first_program_prints_its_report(rt: HostRuntime) -> Result<(), Fail> {
    let file = image(rt.alloc(), 0x1_0000, 0x1_0000, &FIRST)?;
    let left = run(rt.alloc(), &file, ONE_THREAD, "3")?;
    assert_eq!(rt; left.status, Status::Done(Ended::AllRun));
    assert_eq!(rt; left.steps, Some(3));
    assert_eq!(rt; left.text.as_slice(), REPORT.as_bytes());
    Ok(())
}

#[test]
fn no_step_leaves_the_reset_registers(rt: HostRuntime) -> Result<(), Fail> {
    let file = image(rt.alloc(), 0x1_0000, 0x1_0000, &FIRST)?;
    let left = run(rt.alloc(), &file, ONE_THREAD, "0")?;
    assert_eq!(rt; left.status, Status::Done(Ended::AllRun));
    let front = "radix 1
end all
steps 0
tb 0000000000000000
thread 0
nia 0000000000010000 msr 9000000000001001
cr 00000000 xer 0000000000000000
lr 0000000000000000 ctr 0000000000000000 tar 0000000000000000
r00 0000000000000000 0000000000000000 0000000000000000 0000000000000000
r04 0000000000000000 0000000000000000 0000000000000000 0000000000000000
r08 0000000000000000 0000000000000000 0000000000000000 0000000000000000
r12 0000000000010000 0000000000000000 0000000000000000 0000000000000000
";
    assert!(rt; left.text.as_slice().starts_with(front.as_bytes()));
    Ok(())
}

#[test]
fn a_floating_load_stops_the_machine(rt: HostRuntime) -> Result<(), Fail> {
    let file = image(rt.alloc(), 0x1_0000, 0x1_0000, &[0xc800_0000])?;
    let left = run(rt.alloc(), &file, ONE_THREAD, "3")?;
    assert_eq!(rt;
        left.status,
        Status::Stopped(StopName::Unsupported, 0xc800_0000)
    );
    assert_eq!(rt; left.steps, Some(1));
    let front = "radix 1
end stopped Unsupported 00000000c8000000
steps 1
tb 0000000000000000
thread 0
nia 0000000000010000 msr 9000000000001001
";
    assert!(rt; left.text.as_slice().starts_with(front.as_bytes()));
    Ok(())
}

/// A program of one word stops at it by this name, with the word.
fn stops_at(rt: &impl Abort, alloc: Global, word: u32, name: StopName) -> Result<(), Fail> {
    let file = image(alloc, 0x1_0000, 0x1_0000, &[word])?;
    let left = run(alloc, &file, ONE_THREAD, "1")?;
    assert_eq!(rt; left.status, Status::Stopped(name, u64::from(word)));
    assert_eq!(rt; left.steps, Some(1));
    Ok(())
}

#[test]
fn a_word_that_is_no_form_or_is_not_executed_stops_by_name(rt: HostRuntime) -> Result<(), Fail> {
    let alloc = rt.alloc();
    stops_at(&rt, alloc, 0x8463_0000, StopName::InvalidForm)?;
    stops_at(&rt, alloc, 0x4e00_0420, StopName::InvalidForm)?;
    stops_at(&rt, alloc, 0x7c00_046c, StopName::Unsupported)
}

#[test]
fn a_fetch_after_the_end_of_ram_stops_the_machine(rt: HostRuntime) -> Result<(), Fail> {
    let file = image(rt.alloc(), 0xff_fffc, 0xff_fffc, &[0x3860_0001])?;
    let left = run(rt.alloc(), &file, ONE_THREAD, "9")?;
    assert_eq!(rt;
        left.status,
        Status::Stopped(StopName::NoStorage, 0x100_0000)
    );
    let front = "radix 1
end stopped NoStorage 0000000001000000
steps 2
tb 0000000000000001
thread 0
nia 0000000001000000 msr 9000000000001001
";
    assert!(rt; left.text.as_slice().starts_with(front.as_bytes()));
    Ok(())
}

#[test]
fn the_four_highest_bits_of_an_address_are_ignored(rt: HostRuntime) -> Result<(), Fail> {
    let file = image(rt.alloc(), 0xf000_0000_0001_0000, 0x1_0000, &FIRST)?;
    let left = run(rt.alloc(), &file, ONE_THREAD, "3")?;
    assert_eq!(rt; left.status, Status::Done(Ended::AllRun));
    let front = "radix 1
end all
steps 3
tb 0000000000000003
thread 0
nia f000000000010008 msr 9000000000001001
";
    assert!(rt; left.text.as_slice().starts_with(front.as_bytes()));
    Ok(())
}

#[test]
fn a_branch_below_address_0_goes_round(rt: HostRuntime) -> Result<(), Fail> {
    let file = image(rt.alloc(), 0, 0, &[0x4bff_fffc])?;
    let left = run(rt.alloc(), &file, ONE_THREAD, "9")?;
    let status = Status::Stopped(StopName::NoStorage, 0x0fff_ffff_ffff_fffc);
    assert_eq!(rt; left.status, status);
    let front = "radix 1
end stopped NoStorage 0ffffffffffffffc
steps 2
tb 0000000000000001
thread 0
nia fffffffffffffffc msr 9000000000001001
";
    assert!(rt; left.text.as_slice().starts_with(front.as_bytes()));
    Ok(())
}
