//! Faults of the outside.

use super::runs::REPORT;
use super::support::{FIRST, ONE_THREAD, bench, call, image, words};
use crate::{Bench, Status, radix_call};
use journal_core::Ended;
use outer_io::{MemFiles, MemSink, SureFiles, SureSink};
use std::alloc::{AllocError, Global};
use std::test::Fail;

/// The words of the first program's run.
const RUN: [&str; 4] = ["run", "a", "b", "3"];

/// The files of the first program.
fn first_files(alloc: Global) -> Result<MemFiles, AllocError> {
    let file = image(alloc, 0x1_0000, 0x1_0000, &FIRST)?;
    let mut files = MemFiles::new(alloc);
    files.add("a", &file)?;
    files.add("b", ONE_THREAD)?;
    Ok(files)
}

#[test]
fn a_failing_read_is_told_by_its_word(rt: HostRuntime) -> Result<(), Fail> {
    for (number, status, line) in [
        (1u32, Status::ReadFault(1), "fault read 1\n"),
        (2, Status::ReadFault(2), "fault read 2\n"),
    ] {
        let mut files = first_files(rt.alloc())?;
        files.fail_call(number)?;
        let mut out = MemSink::open(rt.alloc(), 8192)?;
        let left = call(rt.alloc(), &RUN, &mut files, &mut out)?;
        assert_eq!(rt; left.status, status);
        assert_eq!(rt; left.steps, None);
        assert_eq!(rt; left.devices, 3);
        assert_eq!(rt; left.text.as_slice(), line.as_bytes());
    }
    Ok(())
}

#[test]
fn a_missing_file_is_a_failing_read(rt: HostRuntime) -> Result<(), Fail> {
    let mut files = first_files(rt.alloc())?;
    let mut out = MemSink::open(rt.alloc(), 8192)?;
    let left = call(rt.alloc(), &["run", "a", "c", "3"], &mut files, &mut out)?;
    assert_eq!(rt; left.status, Status::ReadFault(2));
    Ok(())
}

#[test]
fn a_file_above_64_mib_is_too_long(rt: HostRuntime) -> Result<(), Fail> {
    let mut files = first_files(rt.alloc())?;
    let long = vec![in rt.alloc(); 0u8; 67_108_865]?;
    files.add("a", &long)?;
    let mut out = MemSink::open(rt.alloc(), 8192)?;
    let left = call(rt.alloc(), &RUN, &mut files, &mut out)?;
    assert_eq!(rt; left.status, Status::TooLong(1));
    assert_eq!(rt; left.text.as_slice(), b"fault long 1\n".as_slice());
    let mut files = first_files(rt.alloc())?;
    files.add("g", &long)?;
    let mut out = MemSink::open(rt.alloc(), 8192)?;
    let line = ["run", "a", "b", "3", "--guest", "g@20000"];
    let left = call(rt.alloc(), &line, &mut files, &mut out)?;
    assert_eq!(rt; left.status, Status::TooLong(5));
    assert_eq!(rt; left.text.as_slice(), b"fault long 5\n".as_slice());
    Ok(())
}

#[test]
fn a_failing_put_leaves_a_front_and_the_whole_run(rt: HostRuntime) -> Result<(), Fail> {
    for (number, added) in [(1u32, 0usize), (2, 0), (2, 1), (13, 1), (25, 0), (25, 1)] {
        let mut files = first_files(rt.alloc())?;
        let mut out = MemSink::open(rt.alloc(), 8192)?;
        out.fail_call(number, added)?;
        let left = call(rt.alloc(), &RUN, &mut files, &mut out)?;
        assert_eq!(rt; left.status, Status::WriteFault);
        assert_eq!(rt; left.steps, Some(3));
        assert_eq!(rt; left.devices, 0);
        assert!(rt; left.text.len() < REPORT.len());
        assert!(rt; REPORT.as_bytes().starts_with(left.text.as_slice()));
    }
    Ok(())
}

#[test]
fn a_refusal_that_cannot_be_put_is_a_write_fault(rt: HostRuntime) -> Result<(), Fail> {
    let mut files = MemFiles::new(rt.alloc());
    let mut out = MemSink::open(rt.alloc(), 8192)?;
    out.fail_call(1, 6)?;
    let left = call(rt.alloc(), &["run"], &mut files, &mut out)?;
    assert_eq!(rt; left.status, Status::WriteFault);
    assert_eq!(rt; left.steps, None);
    assert_eq!(rt; left.text.as_slice(), b"fault ".as_slice());
    Ok(())
}

#[test]
fn a_sure_outside_has_no_fault(rt: HostRuntime) -> Result<(), Fail> {
    let file = image(rt.alloc(), 0x1_0000, 0x1_0000, &FIRST)?;
    let mut files = SureFiles::new(rt.alloc());
    files.add("a", &file)?;
    files.add("b", ONE_THREAD)?;
    let list = words(rt.alloc(), &RUN)?;
    let mut out = SureSink::new();
    let mut bench = Bench {
        devices: bench(rt.alloc())?.devices,
        machine: None,
    };
    let status = radix_call(rt.alloc(), &list, &mut files, &mut out, &mut bench);
    assert_eq!(rt; status, Status::Done(Ended::AllRun));
    assert_eq!(rt; out.count(), REPORT.len() as u64);
    Ok(())
}
