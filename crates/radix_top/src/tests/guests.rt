//! Guests: files that a run loads as they are.

use super::runs::REPORT;
use super::support::{FIRST, ONE_THREAD, Outcome, bench, call, image, words};
use crate::{Bench, Status, radix_call};
use elf_image::Span;
use journal_core::Ended;
use outer_io::{MemFiles, MemSink};
use std::alloc::{AllocError, Global};
use std::test::Fail;

/// The files of the first program, four bytes `g`, four other bytes `a@b`, and an empty file `e`.
fn guest_files(alloc: Global) -> Result<MemFiles, AllocError> {
    let file = image(alloc, 0x1_0000, 0x1_0000, &FIRST)?;
    let mut files = MemFiles::new(alloc);
    files.add("a", &file)?;
    files.add("b", ONE_THREAD)?;
    files.add("g", &[1, 2, 3, 4])?;
    files.add("a@b", &[5, 6, 7, 8])?;
    files.add("e", &[])?;
    Ok(files)
}

/// Runs the first program for three steps with this guest.
fn run_with(alloc: Global, guest: &str) -> Result<Outcome, AllocError> {
    let mut files = guest_files(alloc)?;
    let mut out = MemSink::open(alloc, 8192)?;
    let line = ["run", "a", "b", "3", "--guest", guest];
    call(alloc, &line, &mut files, &mut out)
}

/// The number of the four bytes at a real address of the bench's machine.
fn number_at(bench: &Bench, at: u64) -> Option<u64> {
    match &bench.machine {
        Some(machine) => machine.memory().load(at, 4).ok(),
        None => None,
    }
}

#[test]
fn guests_stand_in_memory_at_their_places(rt: HostRuntime) -> Result<(), Fail> {
    let mut files = guest_files(rt.alloc())?;
    let mut out = MemSink::open(rt.alloc(), 8192)?;
    let line = [
        "run", "a", "b", "3", "--guest", "g@20000", "--guest", "a@b@10",
    ];
    let list = words(rt.alloc(), &line)?;
    let mut bench = Bench {
        devices: bench(rt.alloc())?.devices,
        machine: None,
    };
    let status = radix_call(rt.alloc(), &list, &mut files, &mut out, &mut bench);
    assert_eq!(rt; status, Status::Done(Ended::AllRun));
    assert_eq!(rt; out.bytes(), REPORT.as_bytes());
    assert_eq!(rt; number_at(&bench, 0x2_0000), Some(0x0403_0201));
    assert_eq!(rt; number_at(&bench, 0x10), Some(0x0807_0605));
    Ok(())
}

/// The run was refused so, printed this line, and left the bench as it was.
fn is_refused(left: &Outcome, status: Status, line: &str) -> bool {
    left.status == status
        && left.steps.is_none()
        && left.devices == 3
        && left.text.as_slice() == line.as_bytes()
}

#[test]
fn guests_that_have_no_place_are_refused(rt: HostRuntime) -> Result<(), Fail> {
    let last = 0xffff_ffff_ffff_ffff;
    let places = [
        (
            "g@10008",
            (0x1_0008u64, 0x1_000cu64),
            (0x1_0000u64, 0x1_000cu64),
            "fault place 0000000000010008 000000000001000c 0000000000010000 000000000001000c\n",
        ),
        (
            "g@FFFFFFFFFFFFFFFF",
            (last, last),
            (0, 0x100_0000),
            "fault place ffffffffffffffff ffffffffffffffff 0000000000000000 0000000001000000\n",
        ),
    ];
    for (guest, range, other, line) in places {
        let range = Span {
            from: range.0,
            to: range.1,
        };
        let other = Span {
            from: other.0,
            to: other.1,
        };
        let left = run_with(rt.alloc(), guest)?;
        assert!(rt; is_refused(&left, Status::BadPlace(range, other), line));
    }
    Ok(())
}

#[test]
fn an_image_behind_the_end_of_ram_is_refused(rt: HostRuntime) -> Result<(), Fail> {
    let mut files = guest_files(rt.alloc())?;
    let file = image(rt.alloc(), 0, 0xff_fffc, &[0, 0])?;
    files.add("a", &file)?;
    let mut out = MemSink::open(rt.alloc(), 8192)?;
    let left = call(rt.alloc(), &["run", "a", "b", "3"], &mut files, &mut out)?;
    let range = Span {
        from: 0xff_fffc,
        to: 0x100_0004,
    };
    let ram = Span {
        from: 0,
        to: 0x100_0000,
    };
    let line = "fault place 0000000000fffffc 0000000001000004 0000000000000000 0000000001000000\n";
    assert!(rt; is_refused(&left, Status::BadPlace(range, ram), line));
    Ok(())
}

#[test]
fn an_empty_guest_has_its_place_everywhere(rt: HostRuntime) -> Result<(), Fail> {
    for guest in ["e@10008", "e@FFFFFFFFFFFFFFFF"] {
        let left = run_with(rt.alloc(), guest)?;
        assert_eq!(rt; left.status, Status::Done(Ended::AllRun));
        assert_eq!(rt; left.text.as_slice(), REPORT.as_bytes());
    }
    Ok(())
}

#[test]
fn a_missing_guest_is_a_failing_read_of_its_word(rt: HostRuntime) -> Result<(), Fail> {
    let left = run_with(rt.alloc(), "x@20000")?;
    assert!(rt; is_refused(&left, Status::ReadFault(5), "fault read 5\n"));
    Ok(())
}
