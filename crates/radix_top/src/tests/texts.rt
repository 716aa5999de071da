//! Sources that are assembled, and images that are listed.

ghost use Rattle.std.specs.Prelude.{◌<◌, length};

use super::runs::REPORT;
use super::support::{FIRST, ONE_THREAD, Outcome, bench, call, image, run, words};
use crate::{Status, radix_call};
use asm_places::AsmKind;
use elf_image::ElfFault;
use journal_core::Ended;
use outer_io::{MemFiles, MemSink, SureFiles, SureSink};
use std::alloc::{AllocError, Global};
use std::test::Fail;

/// The source of the first program.
const SOURCE: &[u8] = b".seg 0x10000
e: addi r3,0,1
add r4,r3,r3
b .+0
.entry e
";

/// The listing of the first program.
const LISTING: &str = "0000000000010000 38600001 addi r3,0,1
0000000000010004 7c831a14 add r4,r3,r3
0000000000010008 48000000 b .+0
";

/// Calls a command of one file, which is this one.
fn call_on(alloc: Global, command: &str, file: &[u8]) -> Result<Outcome, AllocError> {
    let mut files = MemFiles::new(alloc);
    files.add("a", file)?;
    let mut out = MemSink::open(alloc, 8192)?;
    call(alloc, &[command, "a"], &mut files, &mut out)
}

/// The call has this status and this text, and left the bench as it was.
fn leaves(left: &Outcome, status: Status, text: &[u8]) -> bool {
    left.status == status
        && left.steps.is_none()
        && left.devices == 3
        && left.text.as_slice() == text
}

/// The file of an image of segments at these places, which have the same 8 bytes, with these flags.
fn image_at(alloc: Global, flags: u8, places: &[u64]) -> Result<Vec<u8>, AllocError>
    requires { length places.now < 3 }
{
    let count = places.len();
    let behind = 64 + 56 * count as u64;
    let mut bytes = Vec::new(alloc);
    bytes.extend_from_slice(b"\x7fELF\x02\x01\x01\0\0\0\0\0\0\0\0\0")?;
    bytes.extend_from_slice(&[2, 0, 21, 0, 1, 0, 0, 0])?;
    bytes.extend_from_slice(&0x1_0000u64.to_le_bytes())?;
    bytes.extend_from_slice(&64u64.to_le_bytes())?;
    bytes.extend_from_slice(&[0; 8])?;
    bytes.extend_from_slice(&[
        flags,
        0,
        0,
        0,
        64,
        0,
        56,
        0,
        count as u8,
        0,
        0,
        0,
        0,
        0,
        0,
        0,
    ])?;
    for at in places {
        bytes.extend_from_slice(&[1, 0, 0, 0, 7, 0, 0, 0])?;
        for number in [behind, *at, *at, 8, 8, 1] {
            bytes.extend_from_slice(&number.to_le_bytes())?;
        }
    }
    bytes.extend_from_slice(&[1, 0, 0x60, 0x38, 0x14, 0x1a, 0x83, 0x7c])?;
    Ok(bytes)
}

#[test]
fn the_first_source_is_the_first_image(rt: HostRuntime) -> Result<(), Fail> {
    let file = image(rt.alloc(), 0x1_0000, 0x1_0000, &FIRST)?;
    let left = call_on(rt.alloc(), "asm", SOURCE)?;
    assert_eq!(rt; left.text.len(), 132);
    assert!(rt; leaves(&left, Status::Done(Ended::AllRun), &file));
    Ok(())
}

#[test]
fn what_is_assembled_runs_and_is_listed(rt: HostRuntime) -> Result<(), Fail> {
    let file = call_on(rt.alloc(), "asm", SOURCE)?.text;
    let left = run(rt.alloc(), &file, ONE_THREAD, "3")?;
    assert_eq!(rt; left.text.as_slice(), REPORT.as_bytes());
    let left = call_on(rt.alloc(), "dis", &file)?;
    assert!(rt; leaves(&left, Status::Done(Ended::AllRun), LISTING.as_bytes()));
    Ok(())
}

#[test]
fn a_branch_to_a_label_is_listed_with_its_distance(rt: HostRuntime) -> Result<(), Fail> {
    let file = call_on(rt.alloc(), "asm", b".seg 0\na: b a\n.entry a\n")?.text;
    let left = call_on(rt.alloc(), "dis", &file)?;
    let line = b"0000000000000000 48000000 b .+0\n";
    assert!(rt; leaves(&left, Status::Done(Ended::AllRun), line));
    Ok(())
}

#[test]
fn wrong_sources_are_refused_by_their_lines(rt: HostRuntime) -> Result<(), Fail> {
    let sources: [(&[u8], Status, &str); 2] = [
        (
            b".seg 0\naddi r3,0,65536\n",
            Status::BadAsm(2, AsmKind::Range),
            "fault asm 2 Range\n",
        ),
        (
            b".seg 0x1000\n.word 1\n.seg 0x1002\n.word 2\n.entry a\n",
            Status::BadAsm(3, AsmKind::Overlap),
            "fault asm 3 Overlap\n",
        ),
    ];
    for (source, status, line) in sources {
        let left = call_on(rt.alloc(), "asm", source)?;
        assert!(rt; leaves(&left, status, line.as_bytes()));
    }
    Ok(())
}

/// The listing of this file is refused for this reason, and prints this line.
fn is_no_image(
    alloc: Global,
    file: &[u8],
    fault: ElfFault,
    line: &str,
) -> Result<bool, AllocError> {
    let left = call_on(alloc, "dis", file)?;
    Ok(leaves(&left, Status::BadImage(fault), line.as_bytes()))
}

#[test]
fn files_that_are_no_image_are_not_listed(rt: HostRuntime) -> Result<(), Fail> {
    let alloc = rt.alloc();
    let whole = image(alloc, 0x1_0000, 0x1_0000, &FIRST)?;
    let front = &whole[..whole.len().min(63)];
    assert!(rt; is_no_image(alloc, front, ElfFault::Short, "fault image Short\n")?);
    let file = image_at(alloc, 1, &[0x1_0000])?;
    assert!(rt; is_no_image(alloc, &file, ElfFault::Abi, "fault image Abi\n")?);
    let file = image_at(alloc, 2, &[0x1_0000, 0x1_0004])?;
    let fault = ElfFault::Overlap(0, 1);
    assert!(rt; is_no_image(alloc, &file, fault, "fault image Overlap 0 1\n")?);
    Ok(())
}

#[test]
fn a_missing_source_is_a_failing_read(rt: HostRuntime) -> Result<(), Fail> {
    let mut files = MemFiles::new(rt.alloc());
    let mut out = MemSink::open(rt.alloc(), 8192)?;
    let left = call(rt.alloc(), &["asm", "a"], &mut files, &mut out)?;
    assert!(rt; leaves(&left, Status::ReadFault(1), b"fault read 1\n"));
    Ok(())
}

/// Calls a command of one file, which is this one, with a sink whose put of this number fails after so many bytes.
fn call_cut(
    alloc: Global,
    command: &str,
    file: &[u8],
    put: u32,
    added: usize,
) -> Result<Outcome, AllocError> {
    let mut files = MemFiles::new(alloc);
    files.add("a", file)?;
    let mut out = MemSink::open(alloc, 8192)?;
    out.fail_call(put, added)?;
    call(alloc, &[command, "a"], &mut files, &mut out)
}

#[test]
fn a_failing_put_leaves_a_front_and_the_bench(rt: HostRuntime) -> Result<(), Fail> {
    let file = image(rt.alloc(), 0x1_0000, 0x1_0000, &FIRST)?;
    let left = call_cut(rt.alloc(), "asm", SOURCE, 1, 5)?;
    assert!(rt; leaves(&left, Status::WriteFault, b"\x7fELF\x02"));
    let left = call_cut(rt.alloc(), "dis", &file, 2, 3)?;
    let front = b"0000000000010000 38600001 addi r3,0,1\n000";
    assert!(rt; leaves(&left, Status::WriteFault, front));
    Ok(())
}

#[test]
fn a_sure_outside_takes_the_whole_image(rt: HostRuntime) -> Result<(), Fail> {
    let mut files = SureFiles::new(rt.alloc());
    files.add("a", SOURCE)?;
    let list = words(rt.alloc(), &["asm", "a"])?;
    let mut out = SureSink::new();
    let mut bench = bench(rt.alloc())?;
    bench.machine = None;
    let status = radix_call(rt.alloc(), &list, &mut files, &mut out, &mut bench);
    assert_eq!(rt; status, Status::Done(Ended::AllRun));
    assert_eq!(rt; out.count(), 132);
    assert_eq!(rt; bench.devices.len(), 3);
    Ok(())
}
