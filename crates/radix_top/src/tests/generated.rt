//! The generated hypervisor with two guests, as it is and changed.

use super::support::{ONE_THREAD, bench, words};
use crate::{Bench, Status, radix_call};
use elf_image::write_elf;
use gen_image::generate;
use journal_core::{Ended, StopName};
use outer_io::{MemFiles, MemSink};
use std::alloc::Global;
use std::process::Abort;
use std::test::Fail;

/// Where each segment of the file lies: its real address, how many bytes it has, and where they stand in the file.
const SEGMENTS: [(u64, u64, u64); 7] = [
    (0xc00, 44, 456),
    (0x1_0000, 68, 500),
    (0x2_0000, 48, 568),
    (0x10_0000, 0x3000, 616),
    (0x11_0000, 0x6000, 12_904),
    (0x20_0000, 0x3000, 37_480),
    (0x21_0000, 0x6000, 49_768),
];

/// The file of the image for seed 1 and size 1.
pub fn fixture(rt: &(impl Abort + AllocGlobal)) -> Result<Vec<u8>, Fail> {
    let image = generate(rt.alloc(), 1, 1).expect(rt, "the size is from 1 to 64");
    let file = write_elf(rt.alloc(), &image).expect(rt, "the image has seven segments");
    Ok(Vec::from_slice(rt.alloc(), file.as_slice())?)
}

/// Where the byte at a real address stands in the file of the fixture.
fn place_of(at: u64) -> Option<u64> {
    for (first, size, place) in SEGMENTS {
        if let Some(offset) = at.checked_sub(first)
            && offset < size
        {
            return place.checked_add(offset);
        }
    }
    None
}

/// Changes the bytes at a real address of the fixture; whether all of them stand there.
fn change(file: &mut Vec<u8>, at: u64, bytes: &[u8]) -> bool {
    for (i, byte) in bytes.iter().enumerate() {
        let Some(place) = at.checked_add(i as u64).and_then(place_of) else {
            return false;
        };
        match file.get_mut(place as usize) {
            Some(old) => *old = *byte,
            None => return false,
        }
    }
    true
}

/// Changes the word at a real address of the fixture.
pub fn change_word(file: &mut Vec<u8>, at: u64, word: u32) -> bool {
    change(file, at, &word.to_le_bytes())
}

/// Changes the big-endian doubleword at a real address of the fixture, an entry of a table.
pub fn change_entry(file: &mut Vec<u8>, at: u64, entry: u64) -> bool {
    change(file, at, &entry.to_be_bytes())
}

/// Runs a file for 53 steps. Its status, how many step rows there are, and the address and the word of row 16.
fn run(alloc: Global, file: &[u8]) -> Result<(Status, u32, Option<(u64, Option<u32>)>), Fail> {
    let mut files = MemFiles::new(alloc);
    files.add("a", file)?;
    files.add("b", ONE_THREAD)?;
    let mut out = MemSink::open(alloc, 8192)?;
    let list = words(alloc, &["run", "a", "b", "53"])?;
    let mut bench = Bench {
        devices: bench(alloc)?.devices,
        machine: None,
    };
    let status = radix_call(alloc, &list, &mut files, &mut out, &mut bench);
    let mut steps = 0;
    let mut last = None;
    if let Some(machine) = &bench.machine {
        steps = machine.journal().counts().steps;
        if let Some(row) = machine.journal().step(16) {
            last = Some((row.cia, row.word));
        }
    }
    Ok((status, steps, last))
}

#[test]
fn the_hypervisor_enters_its_first_guest_in_seventeen_steps(rt: HostRuntime) -> Result<(), Fail> {
    let file = fixture(&rt)?;
    let (status, steps, last) = run(rt.alloc(), &file)?;
    assert_eq!(rt; file.len(), 74_344);
    assert_eq!(rt; status, Status::Stopped(StopName::Unsupported, 0x7e81_c264));
    assert_eq!(rt; steps, 26);
    assert_eq!(rt; last, Some((0x1_0040, Some(0x4c00_0224))));
    Ok(())
}

#[test]
fn the_fixture_is_changed_by_real_addresses(rt: HostRuntime) -> Result<(), Fail> {
    let mut file = fixture(&rt)?;
    assert!(rt; change_word(&mut file, 0x1_0040, 0x4800_0000));
    assert!(rt; change_entry(&mut file, 0x11_4000, 0));
    assert!(rt; !change_entry(&mut file, 0x11_6000, 0));
    let (status, steps, _) = run(rt.alloc(), &file)?;
    assert_eq!(rt; status, Status::Done(Ended::AllRun));
    assert_eq!(rt; steps, 53);
    Ok(())
}
