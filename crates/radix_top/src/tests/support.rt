//! Images, schedules and calls for the tests.

ghost use Rattle.std.specs.Prelude.{◌≡◌, ◌<◌, None, length};

use crate::{Bench, Status, radix_call};
use bench_devices::{Console, Control, Tape};
use outer_io::{MemFiles, MemSink};
use ppc_bus::Device;
use ppc_machine::Plugged;
use std::alloc::{AllocError, Global};

/// The schedule of one thread.
pub const ONE_THREAD: &[u8] = b"threads 1\n0\nrepeat\n";

/// `addi r3,0,1`, `add r4,r3,r3`, and `b` to itself.
pub const FIRST: [u32; 3] = [0x3860_0001, 0x7c83_1a14, 0x4800_0000];

/// The file of an image of one segment of instruction words.
pub fn image(alloc: Global, entry: u64, at: u64, words: &[u32]) -> Result<Vec<u8>, AllocError>
    requires { length words.now < 100 }
{
    let size = 4 * words.len() as u64;
    let mut bytes = Vec::new(alloc);
    bytes.extend_from_slice(b"\x7fELF\x02\x01\x01\0\0\0\0\0\0\0\0\0")?;
    bytes.extend_from_slice(&[2, 0, 21, 0, 1, 0, 0, 0])?;
    bytes.extend_from_slice(&entry.to_le_bytes())?;
    bytes.extend_from_slice(&64u64.to_le_bytes())?;
    bytes.extend_from_slice(&[0; 8])?;
    bytes.extend_from_slice(&[2, 0, 0, 0, 64, 0, 56, 0, 1, 0, 0, 0, 0, 0, 0, 0])?;
    bytes.extend_from_slice(&[1, 0, 0, 0, 7, 0, 0, 0])?;
    for number in [120, at, at, size, size, 1] {
        bytes.extend_from_slice(&number.to_le_bytes())?;
    }
    for word in words {
        bytes.extend_from_slice(&word.to_le_bytes())?;
    }
    Ok(bytes)
}

/// What a call left.
#[derive(Drop)]
pub struct Outcome {
    /// What it answered.
    pub status: Status,
    /// What it printed.
    pub text: Vec<u8>,
    /// How many step rows its machine has, where it opened one.
    pub steps: Option<u32>,
    /// How many devices are in the bench.
    pub devices: usize,
}

/// The words of a command line.
pub fn words(alloc: Global, list: &[&str]) -> Result<Vec<String>, AllocError> {
    let mut words = Vec::new(alloc);
    for word in list {
        words.push(String::from_str(alloc, word)?)?;
    }
    Ok(words)
}

/// A bench with consoles at these places.
pub fn consoles(alloc: Global, places: &[u64]) -> Result<Bench, AllocError> {
    let mut devices = Vec::new(alloc);
    for at in places {
        let device: Box<dyn Device> = Box::new(alloc, Console::new())?;
        devices.push(Plugged { at: *at, device })?;
    }
    Ok(Bench {
        devices,
        machine: None,
    })
}

/// A bench with the program's devices: a console at 10000000, a control at 10001000 and an empty tape at 10002000.
pub fn bench(alloc: Global) -> Result<Bench, AllocError> {
    let mut bench = consoles(alloc, &[0x1000_0000])?;
    let device: Box<dyn Device> = Box::new(alloc, Control::new())?;
    bench.devices.push(Plugged {
        at: 0x1000_1000,
        device,
    })?;
    let device: Box<dyn Device> = Box::new(alloc, Tape::new(Vec::new(alloc)))?;
    bench.devices.push(Plugged {
        at: 0x1000_2000,
        device,
    })?;
    Ok(bench)
}

/// Calls over these files, this sink and these devices.
pub fn call_with(
    alloc: Global,
    list: &[&str],
    files: &mut MemFiles,
    out: &mut MemSink,
    bench: Bench,
) -> Result<Outcome, AllocError>
    requires { bench.machine ≡ None }
{
    let words = words(alloc, list)?;
    let mut bench = bench;
    let status = radix_call(alloc, &words, files, out, &mut bench);
    let steps = match &bench.machine {
        Some(machine) => Some(machine.journal().counts().steps),
        None => None,
    };
    Ok(Outcome {
        status,
        text: Vec::from_slice(alloc, out.bytes())?,
        steps,
        devices: bench.devices.len(),
    })
}

/// Calls over these files and this sink, with the program's devices.
pub fn call(
    alloc: Global,
    list: &[&str],
    files: &mut MemFiles,
    out: &mut MemSink,
) -> Result<Outcome, AllocError> {
    let bench = Bench {
        devices: bench(alloc)?.devices,
        machine: None,
    };
    call_with(alloc, list, files, out, bench)
}

/// Runs `run a b COUNT` over these files, with the program's devices and a sink that has ample room.
pub fn run(
    alloc: Global,
    image: &[u8],
    schedule: &[u8],
    count: &str,
) -> Result<Outcome, AllocError> {
    let mut files = MemFiles::new(alloc);
    files.add("a", image)?;
    files.add("b", schedule)?;
    let mut out = MemSink::open(alloc, 8192)?;
    call(alloc, &["run", "a", "b", count], &mut files, &mut out)
}

/// Runs `run a b COUNT --trace` on an image of these words at 10000, with the program's devices.
pub fn traced(alloc: Global, list: &[u32], count: &str) -> Result<Outcome, AllocError>
    requires { length list.now < 100 }
{
    let mut files = MemFiles::new(alloc);
    files.add("a", &image(alloc, 0x1_0000, 0x1_0000, list)?)?;
    files.add("b", ONE_THREAD)?;
    let mut out = MemSink::open(alloc, 8192)?;
    call(
        alloc,
        &["run", "a", "b", count, "--trace"],
        &mut files,
        &mut out,
    )
}
