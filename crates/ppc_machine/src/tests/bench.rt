//! Machines for the tests, and their steps.

use crate::{Machine, Plugged, PluggedOf};
use bench_devices::{Console, Control, Tape};
use elf_image::{Bytes, Guests, Image, Segment, Segments};
use journal_core::{Ended, StepEnd};
use ppc_bus::Device;
use sched_text::read_schedule;
use std::alloc::Global;
use std::test::Fail;
use thread_regs::Thread;

/// An image that begins at its only segment, of these words at this address.
pub fn image_at(alloc: Global, at: u32, words: &[u32]) -> Result<Image, Fail> {
    let at = u64::from(at);
    let mut bytes = Vec::new(alloc);
    for word in words {
        bytes.extend_from_slice(&word.to_le_bytes())?;
    }
    let size = bytes.len() as u64;
    let mut segments = Vec::new(alloc);
    segments.push(Segment::of(at, size, Bytes::of(bytes)))?;
    Ok(Image {
        entry: at,
        segments: Segments::of(segments),
    })
}

/// A console, a control and a tape of the byte 5A, whose window begins at this address.
pub fn devices_with_tape_at(alloc: Global, at: u64) -> Result<Vec<Plugged>, Fail> {
    let console: Box<dyn Device> = Box::new(alloc, Console::new())?;
    let control: Box<dyn Device> = Box::new(alloc, Control::new())?;
    let tape: Box<dyn Device> = Box::new(alloc, Tape::new(vec![in alloc; 0x5a]?))?;
    let mut devices = Vec::new(alloc);
    devices.push(PluggedOf {
        at: 0x1000_0000,
        device: console,
    })?;
    devices.push(PluggedOf {
        at: 0x1000_1000,
        device: control,
    })?;
    devices.push(PluggedOf { at, device: tape })?;
    Ok(devices)
}

/// A machine without devices that begins at these words at this address.
pub fn bare_machine(alloc: Global, at: u32, words: &[u32]) -> Result<Machine, Fail> {
    let image = image_at(alloc, at, words)?;
    let guests = Guests::new(alloc);
    let opened = Machine::open(alloc, &image, &guests, 16, 1, Vec::new(alloc), 3);
    Ok(opened.map_err(|_| "open")?)
}

/// A machine with three devices and so much RAM that begins at these words at this address.
pub fn machine_at(alloc: Global, ram_mib: u16, at: u32, words: &[u32]) -> Result<Machine, Fail> {
    let image = image_at(alloc, at, words)?;
    let guests = Guests::new(alloc);
    let devices = devices_with_tape_at(alloc, 0x1000_2000)?;
    let opened = Machine::open(alloc, &image, &guests, ram_mib, 1, devices, 9);
    Ok(opened.map_err(|_| "open")?)
}

/// Runs a machine by a schedule in which each turn is that of thread 0.
pub fn run(alloc: Global, machine: &mut Machine, n: u32) -> Result<Ended, Fail> {
    let schedule = read_schedule(alloc, b"threads 1\n0\nrepeat\n")?;
    if schedule.threads() != machine.threads().count() {
        return Err("threads".into());
    }
    Ok(machine.run(&schedule, n))
}

/// A step of thread 0.
pub fn next_step(machine: &mut Machine) -> Result<StepEnd, Fail> {
    if machine.threads().count() == 0 || machine.journal().room().is_some() {
        return Err("step".into());
    }
    Ok(machine.step(0))
}

/// The registers of thread 0.
pub fn thread(machine: &Machine) -> Result<&Thread, Fail> {
    if machine.threads().count() == 0 {
        return Err("thread".into());
    }
    Ok(machine.thread(0))
}
