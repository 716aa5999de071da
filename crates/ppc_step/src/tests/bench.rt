//! Threads, RAM and a device, and one step over them.

use crate::{Parts, Stepped, step};
use bench_devices::Control;
use journal_core::{Journal, StepRow};
use ppc_bus::{Bus, Device};
use real_store::Store;
use std::alloc::Global;
use std::test::Fail;
use thread_regs::{Thread, Threads};
use translator::Plain;

/// The address of the instruction.
pub const HERE: u64 = 0x1_0000;

/// The parts of a step, and how it ended.
#[derive(Drop)]
pub struct Left {
    pub parts: Parts<Plain, Bus>,
    pub end: Stepped,
}

/// RAM of 1 MiB with a word at an address.
pub fn ram_with(alloc: Global, at: u64, word: u32) -> Result<Store, Fail> {
    let mut store = Store::open(alloc, 0x10_0000)?;
    store.place(at, &word.to_le_bytes()).map_err(|_| "word")?;
    Ok(store)
}

/// One step of a thread with an empty journal, over a control at 10000000.
#[tactic(auto, unfolding(journal_core::specs::Steps::InOrder))]
pub fn step_over(alloc: Global, threads: Threads, number: u8, store: Store) -> Result<Left, Fail> {
    let mut bus = Bus::new();
    let control: Box<dyn Device> = Box::new(alloc, Control::new())?;
    bus.plug(0x1000_0000, control).map_err(|_| "control")?;
    let journal = Journal::open(alloc, 1)?;
    if number >= threads.count() {
        return Err("thread".into());
    }
    let mut parts = Parts {
        threads,
        store,
        bus,
        journal,
        translator: Plain::new(),
    };
    let end = step(&mut parts, number);
    Ok(Left { parts, end })
}

impl Left {
    /// The row of the step.
    pub fn row(&self) -> Result<StepRow, Fail> {
        match self.parts.journal.step(0) {
            Some(row) if self.parts.journal.counts().steps == 1 => Ok(*row),
            _ => Err("row".into()),
        }
    }

    /// The registers of a thread after the step.
    pub fn thread(&self, number: u8) -> Result<&Thread, Fail> {
        if number < self.parts.threads.count() {
            Ok(self.parts.threads.get(number))
        } else {
            Err("thread".into())
        }
    }
}
