//! A thread, RAM and the three devices.

ghost use Rattle.std.specs.Prelude.{◌≡◌, IfSome};
ghost use Rattle.ppc_ops.specs.Forms.{IsForm};
ghost use Rattle.storage_ops.specs.Deeds as deeds;

use crate::{StorageOut, access, access_form};
use bench_devices::{Console, Control, Tape};
use journal_core::{Journal, Signal};
use ppc_bus::{Bus, Device};
use ppc_ops::Insn;
use real_store::Store;
use std::alloc::Global;
use std::test::Fail;
use thread_regs::Thread;
use translator::Plain;
use word_decoder::{Decoded, decode};

/// The number of the thread.
pub const NUMBER: u8 = 2;

/// A thread in hypervisor state without relocation, RAM of 16 MiB, and the console, the control and the tape at 10000000,
/// 10001000 and 10002000.
#[derive(Drop)]
pub struct Bench {
    pub thread: Thread,
    pub store: Store,
    pub bus: Bus,
}

/// What an access answered, and its rows.
#[derive(Drop)]
pub struct Left {
    pub out: StorageOut,
    pub journal: Journal,
}

fn is_storage(insn: &Insn) -> bool
    ensures { result ≡ deeds.is_storage insn.now }
{
    match *insn {
        Insn::Access { .. } | Insn::Block { .. } => true,
        Insn::AccessX { op, .. } => match access_form(op) {
            Some(form) => !form.reserved,
            None => true,
        },
        _ => false,
    }
}

/// The form of storage that a word is.
fn form_of(word: u32) -> Option<Insn>
    ensures form { IfSome result (λ insn. IsForm insn) }
    ensures storage { IfSome result (λ insn. deeds.IsStorage insn) }
{
    match decode(word) {
        Decoded::Form(insn) if is_storage(&insn) => Some(insn),
        _ => None,
    }
}

impl Bench {
    pub fn open(alloc: Global) -> Result<Bench, Fail> {
        let mut bus = Bus::new();
        let console: Box<dyn Device> = Box::new(alloc, Console::new())?;
        let control: Box<dyn Device> = Box::new(alloc, Control::new())?;
        let bytes = Vec::from_slice(alloc, &[0x11u8, 0x22])?;
        let tape: Box<dyn Device> = Box::new(alloc, Tape::new(bytes))?;
        bus.plug(0x1000_0000, console).map_err(|_| "console")?;
        bus.plug(0x1000_1000, control).map_err(|_| "control")?;
        bus.plug(0x1000_2000, tape).map_err(|_| "tape")?;
        Ok(Bench {
            thread: Thread::reset(NUMBER, 0x1_0000),
            store: Store::open(alloc, 0x100_0000)?,
            bus,
        })
    }

    /// The access of a word, with a journal of its own.
    pub fn run(&mut self, alloc: Global, word: u32) -> Result<Left, Fail> {
        let insn = form_of(word).ok_or("no form of storage")?;
        let mut journal = Journal::open(alloc, 1)?;
        let out = access(
            &insn,
            &mut self.thread,
            NUMBER,
            &mut Plain::new(),
            &mut self.store,
            &mut self.bus,
            &mut journal,
            0,
        );
        Ok(Left { out, journal })
    }
}

impl Left {
    /// The place, the size, the old and the new number of a write row of this thread in the first step.
    pub fn write(&self, i: u32) -> Option<(u64, u8, u64, u64)> {
        match self.journal.write(i) {
            Some(row) if row.step == 0 && row.thread == NUMBER => {
                Some((row.at, row.size, row.old, row.new))
            }
            _ => None,
        }
    }

    /// The slot, the offset, the size, whether it is a store, the value and the signal of the one device row.
    pub fn device(&self) -> Option<(u8, u32, u8, bool, u64, Signal)> {
        match self.journal.device(0) {
            Some(row) if self.journal.counts().devices == 1 => Some((
                row.slot, row.offset, row.size, row.store, row.value, row.signal,
            )),
            _ => None,
        }
    }
}
