//! Machines and their runs.

ghost use Rattle.std.specs.Prelude.{◌≡◌, IfOk, IfErr, Some, None};
ghost use Rattle.journal_core.specs.Ends.{ended_of, stop_of};

use crate::opening::{OpenFaultOf, OpenReason, refusal_for, take_memory};
use crate::plugging::{Measure, PluggedOf, plug_all};
use elf_image::{Guests, Image};
use journal_core::{Ended, Journal, StepEnd, StopName};
use ppc_bus::{BusOf, Device};
use ppc_step::Parts;
use real_store::Store;
use sched_text::Schedule;
use std::alloc::{AllocError, Global};
use std::marker::Model;
use thread_regs::{Thread, Threads};
use translator::Plain;

/// A machine with its devices and the journal of all its steps. Contracts see its entry, the windows of its devices as they were
/// plugged, its threads, RAM, the slots of its bus and the journal.
#[derive(Drop)]
pub struct MachineOf<D> {
    entry: u64,
    measured: BusOf<Measure>,
    parts: Parts<Plain, BusOf<D>>,
}

impl<D> Model for MachineOf<D> {
    ghost use Rattle.ppc_machine.specs.MachineView.{MachineView, IsKept};

    ghost Value = { MachineView D };

    ghost use Rattle.ppc_machine.specs.Inside.{held_of};

    ghost view = { held_of };

    ghost invariant = { λ m. IsKept (held_of m) };
}

/// A machine of boxed devices.
pub type Machine = MachineOf<Box<dyn Device>>;

/// The stop that the last step is, if it is one.
#[tactic(auto, unfolding(journal_core::specs::Ends::stop_of))]
fn last_stop(journal: &Journal) -> Option<(StopName, u64)>
    ensures { result ≡ stop_of journal.now.rows.steps }
{
    let steps = journal.counts().steps;
    if steps == 0 {
        return None;
    }
    match journal.step(steps - 1) {
        None => None,
        Some(row) => match row.end {
            StepEnd::Ran | StepEnd::Took(_) => None,
            StepEnd::Stopped(name, value) => Some((name, value)),
        },
    }
}

/// Whose step is next in a run of `n` steps, or how it ends with this journal.
#[tactic(auto, unfolding(journal_core::specs::Ends::ended_of))]
fn next_at(journal: &Journal, n: u32, next: Option<u8>) -> Result<u8, Ended>
    ensures goes { IfOk result (λ t. (ended_of n next journal.now.reserved journal.now.rows ≡ None) × (next ≡ Some t)) }
    ensures ends { IfErr result (λ e. ended_of n next journal.now.reserved journal.now.rows ≡ Some e) }
{
    if let Some((name, value)) = last_stop(journal) {
        return Err(Ended::Stopped(name, value));
    }
    if journal.counts().steps >= n {
        return Err(Ended::AllRun);
    }
    match next {
        None => Err(Ended::ScheduleEnd),
        Some(t) => match journal.room() {
            Some((kind, count)) => Err(Ended::JournalFull(kind, count)),
            None => Ok(t),
        },
    }
}

impl<D: Device> MachineOf<D> {
    ghost use Rattle.std.specs.Prelude.{◌≡◌, ◌<◌, ◌≤◌, ◌*◌, length, IfOk, IfErr, None};
    ghost use Rattle.journal_core.specs.Room.{HasRoom};
    ghost use Rattle.journal_core.specs.Ends.{IsRunning};
    ghost use Rattle.thread_regs.specs.Registers.{thread_at};
    ghost use Rattle.ppc_bus.specs.Answers.{DeviceAnswers};
    ghost use Rattle.ppc_step.specs.Soundness.{IsSound};
    ghost use Rattle.ppc_machine.specs.MachineView.{now_of, start_of, IsLawful, IsChosen};
    ghost use Rattle.ppc_machine.specs.Plugging.{windows_for};
    ghost use Rattle.ppc_machine.specs.Opening as opening;
    ghost use Rattle.ppc_machine.specs.Machines.{StepsOn, IsStopped, RunsTo};

    /// A machine with an image and guests in so many MiB of RAM, which is all zero elsewhere, its threads in their reset state at
    /// the image's entry, its devices in slots from 0 on, and an empty journal for so many steps. All memory that it ever needs is
    /// taken here. A refusal hands all devices back, as they were.
    pub fn open(
        alloc: Global,
        image: &Image,
        guests: &Guests,
        ram_mib: u16,
        threads: u8,
        devices: Vec<PluggedOf<D>>,
        steps: u32,
    ) -> Result<MachineOf<D>, OpenFaultOf<D>>
        ensures ok { IfOk result (λ m. (opening.refusal_for image.now guests.now ram_mib threads (windows_for D.window_size devices.items) steps ≡ None) × (m ≡ opening.opened D.window_size image.now guests.now ram_mib threads devices.items steps)) }
        ensures err { IfErr result (λ fault. (fault.devices ≡ devices) × opening.IsReason (opening.refusal_for image.now guests.now ram_mib threads (windows_for D.window_size devices.items) steps) fault.reason) }
    {
        let mut measured = BusOf::new();
        let slice = devices.as_slice();
        if let Some(reason) = refusal_for(
            image,
            guests,
            ram_mib,
            threads,
            slice,
            steps,
            &mut measured,
        ) {
            return Err(OpenFaultOf { devices, reason });
        }
        let (store, journal) = match take_memory(alloc, image, guests, ram_mib, steps) {
            Ok(memory) => memory,
            Err(AllocError) => {
                let reason = OpenReason::Memory;
                return Err(OpenFaultOf { devices, reason });
            }
        };
        Ok(MachineOf {
            entry: image.entry,
            measured,
            parts: Parts {
                threads: Threads::reset(threads, image.entry),
                store,
                bus: plug_all(devices),
                journal,
                translator: Plain::new(),
            },
        })
    }

    /// The journal of all steps.
    pub fn journal(&self) -> &Journal
        ensures { result.now ≡ self.now.journal }
    {
        &self.parts.journal
    }

    /// The registers of all threads, of which each is sound, with one time base.
    pub fn threads(&self) -> &Threads
        ensures threads { result.now ≡ self.now.threads }
        ensures sound { IsSound (now_of self.now) }
    {
        let threads = &self.parts.threads;
        let _ = threads.count();
        threads
    }

    /// The registers of thread `i`, which is below the count.
    pub fn thread(&self, i: u8) -> &Thread
        requires { i < length self.now.threads }
        ensures { result.now ≡ thread_at self.now.threads i }
    {
        self.parts.threads.get(i)
    }

    /// RAM.
    pub fn memory(&self) -> &Store
        ensures { result.now.ram ≡ self.now.ram }
    {
        &self.parts.store
    }

    /// The bus, with the devices that were not ejected.
    pub fn bus(&self) -> &BusOf<D>
        ensures { result.now ≡ self.now.slots }
    {
        &self.parts.bus
    }

    /// One step of a thread below the count. A machine whose last step is a stop answers it again and
    /// stays as it is.
    pub fn step(&mut self, thread: u8) -> StepEnd
        requires thread { thread < length self.old.threads }
        requires room { HasRoom self.old.journal.reserved self.old.journal.rows }
        ensures stopped { IsStopped self.old self.new result }
        ensures row { IsRunning self.old.journal.rows.steps → StepsOn (DeviceAnswers D.list D.answers) self.old self.new thread result }
        ensures start { start_of self.new ≡ start_of self.old }
        ensures lawful { IsLawful self.new }
        ensures chosen { IsChosen self.new }
    {
        if let Some((name, value)) = last_stop(&self.parts.journal) {
            return StepEnd::Stopped(name, value);
        }
        ppc_step::step(&mut self.parts, thread)
    }

    /// Runs until there are `n` step rows, or no further step can be: the last step is a stop, the schedule
    /// has no next turn, or a list of the journal has no room for a whole step, tried in this order.
    pub fn run(&mut self, schedule: &Schedule, n: u32) -> Ended
        requires threads { schedule.now.threads ≡ length self.old.threads }
        ensures { RunsTo (DeviceAnswers D.list D.answers) schedule.now n self.old self.new result }
    {
        loop {
            let next = schedule.turn(self.parts.journal.counts().steps);
            let thread = match next_at(&self.parts.journal, n, next) {
                Ok(thread) => thread,
                Err(ended) => return ended,
            };
            let _ = ppc_step::step(&mut self.parts, thread);
        }
    }
}
