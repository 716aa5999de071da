//! The call itself.

ghost use Rattle.std.specs.Prelude.{◌≡◌, ◌≤◌, ℕ, List, None, length};
ghost use Rattle.journal_core.specs.declared.rows.Ended.TheVariants.{AllRun};
ghost use Rattle.report_text.specs.Listing.{listing};
ghost use Rattle.radix_top.specs.Inputs.{met};
ghost use Rattle.radix_top.specs.Devices.{handed, windows_in};
ghost use Rattle.radix_top.specs.Calls.{Says, leaves};
ghost use Rattle.radix_top.specs.Causes.{fault_line};
ghost use Rattle.radix_top.specs.Statuses.{refused_status, ended_status};
ghost use Rattle.radix_top.specs.Printed.{PrintsAs, RunsReady};
ghost use Rattle.radix_top.specs.Laws.{AcceptsRun, EndsWell, AcceptsSource, AcceptsImage, EndsDone, NoReadFault, NoWriteFault};

use crate::fault_lines::fault_line;
use crate::inputs::{Prepared, RunInputs, prepare};
use crate::opening::open_machine;
use crate::status::{Refusal, Status, ended_status, refused_status};
use elf_image::Image;
use journal_core::Ended;
use outer_io::{Files, Sink};
use ppc_bus::Device;
use ppc_machine::{Machine, MachineOf, Plugged};
use report_text::{ReportParts, print_listing, print_report};
use std::alloc::Global;

/// Where a call finds the devices for its machine, and leaves the machine.
#[derive(Drop)]
pub struct Bench {
    /// The devices, in the order of the slots into which they are plugged. A machine that is opened takes them all; else they
    /// stay here as they are.
    pub devices: Vec<Plugged>,
    /// The machine that the call opened.
    pub machine: Option<Machine>,
}

/// Prints the line of a refusal.
fn refuse<K: Sink>(refusal: Refusal, out: &mut K) -> Status
    ensures counts { K.faults out.old ≤ K.faults out.new }
    ensures prints { PrintsAs (refused_status refusal) (fault_line refusal) (K.faults out.old) (K.faults out.new) (K.told out.old) (K.told out.new) result }
{
    match out.put(fault_line(refusal).as_slice()) {
        Ok(()) => refused_status(refusal),
        Err(_) => Status::WriteFault,
    }
}

/// Runs a machine as a prepared command asks, and prints its report.
fn run_ready<D: Device, K: Sink>(
    machine: &mut MachineOf<D>,
    ready: &RunInputs,
    out: &mut K,
) -> Status
    requires { ready.now.schedule.threads ≡ length machine.old.threads }
    ensures counts { K.faults out.old ≤ K.faults out.new }
    ensures runs { RunsReady D.list D.answers ready.now machine.old machine.new (K.faults out.old) (K.faults out.new) (K.told out.old) (K.told out.new) result }
{
    let ended = machine.run(&ready.schedule, ready.count);
    let parts = ReportParts {
        threads: machine.threads(),
        journal: machine.journal(),
        end: ended,
    };
    match print_report(&parts, ready.options.trace, ready.options.walks, out) {
        Ok(()) => ended_status(ended),
        Err(_) => Status::WriteFault,
    }
}

/// Puts a text that a command made.
fn put_text<K: Sink>(text: &[u8], out: &mut K) -> Status
    ensures counts { K.faults out.old ≤ K.faults out.new }
    ensures prints { PrintsAs (ended_status AllRun) text.now (K.faults out.old) (K.faults out.new) (K.told out.old) (K.told out.new) result }
{
    match out.put(text) {
        Ok(()) => ended_status(Ended::AllRun),
        Err(_) => Status::WriteFault,
    }
}

/// Prints the listing of an image.
fn list_image<K: Sink>(image: &Image, out: &mut K) -> Status
    ensures counts { K.faults out.old ≤ K.faults out.new }
    ensures prints { PrintsAs (ended_status AllRun) (listing image.now) (K.faults out.old) (K.faults out.new) (K.told out.old) (K.told out.new) result }
{
    match print_listing(image, out) {
        Ok(()) => ended_status(Ended::AllRun),
        Err(_) => Status::WriteFault,
    }
}

/// Does what the words ask for.
fn answer_call<F: Files, K: Sink>(
    alloc: Global,
    words: &[String],
    files: &mut F,
    out: &mut K,
    bench: &mut Bench,
) -> Status
    requires { bench.old.machine ≡ None }
    ensures answer { Says (met (F.told files.old) (F.faults files.old) (F.faults files.new) (F.last files.new)) words.now
        (handed ⟦<Box<dyn Device> as Device>⟧.window_size ⟦<Box<dyn Device> as Device>⟧.list ⟦<Box<dyn Device> as Device>⟧.answers bench.old.devices.items) (leaves bench.new.machine bench.new.devices.items)
        (K.faults out.old) (K.faults out.new) (K.told out.old) (K.told out.new) result }
    ensures same { (n : List ℕ) → F.told files.new n ≡ F.told files.old n }
    ensures reads { F.faults files.old ≤ F.faults files.new }
    ensures writes { K.faults out.old ≤ K.faults out.new }
{
    match prepare(alloc, words, files) {
        Err(refusal) => refuse(refusal, out),
        Ok(Prepared::Run(ready)) => match open_machine(alloc, &ready, &mut bench.devices) {
            Err(refusal) => refuse(refusal, out),
            Ok(machine) => {
                let mut machine = machine;
                let status = run_ready(&mut machine, &ready, out);
                bench.machine = Some(machine);
                status
            }
        },
        Ok(Prepared::File(bytes)) => put_text(bytes.as_slice(), out),
        Ok(Prepared::Listing(image)) => list_image(&image, out),
    }
}

/// Does what the words ask for, which exclude the program's name.
///
/// `run IMAGE SCHEDULE N` runs the image for N steps by the schedule, on a machine with 16 MiB of RAM and the bench's devices,
/// which is left in the bench, and prints its report. Behind N may stand `--trace`, which prints its steps, writes and device
/// accesses too, `--walks`, which prints the words of tables that its walks read and the entries that they left, and at most
/// four times `--guest FILE@HEX`, which loads the file at the address HEX. `asm SOURCE` writes the ELF file of the image that
/// the source is, and `dis IMAGE` prints the image's words as text; both leave the bench as it is. A call that is refused before it opens a machine prints one line, and leaves the devices in the bench.
pub fn radix_call<F: Files, K: Sink>(
    alloc: Global,
    words: &[String],
    files: &mut F,
    out: &mut K,
    bench: &mut Bench,
) -> Status
    requires { bench.old.machine ≡ None }

    // What it answers and why, what it prints, and what it leaves in the bench: the machine with its lawful journal, which began
    // with the image and the guests, and whose device rows are what the devices answered, or all devices.
    ensures answer { Says (met (F.told files.old) (F.faults files.old) (F.faults files.new) (F.last files.new)) words.now
        (handed ⟦<Box<dyn Device> as Device>⟧.window_size ⟦<Box<dyn Device> as Device>⟧.list ⟦<Box<dyn Device> as Device>⟧.answers bench.old.devices.items) (leaves bench.new.machine bench.new.devices.items)
        (K.faults out.old) (K.faults out.new) (K.told out.old) (K.told out.new) result }

    // The outside is only read and written.
    ensures same { (n : List ℕ) → F.told files.new n ≡ F.told files.old n }
    ensures reads { F.faults files.old ≤ F.faults files.new }
    ensures writes { K.faults out.old ≤ K.faults out.new }

    // A run whose files are known and good, whose guests have their places, and whose devices can be plugged, makes all its
    // steps, or stops, or with more than 2,496 steps fills its journal, unless memory or the outside fails. A source that is
    // known and good is assembled, and an image that is so is listed, unless memory or the outside fails. And the outside is
    // never said to fail where its count stays 0.
    ensures complete { (accepts : AcceptsRun (F.told files.old) words.now (windows_in (handed ⟦<Box<dyn Device> as Device>⟧.window_size ⟦<Box<dyn Device> as Device>⟧.list ⟦<Box<dyn Device> as Device>⟧.answers bench.old.devices.items))) → EndsWell accepts.count result }
    ensures assembles { AcceptsSource (F.told files.old) words.now → EndsDone result }
    ensures lists { AcceptsImage (F.told files.old) words.now → EndsDone result }
    ensures sure_files { F.faults files.new ≡ 0 → NoReadFault result }
    ensures sure_sink { K.faults out.new ≡ 0 → NoWriteFault result }
{
    answer_call(alloc, words, files, out, bench)
}
