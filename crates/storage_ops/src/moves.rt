//! Loads, stores and cleared blocks whose parts lie in real storage.

ghost use Rattle.std.specs.Prelude.{◌≡◌, ◌<◌, ◌≤◌, ◌+◌, ◌^◌, length, true, false, None};
ghost use Rattle.journal_core.specs.declared.rows.StepEnd.TheVariants.{Ran};
ghost use Rattle.form_outcomes.specs.Outcomes.{Goes};
ghost use Rattle.journal_core.specs.Room.{write_places, device_places};
ghost use Rattle.thread_regs.specs.Registers.{with_gpr};
ghost use Rattle.ppc_bus.specs.Holding.{is_size};
ghost use Rattle.storage_ops.specs.Forms as forms;
ghost use Rattle.storage_ops.specs.Parts.{listed, is_whole, AreParts};
ghost use Rattle.storage_ops.specs.Checks as checks;
ghost use Rattle.storage_ops.specs.Effects as effects;
ghost use Rattle.storage_ops.specs.Accesses.{Carries, scene_of};

use crate::checks::first_refusal;
use crate::devices::{device_load, device_of, device_store};
use crate::forms::AccessForm;
use crate::moving::{loaded, sent};
use crate::parts::Parts;
use crate::storing::{clear_doublewords, load_parts, store_parts};
use journal_core::{Journal, Signal, StepEnd, StopName};
use ppc_bus::Port;
use real_store::Store;
use thread_regs::Thread;

/// How many doublewords a cache block has.
const BLOCK_DOUBLEWORDS: u8 = 16;

/// Puts the effective address into RA, where the form does so.
fn update(thread: &mut Thread, form: &AccessForm, base: u8, at: u64)
    requires { base < 32 }
    ensures { thread.new ≡ effects.updated form.now base at thread.old }
{
    if form.update {
        thread.set_gpr(base, at);
    }
}

/// Puts a loaded number into its register, and the effective address into RA.
fn finish_load(form: &AccessForm, register: u8, base: u8, at: u64, thread: &mut Thread, value: u64)
    requires size { is_size form.now.size ≡ true }
    requires value { value < 256 ^ form.now.size }
    requires register { register < 32 }
    requires base { base < 32 }
    ensures { thread.new ≡ effects.updated form.now base at (with_gpr thread.old register (forms.loaded form.now value)) }
{
    thread.set_gpr(register, loaded(form, value));
    update(thread, form, base, at);
}

/// A load of bytes in RAM or of a device, none of which is refused.
fn load_bytes<B: Port>(
    form: &AccessForm,
    register: u8,
    base: u8,
    at: u64,
    parts: &Parts,
    thread: &mut Thread,
    number: u8,
    store: &Store,
    bus: &mut B,
    journal: &mut Journal,
    moment: u32,
)
    requires size { is_size form.now.size ≡ true }
    requires register { register < 32 }
    requires base { base < 32 }
    requires sizes { AreParts form.now.size parts.now }
    requires load { form.now.store ≡ false }
    requires taken { checks.first_refusal (B.windows bus.old) (is_whole (listed parts.now)) (length store.now.ram) (listed parts.now) ≡ None }
    requires room { length journal.old.rows.devices < device_places journal.old.reserved }
    requires moment { moment ≡ length journal.old.rows.steps }
    ensures { Carries B.related B.windows number (λ answer. Goes (effects.load_after form.now register base at thread.old store.now.ram answer (listed parts.now) (checks.device_of (B.windows bus.old) (listed parts.now)))) (scene_of thread.old store.now.ram bus.old journal.old) (scene_of thread.new store.now.ram bus.new journal.new) Ran }
{
    match device_of(bus, parts) {
        None => {
            let value = load_parts(store, parts, form.size);
            finish_load(form, register, base, at, thread, value);
        }
        Some(place) => {
            let value = device_load(bus, journal, moment, parts.first, place);
            finish_load(form, register, base, at, thread, value);
        }
    }
}

/// How a step ends that asked a device of this slot to store.
fn end_by(signal: Signal, slot: u8) -> StepEnd
    ensures { result ≡ effects.end_by signal slot Ran }
{
    match signal {
        Signal::Stop => StepEnd::Stopped(StopName::DeviceStop, u64::from(slot)),
        Signal::Quiet | Signal::Byte(_) | Signal::Eject(_) => StepEnd::Ran,
    }
}

/// A store of bytes in RAM or of a device, none of which is refused.
fn store_bytes<B: Port>(
    form: &AccessForm,
    register: u8,
    base: u8,
    at: u64,
    parts: &Parts,
    thread: &mut Thread,
    number: u8,
    store: &mut Store,
    bus: &mut B,
    journal: &mut Journal,
    moment: u32,
) -> StepEnd
    requires size { is_size form.now.size ≡ true }
    requires register { register < 32 }
    requires base { base < 32 }
    requires sizes { AreParts form.now.size parts.now }
    requires stores { form.now.store ≡ true }
    requires taken { checks.first_refusal (B.windows bus.old) (is_whole (listed parts.now)) (length store.old.ram) (listed parts.now) ≡ None }
    requires writes { length journal.old.rows.writes + 16 ≤ write_places journal.old.reserved }
    requires room { length journal.old.rows.devices < device_places journal.old.reserved }
    requires moment { moment ≡ length journal.old.rows.steps }
    ensures { Carries B.related B.windows number (λ answer. Goes (effects.store_after form.now register base at thread.old (listed parts.now) (checks.device_of (B.windows bus.old) (listed parts.now)))) (scene_of thread.old store.old.ram bus.old journal.old) (scene_of thread.new store.new.ram bus.new journal.new) result }
{
    let value = sent(form, thread.gpr(register));
    update(thread, form, base, at);
    match device_of(bus, parts) {
        None => {
            store_parts(store, journal, number, moment, parts, form.size, value);
            StepEnd::Ran
        }
        Some(place) => {
            let signal = device_store(bus, journal, moment, parts.first, place, value);
            end_by(signal, place.0)
        }
    }
}

/// A load or store whose parts lie so in real storage: where a part is refused, nothing moves.
pub fn move_bytes<B: Port>(
    form: &AccessForm,
    register: u8,
    base: u8,
    at: u64,
    parts: &Parts,
    thread: &mut Thread,
    number: u8,
    store: &mut Store,
    bus: &mut B,
    journal: &mut Journal,
    moment: u32,
) -> StepEnd
    requires size { is_size form.now.size ≡ true }
    requires register { register < 32 }
    requires base { base < 32 }
    requires sizes { AreParts form.now.size parts.now }
    requires writes { length journal.old.rows.writes + 16 ≤ write_places journal.old.reserved }
    requires room { length journal.old.rows.devices < device_places journal.old.reserved }
    requires moment { moment ≡ length journal.old.rows.steps }
    ensures { Carries B.related B.windows number (λ answer. effects.move_outcome form.now register base at thread.old (B.windows bus.old) store.old.ram answer (listed parts.now)) (scene_of thread.old store.old.ram bus.old journal.old) (scene_of thread.new store.new.ram bus.new journal.new) result }
{
    let whole = parts.is_whole();
    if let Some((name, value)) = first_refusal(bus, whole, store.size(), parts) {
        return StepEnd::Stopped(name, value);
    }
    if form.store {
        return store_bytes(
            form, register, base, at, parts, thread, number, store, bus, journal, moment,
        );
    }
    load_bytes(
        form, register, base, at, parts, thread, number, store, bus, journal, moment,
    );
    StepEnd::Ran
}

/// A cache block that lies so in real storage is set to zero. No device takes it.
pub fn clear_block<B: Port>(
    parts: &Parts,
    thread: &Thread,
    number: u8,
    store: &mut Store,
    bus: &B,
    journal: &mut Journal,
    moment: u32,
) -> StepEnd
    requires sizes { AreParts 128 parts.now }
    requires one { parts.now.second ≡ None }
    requires writes { length journal.old.rows.writes + 16 ≤ write_places journal.old.reserved }
    requires moment { moment ≡ length journal.old.rows.steps }
    ensures { Carries B.related B.windows number (λ answer. effects.clear_outcome thread.now (B.windows bus.now) store.old.ram (listed parts.now)) (scene_of thread.now store.old.ram bus.now journal.old) (scene_of thread.now store.new.ram bus.now journal.new) result }
{
    if let Some((name, value)) = first_refusal(bus, false, store.size(), parts) {
        return StepEnd::Stopped(name, value);
    }
    let at = parts.first.at;
    clear_doublewords(store, journal, number, moment, at, BLOCK_DOUBLEWORDS);
    StepEnd::Ran
}
