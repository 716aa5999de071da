//! The execution of loads, stores and forms of cache blocks.

ghost use Rattle.std.specs.Prelude.{◌≡◌, ◌<◌, ◌≤◌, ◌+◌, ◌*◌, ◌↔◌, ℕ, List, length, slice_get, Some};
ghost use Rattle.journal_core.specs.Room.{walk_reads, walk_fills, read_places, fill_places, write_places, device_places};
ghost use Rattle.journal_core.specs.Translating.{IsQuiet};
ghost use Rattle.journal_core.specs.declared.rows.Use.TheVariants.{Unused};
ghost use Rattle.ppc_ops.specs.Forms.{IsForm};
ghost use Rattle.storage_ops.specs.Accesses.{Performs, scene_of};
ghost use Rattle.storage_ops.specs.AccessTable.{access_form};
ghost use Rattle.storage_ops.specs.Deeds.{IsStorage, deed_of, reserves_by};
ghost use Rattle.storage_ops.specs.Reaching.{reached, asks_of};
ghost use Rattle.storage_ops.specs.Effects.{around};
ghost use Rattle.ppc_step.specs.Words as words;
ghost use Rattle.ppc_step.specs.Performing.{IsExecuted};
ghost use Rattle.ppc_step.specs.Performing as performing;

use crate::execution::execute;
use form_outcomes::unsupported;
use journal_core::{Cause, Journal, StepEnd, Translate, Use};
use ppc_bus::Port;
use ppc_ops::{Insn, Op, inhibits_caching};
use real_store::Store;
use storage_ops::{StorageOut, access, access_form};
use system_ops::hypervisor_only;
use thread_regs::Thread;

/// How a form ends that made no ask for data.
pub fn without_uses(end: StepEnd) -> StorageOut
    ensures { result ≡ record { end = end; first = Unused; second = Unused } }
{
    StorageOut {
        end,
        first: Use::Unused,
        second: Use::Unused,
    }
}

/// Whether an operation makes a reservation or asks for one.
fn reserves(op: Op) -> bool
    ensures { result ≡ reserves_by (access_form op) }
{
    match access_form(op) {
        Some(form) => form.reserved,
        None => false,
    }
}

/// Why a load or store is refused before its address is looked at, if it is.
fn refusal_of(op: Op, word: u32, thread: &Thread) -> Option<Cause>
    ensures { result ≡ words.refusal_of op word thread.now }
{
    if inhibits_caching(op) {
        hypervisor_only(word, thread.msr())
    } else {
        None
    }
}

/// Whether a step that ends so is done whole, by whether it asked a device: it ran, or a device that it asked stopped the machine.
pub fn is_done(end: &StepEnd, asked: bool) -> bool
    ensures { result ≡ performing.is_done_by end.now asked }
{
    match end {
        StepEnd::Ran => true,
        StepEnd::Took(_) => false,
        StepEnd::Stopped(_, _) => asked,
    }
}

/// A load, a store or a form of cache blocks, after which the thread goes on to the next instruction.
fn access_on<T: Translate, B: Port>(
    insn: &Insn,
    thread: &mut Thread,
    number: u8,
    tr: &mut T,
    store: &mut Store,
    bus: &mut B,
    journal: &mut Journal,
    moment: u32,
) -> StorageOut
    requires form { IsForm insn.now }
    requires storage { IsStorage insn.now }
    requires number { number < 4 }
    requires thread { T.has_thread tr.old number }
    requires moment { moment ≡ length journal.old.rows.steps }
    requires quiet { IsQuiet journal.old.rows }
    requires reads { length journal.old.rows.reads + 2 * walk_reads ≤ read_places journal.old.reserved }
    requires fills { length journal.old.rows.fills + 2 * walk_fills ≤ fill_places journal.old.reserved }
    requires writes { length journal.old.rows.writes + 16 ≤ write_places journal.old.reserved }
    requires devices { length journal.old.rows.devices < device_places journal.old.reserved }
    requires fits { (values : List ℕ) × (slice_get values number ≡ Some thread.old.ptcr) × T.fits tr.old journal.old values }
    ensures access { Performs T.chooses B.related B.windows number (reached (asks_of (deed_of insn.now thread.old) thread.old)) (λ founds answer. words.access_outcome insn.now thread.old (around (B.windows bus.old) store.old.ram founds answer)) (scene_of thread.old store.old.ram bus.old journal.old) (scene_of thread.new store.new.ram bus.new journal.new) result }
    ensures fits { (values : List ℕ) → slice_get values number ≡ Some thread.old.ptcr → T.fits tr.old journal.old values → T.fits tr.new journal.new values }
    ensures threads { (t : ℕ) → T.has_thread tr.new t ↔ T.has_thread tr.old t }
{
    let asked = journal.counts().devices;
    let out = access(insn, thread, number, tr, store, bus, journal, moment);
    let more = journal.counts().devices > asked;
    if is_done(&out.end, more) {
        thread.advance();
    }
    out
}

/// Executes the form of this word in a thread of this number. An interrupt that the form takes is not delivered here, and changes no
/// register yet.
#[tactic(auto, unfolding(crate::specs::Words::form_outcome, crate::specs::Words::form_asks))]
pub fn execute_form<T: Translate, B: Port>(
    insn: Insn,
    word: u32,
    thread: &mut Thread,
    number: u8,
    tr: &mut T,
    store: &mut Store,
    bus: &mut B,
    journal: &mut Journal,
    moment: u32,
) -> StorageOut
    requires form { IsForm insn }
    requires number { number < 4 }
    requires thread { T.has_thread tr.old number }
    requires moment { moment ≡ length journal.old.rows.steps }
    requires quiet { IsQuiet journal.old.rows }
    requires reads { length journal.old.rows.reads + 2 * walk_reads ≤ read_places journal.old.reserved }
    requires fills { length journal.old.rows.fills + 2 * walk_fills ≤ fill_places journal.old.reserved }
    requires writes { length journal.old.rows.writes + 16 ≤ write_places journal.old.reserved }
    requires devices { length journal.old.rows.devices < device_places journal.old.reserved }
    requires fits { (values : List ℕ) × (slice_get values number ≡ Some thread.old.ptcr) × T.fits tr.old journal.old values }
    ensures executed { IsExecuted T.chooses B.related B.windows number insn word (scene_of thread.old store.old.ram bus.old journal.old) (scene_of thread.new store.new.ram bus.new journal.new) result }
    ensures fits { (values : List ℕ) → slice_get values number ≡ Some thread.old.ptcr → T.fits tr.old journal.old values → T.fits tr.new journal.new values }
    ensures threads { (t : ℕ) → T.has_thread tr.new t ↔ T.has_thread tr.old t }
{
    match insn {
        Insn::Access { .. } => access_on(&insn, thread, number, tr, store, bus, journal, moment),
        Insn::Block { .. } => access_on(&insn, thread, number, tr, store, bus, journal, moment),
        Insn::AccessX { op, .. } => {
            if reserves(op) {
                return without_uses(unsupported(word));
            }
            match refusal_of(op, word, thread) {
                Some(cause) => without_uses(StepEnd::Took(cause)),
                None => access_on(&insn, thread, number, tr, store, bus, journal, moment),
            }
        }
        other => without_uses(execute(thread, other, number, word)),
    }
}
