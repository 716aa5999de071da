//! One step of a thread, with its row.

ghost use Rattle.std.specs.Prelude.{◌≡◌, ◌<◌, ◌≤◌, ◌+◌, ◌*◌, ◌↔◌, ℕ, List, map, length, slice_get, slice_set, Some, None, [], ◌∷◌};
ghost use Rattle.journal_core.specs.declared.rows.StepEnd.TheVariants.{Ran};
ghost use Rattle.journal_core.specs.declared.rows.Use.TheVariants.{Unused};
ghost use Rattle.ppc_step.specs.States as states;
ghost use Rattle.journal_core.specs.Room.{HasRoom, walk_reads, walk_fills, read_places, fill_places, write_places, device_places};
ghost use Rattle.journal_core.specs.Rows.{JournalView};
ghost use Rattle.journal_core.specs.Steps.{IsDated};
ghost use Rattle.journal_core.specs.Translating.{IsQuiet};
ghost use Rattle.thread_regs.specs.Registers.{thread_at};
ghost use Rattle.storage_ops.specs.Accesses.{scene_of};
ghost use Rattle.ppc_step.specs.States.{word_at, state_of, ptcrs_of};
ghost use Rattle.ppc_step.specs.Steps as steps;
ghost use Rattle.ppc_step.specs.Performing.{IsWordExecuted, PerformsStep, threads_by};
ghost use Rattle.ppc_step.specs.Rule.{StepsTo};

use crate::words::execute_word;
use interrupts::{deliver, pending, tick};
use journal_core::{AccessKind, Ask, Found, Journal, StepEnd, StepRow, StopName, Translate, Use};
use ppc_bus::Port;
use real_store::Store;
use thread_regs::{Thread, Threads};

/// What a step works on.
#[derive(Drop)]
pub struct Parts<T, B> {
    /// The registers of the threads.
    pub threads: Threads,
    /// RAM.
    pub store: Store,
    /// The devices behind a port.
    pub bus: B,
    /// The journal of all steps.
    pub journal: Journal,
    /// What translates addresses.
    pub translator: T,
}

/// How a step ends: `Ran`, `Took` or `Stopped`.
pub type Stepped = StepEnd;

/// How a step ends, before its row is there.
#[derive(Clone, Copy, Debug, PartialEq, Eq)]
pub struct Ending {
    /// The word that was fetched.
    pub word: Option<u32>,
    /// How the step ends.
    pub end: StepEnd,
    /// What answered the fetch, the first page and the second.
    pub uses: [Use; 3],
}

/// The ending of a step without a word, whose fetch was answered so.
fn without_word(end: StepEnd, fetch: Use) -> Ending
    ensures { result ≡ record { word = None; end = end; uses = fetch ∷ Unused ∷ Unused ∷ [] } }
{
    Ending {
        word: None,
        end,
        uses: [fetch, Use::Unused, Use::Unused],
    }
}

/// The word at a real address, where its four bytes are all in RAM.
#[tactic(auto, unfolding(crate::specs::States::word_at))]
fn fetch(store: &Store, at: u64) -> Option<u32>
    ensures { result ≡ word_at store.now.ram at }
{
    match store.load(at, 4) {
        Err(_) => None,
        Ok(word) => Some(word as u32),
    }
}

/// The thread is in a guest's state with partition number 0.
fn is_guest_zero(thread: &Thread) -> bool
    ensures { result ≡ steps.is_guest_zero thread.now }
{
    !thread.msr().is_hypervisor() && thread.lpidr == 0
}

/// A thread's ask for its next instruction.
fn fetch_ask(thread: &Thread) -> Ask
    ensures { result ≡ states.fetch_ask thread.now }
{
    Ask {
        ea: thread.nia(),
        access: AccessKind::Fetch,
        msr: thread.msr().0,
        lpid: thread.lpidr,
        pid: thread.pidr,
        ptcr: thread.ptcr,
        amr: thread.amr,
        iamr: thread.iamr,
    }
}

/// The step of a thread of this number up to its row, but for the delivery of an interrupt and the clock.
fn perform<T: Translate, B: Port>(
    thread: &mut Thread,
    number: u8,
    tr: &mut T,
    store: &mut Store,
    bus: &mut B,
    journal: &mut Journal,
    moment: u32,
) -> Ending
    requires number { number < 4 }
    requires thread { T.has_thread tr.old number }
    requires moment { moment ≡ length journal.old.rows.steps }
    requires quiet { IsQuiet journal.old.rows }
    requires reads { length journal.old.rows.reads + 3 * walk_reads ≤ read_places journal.old.reserved }
    requires fills { length journal.old.rows.fills + 3 * walk_fills ≤ fill_places journal.old.reserved }
    requires writes { length journal.old.rows.writes + 16 ≤ write_places journal.old.reserved }
    requires devices { length journal.old.rows.devices < device_places journal.old.reserved }
    requires fits { (values : List ℕ) × (slice_get values number ≡ Some thread.old.ptcr) × T.fits tr.old journal.old values }
    ensures word { result.end ≡ Ran → (word : ℕ) × (result.word ≡ Some word) }
    ensures performed { PerformsStep T.chooses B.related B.windows number (scene_of thread.old store.old.ram bus.old journal.old) (scene_of thread.new store.new.ram bus.new journal.new) result }
    ensures fits { (values : List ℕ) → slice_get values number ≡ Some thread.old.ptcr → T.fits tr.old journal.old values → T.fits tr.new journal.new values }
    ensures threads { (t : ℕ) → T.has_thread tr.new t ↔ T.has_thread tr.old t }
{
    if let Some(cause) = pending(thread) {
        return without_word(StepEnd::Took(cause), Use::Unused);
    }
    if is_guest_zero(thread) {
        return without_word(StepEnd::Stopped(StopName::GuestZero, 0), Use::Unused);
    }
    let ask = fetch_ask(thread);
    let (at, used) = match tr.translate(store, journal, number, &ask, moment) {
        Found::Real(at, used) => (at, used),
        Found::Fault(cause, used) => return without_word(StepEnd::Took(cause), used),
        Found::Stop(name, value) => {
            return without_word(StepEnd::Stopped(name, value), Use::Unused);
        }
    };
    match fetch(store, at) {
        None => without_word(StepEnd::Stopped(StopName::NoStorage, at), used),
        Some(word) => {
            journal.fills_are_named();
            let out = execute_word(word, thread, number, tr, store, bus, journal, moment);
            Ending {
                word: Some(word),
                end: out.end,
                uses: [used, out.first, out.second],
            }
        }
    }
}

/// Ends a step of a thread below the count, whose form has left its registers: an interrupt is delivered to it, and then every
/// thread's clock ticks; a stop changes nothing, unless a device that was asked made it.
fn finish(threads: &mut Threads, thread: u8, end: &StepEnd, asked: bool)
    requires { thread < length threads.old }
    ensures { threads.new ≡ threads_by thread threads.old end.now asked }
{
    match end {
        StepEnd::Ran => tick(threads),
        StepEnd::Took(cause) => {
            deliver(cause, threads.get_mut(thread));
            tick(threads);
        }
        StepEnd::Stopped(_, _) => {
            if asked {
                tick(threads);
            }
        }
    }
}

/// One step of a thread below the count, with its row, over any lawful translator and any port (Power ISA, Book I, 1.5). In this
/// order: a pending interrupt is delivered; a guest's state with partition number 0 stops the machine; else the word at the next address is fetched and decoded, the form's privilege is
/// tested, its address, its trap or its system call raise their interrupt, and its effect is made; the clock ticks; and the row
/// comes last. A stop changes no register, no byte and no device, unless a device made it: then the step is done whole.
/// Until operations are completed, its translator fits with any values where it fits with some (`any_values`).
pub fn step<T: Translate, B: Port>(parts: &mut Parts<T, B>, thread: u8) -> Stepped
    requires thread { thread < length parts.old.threads }
    requires most { parts.old.journal.reserved ≤ 1048576 }
    requires room { HasRoom parts.old.journal.reserved parts.old.journal.rows }
    requires dated { IsDated parts.old.journal.rows }
    requires for_all { (t : ℕ) → t < length parts.old.threads → T.has_thread parts.old.translator t }
    requires fits { T.fits parts.old.translator parts.old.journal (ptcrs_of parts.old.threads) }
    requires any_values { (s : T) (j : JournalView) (values new : List ℕ) → length new ≡ length values → T.fits s j values → T.fits s j new }
    ensures step { StepsTo T.chooses B.related parts.old.journal parts.new.journal parts.old.bus parts.new.bus (state_of parts.old.threads parts.old.store.ram (B.windows parts.old.bus)) (state_of parts.new.threads parts.new.store.ram (B.windows parts.new.bus)) thread result }
    ensures count { length parts.new.threads ≡ length parts.old.threads }
    ensures fits { T.fits parts.new.translator parts.new.journal (ptcrs_of parts.new.threads) }
    ensures threads { (t : ℕ) → T.has_thread parts.new.translator t ↔ T.has_thread parts.old.translator t }
{
    let _ = parts.threads.count();
    let before = parts.journal.counts();
    let cia = parts.threads.get(thread).nia();
    let ending = perform(
        parts.threads.get_mut(thread),
        thread,
        &mut parts.translator,
        &mut parts.store,
        &mut parts.bus,
        &mut parts.journal,
        before.steps,
    );
    let asked = parts.journal.counts().devices > before.devices;
    finish(&mut parts.threads, thread, &ending.end, asked);
    parts.journal.fills_are_named();
    parts.journal.push_step(StepRow {
        thread,
        cia,
        word: ending.word,
        end: ending.end,
        uses: ending.uses,
    });
    ending.end
}
