//! Accesses of forms.

ghost use Rattle.std.specs.Prelude.{◌≡◌, ◌<◌, ◌≤◌, ◌+◌, ◌*◌, ◌↔◌, ℕ, List, length, slice_get, Some, None, IfSome};
ghost use Rattle.journal_core.specs.Room.{walk_reads, walk_fills, read_places, fill_places, write_places, device_places};
ghost use Rattle.journal_core.specs.Translating.{IsQuiet};
ghost use Rattle.ppc_ops.specs.Forms.{IsForm};
ghost use Rattle.storage_ops.specs.Deeds as deeds;
ghost use Rattle.storage_ops.specs.Effects as effects;
ghost use Rattle.storage_ops.specs.Accesses.{Carries, IsAccess, scene_of};
ghost use Rattle.storage_ops.specs.Parts.{listed, listed_parts, AreParts};
ghost use Rattle.storage_ops.specs.Reaching as reaching;
ghost use Rattle.journal_core.specs.Answers as answers_of;
ghost use Rattle.journal_core.specs.declared.asks.Found.{Found};
ghost use Rattle.journal_core.specs.declared.rows.Use.TheVariants.{Unused};

use crate::answering::{Answers, translate_parts};
use crate::checks::place_parts;
use crate::deeds::{Deed, address_of, deed_of, is_misaligned, kind_of};
use crate::moves::{clear_block, move_bytes};
use crate::parts::{Part, Parts, parts_of};
use journal_core::{Cause, Found, Journal, StepEnd, Translate, Use};
use ppc_bus::Port;
use ppc_ops::Insn;
use real_store::Store;
use thread_regs::Thread;

/// How a form of storage ends, and the uses of its data.
#[derive(Clone, Copy, Debug, PartialEq, Eq)]
pub struct StorageOut {
    /// How the step ends.
    pub end: StepEnd,
    /// The use of the first page.
    pub first: Use,
    /// The use of the second page.
    pub second: Use,
}

/// The size of a cache block.
const BLOCK_BYTES: u8 = 128;

/// An access that is one part.
fn whole(at: u64, size: u8) -> Parts
    ensures { result ≡ record { first = record { at = at; size = size }; second = None } }
{
    Parts {
        first: Part { at, size },
        second: None,
    }
}

/// The outcome of a form that asks for nothing.
fn without_uses(end: StepEnd) -> StorageOut
    ensures { result ≡ record { end = end; first = Unused; second = Unused } }
{
    StorageOut {
        end,
        first: Use::Unused,
        second: Use::Unused,
    }
}

/// The use that shows an answer.
fn use_of(found: Found) -> Use
    ensures { result ≡ answers_of.use_of found }
{
    match found {
        Found::Real(_, used) | Found::Fault(_, used) => used,
        Found::Stop(_, _) => Use::Unused,
    }
}

/// The outcome of a form whose asks had these answers.
fn with_uses(end: StepEnd, answers: &Answers) -> StorageOut
    ensures end { result.end ≡ end }
    ensures first { result.first ≡ reaching.first_use (reaching.founds_in answers.now) }
    ensures second { result.second ≡ reaching.second_use (reaching.founds_in answers.now) }
{
    StorageOut {
        end,
        first: use_of(answers.first),
        second: match answers.second {
            Some(found) => use_of(found),
            None => Use::Unused,
        },
    }
}

/// The parts of the access of a deed, or `None` where it does nothing.
fn parts_in(deed: &Deed) -> Option<Parts>
    requires { deeds.IsDeed deed.now }
    ensures parts { listed_parts result ≡ deeds.parts_in deed.now }
    ensures sizes { IfSome result (λ parts. AreParts (deeds.size_in deed.now) parts × deeds.IsWhole deed.now parts) }
    ensures nothing { deeds.IsIdle deed.now result }
{
    match *deed {
        Deed::Moves { form, at, .. } => Some(parts_of(at, form.size)),
        Deed::Clears { at } => Some(whole(at, BLOCK_BYTES)),
        Deed::Touches { at } => Some(whole(at, 1)),
        Deed::Nothing => None,
    }
}

/// Carries out a deed whose parts lie so in real storage.
fn carry_out<B: Port>(
    deed: &Deed,
    parts: &Parts,
    thread: &mut Thread,
    number: u8,
    store: &mut Store,
    bus: &mut B,
    journal: &mut Journal,
    moment: u32,
) -> StepEnd
    requires deed { deeds.IsDeed deed.now }
    requires sizes { AreParts (deeds.size_in deed.now) parts.now }
    requires whole { deeds.IsWhole deed.now parts.now }
    requires writes { length journal.old.rows.writes + 16 ≤ write_places journal.old.reserved }
    requires room { length journal.old.rows.devices < device_places journal.old.reserved }
    requires moment { moment ≡ length journal.old.rows.steps }
    ensures { (founds : List Found) → Carries B.related B.windows number (λ answer. effects.placed_outcome deed.now thread.old (effects.around (B.windows bus.old) store.old.ram founds answer) (listed parts.now)) (scene_of thread.old store.old.ram bus.old journal.old) (scene_of thread.new store.new.ram bus.new journal.new) result }
{
    match *deed {
        Deed::Moves {
            form,
            register,
            base,
            at,
        } => move_bytes(
            &form, register, base, at, parts, thread, number, store, bus, journal, moment,
        ),
        Deed::Clears { .. } => clear_block(parts, thread, number, store, bus, journal, moment),
        Deed::Touches { .. } => StepEnd::Ran,
        Deed::Nothing => StepEnd::Ran,
    }
}

/// An access of a form of storage in a thread of this number, in the step that is being made: all parts are translated, the first
/// part first; then they are checked; and only then bytes move and registers are written. A form that does not go on changes
/// nothing but the rows of its translations. The next address and the clock are the step's.
pub fn access<T: Translate, B: Port>(
    insn: &Insn,
    thread: &mut Thread,
    number: u8,
    tr: &mut T,
    store: &mut Store,
    bus: &mut B,
    journal: &mut Journal,
    moment: u32,
) -> StorageOut
    requires form { IsForm insn.now }
    requires storage { deeds.IsStorage insn.now }
    requires number { number < 4 }
    requires thread { T.has_thread tr.old number }
    requires moment { moment ≡ length journal.old.rows.steps }
    requires quiet { IsQuiet journal.old.rows }
    requires reads { length journal.old.rows.reads + 2 * walk_reads ≤ read_places journal.old.reserved }
    requires fills { length journal.old.rows.fills + 2 * walk_fills ≤ fill_places journal.old.reserved }
    requires writes { length journal.old.rows.writes + 16 ≤ write_places journal.old.reserved }
    requires devices { length journal.old.rows.devices < device_places journal.old.reserved }
    requires fits { (values : List ℕ) × (slice_get values number ≡ Some thread.old.ptcr) × T.fits tr.old journal.old values }
    ensures access { IsAccess T.chooses B.related B.windows number insn.now (scene_of thread.old store.old.ram bus.old journal.old) (scene_of thread.new store.new.ram bus.new journal.new) result }
    ensures fits { (values : List ℕ) → slice_get values number ≡ Some thread.old.ptcr → T.fits tr.old journal.old values → T.fits tr.new journal.new values }
    ensures threads { (t : ℕ) → T.has_thread tr.new t ↔ T.has_thread tr.old t }
{
    let deed = deed_of(insn, thread);
    if is_misaligned(&deed) {
        let dar = address_of(&deed);
        return without_uses(StepEnd::Took(Cause::Alignment { dar }));
    }
    let parts = match parts_in(&deed) {
        Some(parts) => parts,
        None => return without_uses(StepEnd::Ran),
    };
    let kind = kind_of(&deed);
    let answers = translate_parts(thread, kind, &parts, number, tr, store, journal, moment);
    match place_parts(&parts, &answers) {
        Err(end) => with_uses(end, &answers),
        Ok(real) => {
            let end = carry_out(&deed, &real, thread, number, store, bus, journal, moment);
            with_uses(end, &answers)
        }
    }
}
