//! What a word comes to.

ghost use Rattle.std.specs.Prelude.{◌≡◌, ◌<◌, ◌≤◌, ◌+◌, ◌*◌, ◌↔◌, ℕ, List, length, slice_get, Some};
ghost use Rattle.journal_core.specs.Room.{walk_reads, walk_fills, read_places, fill_places, write_places, device_places};
ghost use Rattle.journal_core.specs.Translating.{IsQuiet};
ghost use Rattle.storage_ops.specs.Accesses.{scene_of};
ghost use Rattle.ppc_step.specs.Performing.{IsWordExecuted};

use crate::storage::{execute_form, without_uses};
use form_outcomes::{assist, unsupported};
use journal_core::{Journal, StepEnd, StopName, Translate};
use ppc_bus::Port;
use real_store::Store;
use storage_ops::StorageOut;
use thread_regs::Thread;
use word_decoder::{Decoded, decode};

/// Executes a word in a thread of this number, and says how that ends. An interrupt is not delivered here, and changes no
/// register yet.
#[tactic(auto, unfolding(crate::specs::Words::word_outcome, crate::specs::Words::word_asks, crate::specs::Words::decoded_outcome, crate::specs::Words::decoded_asks))]
pub fn execute_word<T: Translate, B: Port>(
    word: u32,
    thread: &mut Thread,
    number: u8,
    tr: &mut T,
    store: &mut Store,
    bus: &mut B,
    journal: &mut Journal,
    moment: u32,
) -> StorageOut
    requires number { number < 4 }
    requires thread { T.has_thread tr.old number }
    requires moment { moment ≡ length journal.old.rows.steps }
    requires quiet { IsQuiet journal.old.rows }
    requires reads { length journal.old.rows.reads + 2 * walk_reads ≤ read_places journal.old.reserved }
    requires fills { length journal.old.rows.fills + 2 * walk_fills ≤ fill_places journal.old.reserved }
    requires writes { length journal.old.rows.writes + 16 ≤ write_places journal.old.reserved }
    requires devices { length journal.old.rows.devices < device_places journal.old.reserved }
    requires fits { (values : List ℕ) × (slice_get values number ≡ Some thread.old.ptcr) × T.fits tr.old journal.old values }
    ensures executed { IsWordExecuted T.chooses B.related B.windows number word (scene_of thread.old store.old.ram bus.old journal.old) (scene_of thread.new store.new.ram bus.new journal.new) result }
    ensures fits { (values : List ℕ) → slice_get values number ≡ Some thread.old.ptcr → T.fits tr.old journal.old values → T.fits tr.new journal.new values }
    ensures threads { (t : ℕ) → T.has_thread tr.new t ↔ T.has_thread tr.old t }
{
    match decode(word) {
        Decoded::Form(insn) => execute_form(
            insn, word, thread, number, tr, store, bus, journal, moment,
        ),
        Decoded::Zero => without_uses(StepEnd::Took(assist(word))),
        Decoded::InvalidForm(_) => {
            without_uses(StepEnd::Stopped(StopName::InvalidForm, u64::from(word)))
        }
        Decoded::Unsupported => without_uses(unsupported(word)),
    }
}
