//! The asks of an access, and their answers.

ghost use Rattle.std.specs.Prelude.{◌≡◌, ◌≤◌, ◌+◌, ◌*◌, ℕ, List, length, slice_get, Some, ◌↔◌};
ghost use Rattle.journal_core.specs.Room.{walk_reads, walk_fills, read_places, fill_places};
ghost use Rattle.journal_core.specs.Translating.{IsQuiet};
ghost use Rattle.storage_ops.specs.Parts.{listed};
ghost use Rattle.storage_ops.specs.Reaching as reaching;
ghost use Rattle.storage_ops.specs.Answering.{IsAnswered};

use crate::parts::{Part, Parts};
use journal_core::{AccessKind, Ask, Found, Journal, TableReader, Translate};
use thread_regs::Thread;

/// The answers to the asks of an access.
#[derive(Clone, Copy, Debug, PartialEq, Eq)]
pub struct Answers {
    /// The first one's.
    pub first: Found,
    /// The second one's, if it was made.
    pub second: Option<Found>,
}

/// A thread's ask for an effective address.
pub fn ask_of(thread: &Thread, kind: AccessKind, at: u64) -> Ask
    ensures { result ≡ reaching.ask_of thread.now kind at }
{
    Ask {
        ea: at,
        access: kind,
        msr: thread.msr().0,
        lpid: thread.lpidr,
        pid: thread.pidr,
        ptcr: thread.ptcr,
        amr: thread.amr,
        iamr: thread.iamr,
    }
}

/// The part that is asked for behind the answer to the first.
fn next_part(first: Found, second: Option<Part>) -> Option<Part>
    ensures { result ≡ reaching.next_part first second }
{
    match first {
        Found::Real(_, _) => second,
        Found::Fault(_, _) | Found::Stop(_, _) => None,
    }
}

/// Asks for the parts of an access in their order, up to the first answer that is no real address.
pub fn translate_parts<T: Translate, R: TableReader>(
    thread: &Thread,
    kind: AccessKind,
    parts: &Parts,
    number: u8,
    tr: &mut T,
    reader: &R,
    journal: &mut Journal,
    moment: u32,
) -> Answers
    requires reads { length journal.old.rows.reads + 2 * walk_reads ≤ read_places journal.old.reserved }
    requires fills { length journal.old.rows.fills + 2 * walk_fills ≤ fill_places journal.old.reserved }
    requires moment { moment ≡ length journal.old.rows.steps }
    requires quiet { IsQuiet journal.old.rows }
    requires thread { T.has_thread tr.old number }
    requires fits { (values : List ℕ) × (slice_get values number ≡ Some thread.now.ptcr) × T.fits tr.old journal.old values }
    ensures answered { IsAnswered T.chooses 2 number (R.ram reader.now) (reaching.reached (reaching.asks_for thread.now kind (listed parts.now)) (reaching.founds_in result)) journal.old journal.new (reaching.founds_in result) }
    ensures all { reaching.IsAllAnswered parts.now result }
    ensures fits { (values : List ℕ) → slice_get values number ≡ Some thread.now.ptcr → T.fits tr.old journal.old values → T.fits tr.new journal.new values }
    ensures threads { (t : ℕ) → T.has_thread tr.new t ↔ T.has_thread tr.old t }
{
    let ask = ask_of(thread, kind, parts.first.at);
    let first = tr.translate(reader, journal, number, &ask, moment);
    let next = match next_part(first, parts.second) {
        Some(part) => part,
        None => return Answers {
            first,
            second: None,
        },
    };
    journal.fills_are_named();
    let ask = ask_of(thread, kind, next.at);
    let second = tr.translate(reader, journal, number, &ask, moment);
    Answers {
        first,
        second: Some(second),
    }
}
