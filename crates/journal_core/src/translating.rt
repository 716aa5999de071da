//! Reading tables and translating addresses, as a step uses them.

ghost use Rattle.std.specs.Prelude.{◌≡◌, ℕ, ◌+◌, ◌≤◌, ◌↔◌, List, length, slice_get, Option, Some, None};
ghost use Rattle.journal_core.specs.declared.rows.KeyKind.{KeyKind};
ghost use Rattle.journal_core.specs.Past.{word_in};
ghost use Rattle.journal_core.specs.Rows.{JournalView};
ghost use Rattle.journal_core.specs.Turns.{Mark, Query, query_of, turn_in, mark_of};
ghost use Rattle.journal_core.specs.declared.asks.Ask.{Ask};
ghost use Rattle.journal_core.specs.declared.asks.Found.{Found};
ghost use Rattle.journal_core.specs.Room.{walk_reads, walk_fills, read_places, fill_places};
ghost use Rattle.journal_core.specs.Answers.{IsAnswer};
ghost use Rattle.journal_core.specs.Translating.{IsQuiet, AreTrue, Stays, OnlyAdds, IsLastDone, without_done, SameKept, AreValuesAfter, IsDirectoryKind, IsKeptDirectory, IsKeptPage};

use crate::asks::{Ask, Found};
use crate::journal::Journal;
use crate::rows::{DoneRow, KeyKind};

/// Storage that tables are read from.
pub trait TableReader {
    /// The bytes of storage, from real address 0 on.
    ghost ram: { Self → List ℕ };

    /// The doubleword at a real address, its highest byte first, or `None` exactly where a byte of it is outside storage.
    fn table_word(&self, at: u64) -> Option<u64>
        ensures { result ≡ word_in (ram self.now) at };
}

/// What translates the addresses that the threads of a machine ask for.
pub trait Translate {
    /// It is for this thread.
    ghost has_thread: { Self → ℕ → Type 0 };

    /// It fits a journal, with one value of the partition table control register for each thread.
    ghost fits: { Self → JournalView → List ℕ → Type 0 };

    /// Which answer it gives to an ask of a thread at a step: a relation of storage as it stands, of the journal with the rows
    /// that the answer added, of how many fills and reads there were before it and are after it, and of the ask.
    ghost chooses: { Query → Found → Mark → Type 0 };

    /// Translates the address of an ask of a thread in the step that is being made.
    ///
    /// Where the reader gives storage as it stands before this step, and all readings of the journal are true, the answer
    /// keeps the rule of a step.
    fn translate<R: TableReader>(
        &mut self,
        reader: &R,
        journal: &mut Journal,
        thread: u8,
        ask: &Ask,
        moment: u32,
    ) -> Found
        requires reads { length journal.old.rows.reads + walk_reads ≤ read_places journal.old.reserved }
        requires fills { length journal.old.rows.fills + walk_fills ≤ fill_places journal.old.reserved }
        requires moment { moment ≡ length journal.old.rows.steps }
        requires quiet { IsQuiet journal.old.rows }
        requires thread { has_thread self.old thread }
        requires fits { (values : List ℕ) × (slice_get values thread ≡ Some ask.now.ptcr) × fits self.old journal.old values }
        ensures adds { OnlyAdds journal.old journal.new }
        ensures answer { (past : ℕ → ℕ → Option ℕ) → ((at : ℕ) → past moment at ≡ word_in (R.ram reader.now) at) → AreTrue past journal.old.rows → IsAnswer past (query_of (turn_in journal.new thread moment) (past moment) (mark_of journal.old.rows) ask.now) result (mark_of journal.new.rows) }
        ensures chosen { (word : ℕ → Option ℕ) → ((at : ℕ) → word at ≡ word_in (R.ram reader.now) at) → chooses (query_of (turn_in journal.new thread moment) word (mark_of journal.old.rows) ask.now) result (mark_of journal.new.rows) }
        ensures fits { (values : List ℕ) → slice_get values thread ≡ Some ask.now.ptcr → fits self.old journal.old values → fits self.new journal.new values }
        ensures threads { (t : ℕ) → has_thread self.new t ↔ has_thread self.old t };

    /// Takes note of the last done row, after it was pushed.
    fn complete(&mut self, journal: &Journal, row: &DoneRow)
        requires last { IsLastDone journal.now.rows row.now }
        requires step { row.now.step ≡ length journal.now.rows.steps }
        requires fits { (values : List ℕ) × fits self.old (without_done journal.now) values }
        ensures fits { (values new : List ℕ) → fits self.old (without_done journal.now) values → AreValuesAfter row.now values new → fits self.new journal.now new }
        ensures threads { (t : ℕ) → has_thread self.new t ↔ has_thread self.old t };

    /// Rows of writes, devices and steps keep it fitting.
    ghost stays: { (s : Self) (j k : JournalView) (values : List ℕ) → SameKept j k → fits s j values → fits s k values };

    /// What it chose stays its choice when the journal goes on.
    ghost chosen_stays: { Stays chooses };
}

/// What keeps walks, and gives them by the numbers of their fills.
pub trait Kept {
    /// It is one for this thread.
    ghost is_for: { Self → ℕ → Type 0 };

    /// It fits a journal, for a thread with this value of the partition table control register.
    ghost fits: { Self → JournalView → ℕ → ℕ → Type 0 };

    /// The directory that it gives for a thread, a kind, a partition, a process and an address.
    ghost directory_of: { Self → JournalView → ℕ → KeyKind → ℕ → ℕ → ℕ → Option ℕ };

    /// The guest page that it gives for a thread, a partition and a guest real address.
    ghost page_of: { Self → JournalView → ℕ → ℕ → ℕ → Option ℕ };

    /// A directory of a process's or of a partition's tree that stands for an address, or none.
    fn directory(
        &self,
        journal: &Journal,
        thread: u8,
        kind: KeyKind,
        lpid: u16,
        pid: u32,
        sought: u64,
    ) -> Option<u32>
        requires kind { IsDirectoryKind kind }
        requires thread { is_for self.now thread }
        requires quiet { IsQuiet journal.now.rows }
        requires fits { (ptcr : ℕ) × fits self.now journal.now thread ptcr }
        ensures { result ≡ directory_of self.now journal.now thread kind lpid pid sought };

    /// A guest page that stands for a guest real address, or none.
    fn guest_page(&self, journal: &Journal, thread: u8, lpid: u16, gra: u64) -> Option<u32>
        requires thread { is_for self.now thread }
        requires quiet { IsQuiet journal.now.rows }
        requires fits { (ptcr : ℕ) × fits self.now journal.now thread ptcr }
        ensures { result ≡ page_of self.now journal.now thread lpid gra };

    /// A directory that it gives stands, is for the address, and was made by a finished walk under this value.
    ghost directory_stands: { (s : Self) (j : JournalView) (t ptcr : ℕ) (kind : KeyKind) (lpid pid sought i : ℕ) → IsDirectoryKind kind → is_for s t → IsQuiet j.rows → fits s j t ptcr → directory_of s j t kind lpid pid sought ≡ Some i → IsKeptDirectory j t ptcr kind lpid pid sought i };

    /// So does a guest page.
    ghost page_stands: { (s : Self) (j : JournalView) (t ptcr lpid gra i : ℕ) → is_for s t → IsQuiet j.rows → fits s j t ptcr → page_of s j t lpid gra ≡ Some i → IsKeptPage j t ptcr lpid gra i };
}

/// Keeps nothing, for every thread and beside every journal.
#[derive(Clone, Copy, Debug)]
pub struct NothingKept;

impl Kept for NothingKept {
    ghost is_for = { λ s t. Unit {0} };

    ghost fits = { λ s j t ptcr. Unit {0} };

    ghost directory_of = { λ s j t kind lpid pid sought. None };

    ghost page_of = { λ s j t lpid gra. None };

    fn directory(
        &self,
        _journal: &Journal,
        _thread: u8,
        _kind: KeyKind,
        _lpid: u16,
        _pid: u32,
        _sought: u64,
    ) -> Option<u32> {
        None
    }

    fn guest_page(&self, _journal: &Journal, _thread: u8, _lpid: u16, _gra: u64) -> Option<u32> {
        None
    }

    ghost directory_stands = { λ s j t ptcr kind lpid pid sought i of_kind thread quiet fits is. Prim.cc };

    ghost page_stands = { λ s j t ptcr lpid gra i thread quiet fits is. Prim.cc };
}
