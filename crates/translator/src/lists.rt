//! The lists of kept fills of all threads, and translation with them.

ghost use Rattle.std.specs.Prelude.{◌≡◌, ◌<◌, ◌≤◌, ◌+◌, ◌↔◌, ℕ, List, [], length, Option, Some, None, slice_get, slice_index_or, filter};
ghost use Rattle.journal_core.specs.Rows.{JournalView, no_rows};
ghost use Rattle.journal_core.specs.Places.{place_of};
ghost use Rattle.journal_core.specs.Fills.{own_key};
ghost use Rattle.journal_core.specs.Past.{word_in};
ghost use Rattle.journal_core.specs.Room.{walk_reads, walk_fills, read_places, fill_places};
ghost use Rattle.journal_core.specs.Turns.{query_of, turn_in, next_turn, mark_of};
ghost use Rattle.journal_core.specs.Choice.{IsTranslated, PlainChoice};
ghost use Rattle.journal_core.specs.Early.{PagesChoice};
ghost use Rattle.journal_core.specs.Answers.{IsAnswer};
ghost use Rattle.journal_core.specs.Translating.{IsQuiet, AreTrue, OnlyAdds, IsLastDone, without_done, AreValuesAfter};
ghost use Rattle.journal_core.specs.declared.rows.KeyKind.TheVariants.{Translation};
ghost use Rattle.journal_core.specs.Steps.{IsDatedSoFar};
ghost use Rattle.journal_core.specs.Standing.{AreNamed, IsStandingKey};
ghost use Rattle.translator.specs.LastPlaces.{shown_last};
ghost use Rattle.translator.specs.Says.{HitSays, after_answer};
ghost use Rattle.translator.specs.PlaceLists.{newest, live, shown, of_set};
ghost use Rattle.translator.specs.Fits.{Fits, IsPageKind, list_of, with_fill_in, FitsThread, IsValueAfter, after_done_in};

use crate::completing::complete_list;
use crate::places::PlaceList;
use journal_core::{Ask, DoneRow, Found, Journal, Key, KeyKind, Place, TableReader, Use};
use nested_walk::place_of;
use walk_rows::{fresh_answer, page_of_fill};

/// The translations and the guest pages that are kept, for each thread its own.
#[derive(Drop)]
pub struct Lists {
    /// How many threads there are.
    pub threads: u8,
    /// The translations of each.
    pub translations: [PlaceList; 4],
    /// The guest pages of each.
    pub pages: [PlaceList; 4],
}

/// Four empty lists.
fn no_lists() -> [PlaceList; 4]
    ensures { (t : ℕ) → slice_index_or result t [] ≡ [] }
{
    [
        PlaceList::new(),
        PlaceList::new(),
        PlaceList::new(),
        PlaceList::new(),
    ]
}

impl Lists {
    /// Keeps nothing yet, for so many threads. It fits each journal that has no fill from the floor on, as an empty one has none.
    pub fn new(threads: u8) -> Lists
        requires some { 1 ≤ threads }
        requires few { threads ≤ 4 }
        ensures threads { result.threads ≡ threads }
        ensures fits { (j : JournalView) (values : List ℕ) → j.floor ≡ length j.rows.fills → Fits result j values }
    {
        Lists {
            threads,
            translations: no_lists(),
            pages: no_lists(),
        }
    }

    /// The fill of a key, if its newest place was not dropped.
    fn find(&self, thread: u8, key: &Key) -> Option<u32>
        requires { thread < 4 }
        ensures { result ≡ live (newest key.now (list_of key.now.kind self.now thread)) }
    {
        match key.kind {
            KeyKind::Translation => self.translations[thread as usize].find(key),
            KeyKind::GuestPage => self.pages[thread as usize].find(key),
            KeyKind::ProcessDir | KeyKind::PartDir => None,
        }
    }

    /// Keeps a fill.
    fn insert(&mut self, thread: u8, key: Key, fill: u32)
        requires { thread < 4 }
        ensures { self.new ≡ with_fill_in key fill self.old thread }
    {
        match key.kind {
            KeyKind::Translation => self.translations[thread as usize].insert(key, fill),
            KeyKind::GuestPage => self.pages[thread as usize].insert(key, fill),
            KeyKind::ProcessDir | KeyKind::PartDir => (),
        }
    }

    /// The fill of a key that stands and permits an ask, and the page to which it leads.
    fn look(&self, journal: &Journal, thread: u8, ask: &Ask, key: &Key) -> Option<(u32, u64)>
        requires within { thread < 4 }
        requires thread { thread < self.now.threads }
        requires translated { IsTranslated ask.now }
        requires key { own_key (place_of ask.now) ≡ Some key.now }
        requires quiet { IsQuiet journal.now.rows }
        requires fits { (values : List ℕ) × Fits self.now journal.now values }
        ensures { HitSays journal.now thread ask.now result }
    {
        journal.fills_are_named();
        journal.rows_are_dated();
        match self.find(thread, key) {
            Some(i) => match journal.fill(i) {
                Some(fill) => match page_of_fill(journal, ask, fill) {
                    Some(real) => Some((i, real)),
                    None => None,
                },
                None => None,
            },
            None => None,
        }
    }

    /// The fill of an ask that stands and permits it, if the ask has a key, and the page to which it leads.
    fn hit(&self, journal: &Journal, thread: u8, ask: &Ask, key: Option<Key>) -> Option<(u32, u64)>
        requires within { thread < 4 }
        requires thread { thread < self.now.threads }
        requires translated { IsTranslated ask.now }
        requires key { own_key (place_of ask.now) ≡ key }
        requires quiet { IsQuiet journal.now.rows }
        requires fits { (values : List ℕ) × Fits self.now journal.now values }
        ensures { HitSays journal.now thread ask.now result }
    {
        match key {
            Some(key) => self.look(journal, thread, ask, &key),
            None => None,
        }
    }

    /// Keeps the fill of an answer.
    fn keep(&mut self, thread: u8, key: Option<Key>, found: &Found)
        requires { thread < 4 }
        ensures { self.new ≡ after_answer key found.now self.old thread }
    {
        if let Some(key) = key {
            if let Found::Real(_, Use::Walked(fill, _)) = *found {
                self.insert(thread, key, fill);
            }
        }
    }

    /// Answers an ask by a fresh walk, and keeps its fill.
    fn walk<R: TableReader>(
        &mut self,
        reader: &R,
        journal: &mut Journal,
        thread: u8,
        ask: &Ask,
        key: Option<Key>,
        moment: u32,
    ) -> Found
        requires reads { length journal.old.rows.reads + walk_reads ≤ read_places journal.old.reserved }
        requires fills { length journal.old.rows.fills + walk_fills ≤ fill_places journal.old.reserved }
        requires moment { moment ≡ length journal.old.rows.steps }
        requires quiet { IsQuiet journal.old.rows }
        requires within { thread < 4 }
        requires translated { IsTranslated ask.now }
        requires key { own_key (place_of ask.now) ≡ key }
        ensures adds { OnlyAdds journal.old journal.new }
        ensures chosen { (word : ℕ → Option ℕ) → ((at : ℕ) → word at ≡ word_in (R.ram reader.now) at) → PlainChoice (query_of (turn_in journal.new thread moment) word (mark_of journal.old.rows) ask.now) result (mark_of journal.new.rows) }
        ensures fits { (values : List ℕ) → slice_get values thread ≡ Some ask.now.ptcr → Fits self.old journal.old values → Fits self.new journal.new values }
        ensures threads { self.new.threads ≡ self.old.threads }
    {
        journal.fills_are_named();
        let found = fresh_answer(reader, journal, thread, ask, moment);
        self.keep(thread, key, &found);
        found
    }

    /// Answers an ask that points at no real address: with the fill of its key that stands and permits it, else by a fresh walk.
    fn answer<R: TableReader>(
        &mut self,
        reader: &R,
        journal: &mut Journal,
        thread: u8,
        ask: &Ask,
        moment: u32,
    ) -> Found
        requires reads { length journal.old.rows.reads + walk_reads ≤ read_places journal.old.reserved }
        requires fills { length journal.old.rows.fills + walk_fills ≤ fill_places journal.old.reserved }
        requires moment { moment ≡ length journal.old.rows.steps }
        requires quiet { IsQuiet journal.old.rows }
        requires within { thread < 4 }
        requires thread { thread < self.old.threads }
        requires translated { IsTranslated ask.now }
        requires fits { (values : List ℕ) × Fits self.old journal.old values }
        ensures adds { OnlyAdds journal.old journal.new }
        ensures chosen { (word : ℕ → Option ℕ) → ((at : ℕ) → word at ≡ word_in (R.ram reader.now) at) → PagesChoice (query_of (turn_in journal.new thread moment) word (mark_of journal.old.rows) ask.now) result (mark_of journal.new.rows) }
        ensures fits { (values : List ℕ) → slice_get values thread ≡ Some ask.now.ptcr → Fits self.old journal.old values → Fits self.new journal.new values }
        ensures threads { self.new.threads ≡ self.old.threads }
    {
        journal.fills_are_named();
        let key = key_of(place_of(ask));
        match self.hit(journal, thread, ask, key) {
            Some((fill, real)) => Found::Real(real, Use::Hit(fill, real)),
            None => self.walk(reader, journal, thread, ask, key, moment),
        }
    }

    /// Translates the address of an ask of a thread in the step that is being made.
    ///
    /// A real address is answered as it is. Any other is answered by the fill of its own key that stands, if the ask's rights permit
    /// it, and by a fresh walk in every other case, whose fill is then kept.
    pub fn translate<R: TableReader>(
        &mut self,
        reader: &R,
        journal: &mut Journal,
        thread: u8,
        ask: &Ask,
        moment: u32,
    ) -> Found
        requires reads { length journal.old.rows.reads + walk_reads ≤ read_places journal.old.reserved }
        requires fills { length journal.old.rows.fills + walk_fills ≤ fill_places journal.old.reserved }
        requires moment { moment ≡ length journal.old.rows.steps }
        requires quiet { IsQuiet journal.old.rows }
        requires within { thread < 4 }
        requires thread { thread < self.old.threads }
        requires fits { (values : List ℕ) × (slice_get values thread ≡ Some ask.now.ptcr) × Fits self.old journal.old values }
        ensures adds { OnlyAdds journal.old journal.new }
        ensures answer { (past : ℕ → ℕ → Option ℕ) → ((at : ℕ) → past moment at ≡ word_in (R.ram reader.now) at) → AreTrue past journal.old.rows → IsAnswer past (query_of (turn_in journal.new thread moment) (past moment) (mark_of journal.old.rows) ask.now) result (mark_of journal.new.rows) }
        ensures chosen { (word : ℕ → Option ℕ) → ((at : ℕ) → word at ≡ word_in (R.ram reader.now) at) → PagesChoice (query_of (turn_in journal.new thread moment) word (mark_of journal.old.rows) ask.now) result (mark_of journal.new.rows) }
        ensures fits { (values : List ℕ) → slice_get values thread ≡ Some ask.now.ptcr → Fits self.old journal.old values → Fits self.new journal.new values }
        ensures threads { self.new.threads ≡ self.old.threads }
    {
        journal.fills_are_named();
        if let Place::Real(at) = place_of(ask) {
            return Found::Real(at, Use::Real(at));
        }
        self.answer(reader, journal, thread, ask, moment)
    }

    /// Drops of a thread's lists each fill of which the operation ends a reading.
    fn drop_ended(&mut self, journal: &Journal, thread: u8, row: &DoneRow)
        requires within { thread < 4 }
        requires fits { (value : Option ℕ) × FitsThread self.old (without_done journal.now) thread value }
        ensures { self.new ≡ after_done_in journal.now.rows thread row.now self.old }
    {
        complete_list(
            journal,
            thread,
            row,
            &mut self.translations[thread as usize],
        );
        complete_list(journal, thread, row, &mut self.pages[thread as usize]);
    }

    /// Takes note of the last done row for one thread: in each of its lists each fill is dropped of which the operation ends a reading.
    pub fn complete_thread(&mut self, journal: &Journal, thread: u8, row: &DoneRow)
        requires within { thread < 4 }
        requires last { IsLastDone journal.now.rows row.now }
        requires step { row.now.step ≡ length journal.now.rows.steps }
        requires fits { (value : Option ℕ) × FitsThread self.old (without_done journal.now) thread value }
        ensures lists { self.new ≡ after_done_in journal.now.rows thread row.now self.old }
        ensures fits { (value new : Option ℕ) → FitsThread self.old (without_done journal.now) thread value → IsValueAfter row.now thread value new → FitsThread self.new journal.now thread new }
    {
        journal.fills_are_named();
        journal.rows_are_dated();
        self.drop_ended(journal, thread, row);
    }

    /// The key and the fill at a place of a thread's set of translations, of the last four the oldest first, or `None` where there is
    /// none or it was dropped.
    pub fn fills(&self, thread: u8, set: u8, place: u8) -> Option<(Key, u32)>
        requires within { thread < 4 }
        requires thread { thread < self.now.threads }
        ensures { (j : JournalView) (values : List ℕ) → Fits self.now j values → result ≡ shown_last j thread Translation set place }
    {
        self.translations[thread as usize].at(set, place)
    }

    /// The fill of a key that the next translation looks at: where no operation was completed in the step that is being made, the
    /// one that stands.
    pub fn newest(&self, thread: u8, key: &Key) -> Option<u32>
        requires within { thread < 4 }
        requires thread { thread < self.now.threads }
        requires kind { IsPageKind key.now.kind }
        ensures { (j : JournalView) (values : List ℕ) → Fits self.now j values → AreNamed j.rows.reads j.rows.fills → IsDatedSoFar j.rows → IsQuiet j.rows → IsStandingKey (next_turn j thread) (length j.rows.fills) key.now result }
    {
        self.find(thread, key)
    }

    /// Takes note of the last done row, for every thread.
    pub fn complete(&mut self, journal: &Journal, row: &DoneRow)
        requires few { self.old.threads ≤ 4 }
        requires last { IsLastDone journal.now.rows row.now }
        requires step { row.now.step ≡ length journal.now.rows.steps }
        requires fits { (values : List ℕ) × Fits self.old (without_done journal.now) values }
        ensures fits { (values new : List ℕ) → Fits self.old (without_done journal.now) values → AreValuesAfter row.now values new → Fits self.new journal.now new }
        ensures threads { self.new.threads ≡ self.old.threads }
    {
        for thread in 0..self.threads {
            self.complete_thread(journal, thread, row);
        }
    }
}

/// The key of an ask's own fill, if it has one.
fn key_of(place: Place) -> Option<Key>
    ensures { result ≡ own_key place }
{
    match place {
        Place::GuestReal(lpid, at) => Some(Key {
            kind: KeyKind::GuestPage,
            lpid,
            pid: 0,
            left: 12,
            page: at >> 12,
        }),
        Place::Space(lpid, pid, at) => Some(Key {
            kind: KeyKind::Translation,
            lpid,
            pid,
            left: 12,
            page: at >> 12,
        }),
        Place::Real(_) | Place::Segment => None,
    }
}
