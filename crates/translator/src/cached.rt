//! Translation with kept fills.

ghost use Rattle.std.specs.Prelude.{◌≡◌, ◌<◌, ◌≤◌, ℕ, List, length, Option};
ghost use Rattle.journal_core.specs.declared.rows.KeyKind.TheVariants.{Translation};
ghost use Rattle.journal_core.specs.Rows.{JournalView};
ghost use Rattle.journal_core.specs.Turns.{next_turn};
ghost use Rattle.journal_core.specs.Steps.{IsDatedSoFar};
ghost use Rattle.journal_core.specs.Standing.{AreNamed, IsStandingKey};
ghost use Rattle.journal_core.specs.Translating.{IsQuiet, IsLastDone, without_done};
ghost use Rattle.translator.specs.LastPlaces.{shown_last};
ghost use Rattle.translator.specs.Fits.{Fits, IsPageKind, FitsThread, IsValueAfter, after_done_in};

use crate::lists::Lists;
use journal_core::{Ask, DoneRow, Found, Journal, Key, TableReader, Translate};
use std::marker::Model;

/// Keeps translations and guest pages, for each of at most four threads its own.
///
/// An ask that points at a real address is answered by it. Any other is answered by the kept fill of its own key that stands, if the
/// ask's rights permit it; by a walk of the tables as they stand in every other case, and where that ends in a page its fill is kept.
#[derive(Drop)]
pub struct Cached {
    lists: Lists,
}

impl Model for Cached {
    ghost use Rattle.std.specs.Prelude.{◌≤◌};
    ghost use Rattle.translator.specs.declared.lists.Lists.{Lists};

    ghost Value = { Lists };

    ghost view = { λ c. c.lists };

    ghost invariant = { λ c. c.lists.threads ≤ 4 };
}

impl Cached {
    /// Keeps nothing yet, for so many threads. It fits each journal that has no fill from the floor on, as an empty one has none.
    pub fn new(threads: u8) -> Cached
        requires some { 1 ≤ threads }
        requires few { threads ≤ 4 }
        ensures threads { result.threads ≡ threads }
        ensures fits { (j : JournalView) (values : List ℕ) → j.floor ≡ length j.rows.fills → Fits result j values }
    {
        Cached {
            lists: Lists::new(threads),
        }
    }

    /// The key and the fill at a place of a thread's set of translations, of the last four the oldest first, or `None` where there is
    /// none or it was dropped.
    pub fn fills(&self, thread: u8, set: u8, place: u8) -> Option<(Key, u32)>
        requires { thread < self.now.threads }
        ensures { (j : JournalView) (values : List ℕ) → Fits self.now j values → result ≡ shown_last j thread Translation set place }
    {
        self.lists.fills(thread, set, place)
    }

    /// The fill of a key that the next translation looks at: where no operation was completed in the step that is being made, the
    /// one that stands.
    pub fn newest(&self, thread: u8, key: &Key) -> Option<u32>
        requires thread { thread < self.now.threads }
        requires kind { IsPageKind key.now.kind }
        ensures { (j : JournalView) (values : List ℕ) → Fits self.now j values → AreNamed j.rows.reads j.rows.fills → IsDatedSoFar j.rows → IsQuiet j.rows → IsStandingKey (next_turn j thread) (length j.rows.fills) key.now result }
    {
        self.lists.newest(thread, key)
    }
}

impl Translate for Cached {
    ghost use Rattle.std.specs.Prelude.{◌<◌};
    ghost use Rattle.journal_core.specs.Early.{PagesChoice};
    ghost use Rattle.walk_laws.proofs.ChoiceStays.{pages_choice_goes_on};
    ghost use Rattle.translator.specs.Fits.{Fits};
    ghost use Rattle.translator.specs.Stays.{fits_stays};

    ghost has_thread = { λ s t. t < s.threads };

    ghost fits = { λ s j values. Fits s j values };

    ghost chooses = { PagesChoice };

    fn translate<R: TableReader>(
        &mut self,
        reader: &R,
        journal: &mut Journal,
        thread: u8,
        ask: &Ask,
        moment: u32,
    ) -> Found {
        self.lists.translate(reader, journal, thread, ask, moment)
    }

    fn complete(&mut self, journal: &Journal, row: &DoneRow) {
        self.lists.complete(journal, row)
    }

    ghost stays = { λ s j k values same fits. fits_stays s j k values same fits };

    ghost chosen_stays = { pages_choice_goes_on };
}
