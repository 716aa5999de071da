//! Laws of RAM and its write rows. Each function does nothing: its contract is the law.

ghost use Rattle.journal_core.specs.Past.{Fits};
ghost use Rattle.journal_core.specs.Rows.{no_rows};
ghost use Rattle.real_store.specs.StoreLaws.{AStoreIsAWrite, AWriteKeepsFitting, AWordIsPast};

use crate::store::Store;

/// A store, as it is opened and filled, fits the empty journal from its own bytes.
pub fn a_store_fits_no_rows(store: &Store)
    ensures { Fits store.now.ram no_rows.writes store.now.ram }
{
    store.holds_bytes();
}

/// A store that fits a journal fits it again after `Store::store`, whose row has the right bytes.
pub fn storing_keeps_fitting()
    ensures right { AStoreIsAWrite }
    ensures fits { AWriteKeepsFitting }
{}

/// A doubleword of a store that fits a journal is, at the step that is made next, what stood there before this step.
pub fn a_table_word_is_past()
    ensures { AWordIsPast }
{}
