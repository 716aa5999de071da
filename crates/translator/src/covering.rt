//! What a completed operation ends.

ghost use Rattle.std.specs.Prelude.{◌≡◌, ◌≤◌, [], ◌∷◌, slice_get};
ghost use Rattle.translator.specs.PlaceLists.{ends_one, ends_fill, ends_number};

use journal_core::{DoneRow, FillRow, Journal};
use tlbie_ops::ends_reading;

/// Whether an operation ends the use, for a thread, of the reading of this number.
fn ends_at(journal: &Journal, thread: u8, number: u32, row: &DoneRow) -> bool
    ensures { result ≡ ends_one journal.now.rows.reads thread row.now (number ∷ []) }
{
    match journal.read(number) {
        Some(read) => ends_reading(thread, read, row),
        None => false,
    }
}

/// Whether it ends the use of one of the readings of a fill.
fn ends_fill(journal: &Journal, thread: u8, fill: &FillRow, row: &DoneRow) -> bool
    requires count { fill.now.count ≤ 36 }
    ensures { result ≡ ends_fill journal.now.rows.reads thread row.now fill.now }
{
    for k in 0..fill.count {
        if ends_at(journal, thread, fill.reads[k as usize], row) {
            return true;
        }
    }
    false
}

/// Whether it ends the use of one of the readings of the fill of this number.
pub fn ends_number(journal: &Journal, thread: u8, fill: u32, row: &DoneRow) -> bool
    ensures { result ≡ ends_number journal.now.rows.reads thread row.now (slice_get journal.now.rows.fills fill) }
{
    journal.fills_are_named();
    match journal.fill(fill) {
        Some(fill) => ends_fill(journal, thread, fill, row),
        None => false,
    }
}
