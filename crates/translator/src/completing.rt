//! What a completed operation does to a list of kept fills.

ghost use Rattle.std.specs.Prelude.{◌≡◌, map};
ghost use Rattle.translator.specs.PlaceLists.{HasFours, after_done};
ghost use Rattle.translator.specs.Marks.{settle_at, AreMarked, SetIsSettled};

use crate::covering::ends_number;
use crate::places::PlaceList;
use journal_core::{DoneRow, Journal};
use tlbie_ops::reaches;

/// Drops the fill at a place of a set, if the operation ends one of its readings.
fn settle_at(journal: &Journal, thread: u8, row: &DoneRow, list: &mut PlaceList, set: u8, place: u8)
    ensures { list.new ≡ settle_at journal.now.rows thread row.now set place list.old }
{
    if let Some((_, fill)) = list.at(set, place) {
        if ends_number(journal, thread, fill, row) {
            list.drop_fill(fill);
        }
    }
}

/// Drops the fills of a set of which the operation ends a reading.
fn complete_set(journal: &Journal, thread: u8, row: &DoneRow, list: &mut PlaceList, set: u8)
    ensures marked { AreMarked journal.now.rows thread row.now list.old list.new }
    ensures settled { SetIsSettled journal.now.rows thread row.now list.new set 4 }
{
    for place in 0..4 {
        settle_at(journal, thread, row, list, set, place);
    }
}

/// Drops the fills of which the operation ends a reading: none where it does not reach the thread.
pub fn complete_list(journal: &Journal, thread: u8, row: &DoneRow, list: &mut PlaceList)
    requires { HasFours list.old }
    ensures { list.new ≡ map (after_done journal.now.rows thread row.now) list.old }
{
    if list.is_empty() {
        return;
    }
    if !reaches(row, thread) {
        return;
    }
    for set in 0..16 {
        complete_set(journal, thread, row, list, set);
    }
}
