ghost use Rattle.std.specs.Prelude.{◌≡◌, ◌<◌, ◌≤◌, ◌^◌, ℕ, List};
ghost use Rattle.journal_core.specs.Past.{Fits};

use super::*;
use journal_core::{Journal, StepEnd, StepRow, TableReader, Use};
use std::alloc::Global;
use std::process::Abort;
use std::test::Fail;

#[test]
fn placed_bytes_are_loaded_as_little_endian_numbers(rt: HostRuntime) -> Result<(), Fail> {
    let mut store = Store::open(rt.alloc(), 16)?;
    assert_eq!(rt; store.size(), 16);
    assert_eq!(rt; store.place(12, &[0x01, 0x00, 0x60, 0x38]), Ok(()));
    assert_eq!(rt; store.load(12, 4), Ok(0x3860_0001));
    assert_eq!(rt; store.load(11, 1), Ok(0));
    Ok(())
}

#[test]
fn only_a_byte_outside_is_no_storage(rt: HostRuntime) -> Result<(), Fail> {
    let mut store = Store::open(rt.alloc(), 16)?;
    assert_eq!(rt; store.place(13, &[1, 2, 3, 4]), Err(NoStorage));
    assert_eq!(rt; store.place(100, &[]), Ok(()));
    assert_eq!(rt; store.load(13, 4), Err(NoStorage));
    assert_eq!(rt; store.load(u64::MAX, 8), Err(NoStorage));
    assert_eq!(rt; store.load(8, 8), Ok(0));
    Ok(())
}

#[test]
fn the_last_eight_bytes_are_stored_with_a_row(rt: HostRuntime) -> Result<(), Fail> {
    let mut store = Store::open(rt.alloc(), 16)?;
    let mut journal = Journal::open(rt.alloc(), 1)?;
    assert_eq!(rt; store.place(12, &[0x01, 0x00, 0x60, 0x38]), Ok(()));
    let outside = store.store(&mut journal, 2, 0, 9, 8, 1);
    assert_eq!(rt; outside, Err(NoStorage));
    assert_eq!(rt; journal.counts().writes, 0);
    let stored = store.store(&mut journal, 2, 0, 8, 8, 0x1122_3344_5566_7788);
    assert_eq!(rt; stored, Ok(()));
    assert_eq!(rt; store.load(8, 8), Ok(0x1122_3344_5566_7788));
    let row = journal.write(0).ok_or("no row")?;
    assert_eq!(rt; (row.step, row.thread, row.at, row.size), (0, 2, 8, 8));
    assert_eq!(rt;
        (row.old, row.new),
        (0x3860_0001_0000_0000, 0x1122_3344_5566_7788)
    );
    Ok(())
}

#[test]
fn a_table_word_has_its_highest_byte_first(rt: HostRuntime) -> Result<(), Fail> {
    let mut store = Store::open(rt.alloc(), 16)?;
    let bytes = [0x11, 0x22, 0x33, 0x44, 0x55, 0x66, 0x77, 0x88];
    assert_eq!(rt; store.place(8, &bytes), Ok(()));
    assert_eq!(rt; store.table_word(8), Some(0x1122_3344_5566_7788));
    assert_eq!(rt; store.table_word(9), None);
    assert_eq!(rt; store.table_word(u64::MAX), None);
    Ok(())
}

/// A step that stores a number, in a journal for three steps.
fn store_in_a_step(
    rt: &impl Abort,
    store: &mut Store,
    journal: &mut Journal,
    at: u64,
    size: u8,
    value: u64,
)
    requires some { 1 ≤ size }
    requires most { size ≤ 8 }
    requires value { value < 256 ^ size }
    requires reserved { journal.old.reserved ≡ 3 }
    requires fits { (first : List ℕ) × Fits first journal.old.rows.writes store.old.ram }
    ensures reserved { journal.new.reserved ≡ 3 }
    ensures fits { (first : List ℕ) × Fits first journal.new.rows.writes store.new.ram }
{
    let counts = journal.counts();
    assert!(rt; counts.writes < 48);
    assert!(rt; counts.steps < 3);
    storing_keeps_fitting();
    match store.store(journal, 0, counts.steps, at, size, value) {
        Ok(()) => journal.push_step(StepRow {
            thread: 0,
            cia: 0,
            word: Some(0xf864_0000),
            end: StepEnd::Ran,
            uses: [Use::Real(0), Use::Real(at), Use::Unused],
        }),
        Err(NoStorage) => {}
    }
}

/// Bytes 2 to 9 and 8 to 15, after three steps of writes that overlap were made and those from `moment` on taken back.
fn taken_back_to(rt: &impl Abort, alloc: Global, moment: u32) -> Result<(u64, u64), Fail> {
    let mut store = Store::open(alloc, 16)?;
    let mut journal = Journal::open(alloc, 3)?;
    a_store_fits_no_rows(&store);
    store_in_a_step(rt, &mut store, &mut journal, 4, 8, 0x1122_3344_5566_7788);
    store_in_a_step(rt, &mut store, &mut journal, 2, 4, 0xaabb_ccdd);
    store_in_a_step(rt, &mut store, &mut journal, 5, 5, 0x01_0203_0405);
    store.undo_to(&journal, moment);
    let low = store.load(2, 8).map_err(|_| "low")?;
    let high = store.load(8, 8).map_err(|_| "high")?;
    Ok((low, high))
}

#[test]
fn overlapping_writes_are_taken_back_to_each_step(rt: HostRuntime) -> Result<(), Fail> {
    assert_eq!(rt;
        taken_back_to(&rt, rt.alloc(), 3)?,
        (0x0102_0304_05bb_ccdd, 0x1122_0102)
    );
    assert_eq!(rt;
        taken_back_to(&rt, rt.alloc(), 2)?,
        (0x3344_5566_aabb_ccdd, 0x1122_3344)
    );
    assert_eq!(rt;
        taken_back_to(&rt, rt.alloc(), 1)?,
        (0x3344_5566_7788_0000, 0x1122_3344)
    );
    assert_eq!(rt; taken_back_to(&rt, rt.alloc(), 0)?, (0, 0));
    Ok(())
}
