//! The walk of a guest real address.

ghost use Rattle.std.specs.Prelude.{◌≡◌, ◌+◌, ◌≤◌, ◌<◌, [], ◌∷◌, ◌++◌, length, map, drop, take, None};
ghost use Rattle.journal_core.specs.declared.walks.TrailItem.TheVariants.{Old, New};
ghost use Rattle.journal_core.specs.declared.walks.PartStage.TheVariants.{Ended};
ghost use Rattle.journal_core.specs.Past.{word_in};
ghost use Rattle.journal_core.specs.WalkLeft.{part_left};
ghost use Rattle.journal_core.specs.Translating.{IsQuiet};
ghost use Rattle.journal_core.specs.PartitionWalk.{part_start, part_next};
ghost use Rattle.journal_core.specs.Standing.{fill_reads};
ghost use Rattle.journal_core.specs.KeptAnswers.{known_of};
ghost use Rattle.part_walk.specs.Ranges.{IsSmallResult, IsInRange};
ghost use Rattle.part_walk.specs.Steps.{part_word, part_row, IsPartOpen};
ghost use Rattle.part_walk.specs.Adds.{PartReplays, CanReplay, CanTake, TakesFill, PartBegins, AddsFresh, AddsFreshWalk, AddsPart};

use crate::readings::{next_word, reading};
use crate::stages::{after, begin};
use crate::trail::Trail;
use journal_core::{
    FillRow, Journal, Kept, KeyKind, NothingKept, PartResult, PartStage, StopName, TableReader,
    TrailItem,
};

/// Takes readings by their numbers, from the `from`th on, in place of reading.
fn replay(
    journal: &Journal,
    lpid: u16,
    gra: u64,
    stage: PartStage,
    numbers: &[u32],
    from: usize,
    trail: &mut Trail,
) -> PartStage
    requires range { IsInRange stage }
    requires room { length trail.old + length (drop from numbers.now) ≤ 36 }
    requires replays { CanReplay journal.now.rows.reads lpid gra stage (drop from numbers.now) }
    ensures items { trail.new ≡ trail.old ++ map Old (drop from numbers.now) }
    ensures stage { PartReplays journal.now.rows.reads lpid gra stage (drop from numbers.now) result }
    ensures range { IsInRange result }
{
    if from >= numbers.len() {
        return stage;
    }
    let number = numbers[from];
    match journal.read(number) {
        None => unreachable!(),
        Some(read) => {
            trail.push(TrailItem::Old(number));
            let next = after(lpid, gra, stage, read.value);
            replay(journal, lpid, gra, next, numbers, from + 1, trail)
        }
    }
}

/// Begins a walk with the readings of a fill.
fn take_readings(
    journal: &Journal,
    ptcr: u64,
    lpid: u16,
    gra: u64,
    fill: &FillRow,
    trail: &mut Trail,
) -> PartStage
    requires count { fill.now.count ≤ 36 }
    requires room { length trail.old + length (fill_reads fill.now) ≤ 36 }
    requires replays { CanReplay journal.now.rows.reads lpid gra (part_start ptcr lpid) (fill_reads fill.now) }
    ensures items { trail.new ≡ trail.old ++ map Old (fill_reads fill.now) }
    ensures stage { PartReplays journal.now.rows.reads lpid gra (part_start ptcr lpid) (fill_reads fill.now) result }
    ensures range { IsInRange result }
{
    let start = begin(ptcr, lpid);
    replay(
        journal,
        lpid,
        gra,
        start,
        &fill.reads[..fill.count as usize],
        0,
        trail,
    )
}

/// Begins a walk with the readings of fill `i`.
fn take_fill(
    journal: &Journal,
    ptcr: u64,
    lpid: u16,
    gra: u64,
    i: u32,
    trail: &mut Trail,
) -> PartStage
    requires room { length trail.old ≤ 31 }
    requires fill { CanTake journal.now.rows ptcr lpid gra i }
    ensures takes { TakesFill journal.now.rows ptcr lpid gra i result trail.old trail.new }
    ensures range { IsInRange result }
{
    match journal.fill(i) {
        None => unreachable!(),
        Some(fill) => take_readings(journal, ptcr, lpid, gra, fill, trail),
    }
}

/// Begins a walk with the guest page that is kept, else with the directory, else at the partition's entry.
///
/// The readings that it takes come onto the trail; the stage is where the walk goes on.
pub fn begin_with<C: Kept>(
    kept: &C,
    journal: &Journal,
    thread: u8,
    ptcr: u64,
    lpid: u16,
    gra: u64,
    trail: &mut Trail,
) -> PartStage
    requires thread { C.is_for kept.now thread }
    requires quiet { IsQuiet journal.now.rows }
    requires fits { C.fits kept.now journal.now thread ptcr }
    requires room { length trail.old ≤ 31 }
    ensures begins { PartBegins (known_of journal.now.rows (C.directory_of kept.now journal.now thread) (C.page_of kept.now journal.now thread)) ptcr lpid gra result trail.old trail.new }
    ensures range { IsInRange result }
{
    if let Some(i) = kept.guest_page(journal, thread, lpid, gra) {
        return take_fill(journal, ptcr, lpid, gra, i, trail);
    }
    if let Some(i) = kept.directory(journal, thread, KeyKind::PartDir, lpid, 0, gra) {
        return take_fill(journal, ptcr, lpid, gra, i, trail);
    }
    begin(ptcr, lpid)
}

/// Makes a reading where the walk stands.
fn step(
    lpid: u16,
    gra: u64,
    moment: u32,
    stage: PartStage,
    value: u64,
    trail: &mut Trail,
) -> PartStage
    requires range { IsInRange stage }
    requires under_way { IsPartOpen stage }
    requires room { length trail.old + part_left stage ≤ 36 }
    ensures stage { result ≡ part_next lpid gra stage value }
    ensures items { trail.new ≡ trail.old ++ New (part_row lpid gra stage moment value) ∷ [] }
    ensures range { IsInRange result }
    ensures fewer { part_left result < part_left stage }
{
    trail.push(TrailItem::New(reading(lpid, gra, stage, moment, value)));
    after(lpid, gra, stage, value)
}

/// The outcome of a walk that is over.
fn outcome(gra: u64, stage: PartStage) -> PartResult
    requires range { IsInRange stage }
    requires over { part_word gra stage ≡ None }
    ensures stage { stage ≡ Ended result }
    ensures small { IsSmallResult result }
{
    match stage {
        PartStage::Ended(out) => out,
        _ => unreachable!(),
    }
}

/// The walk from a stage on, read now.
fn walk_from<R: TableReader>(
    reader: &R,
    lpid: u16,
    gra: u64,
    moment: u32,
    stage: PartStage,
    trail: &mut Trail,
) -> PartResult
    requires range { IsInRange stage }
    requires room { length trail.old + part_left stage ≤ 36 }
    ensures walk { AddsFresh (word_in (R.ram reader.now)) moment lpid gra stage trail.old trail.new result }
    ensures small { IsSmallResult result }
{
    match next_word(gra, stage) {
        None => outcome(gra, stage),
        Some(at) => match reader.table_word(at) {
            None => PartResult::Stop(StopName::NoStorage, at),
            Some(value) => {
                let next = step(lpid, gra, moment, stage, value, trail);
                walk_from(reader, lpid, gra, moment, next, trail)
            }
        },
    }
}

/// The walk of a guest real address in a partition's tree, which begins with what is kept (Power ISA, Book III, 5.7).
///
/// It adds at most five items to the trail: the readings that `kept` answers for the address, and those that it makes now. Its
/// outcome is a leaf, a fault or a stop: `HashedPartition` with the partition, or `NoStorage` with the place of a word that is
/// not in storage.
pub fn walk_partition<R: TableReader, C: Kept>(
    reader: &R,
    kept: &C,
    journal: &Journal,
    thread: u8,
    ptcr: u64,
    lpid: u16,
    gra: u64,
    moment: u32,
    trail: &mut Trail,
) -> PartResult
    requires room { length trail.old ≤ 31 }
    requires moment { moment ≡ length journal.now.rows.steps }
    requires quiet { IsQuiet journal.now.rows }
    requires thread { C.is_for kept.now thread }
    requires fits { C.fits kept.now journal.now thread ptcr }
    ensures resumed { AddsPart (word_in (R.ram reader.now)) moment (known_of journal.now.rows (C.directory_of kept.now journal.now thread) (C.page_of kept.now journal.now thread)) ptcr lpid gra trail.old trail.new result }
    ensures few { length trail.new ≤ length trail.old + 5 }
    ensures kept { take (length trail.old) trail.new ≡ trail.old }
    ensures small { IsSmallResult result }
{
    let stage = begin_with(kept, journal, thread, ptcr, lpid, gra, trail);
    walk_from(reader, lpid, gra, moment, stage, trail)
}

/// The fresh walk of a guest real address in a partition's tree: all of it is read now.
pub fn walk_partition_fresh<R: TableReader>(
    reader: &R,
    journal: &Journal,
    thread: u8,
    ptcr: u64,
    lpid: u16,
    gra: u64,
    moment: u32,
    trail: &mut Trail,
) -> PartResult
    requires room { length trail.old ≤ 31 }
    requires moment { moment ≡ length journal.now.rows.steps }
    requires quiet { IsQuiet journal.now.rows }
    ensures fresh { AddsFreshWalk (word_in (R.ram reader.now)) moment ptcr lpid gra trail.old trail.new result }
    ensures few { length trail.new ≤ length trail.old + 5 }
    ensures kept { take (length trail.old) trail.new ≡ trail.old }
    ensures small { IsSmallResult result }
{
    walk_partition(
        reader,
        &NothingKept,
        journal,
        thread,
        ptcr,
        lpid,
        gra,
        moment,
        trail,
    )
}
