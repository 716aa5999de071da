//! The walk of an ask.

ghost use Rattle.std.specs.Prelude.{◌≡◌, ◌+◌, ◌≤◌, ◌<◌, [], ◌∷◌, ◌++◌, length, map, drop, Some, None};
ghost use Rattle.journal_core.specs.declared.rows.KeyKind.TheVariants.{ProcessDir};
ghost use Rattle.journal_core.specs.declared.asks.Place.TheVariants.{Space};
ghost use Rattle.journal_core.specs.declared.walks.Stage.TheVariants.{Over};
ghost use Rattle.journal_core.specs.declared.walks.TrailItem.TheVariants.{Old, New};
ghost use Rattle.journal_core.specs.Past.{word_in};
ghost use Rattle.journal_core.specs.Places.{place_of};
ghost use Rattle.journal_core.specs.Walk.{next, process_start, start_at};
ghost use Rattle.journal_core.specs.WalkPlaces.{row_at};
ghost use Rattle.journal_core.specs.WalkLeft.{reads_left};
ghost use Rattle.journal_core.specs.Standing.{fill_reads};
ghost use Rattle.journal_core.specs.Resumed.{Resumed, owed_at, numbers_of};
ghost use Rattle.journal_core.specs.KeptAnswers.{known_of};
ghost use Rattle.journal_core.specs.Choice.{IsTranslated};
ghost use Rattle.journal_core.specs.Takes.{Replays, IsBegun};
ghost use Rattle.journal_core.specs.Translating.{IsQuiet};
ghost use Rattle.walk_laws.specs.KeptBegins.{IsUnderWay};
ghost use Rattle.nested_walk.specs.Ranges.{IsInRange, IsSmallOutcome, IsTranslatedPlace};
ghost use Rattle.nested_walk.specs.Targets.{task_for, target_at, nest_word};
ghost use Rattle.nested_walk.specs.Adds.{CanReplay, CanTake, TakesNumbers, Takes, AddsWalk, IsFreshTrail};

use crate::inner::inside;
use crate::readings::{next_word, reading};
use crate::stages::{next, start};
use crate::targets::{Target, place_of};
use journal_core::{
    Ask, FillRow, Journal, Kept, KeyKind, NestResult, NothingKept, Place, Stage, StopName,
    TableReader, TrailItem,
};
use part_walk::{Trail, begin_with};

/// Where a walk stands after a value, with its partition's walk just begun where an entry is read next.
fn go_on(target: &Target, stage: Stage, value: u64) -> Stage
    requires { IsInRange stage }
    ensures stage { result ≡ next (task_for target.now) stage value }
    ensures range { IsInRange result }
    ensures begun { IsBegun (task_for target.now) result }
{
    next(target, stage, value)
}

/// Takes readings by their numbers, from the `from`th on, in place of reading.
fn replay(
    journal: &Journal,
    target: &Target,
    stage: Stage,
    numbers: &[u32],
    from: usize,
    trail: &mut Trail,
) -> Stage
    requires range { IsInRange stage }
    requires begun { IsBegun (task_for target.now) stage }
    requires room { length trail.old + length (drop from numbers.now) ≤ 36 }
    requires replays { CanReplay journal.now.rows.reads (task_for target.now) stage (drop from numbers.now) }
    ensures items { trail.new ≡ trail.old ++ map Old (drop from numbers.now) }
    ensures stage { Replays journal.now.rows.reads (task_for target.now) stage (drop from numbers.now) result }
    ensures range { IsInRange result }
    ensures begun { IsBegun (task_for target.now) result }
{
    if from >= numbers.len() {
        return stage;
    }
    let number = numbers[from];
    match journal.read(number) {
        None => unreachable!(),
        Some(read) => {
            trail.push(TrailItem::Old(number));
            let then = go_on(target, stage, read.value);
            replay(journal, target, then, numbers, from + 1, trail)
        }
    }
}

/// Takes the readings of a fill.
fn take_readings(
    journal: &Journal,
    target: &Target,
    stage: Stage,
    fill: &FillRow,
    trail: &mut Trail,
) -> Stage
    requires range { IsInRange stage }
    requires begun { IsBegun (task_for target.now) stage }
    requires count { fill.now.count ≤ 36 }
    requires room { length trail.old + reads_left stage ≤ 36 }
    requires replays { CanReplay journal.now.rows.reads (task_for target.now) stage (fill_reads fill.now) }
    ensures takes { TakesNumbers journal.now.rows.reads (task_for target.now) stage result (fill_reads fill.now) trail.old trail.new }
    ensures range { IsInRange result }
    ensures begun { IsBegun (task_for target.now) result }
{
    replay(
        journal,
        target,
        stage,
        &fill.reads[..fill.count as usize],
        0,
        trail,
    )
}

/// Takes the readings of fill `i`.
fn take_fill(journal: &Journal, target: &Target, stage: Stage, i: u32, trail: &mut Trail) -> Stage
    requires range { IsInRange stage }
    requires begun { IsBegun (task_for target.now) stage }
    requires room { length trail.old + reads_left stage ≤ 36 }
    requires fill { CanTake journal.now.rows (task_for target.now) stage i }
    ensures takes { TakesNumbers journal.now.rows.reads (task_for target.now) stage result (numbers_of journal.now.rows.fills (Some i)) trail.old trail.new }
    ensures range { IsInRange result }
    ensures begun { IsBegun (task_for target.now) result }
{
    match journal.fill(i) {
        None => unreachable!(),
        Some(fill) => take_readings(journal, target, stage, fill, trail),
    }
}

/// Begins the walk of a process's address with the directory of its tree that is kept, else at the partition's entry.
///
/// The readings that it takes come onto the trail; the stage is where the walk goes on.
pub fn begin_process<C: Kept>(
    kept: &C,
    journal: &Journal,
    thread: u8,
    target: &Target,
    trail: &mut Trail,
) -> Stage
    requires thread { C.is_for kept.now thread }
    requires quiet { IsQuiet journal.now.rows }
    requires fits { C.fits kept.now journal.now thread target.now.ask.ptcr }
    requires of_process { place_of target.now.ask ≡ Space target.now.lpid target.now.pid target.now.address }
    requires empty { trail.old ≡ [] }
    ensures takes { TakesNumbers journal.now.rows.reads (task_for target.now) (process_start (task_for target.now)) result (numbers_of journal.now.rows.fills (C.directory_of kept.now journal.now thread ProcessDir target.now.lpid target.now.pid target.now.address)) trail.old trail.new }
    ensures range { IsInRange result }
    ensures begun { IsBegun (task_for target.now) result }
{
    let first = start(
        target,
        Place::Space(target.lpid, target.pid, target.address),
    );
    match kept.directory(
        journal,
        thread,
        KeyKind::ProcessDir,
        target.lpid,
        target.pid,
        target.address,
    ) {
        None => first,
        Some(i) => take_fill(journal, target, first, i, trail),
    }
}

/// Begins the walk of an ask at its place.
fn begin<C: Kept>(
    kept: &C,
    journal: &Journal,
    thread: u8,
    target: &Target,
    place: Place,
    trail: &mut Trail,
) -> Stage
    requires thread { C.is_for kept.now thread }
    requires quiet { IsQuiet journal.now.rows }
    requires fits { C.fits kept.now journal.now thread target.now.ask.ptcr }
    requires place { place_of target.now.ask ≡ place }
    requires target { target.now ≡ target_at target.now.ask place }
    requires translated { IsTranslatedPlace place }
    requires empty { trail.old ≡ [] }
    ensures takes { TakesNumbers journal.now.rows.reads (task_for target.now) (start_at (task_for target.now) place) result (owed_at (known_of journal.now.rows (C.directory_of kept.now journal.now thread) (C.page_of kept.now journal.now thread)) place) trail.old trail.new }
    ensures range { IsInRange result }
    ensures begun { IsBegun (task_for target.now) result }
{
    match place {
        Place::Space(lpid, pid, address) => begin_process(kept, journal, thread, target, trail),
        _ => start(target, place),
    }
}

/// Takes what is kept where the walk of a partition's tree begins.
fn take_kept<C: Kept>(
    kept: &C,
    journal: &Journal,
    thread: u8,
    target: &Target,
    stage: Stage,
    trail: &mut Trail,
) -> Stage
    requires thread { C.is_for kept.now thread }
    requires quiet { IsQuiet journal.now.rows }
    requires fits { C.fits kept.now journal.now thread target.now.ask.ptcr }
    requires range { IsInRange stage }
    requires begun { IsBegun (task_for target.now) stage }
    requires room { length trail.old + reads_left stage ≤ 36 }
    ensures takes { Takes (known_of journal.now.rows (C.directory_of kept.now journal.now thread) (C.page_of kept.now journal.now thread)) (task_for target.now) stage result trail.old trail.new }
    ensures range { IsInRange result }
    ensures room { length trail.new + reads_left result ≤ length trail.old + reads_left stage }
{
    match stage {
        Stage::PartEntry(goal, gra, _at) => {
            let ptcr = target.ask.ptcr;
            let part = begin_with(kept, journal, thread, ptcr, target.lpid, gra, trail);
            inside(target, goal, gra, part)
        }
        _ => stage,
    }
}

/// Makes a reading where the walk stands.
fn make_reading(target: &Target, moment: u32, stage: Stage, value: u64, trail: &mut Trail) -> Stage
    requires range { IsInRange stage }
    requires under_way { IsUnderWay stage }
    requires room { length trail.old + reads_left stage ≤ 36 }
    ensures stage { result ≡ next (task_for target.now) stage value }
    ensures items { trail.new ≡ trail.old ++ New (row_at (task_for target.now) moment stage value) ∷ [] }
    ensures range { IsInRange result }
    ensures begun { IsBegun (task_for target.now) result }
    ensures fewer { reads_left result < reads_left stage }
{
    trail.push(TrailItem::New(reading(target, stage, moment, value)));
    go_on(target, stage, value)
}

/// The outcome of a walk that is over.
fn outcome(stage: Stage) -> NestResult
    requires range { IsInRange stage }
    requires over { nest_word stage ≡ None }
    ensures stage { stage ≡ Over result }
    ensures small { IsSmallOutcome result }
{
    match stage {
        Stage::Over(out) => out,
        _ => unreachable!(),
    }
}

/// The walk from a stage on: it takes what is kept where the walk of a partition's tree begins, and reads one word.
fn walk_on<R: TableReader, C: Kept>(
    reader: &R,
    kept: &C,
    journal: &Journal,
    thread: u8,
    target: &Target,
    moment: u32,
    stage: Stage,
    trail: &mut Trail,
) -> NestResult
    requires thread { C.is_for kept.now thread }
    requires quiet { IsQuiet journal.now.rows }
    requires fits { C.fits kept.now journal.now thread target.now.ask.ptcr }
    requires range { IsInRange stage }
    requires begun { IsBegun (task_for target.now) stage }
    requires room { length trail.old + reads_left stage ≤ 36 }
    ensures walk { AddsWalk (word_in (R.ram reader.now)) moment (known_of journal.now.rows (C.directory_of kept.now journal.now thread) (C.page_of kept.now journal.now thread)) (task_for target.now) stage trail.old trail.new result }
    ensures small { IsSmallOutcome result }
{
    let here = take_kept(kept, journal, thread, target, stage, trail);
    match next_word(here) {
        None => outcome(here),
        Some(at) => match reader.table_word(at) {
            None => NestResult::Stop(StopName::NoStorage, at),
            Some(value) => {
                let then = make_reading(target, moment, here, value, trail);
                walk_on(reader, kept, journal, thread, target, moment, then, trail)
            }
        },
    }
}

/// The walk of an ask (Power ISA, Book III, 5.7), which begins with what is kept and takes it wherever the walk of a
/// partition's tree begins.
///
/// The trail gets its readings, at most 36: those that `kept` answers, and those that it makes now. Its outcome is the page's
/// real address for the ask, one of six interrupts with its bits, or a stop: `HashedPartition` with the partition, or
/// `NoStorage` with the place of a word that is not in storage.
pub fn walk_nested<R: TableReader, C: Kept>(
    reader: &R,
    kept: &C,
    journal: &Journal,
    thread: u8,
    ask: &Ask,
    moment: u32,
    trail: &mut Trail,
) -> NestResult
    requires empty { trail.old ≡ [] }
    requires moment { moment ≡ length journal.now.rows.steps }
    requires quiet { IsQuiet journal.now.rows }
    requires thread { C.is_for kept.now thread }
    requires fits { C.fits kept.now journal.now thread ask.now.ptcr }
    requires translated { IsTranslated ask.now }
    ensures resumed { Resumed (word_in (R.ram reader.now)) moment (known_of journal.now.rows (C.directory_of kept.now journal.now thread) (C.page_of kept.now journal.now thread)) ask.now trail.new result }
    ensures few { length trail.new ≤ 36 }
    ensures small { IsSmallOutcome result }
{
    let place = place_of(ask);
    let target = Target::at(ask, place);
    let stage = begin(kept, journal, thread, &target, place, trail);
    walk_on(reader, kept, journal, thread, &target, moment, stage, trail)
}

/// The fresh walk of an ask: all of it is read now.
pub fn walk_fresh<R: TableReader>(
    reader: &R,
    journal: &Journal,
    thread: u8,
    ask: &Ask,
    moment: u32,
    trail: &mut Trail,
) -> NestResult
    requires empty { trail.old ≡ [] }
    requires moment { moment ≡ length journal.now.rows.steps }
    requires quiet { IsQuiet journal.now.rows }
    requires translated { IsTranslated ask.now }
    ensures fresh { IsFreshTrail (word_in (R.ram reader.now)) moment ask.now trail.new result }
    ensures few { length trail.new ≤ 36 }
    ensures small { IsSmallOutcome result }
{
    walk_nested(reader, &NothingKept, journal, thread, ask, moment, trail)
}
