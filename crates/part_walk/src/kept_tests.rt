//! Walks that begin with what walks before them left.

ghost use Rattle.std.specs.Prelude.{◌≡◌, ◌++◌, IfOk, replicate};
ghost use Rattle.journal_core.specs.Rows.{no_rows};
ghost use Rattle.journal_core.specs.WalkPlaces.{row_of};
ghost use Rattle.journal_core.specs.Fills.{is_same_key};
ghost use Rattle.journal_core.specs.Standing.{kind_number};
ghost use Rattle.part_walk.specs.GivenJournal.{GivesKept, deep_reads, large_reads, given, is_directory, is_page, given_directory, given_page};

use super::*;
use journal_core::{
    FaultKind, FillRow, Journal, Kept, Key, KeyKind, PartResult, ReadRow, Role, StopName,
    TableReader, TrailItem,
};
use std::alloc::Global;
use std::test::Fail;

/// Storage of so many bytes, all 0.
#[derive(Drop)]
struct Zeros {
    size: u64,
}

impl TableReader for Zeros {
    ghost ram = { λ s. replicate s.size 0 };

    #[tactic(auto, unfolding(journal_core::specs::Past::word_in))]
    fn table_word(&self, at: u64) -> Option<u64> {
        if at <= self.size && self.size - at >= 8 {
            Some(0)
        } else {
            None
        }
    }
}

/// Gives one fill of the journal that two walks left, wherever it is for what is asked.
#[derive(Drop)]
struct Given {
    fill: u32,
}

fn kind_number(kind: KeyKind) -> u8
    ensures { result ≡ kind_number kind }
{
    match kind {
        KeyKind::Translation => 0,
        KeyKind::GuestPage => 1,
        KeyKind::ProcessDir => 2,
        KeyKind::PartDir => 3,
    }
}

fn is_same_key(a: Key, b: Key) -> bool
    ensures { result ≡ is_same_key a b }
{
    kind_number(a.kind) == kind_number(b.kind)
        && a.lpid == b.lpid
        && a.pid == b.pid
        && a.left == b.left
        && a.page == b.page
}

/// The fill is the guest page of a guest real address.
fn is_page(fill: &FillRow, thread: u8, lpid: u16, gra: u64) -> bool
    ensures { result ≡ is_page fill.now thread lpid gra }
{
    let wanted = Key {
        kind: KeyKind::GuestPage,
        lpid,
        pid: 0,
        left: 12,
        page: gra >> 12,
    };
    fill.thread == thread && is_same_key(fill.key, wanted)
}

/// It is a directory of a partition's tree for an address.
fn is_directory(fill: &FillRow, thread: u8, lpid: u16, pid: u32, sought: u64) -> bool
    ensures { result ≡ is_directory fill.now thread lpid pid sought }
{
    let left = fill.key.left;
    if left >= 64 {
        return false;
    }
    let wanted = Key {
        kind: KeyKind::PartDir,
        lpid,
        pid,
        left,
        page: sought >> left,
    };
    fill.thread == thread && is_same_key(fill.key, wanted)
}

impl Kept for Given {
    ghost is_for = { λ s t. Unit {0} };

    ghost fits = { λ s j t ptcr. GivesKept s.fill j t ptcr };

    ghost directory_of = { λ s j t kind lpid pid sought. given_directory s.fill j t kind lpid pid sought };

    ghost page_of = { λ s j t lpid gra. given_page s.fill j t lpid gra };

    fn directory(
        &self,
        journal: &Journal,
        thread: u8,
        kind: KeyKind,
        lpid: u16,
        pid: u32,
        sought: u64,
    ) -> Option<u32> {
        match (kind, journal.fill(self.fill)) {
            (KeyKind::PartDir, Some(fill)) if is_directory(fill, thread, lpid, pid, sought) => {
                Some(self.fill)
            }
            _ => None,
        }
    }

    fn guest_page(&self, journal: &Journal, thread: u8, lpid: u16, gra: u64) -> Option<u32> {
        match journal.fill(self.fill) {
            Some(fill) if is_page(fill, thread, lpid, gra) => Some(self.fill),
            _ => None,
        }
    }

    ghost directory_stands = { λ s j t ptcr kind lpid pid sought i of_kind for_thread quiet fits is. fits.directories kind lpid pid sought i is };

    ghost page_stands = { λ s j t ptcr lpid gra i for_thread quiet fits is. fits.pages lpid gra i is };
}

/// A reading of partition `lpid`'s tree.
fn row(lpid: u16, sought: u64, role: Role, level: u8, left: u8, at: u64, value: u64) -> ReadRow
    ensures { result ≡ row_of role lpid 0 sought level left at value 0 }
{
    ReadRow {
        role,
        lpid,
        pid: 0,
        sought,
        level,
        left,
        at,
        value,
        moment: 0,
    }
}

/// A fill of the first `count` of these readings.
fn fill(thread: u8, key: Key, level: u8, count: u8, reads: [u32; 36]) -> FillRow
    ensures { result ≡ record { thread = thread; key = key; level = level; moment = 0; count = count; reads = reads } }
{
    FillRow {
        thread,
        key,
        level,
        moment: 0,
        count,
        reads,
    }
}

fn key(kind: KeyKind, lpid: u16, left: u8, page: u64) -> Key
    ensures { result ≡ record { kind = kind; lpid = lpid; pid = 0; left = left; page = page } }
{
    Key {
        kind,
        lpid,
        pid: 0,
        left,
        page,
    }
}

/// Adds the readings of two walks: of 5000 by partition 1, and of 405000 by partition 2.
fn push_reads(journal: &mut Journal)
    requires { journal.old ≡ record { reserved = 1; floor = 0; rows = no_rows } }
    ensures { journal.new ≡ record { reserved = 1; floor = 0; rows = record no_rows { reads = deep_reads ++ large_reads } } }
{
    let value = 0xc000_0000_0040_00ad;
    journal.push_read(row(1, 0x5000, Role::Pate, 0, 52, 0x2_0010, value));
    let value = 0x8000_0000_0041_0009;
    journal.push_read(row(1, 0x5000, Role::PartDir, 1, 39, 0x40_0000, value));
    let value = 0x8000_0000_0041_1009;
    journal.push_read(row(1, 0x5000, Role::PartDir, 2, 30, 0x41_0000, value));
    let value = 0x8000_0000_0041_2009;
    journal.push_read(row(1, 0x5000, Role::PartDir, 3, 21, 0x41_1000, value));
    let value = 0xc000_0000_0050_5187;
    journal.push_read(row(1, 0x5000, Role::PartLeaf, 4, 12, 0x41_2028, value));
    let value = 0x8000_0000_0080_000a;
    journal.push_read(row(2, 0x40_5000, Role::Pate, 0, 31, 0x2_0020, value));
    let value = 0xc000_0000_0060_0187;
    journal.push_read(row(2, 0x40_5000, Role::PartLeaf, 1, 21, 0x80_0010, value));
}

/// Adds their fills, for thread 0 and for thread 1.
fn push_fills(journal: &mut Journal)
    requires { journal.old ≡ record { reserved = 1; floor = 0; rows = record no_rows { reads = deep_reads ++ large_reads } } }
    ensures { journal.new ≡ given }
{
    let mut reads = [0; 36];
    journal.push_fill(fill(0, key(KeyKind::PartDir, 1, 52, 0), 0, 1, reads));
    reads[1] = 1;
    journal.push_fill(fill(0, key(KeyKind::PartDir, 1, 39, 0), 1, 2, reads));
    reads[2] = 2;
    journal.push_fill(fill(0, key(KeyKind::PartDir, 1, 30, 0), 2, 3, reads));
    reads[3] = 3;
    journal.push_fill(fill(0, key(KeyKind::PartDir, 1, 21, 0), 3, 4, reads));
    reads[4] = 4;
    journal.push_fill(fill(0, key(KeyKind::GuestPage, 1, 12, 5), 4, 5, reads));
    let mut reads = [0; 36];
    reads[0] = 5;
    journal.push_fill(fill(1, key(KeyKind::PartDir, 2, 31, 0), 0, 1, reads));
    reads[1] = 6;
    journal.push_fill(fill(1, key(KeyKind::GuestPage, 2, 12, 0x405), 1, 2, reads));
}

/// The journal that the two walks left.
fn left_by_walks(alloc: Global) -> Result<Journal, Fail>
    ensures { IfOk result (λ j. j ≡ given) }
{
    let mut journal = Journal::open(alloc, 1)?;
    push_reads(&mut journal);
    push_fills(&mut journal);
    Ok(journal)
}

/// An item of a trail: the number of a kept reading; or of a new one its partition, level, what it leaves and its place.
#[derive(Clone, Copy, Debug, PartialEq, Eq)]
enum Told {
    Old(u32),
    New(u16, u8, u8, u64),
    End,
}

fn tell(item: Option<TrailItem>) -> Told {
    match item {
        Some(TrailItem::Old(number)) => Told::Old(number),
        Some(TrailItem::New(row)) => Told::New(row.lpid, row.level, row.left, row.at),
        None => Told::End,
    }
}

/// The outcome of a walk over 16 MiB of zeros that is given this fill, and its items.
fn walked(journal: &Journal, fill: u32, thread: u8, lpid: u16, gra: u64) -> (PartResult, [Told; 6])
    requires { journal.now ≡ given }
{
    let mut trail = Trail::new();
    let reader = Zeros { size: 0x100_0000 };
    let kept = Given { fill };
    let out = walk_partition(
        &reader, &kept, journal, thread, 0x2_0000, lpid, gra, 0, &mut trail,
    );
    let items = [
        tell(trail.item(0)),
        tell(trail.item(1)),
        tell(trail.item(2)),
        tell(trail.item(3)),
        tell(trail.item(4)),
        tell(trail.item(5)),
    ];
    (out, items)
}

/// No more items.
const END: Told = Told::End;

#[test]
fn a_walk_goes_on_from_a_directory_of_each_level(rt: HostRuntime) -> Result<(), Fail> {
    let journal = left_by_walks(rt.alloc())?;
    let missing = PartResult::Fault(FaultKind::Missing);
    let (a, b, c, d) = (Told::Old(0), Told::Old(1), Told::Old(2), Told::Old(3));
    let read = Told::New(1, 1, 39, 0x40_0000);
    assert_eq!(rt;
        walked(&journal, 0, 0, 1, 0x5000),
        (missing, [a, read, END, END, END, END])
    );
    let read = Told::New(1, 2, 30, 0x41_0000);
    assert_eq!(rt;
        walked(&journal, 1, 0, 1, 0x5000),
        (missing, [a, b, read, END, END, END])
    );
    let read = Told::New(1, 3, 21, 0x41_1000);
    assert_eq!(rt;
        walked(&journal, 2, 0, 1, 0x5000),
        (missing, [a, b, c, read, END, END])
    );
    let read = Told::New(1, 4, 12, 0x41_2028);
    assert_eq!(rt;
        walked(&journal, 3, 0, 1, 0x5000),
        (missing, [a, b, c, d, read, END])
    );
    // It serves each page below the directory.
    let read = Told::New(1, 4, 12, 0x41_2030);
    assert_eq!(rt;
        walked(&journal, 3, 0, 1, 0x6000),
        (missing, [a, b, c, d, read, END])
    );
    Ok(())
}

/// The page at `page` of so many bits, to be read, written and executed.
fn page(page: u64, bits: u8) -> PartResult {
    PartResult::Leaf {
        page,
        bits,
        att: 0,
        eaa: 7,
        r: true,
        c: true,
    }
}

#[test]
fn a_guest_page_is_taken_with_no_reading(rt: HostRuntime) -> Result<(), Fail> {
    let journal = left_by_walks(rt.alloc())?;
    let (a, b, c, d) = (Told::Old(0), Told::Old(1), Told::Old(2), Told::Old(3));
    let small = page(0x50_5000, 12);
    assert_eq!(rt;
        walked(&journal, 4, 0, 1, 0x5fff),
        (small, [a, b, c, d, Told::Old(4), END])
    );
    let large = page(0x60_0000, 21);
    let (e, f) = (Told::Old(5), Told::Old(6));
    assert_eq!(rt;
        walked(&journal, 6, 1, 2, 0x40_5000),
        (large, [e, f, END, END, END, END])
    );
    // At another 4 KiB of the 2 MiB the root is kept, and the leaf is read again.
    let missing = PartResult::Fault(FaultKind::Missing);
    let read = Told::New(2, 1, 21, 0x80_0010);
    assert_eq!(rt;
        walked(&journal, 5, 1, 2, 0x40_6000),
        (missing, [e, read, END, END, END, END])
    );
    Ok(())
}

#[test]
fn what_is_kept_for_another_address_is_not_taken(rt: HostRuntime) -> Result<(), Fail> {
    let journal = left_by_walks(rt.alloc())?;
    let stop = PartResult::Stop(StopName::HashedPartition, 1);
    let read = Told::New(1, 0, 31, 0x2_0010);
    assert_eq!(rt;
        walked(&journal, 4, 0, 1, 0x6000),
        (stop, [read, END, END, END, END, END])
    );
    let stop = PartResult::Stop(StopName::HashedPartition, 2);
    let read = Told::New(2, 0, 31, 0x2_0020);
    assert_eq!(rt;
        walked(&journal, 3, 0, 2, 0x5000),
        (stop, [read, END, END, END, END, END])
    );
    Ok(())
}
