ghost use Rattle.std.specs.Prelude.{◌≡◌, ◌<◌, ◌≤◌, ℕ, IfOk, length, slice_index};
ghost use Rattle.journal_core.specs.Rows.{HasWord};

use super::*;
use crate::row_tests::report_to;
use journal_core::{
    DeviceRow, FillRow, Journal, Key, KeyKind, ReadRow, Role, Signal, StepEnd, StepRow, Use,
    WriteRow,
};
use outer_io::{MemSink, SinkFault};
use std::alloc::{AllocError, Global};
use std::test::Fail;

/// The first fetch of a guest: what it read, and the entry that it left.
const FIRST_FETCH: &str = "
r 0 pate 1 1 0000000000005000 0 0 0000000000020018 0000000000000000 17
r 1 pate 1 0 0000000000000010 0 31 0000000000020010 800000000010000a 17
r 2 gdir 1 0 0000000000000010 1 21 0000000000100000 8000000000102009 17
r 3 gleaf 1 0 0000000000000010 2 12 0000000000102000 c000000000110187 17
r 4 prte 1 1 0000000000005000 0 31 0000000000110010 000000000000200a 17
r 5 pate 1 0 0000000000002000 0 31 0000000000020010 800000000010000a 17
r 6 gdir 1 0 0000000000002000 1 21 0000000000100000 8000000000102009 17
r 7 gleaf 1 0 0000000000002000 2 12 0000000000102010 c000000000112187 17
r 8 pdir 1 1 0000000000005000 1 21 0000000000112000 8000000000004009 17
r 9 pate 1 0 0000000000004028 0 31 0000000000020010 800000000010000a 17
r 10 gdir 1 0 0000000000004028 1 21 0000000000100000 8000000000102009 17
r 11 gleaf 1 0 0000000000004028 2 12 0000000000102020 c000000000114187 17
r 12 pleaf 1 1 0000000000005000 2 12 0000000000114028 c000000000005187 17
r 13 pate 1 0 0000000000005000 0 31 0000000000020010 800000000010000a 17
r 14 gdir 1 0 0000000000005000 1 21 0000000000100000 8000000000102009 17
r 15 gleaf 1 0 0000000000005000 2 12 0000000000102028 c000000000115187 17
f 0 0 trans 1 1 12 0000000000000005 2 17 16 0 1 2 3 4 5 6 7 8 9 10 11 12 13 14 15
.
";

/// The reads of that fetch: what was read, the process, the address that was walked, the level, the bits left, the place and
/// the value.
const FIRST_FETCH_READS: [(Role, u32, u64, u8, u8, u64, u64); 16] = [
    (Role::Pate, 1, 0x5000, 0, 0, 0x2_0018, 0),
    (Role::Pate, 0, 0x10, 0, 31, 0x2_0010, 0x8000_0000_0010_000a),
    (
        Role::PartDir,
        0,
        0x10,
        1,
        21,
        0x10_0000,
        0x8000_0000_0010_2009,
    ),
    (
        Role::PartLeaf,
        0,
        0x10,
        2,
        12,
        0x10_2000,
        0xc000_0000_0011_0187,
    ),
    (Role::Prte, 1, 0x5000, 0, 31, 0x11_0010, 0x200a),
    (
        Role::Pate,
        0,
        0x2000,
        0,
        31,
        0x2_0010,
        0x8000_0000_0010_000a,
    ),
    (
        Role::PartDir,
        0,
        0x2000,
        1,
        21,
        0x10_0000,
        0x8000_0000_0010_2009,
    ),
    (
        Role::PartLeaf,
        0,
        0x2000,
        2,
        12,
        0x10_2010,
        0xc000_0000_0011_2187,
    ),
    (
        Role::ProcessDir,
        1,
        0x5000,
        1,
        21,
        0x11_2000,
        0x8000_0000_0000_4009,
    ),
    (
        Role::Pate,
        0,
        0x4028,
        0,
        31,
        0x2_0010,
        0x8000_0000_0010_000a,
    ),
    (
        Role::PartDir,
        0,
        0x4028,
        1,
        21,
        0x10_0000,
        0x8000_0000_0010_2009,
    ),
    (
        Role::PartLeaf,
        0,
        0x4028,
        2,
        12,
        0x10_2020,
        0xc000_0000_0011_4187,
    ),
    (
        Role::ProcessLeaf,
        1,
        0x5000,
        2,
        12,
        0x11_4028,
        0xc000_0000_0000_5187,
    ),
    (
        Role::Pate,
        0,
        0x5000,
        0,
        31,
        0x2_0010,
        0x8000_0000_0010_000a,
    ),
    (
        Role::PartDir,
        0,
        0x5000,
        1,
        21,
        0x10_0000,
        0x8000_0000_0010_2009,
    ),
    (
        Role::PartLeaf,
        0,
        0x5000,
        2,
        12,
        0x10_2028,
        0xc000_0000_0011_5187,
    ),
];

/// The rows of a trace, and behind them those of walks.
const TRACE_AND_WALKS: &str = "
s 0 0 ran 0000000000010000 60000000 R0000000000010000 - -
w 1 0 0000000000020000 4 0000000000000000 0000000000000001
d 1 2 00000000 1 load 0000000000000006 quiet
r 0 pate 1 0 0000000000000010 0 31 0000000000020010 800000000010000a 1
f 0 0 trans 1 1 12 0000000000000005 2 1 1 0
.
";

/// The line of an entry with the most reads and the greatest numbers.
const LONGEST_LINE: &str =
    "f 4294967295 255 gpage 65535 4294967295 255 ffffffffffffffff 255 4294967295 36 4294967295 4294967295 4294967295 4294967295 4294967295 4294967295 4294967295 4294967295 4294967295 4294967295 4294967295 4294967295 4294967295 4294967295 4294967295 4294967295 4294967295 4294967295 4294967295 4294967295 4294967295 4294967295 4294967295 4294967295 4294967295 4294967295 4294967295 4294967295 4294967295 4294967295 4294967295 4294967295 4294967295 4294967295 4294967295 4294967295
";

/// The numbers from 0 to below `count`, and then zeros.
fn numbers_below(count: u8) -> [u32; 36]
    requires { count ≤ 36 }
    ensures { (k : ℕ) → k < count → slice_index result k ≡ k }
{
    let mut numbers = [0; 36];
    for k in 0..usize::from(count) {
        numbers[k] = k as u32;
    }
    numbers
}

/// A read of the partition table's entry.
fn entry_read(moment: u32) -> ReadRow
    ensures { result.moment ≡ moment }
{
    ReadRow {
        role: Role::Pate,
        lpid: 1,
        pid: 0,
        sought: 0x10,
        level: 0,
        left: 31,
        at: 0x2_0010,
        value: 0x8000_0000_0010_000a,
        moment,
    }
}

/// The entry of the page 5, to which the first `count` reads led.
fn page_entry(moment: u32, count: u8) -> FillRow
    requires { count ≤ 36 }
    ensures moment { result.moment ≡ moment }
    ensures count { result.count ≡ count }
    ensures reads { (k : ℕ) → k < count → slice_index result.reads k ≡ k }
{
    FillRow {
        thread: 0,
        key: Key {
            kind: KeyKind::Translation,
            lpid: 1,
            pid: 1,
            left: 12,
            page: 5,
        },
        level: 2,
        moment,
        count,
        reads: numbers_below(count),
    }
}

/// A step that ran at this address.
fn ran(cia: u64) -> StepRow
    ensures { HasWord result }
{
    StepRow {
        thread: 0,
        cia,
        word: Some(0x6000_0000),
        end: StepEnd::Ran,
        uses: [Use::Real(cia), Use::Unused, Use::Unused],
    }
}

/// A journal after seventeen steps.
fn after_seventeen_steps(alloc: Global) -> Result<Journal, AllocError>
    ensures { IfOk result (λ j. (j.reserved ≡ 18) × (length j.rows.steps ≡ 17) × (length j.rows.reads ≡ 0) × (length j.rows.fills ≡ 0)) }
{
    let mut journal = Journal::open(alloc, 18)?;
    for k in 0..17u32 {
        journal.push_step(ran(0x1_0000 + 4 * u64::from(k)));
    }
    Ok(journal)
}

#[test]
fn a_walk_shows_each_word_and_its_entry(rt: HostRuntime) -> Result<(), Fail> {
    let mut journal = after_seventeen_steps(rt.alloc())?;
    for (role, pid, sought, level, left, at, value) in FIRST_FETCH_READS {
        journal.push_read(ReadRow {
            role,
            lpid: 1,
            pid,
            sought,
            level,
            left,
            at,
            value,
            moment: 17,
        });
    }
    journal.push_fill(page_entry(17, 16));
    let mut out = MemSink::open(rt.alloc(), 8192)?;
    assert_eq!(rt; report_to(&journal, false, true, &mut out), Ok(()));
    assert!(rt; out.bytes().ends_with(FIRST_FETCH.as_bytes()));
    Ok(())
}

#[test]
fn the_rows_of_walks_stand_behind_those_of_a_trace(rt: HostRuntime) -> Result<(), Fail> {
    let mut journal = Journal::open(rt.alloc(), 2)?;
    journal.push_step(ran(0x1_0000));
    journal.push_read(entry_read(1));
    journal.push_fill(page_entry(1, 1));
    journal.push_write(WriteRow {
        step: 1,
        thread: 0,
        at: 0x2_0000,
        size: 4,
        old: 0,
        new: 1,
    });
    journal.push_device(DeviceRow {
        step: 1,
        slot: 2,
        offset: 0,
        size: 1,
        store: false,
        value: 6,
        signal: Signal::Quiet,
    });
    let mut out = MemSink::open(rt.alloc(), 8192)?;
    assert_eq!(rt; report_to(&journal, true, true, &mut out), Ok(()));
    assert!(rt; out.bytes().ends_with(TRACE_AND_WALKS.as_bytes()));
    let mut out = MemSink::open(rt.alloc(), 8192)?;
    assert_eq!(rt; report_to(&journal, false, false, &mut out), Ok(()));
    assert!(rt;
        out.bytes()
            .ends_with(b" hsprg 0000000000000000 0000000000000000\n.\n")
    );
    Ok(())
}

#[test]
fn a_row_alone_has_its_line(rt: HostRuntime) -> Result<(), Fail> {
    let mut out = MemSink::open(rt.alloc(), 512)?;
    assert_eq!(rt; print_read(7, &entry_read(3), &mut out), Ok(()));
    let line = b"r 7 pate 1 0 0000000000000010 0 31 0000000000020010 800000000010000a 3\n";
    assert_eq!(rt; out.bytes(), line.as_slice());
    for (kind, want) in [
        (
            KeyKind::Translation,
            "f 9 0 trans 1 1 12 0000000000000005 2 3 2 0 1\n",
        ),
        (
            KeyKind::GuestPage,
            "f 9 0 gpage 1 1 12 0000000000000005 2 3 2 0 1\n",
        ),
        (
            KeyKind::ProcessDir,
            "f 9 0 pdir 1 1 12 0000000000000005 2 3 2 0 1\n",
        ),
        (
            KeyKind::PartDir,
            "f 9 0 gdir 1 1 12 0000000000000005 2 3 2 0 1\n",
        ),
    ] {
        let mut row = page_entry(3, 2);
        row.key.kind = kind;
        let mut out = MemSink::open(rt.alloc(), 512)?;
        assert_eq!(rt; print_fill(9, &row, &mut out), Ok(()));
        assert_eq!(rt; out.bytes(), want.as_bytes());
    }
    Ok(())
}

#[test]
fn the_longest_line_is_one_piece(rt: HostRuntime) -> Result<(), Fail> {
    let row = FillRow {
        thread: u8::MAX,
        key: Key {
            kind: KeyKind::GuestPage,
            lpid: u16::MAX,
            pid: u32::MAX,
            left: u8::MAX,
            page: u64::MAX,
        },
        level: u8::MAX,
        moment: u32::MAX,
        count: 36,
        reads: [u32::MAX; 36],
    };
    let mut out = MemSink::open(rt.alloc(), 512)?;
    assert_eq!(rt; print_fill(u32::MAX, &row, &mut out), Ok(()));
    assert_eq!(rt; out.bytes(), LONGEST_LINE.as_bytes());
    let mut out = MemSink::open(rt.alloc(), 512)?;
    out.fail_call(1, 500)?;
    assert_eq!(rt; print_fill(u32::MAX, &row, &mut out), Err(SinkFault));
    assert!(rt; LONGEST_LINE.as_bytes().starts_with(out.bytes()));
    Ok(())
}
