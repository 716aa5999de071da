ghost use Rattle.std.specs.Prelude.{[]};

use super::*;
use journal_core::{
    FaultKind, Journal, Node, NothingKept, PartResult, PartStage, ReadRow, Role, StopName,
    TableReader, TrailItem,
};
use std::test::Fail;
use table_formats::Prte;

/// Storage of no byte.
struct NoStorage;

impl TableReader for NoStorage {
    ghost ram = { λ s. [] };

    #[tactic(auto, unfolding(journal_core::specs::Past::word_in))]
    fn table_word(&self, _at: u64) -> Option<u64> {
        None
    }
}

/// The register whose partition table of 256 entries stands at 20000.
const PTCR: u64 = 0x2_0000;

/// A walk of which nothing is left but this fault.
fn fault(kind: FaultKind) -> PartStage {
    PartStage::Ended(PartResult::Fault(kind))
}

#[test]
fn a_walk_begins_at_the_partitions_entry(rt: HostRuntime) {
    assert_eq!(rt; partition_entry(PTCR, 1), Some(0x2_0010));
    assert_eq!(rt; begin(PTCR, 255), PartStage::Entry(0x2_0ff0));
    // The table has 256 entries, and with PATS 4 all 4,096.
    assert_eq!(rt; begin(PTCR, 256), fault(FaultKind::Missing));
    assert_eq!(rt; begin(PTCR + 4, 4095), PartStage::Entry(0x2_fff0));
}

#[test]
fn a_walk_goes_from_the_entry_to_a_leaf(rt: HostRuntime) {
    let root = after(1, 0x5000, begin(PTCR, 1), 0x8000_0000_0010_000a);
    assert_eq!(rt; next_word(0x5000, root), Some(0x10_0000));
    let table = after(1, 0x5000, root, 0x8000_0000_0010_2009);
    assert_eq!(rt; next_word(0x5000, table), Some(0x10_2028));
    let leaf = after(1, 0x5000, table, 0xc000_0000_0011_5187);
    assert_eq!(rt; next_word(0x5000, leaf), None);
    let page = PartResult::Leaf {
        page: 0x11_5000,
        bits: 12,
        att: 0,
        eaa: 7,
        r: true,
        c: true,
    };
    assert_eq!(rt; leaf, PartStage::Ended(page));
}

#[test]
fn an_address_beyond_the_tree_is_missing(rt: HostRuntime) {
    let start = begin(PTCR, 1);
    let first = after(1, 0x7fff_ffff, start, 0x8000_0000_0010_000a);
    assert_eq!(rt; next_word(0x7fff_ffff, first), Some(0x10_1ff8));
    let beyond = after(1, 0x8000_0000, start, 0x8000_0000_0010_000a);
    assert_eq!(rt; beyond, fault(FaultKind::Missing));
    // HR is tested before the 53 bits.
    let hashed = PartResult::Stop(StopName::HashedPartition, 1);
    let word = 0x4000_0000_0040_00cd;
    assert_eq!(rt; after(1, 0, start, word), PartStage::Ended(hashed));
    assert_eq!(rt;
        after(1, 0, start, word + (1 << 63)),
        fault(FaultKind::Unsupported)
    );
}

#[test]
fn an_entry_of_a_tree_is_a_table_or_a_page(rt: HostRuntime) {
    let below = Node {
        base: 0x10_2000,
        size: 9,
        left: 21,
        level: 2,
    };
    assert_eq!(rt;
        after_tree(21, 1, 0x8000_0000_0010_2009),
        PartStage::Tree(below)
    );
    assert_eq!(rt;
        after_tree(21, 4, 0x8000_0000_0010_2009),
        fault(FaultKind::Unsupported)
    );
    assert_eq!(rt;
        after_tree(20, 1, 0xc000_0000_0010_0187),
        fault(FaultKind::Unsupported)
    );
    assert_eq!(rt;
        after_tree(21, 1, 0x4000_0000_0010_0187),
        fault(FaultKind::Missing)
    );
    // A table of 9 bits leaves 11 of 20.
    assert_eq!(rt;
        after_tree(20, 1, 0x8000_0000_0010_2009),
        fault(FaultKind::Unsupported)
    );
}

#[test]
fn a_process_tree_begins_at_its_root(rt: HostRuntime) {
    let first = Node {
        base: 0x2000,
        size: 10,
        left: 31,
        level: 1,
    };
    let root = Prte::root(0x200a);
    if root.bits <= 52 {
        assert_eq!(rt; begin_tree(root), PartStage::Tree(first));
    }
}

#[test]
fn base_and_index_are_added_and_low_bits_are_replaced(rt: HostRuntime) {
    // The base is no multiple of the table's size.
    let node = Node {
        base: 0x10_0100,
        size: 10,
        left: 31,
        level: 1,
    };
    assert_eq!(rt; entry_address(0x7fff_ffff, node), 0x10_20f8);
    assert_eq!(rt; real_address(0x5f_f000, 21, 0x5000), 0x40_5000);
}

/// What a reading says.
fn said(row: ReadRow) -> (Role, u16, u32, u64, u8, u8, u64) {
    (
        row.role, row.lpid, row.pid, row.sought, row.level, row.left, row.at,
    )
}

#[test]
fn a_reading_says_where_it_was_made(rt: HostRuntime) {
    let start = begin(PTCR, 1);
    if let PartStage::Entry(at) = start {
        let row = reading(1, 0x5000, PartStage::Entry(at), 7, 0x8000_0000_0010_000a);
        assert_eq!(rt; said(row), (Role::Pate, 1, 0, 0x5000, 0, 31, 0x2_0010));
        assert_eq!(rt; (row.value, row.moment), (0x8000_0000_0010_000a, 7));
    }
    let table = after(1, 0x5000, start, 0x8000_0000_0010_000a);
    if let PartStage::Tree(node) = table {
        let row = reading(1, 0x5000, PartStage::Tree(node), 7, 0x8000_0000_0010_2009);
        assert_eq!(rt; said(row), (Role::PartDir, 1, 0, 0x5000, 1, 21, 0x10_0000));
    }
    assert_eq!(rt;
        role_in_tree(0xc000_0000_0011_5187, Role::PartLeaf, Role::PartDir),
        Role::PartLeaf
    );
    // An entry that is not valid is a directory.
    assert_eq!(rt;
        role_in_tree(0x4000_0000_0000_0000, Role::PartLeaf, Role::PartDir),
        Role::PartDir
    );
}

#[test]
fn a_trail_has_its_items_in_order(rt: HostRuntime) {
    let mut trail = Trail::new();
    assert_eq!(rt; trail.count(), 0);
    let new = reading(1, 0, PartStage::Entry(0x2_0010), 0, 5);
    trail.push(TrailItem::New(new));
    assert!(rt; !trail.used());
    trail.push(TrailItem::Old(7));
    assert!(rt; trail.used());
    assert_eq!(rt; trail.count(), 2);
    assert!(rt; matches!(trail.item(0), Some(TrailItem::New(row)) if row.value == 5));
    assert!(rt; matches!(trail.item(1), Some(TrailItem::Old(7))));
    assert!(rt; trail.item(2).is_none());
}

#[test]
fn a_word_outside_storage_stops_the_walk(rt: HostRuntime) -> Result<(), Fail> {
    let journal = Journal::open(rt.alloc(), 1)?;
    let mut trail = Trail::new();
    let stage = begin_with(&NothingKept, &journal, 0, PTCR, 1, 0x5000, &mut trail);
    assert_eq!(rt; stage, PartStage::Entry(0x2_0010));
    let out = walk_partition(
        &NoStorage,
        &NothingKept,
        &journal,
        0,
        PTCR,
        1,
        0x5000,
        0,
        &mut trail,
    );
    assert_eq!(rt; out, PartResult::Stop(StopName::NoStorage, 0x2_0010));
    let out = walk_partition_fresh(&NoStorage, &journal, 0, PTCR, 256, 0x5000, 0, &mut trail);
    assert_eq!(rt; out, PartResult::Fault(FaultKind::Missing));
    assert_eq!(rt; trail.count(), 0);
    Ok(())
}
