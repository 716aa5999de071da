//! Where a partition's walk stands, step by step.

ghost use Rattle.std.specs.Prelude.{◌≡◌, ◌^◌, ◌%◌, ◌<◌, ◌≤◌, IfSome};
ghost use Rattle.journal_core.specs.PartitionWalk.{at_node, part_start, after_entry, after_tree, part_next};
ghost use Rattle.table_formats.specs.Fitting.{Fits, IsAligned, IsRoot};
ghost use Rattle.part_walk.specs.Entries.{partition_place, node, leaf_by, after_entry_of_tree};
ghost use Rattle.part_walk.specs.Ranges.{IsSmallResult, IsInRange, IsInRangeOfTree};

use journal_core::{FaultKind, Node, PartResult, PartStage, StopName};
use table_formats::{Entry, Pate, Ptcr, Root};

/// Reads a table next, if it is one that is read: it indexes 5 to 16 bits and leaves at least 12.
#[tactic(auto, unfolding(journal_core::specs::PartitionWalk::at_node))]
fn read_table(node: Node) -> PartStage
    requires base { node.base < 2 ^ 60 }
    requires even { node.base % 2 ^ 8 ≡ 0 }
    requires left { node.left ≤ 52 }
    requires from { 1 ≤ node.level }
    requires to { node.level ≤ 4 }
    ensures stage { result ≡ at_node node }
    ensures tree { IsInRangeOfTree result }
    ensures range { IsInRange result }
{
    if node.size >= 5 && node.size <= 16 && node.size + 12 <= node.left {
        PartStage::Tree(node)
    } else {
        PartStage::Ended(PartResult::Fault(FaultKind::Unsupported))
    }
}

/// Where a tree begins whose root translates at most 52 bits.
pub fn begin_tree(root: Root) -> PartStage
    requires root { IsRoot root }
    requires bits { root.bits ≤ 52 }
    ensures stage { result ≡ at_node (node root.base root.size root.bits 1) }
    ensures tree { IsInRangeOfTree result }
    ensures range { IsInRange result }
{
    read_table(Node {
        base: root.base,
        size: root.size,
        left: root.bits,
        level: 1,
    })
}

/// The place of a partition's entry, if the partition table has one (Power ISA, Book III, 5.7).
pub fn partition_entry(ptcr: u64, lpid: u16) -> Option<u64>
    ensures value { result ≡ partition_place ptcr lpid }
    ensures small { IfSome result (λ at. at < 2 ^ 61) }
{
    let (base, size) = Ptcr::table(ptcr);
    let offset = 16 * u64::from(lpid);
    if offset < (1 << (12 + size)) {
        Some(base + offset)
    } else {
        None
    }
}

/// Where a walk begins: at the partition's entry, if there is one.
#[tactic(auto, unfolding(journal_core::specs::PartitionWalk::part_start))]
pub fn begin(ptcr: u64, lpid: u16) -> PartStage
    ensures stage { result ≡ part_start ptcr lpid }
    ensures range { IsInRange result }
{
    match partition_entry(ptcr, lpid) {
        Some(at) => PartStage::Entry(at),
        None => PartStage::Ended(PartResult::Fault(FaultKind::Missing)),
    }
}

/// After the first doubleword of a partition's entry.
#[tactic(auto, unfolding(journal_core::specs::PartitionWalk::after_entry))]
fn after_entry(lpid: u16, gra: u64, value: u64) -> PartStage
    ensures stage { result ≡ after_entry lpid gra value }
    ensures range { IsInRange result }
{
    if !Pate::radix(value) {
        return PartStage::Ended(PartResult::Stop(StopName::HashedPartition, u64::from(lpid)));
    }
    let root = Pate::root(value);
    if root.bits > 52 {
        return PartStage::Ended(PartResult::Fault(FaultKind::Unsupported));
    }
    if gra >= (1 << root.bits) {
        return PartStage::Ended(PartResult::Fault(FaultKind::Missing));
    }
    begin_tree(root)
}

/// What a leaf of these fields gives that leaves so many bits: a page of 4 KiB, 64 KiB, 2 MiB or 1 GiB.
fn leaf(rest: u8, page: u64, r: bool, c: bool, att: u8, eaa: u8) -> PartResult
    requires { IsAligned 12 57 page }
    ensures value { result ≡ leaf_by rest page r c att eaa }
    ensures small { IsSmallResult result }
{
    if rest == 12 || rest == 16 || rest == 21 || rest == 30 {
        PartResult::Leaf {
            page,
            bits: rest,
            att,
            eaa,
            r,
            c,
        }
    } else {
        PartResult::Fault(FaultKind::Unsupported)
    }
}

/// What an entry of a tree gives that is at this level and leaves so many bits.
fn after_tree_entry(rest: u8, level: u8, entry: Entry) -> PartStage
    requires rest { rest ≤ 52 }
    requires level { level ≤ 4 }
    requires fits { Fits entry }
    ensures stage { result ≡ after_entry_of_tree rest level entry }
    ensures tree { IsInRangeOfTree result }
    ensures range { IsInRange result }
{
    match entry {
        Entry::Invalid => PartStage::Ended(PartResult::Fault(FaultKind::Missing)),
        Entry::Leaf {
            page,
            r,
            c,
            att,
            eaa,
        } => PartStage::Ended(leaf(rest, page, r, c, att, eaa)),
        Entry::Directory { .. } if level >= 4 => {
            PartStage::Ended(PartResult::Fault(FaultKind::Unsupported))
        }
        Entry::Directory { base, size } => read_table(Node {
            base,
            size,
            left: rest,
            level: level + 1,
        }),
    }
}

/// After the word of a tree's entry at this level that leaves so many bits (Power ISA, Book III, 5.7).
///
/// A leaf gives a page of 4 KiB, 64 KiB, 2 MiB or 1 GiB; a directory at level 4 names no table.
pub fn after_tree(rest: u8, level: u8, value: u64) -> PartStage
    requires rest { rest ≤ 52 }
    requires level { level ≤ 4 }
    ensures stage { result ≡ after_tree rest level value }
    ensures tree { IsInRangeOfTree result }
    ensures range { IsInRange result }
{
    after_tree_entry(rest, level, Entry::read(value))
}

/// Where a walk stands after a value.
pub fn after(lpid: u16, gra: u64, stage: PartStage, value: u64) -> PartStage
    requires { IsInRange stage }
    ensures stage { result ≡ part_next lpid gra stage value }
    ensures range { IsInRange result }
{
    match stage {
        PartStage::Entry(_) => after_entry(lpid, gra, value),
        PartStage::Tree(node) => after_tree(node.left - node.size, node.level, value),
        PartStage::Ended(out) => PartStage::Ended(out),
    }
}
