//! Walks of tables: where they stand, how they end, and the readings that they take.

use crate::causes::Cause;
use crate::rows::{ReadRow, StopName};

/// Why a tree has no page for an address.
#[derive(Clone, Copy, Debug, PartialEq, Eq)]
pub enum FaultKind {
    /// There is no entry.
    Missing,
    /// The tree has a form that this machine does not have.
    Unsupported,
}

/// How a walk of one tree ends.
#[derive(Clone, Copy, Debug, PartialEq, Eq)]
pub enum PartResult {
    /// At a leaf.
    Leaf {
        /// The page's address as the leaf has it.
        page: u64,
        /// The base-two logarithm of the page's size in bytes.
        bits: u8,
        /// The attributes, of two bits.
        att: u8,
        /// The encoded access authority, of four bits.
        eaa: u8,
        /// Whether the page is marked as referenced.
        r: bool,
        /// Whether the page is marked as changed.
        c: bool,
    },
    /// With no page.
    Fault(FaultKind),
    /// The machine stops.
    Stop(StopName, u64),
}

/// A table of a tree, one of whose entries is read next.
#[derive(Clone, Copy, Debug, PartialEq, Eq)]
pub struct Node {
    /// Its address.
    pub base: u64,
    /// How many bits of the address index it.
    pub size: u8,
    /// How many low bits of the address are not yet indexed before it.
    pub left: u8,
    /// Its level in the tree, from 1.
    pub level: u8,
}

/// Where a walk of a partition's tree stands.
#[derive(Clone, Copy, Debug, PartialEq, Eq)]
pub enum PartStage {
    /// The partition's entry is read next, at this real address.
    Entry(u64),
    /// An entry of this table is read next.
    Tree(Node),
    /// It is over.
    Ended(PartResult),
}

/// What a guest real address is translated for.
#[derive(Clone, Copy, Debug, PartialEq, Eq)]
pub enum Goal {
    /// The process's entry stands there.
    ForEntry,
    /// An entry of this table of the process's tree stands there.
    ForTable(Node),
    /// It is the result of the process's walk.
    ForResult,
    /// It is what was asked.
    ForGuest,
}

/// How a walk ends.
#[derive(Clone, Copy, Debug, PartialEq, Eq)]
pub enum NestResult {
    /// At this real address, which the rights permit.
    Page(u64),
    /// In this interrupt.
    Fault(Cause),
    /// The machine stops.
    Stop(StopName, u64),
}

/// Where a walk stands. The numbers are real addresses, and in a partition's walk first the guest real address that
/// is walked.
#[derive(Clone, Copy, Debug, PartialEq, Eq)]
pub enum Stage {
    /// The second doubleword of the partition's entry is read next.
    SecondWord(u64),
    /// In a partition's walk, the partition's entry is read next.
    PartEntry(Goal, u64, u64),
    /// In a partition's walk, an entry of this table is read next.
    PartTable(Goal, u64, Node),
    /// The process's entry is read next.
    ProcessEntry(u64),
    /// An entry of this table of the process's tree is read next.
    ProcessTable(Node, u64),
    /// It is over.
    Over(NestResult),
}

/// A reading that a walk takes: that of a read row, by its number, or a new one.
#[derive(Clone, Copy, Debug)]
pub enum TrailItem {
    /// The read row of this number.
    Old(u32),
    /// A new reading.
    New(ReadRow),
}

impl Default for TrailItem {
    fn default() -> TrailItem {
        TrailItem::Old(0)
    }
}
