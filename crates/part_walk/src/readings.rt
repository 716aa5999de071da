//! Which word a partition's walk reads next, and the reading that it makes there.

ghost use Rattle.std.specs.Prelude.{◌≡◌, ◌^◌, ◌<◌, IfSome, if◌then◌else◌};
ghost use Rattle.journal_core.specs.PartitionWalk.{is_leaf};
ghost use Rattle.part_walk.specs.Entries.{role_by};
ghost use Rattle.part_walk.specs.Ranges.{IsInRange};
ghost use Rattle.part_walk.specs.Steps.{part_word, part_row, IsPartOpen};

use crate::addresses::entry_address;
use journal_core::{PartStage, ReadRow, Role};
use table_formats::{Entry, Pate};

/// The place of the word that is read next, or `None` where the walk is over.
pub fn next_word(gra: u64, stage: PartStage) -> Option<u64>
    requires { IsInRange stage }
    ensures value { result ≡ part_word gra stage }
    ensures small { IfSome result (λ at. at < 2 ^ 61) }
{
    match stage {
        PartStage::Entry(at) => Some(at),
        PartStage::Tree(node) => Some(entry_address(gra, node)),
        PartStage::Ended(_) => None,
    }
}

/// The role in which an entry of a tree is read, of those of a leaf and of a directory.
fn role_of(entry: Entry, leaf: Role, directory: Role) -> Role
    ensures { result ≡ role_by leaf directory entry }
{
    match entry {
        Entry::Leaf { .. } => leaf,
        Entry::Invalid | Entry::Directory { .. } => directory,
    }
}

/// The role in which the word of a tree's entry is read, of those of a leaf and of a directory: an invalid entry is a directory.
pub fn role_in_tree(value: u64, leaf: Role, directory: Role) -> Role
    ensures { result ≡ (if is_leaf value then leaf else directory) }
{
    role_of(Entry::read(value), leaf, directory)
}

/// The reading that is made where the walk stands: what it sought is the very guest real address.
pub fn reading(lpid: u16, gra: u64, stage: PartStage, moment: u32, value: u64) -> ReadRow
    requires range { IsInRange stage }
    requires under_way { IsPartOpen stage }
    ensures { result ≡ part_row lpid gra stage moment value }
{
    match stage {
        PartStage::Entry(at) => ReadRow {
            role: Role::Pate,
            lpid,
            pid: 0,
            sought: gra,
            level: 0,
            left: Pate::root(value).bits,
            at,
            value,
            moment,
        },
        PartStage::Tree(node) => ReadRow {
            role: role_in_tree(value, Role::PartLeaf, Role::PartDir),
            lpid,
            pid: 0,
            sought: gra,
            level: node.level,
            left: node.left - node.size,
            at: entry_address(gra, node),
            value,
            moment,
        },
        PartStage::Ended(_) => unreachable!(),
    }
}
