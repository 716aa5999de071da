//! The words that name tables: PTCR, entries of partitions and entries of processes.

ghost use Rattle.std.specs.Prelude.{◌≡◌, ◌<◌, ◌≤◌};
ghost use Rattle.table_formats.specs.Entries.{is_radix, root_of, list_base, size_of};
ghost use Rattle.table_formats.specs.Fitting.{IsRoot, IsAligned};

use ppc_bits::{field, is_set};

/// The root of a radix tree.
#[derive(Clone, Copy, Debug, PartialEq, Eq)]
pub struct Root {
    /// How many bits of an address the tree translates, 31 to 62: RTS and 31.
    pub bits: u8,
    /// The first table's address, a multiple of 256 below 2 ^ 60: bits 4:55.
    pub base: u64,
    /// How many bits of an address index it, below 32: bits 59:63.
    pub size: u8,
}

/// The entry of a partition, in the partition table.
pub struct Pate;

/// The entry of a process, in the process table of its partition.
pub struct Prte;

/// The partition table control register.
pub struct Ptcr;

impl Pate {
    /// The partition's addresses are translated by a radix tree: bit 0 of the first doubleword.
    pub fn radix(word0: u64) -> bool
        ensures { result ≡ is_radix word0 }
    {
        is_set(word0, 64, 0)
    }

    /// The root of the partition's tree, by the first doubleword.
    pub fn root(word0: u64) -> Root
        ensures value { result ≡ root_of word0 }
        ensures fits { IsRoot result }
    {
        tree_root(word0)
    }

    /// The process table, by the second doubleword: its base, a multiple of 4,096 below 2 ^ 60, and its size, below 32;
    /// it has 2 ^ (12 + size) bytes.
    pub fn process(word1: u64) -> (u64, u8)
        ensures base { result.0 ≡ list_base word1 }
        ensures size { result.1 ≡ size_of word1 }
        ensures aligned { IsAligned 12 60 result.0 }
        ensures small { result.1 < 32 }
    {
        list(word1)
    }
}

impl Prte {
    /// The root of the process's tree, by the first doubleword.
    pub fn root(word0: u64) -> Root
        ensures value { result ≡ root_of word0 }
        ensures fits { IsRoot result }
    {
        tree_root(word0)
    }
}

impl Ptcr {
    /// The partition table: its base, a multiple of 4,096 below 2 ^ 60, and its size, below 32; it has 2 ^ (12 + size) bytes.
    pub fn table(ptcr: u64) -> (u64, u8)
        ensures base { result.0 ≡ list_base ptcr }
        ensures size { result.1 ≡ size_of ptcr }
        ensures aligned { IsAligned 12 60 result.0 }
        ensures small { result.1 < 32 }
    {
        list(ptcr)
    }
}

/// The root in a doubleword.
fn tree_root(word: u64) -> Root
    ensures value { result ≡ root_of word }
    ensures fits { IsRoot result }
{
    let high = field(word, 64, 1, 2);
    let low = field(word, 64, 56, 58);
    Root {
        bits: (high * 8 + low + 31) as u8,
        base: field(word, 64, 4, 55) * 256,
        size: field(word, 64, 59, 63) as u8,
    }
}

/// The base and the size of a table of partitions or processes.
fn list(word: u64) -> (u64, u8)
    ensures base { result.0 ≡ list_base word }
    ensures size { result.1 ≡ size_of word }
    ensures aligned { IsAligned 12 60 result.0 }
    ensures small { result.1 < 32 }
{
    (field(word, 64, 4, 51) * 4096, field(word, 64, 59, 63) as u8)
}
