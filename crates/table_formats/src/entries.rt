//! Entries of radix trees.

ghost use Rattle.std.specs.Prelude.{◌≡◌, ◌<◌};
ghost use Rattle.table_formats.specs.Entries.{entry_of, word_of, leaf_of, flag as flag_of};
ghost use Rattle.table_formats.specs.Fitting.{Fits};

use ppc_bits::{field, is_set};

/// What a doubleword of a radix tree means.
#[derive(Clone, Copy, Debug, PartialEq, Eq)]
pub enum Entry {
    /// There is nothing: bit 0 is 0.
    Invalid,
    /// A further table: bit 0 is 1 and bit 1 is 0.
    Directory {
        /// The table's address, a multiple of 256 below 2 ^ 60: bits 4:55.
        base: u64,
        /// How many bits of an address index it, below 32: bits 59:63.
        size: u8,
    },
    /// A page: bits 0 and 1 are 1.
    Leaf {
        /// The page's address, a multiple of 4,096 below 2 ^ 57: bits 7:51.
        page: u64,
        /// The page is marked as referenced: bit 55.
        r: bool,
        /// The page is marked as changed: bit 56.
        c: bool,
        /// The attributes, below 4: bits 58:59.
        att: u8,
        /// The encoded access authority, below 16: bits 60:63.
        eaa: u8,
    },
}

impl Entry {
    /// What a doubleword means. Bits that no field names do not matter.
    #[tactic(auto, unfolding(crate::specs::Entries::entry_of))]
    pub fn read(word: u64) -> Entry
        ensures value { result ≡ entry_of word }
        ensures fits { Fits result }
    {
        if field(word, 64, 0, 0) == 0 {
            return Entry::Invalid;
        }
        if is_set(word, 64, 1) {
            leaf(word)
        } else {
            Entry::Directory {
                base: field(word, 64, 4, 55) * 256,
                size: field(word, 64, 59, 63) as u8,
            }
        }
    }

    /// The doubleword that means this entry; bits that no field names are 0.
    #[tactic(auto, unfolding(crate::specs::Entries::word_of))]
    pub fn write(self) -> u64
        requires { Fits self }
        ensures { result ≡ word_of self }
    {
        match self {
            Entry::Invalid => 0,
            Entry::Directory { base, size } => (1 << 63) + base + u64::from(size),
            Entry::Leaf {
                page,
                r,
                c,
                att,
                eaa,
            } => {
                (1 << 63)
                    + (1 << 62)
                    + page
                    + flag(55, r)
                    + flag(56, c)
                    + u64::from(att) * 16
                    + u64::from(eaa)
            }
        }
    }
}

/// The page that a doubleword means as a leaf.
fn leaf(word: u64) -> Entry
    ensures value { result ≡ leaf_of word }
    ensures fits { Fits result }
{
    Entry::Leaf {
        page: field(word, 64, 7, 51) * 4096,
        r: is_set(word, 64, 55),
        c: is_set(word, 64, 56),
        att: field(word, 64, 58, 59) as u8,
        eaa: field(word, 64, 60, 63) as u8,
    }
}

/// Bit `at` of a doubleword, where it is set.
fn flag(at: u8, set: bool) -> u64
    requires { at < 64 }
    ensures { result ≡ flag_of at set }
{
    if set { 1 << (63 - at) } else { 0 }
}
