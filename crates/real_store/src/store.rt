//! The bytes of RAM.

ghost use Rattle.std.specs.Prelude.{◌≡◌, ℕ, ◌<◌, ◌≤◌, ◌+◌, ◌^◌, ◌↔◌, List, length, replicate, IsErr, IfOk, OnOk, OnErr};
ghost use Rattle.journal_core.specs.Bytes.{le_bytes, le_value, piece, placed, IsBytes};
ghost use Rattle.journal_core.specs.Past.{write_row, written, ram_after, writes_before, Fits};
ghost use Rattle.journal_core.specs.Room.{write_places};
ghost use Rattle.journal_core.specs.Steps.{add_write};

use crate::numbers::{number_at, place_bytes, place_number};
use journal_core::{Journal, TableReader, WriteRow};
use std::alloc::{AllocError, Global};
use std::marker::Model;

/// The most bytes of RAM: 256 MiB.
pub const MOST_BYTES: u64 = 268_435_456;

/// A byte outside RAM was asked for.
#[derive(Clone, Copy, Debug, PartialEq, Eq)]
pub struct NoStorage;

/// RAM from real address 0 on. Contracts see its bytes as a list.
#[derive(Drop)]
pub struct Store {
    bytes: Vec<u8>,
}

impl Model for Store {
    ghost use Rattle.std.specs.Prelude.{length, ◌≤◌};
    ghost use Rattle.real_store.specs.StoreView.{StoreView};

    ghost Value = { StoreView };

    ghost use Rattle.real_store.specs.Inside.{shown_of};

    ghost view = { shown_of };

    ghost invariant = { λ s. length s.bytes.items ≤ 268435456 };
}

impl Store {
    /// RAM of this many bytes, all zero.
    pub fn open(alloc: Global, bytes: u64) -> Result<Store, AllocError>
        requires { bytes ≤ MOST_BYTES }
        ensures { IfOk result (λ store. store.ram ≡ replicate bytes 0) }
    {
        let items = vec![in alloc; 0u8; bytes as usize]?;
        Ok(Store { bytes: items })
    }

    /// How many bytes there are.
    pub fn size(&self) -> u64
        ensures size { result ≡ length self.now.ram }
        ensures most { result ≤ MOST_BYTES }
    {
        self.bytes.len() as u64
    }

    /// Each number that contracts see of RAM is a byte. It does nothing: its contract says so.
    pub fn holds_bytes(&self)
        ensures { IsBytes self.now.ram }
    {
        are_bytes(self.bytes.as_slice());
    }

    /// Puts bytes at a real address, before the first step.
    pub fn place(&mut self, at: u64, bytes: &[u8]) -> Result<(), NoStorage>
        ensures refused { IsErr result ↔ ((0 < length bytes.now) × (length self.old.ram < at + length bytes.now)) }
        ensures ok { OnOk result (self.new.ram ≡ placed self.old.ram at bytes.now) }
        ensures err { OnErr result (self.new ≡ self.old) }
    {
        let size = self.bytes.len();
        if bytes.is_empty() {
            return Ok(());
        }
        if bytes.len() > size || at > (size - bytes.len()) as u64 {
            return Err(NoStorage);
        }
        place_bytes(self.bytes.as_mut_slice(), at as usize, bytes);
        Ok(())
    }

    /// The little-endian number of the `size` bytes from a real address on; `size` is 1 to 8.
    pub fn load(&self, at: u64, size: u8) -> Result<u64, NoStorage>
        requires some { 1 ≤ size }
        requires most { size ≤ 8 }
        ensures refused { IsErr result ↔ (length self.now.ram < at + size) }
        ensures value { IfOk result (λ value. value ≡ le_value (piece self.now.ram at size)) }
        ensures below { IfOk result (λ value. value < 256 ^ size) }
    {
        if at > self.size() || size as u64 > self.size() - at {
            return Err(NoStorage);
        }
        Ok(number_at(self.bytes.as_slice(), at as usize, size as usize))
    }

    /// Writes `value` at a real address as `size` bytes, the lowest first, and adds its row, of the step that is being made, to the
    /// journal; `size` is 1 to 8.
    #[tactic(auto, unfolding(journal_core::specs::Past::written))]
    pub fn store(
        &mut self,
        journal: &mut Journal,
        thread: u8,
        moment: u32,
        at: u64,
        size: u8,
        value: u64,
    ) -> Result<(), NoStorage>
        requires some { 1 ≤ size }
        requires most { size ≤ 8 }
        requires value { value < 256 ^ size }
        requires room { length journal.old.rows.writes < write_places journal.old.reserved }
        requires moment { moment ≡ length journal.old.rows.steps }
        ensures refused { IsErr result ↔ (length self.old.ram < at + size) }
        ensures ram { OnOk result (self.new.ram ≡ written self.old.ram (write_row moment thread self.old.ram at size value)) }
        ensures row { OnOk result (journal.new ≡ record journal.old { rows = add_write journal.old.rows (write_row moment thread self.old.ram at size value) }) }
        ensures same { OnErr result (self.new ≡ self.old) }
        ensures no_row { OnErr result (journal.new ≡ journal.old) }
    {
        let old = self.load(at, size)?;
        journal.push_write(WriteRow {
            step: moment,
            thread,
            at,
            size,
            old,
            new: value,
        });
        place_number(self.bytes.as_mut_slice(), at as usize, size as usize, value);
        Ok(())
    }

    /// Takes one write row back.
    fn undo(&mut self, row: &WriteRow)
        requires within { row.now.at + row.now.size ≤ length self.old.ram }
        requires size { row.now.size ≤ 8 }
        ensures { self.new.ram ≡ placed self.old.ram row.now.at (le_bytes row.now.size row.now.old) }
    {
        place_number(
            self.bytes.as_mut_slice(),
            row.at as usize,
            row.size as usize,
            row.old,
        );
    }

    /// Takes back the write rows of the steps from `moment` on, the last one first.
    pub fn undo_to(&mut self, journal: &Journal, moment: u32)
        requires { (first : List ℕ) × Fits first journal.now.rows.writes self.old.ram }
        ensures ram { (first : List ℕ) → Fits first journal.now.rows.writes self.old.ram → self.new.ram ≡ ram_after first (writes_before moment journal.now.rows.writes) }
        ensures fits { (first : List ℕ) → Fits first journal.now.rows.writes self.old.ram → Fits first (writes_before moment journal.now.rows.writes) self.new.ram }
    {
        journal.rows_are_dated();
        let mut left = journal.counts().writes;
        while left > 0 {
            let row = match journal.write(left - 1) {
                Some(row) => row,
                None => unreachable!(),
            };
            if row.step < moment {
                return;
            }
            self.undo(row);
            left -= 1;
        }
    }
}

impl TableReader for Store {
    ghost ram = { λ s. s.ram };

    fn table_word(&self, at: u64) -> Option<u64> {
        self.holds_bytes();
        match self.load(at, 8) {
            Ok(word) => Some(word.swap_bytes()),
            Err(NoStorage) => None,
        }
    }
}

/// The elements of a slice of bytes are bytes. It does nothing: its contract says so.
fn are_bytes(bytes: &[u8])
    ensures { IsBytes bytes.now }
{}
