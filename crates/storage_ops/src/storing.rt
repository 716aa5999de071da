//! Bytes in RAM, part after part.

ghost use Rattle.std.specs.Prelude.{◌≡◌, ◌<◌, ◌≤◌, ◌+◌, ◌*◌, ◌^◌, length};
ghost use Rattle.journal_core.specs.Bytes.{le_value, piece};
ghost use Rattle.journal_core.specs.Past.{ram_after, write_row, written, AreWrites};
ghost use Rattle.journal_core.specs.Room.{write_places};
ghost use Rattle.journal_core.specs.Steps.{add_write};
ghost use Rattle.storage_ops.specs.Parts.{listed, bytes_in, AreParts, AreWithin};
ghost use Rattle.storage_ops.specs.Effects.{split, zeros, writes_of};
ghost use Rattle.storage_ops.specs.Accesses.{with_writes};

use crate::parts::{Part, Parts};
use journal_core::Journal;
use real_store::Store;

/// The number of the bytes of one part in RAM.
fn load_part(store: &Store, part: Part) -> u64
    requires within { part.at + part.size ≤ length store.now.ram }
    requires some { 1 ≤ part.size }
    requires most { part.size ≤ 8 }
    ensures value { result ≡ le_value (piece store.now.ram part.at part.size) }
    ensures below { result < 256 ^ part.size }
{
    match store.load(part.at, part.size) {
        Ok(value) => value,
        Err(_) => unreachable!(),
    }
}

/// The weight of the byte behind this many bytes.
fn weight(size: u8) -> u64
    requires { size < 8 }
    ensures { result ≡ 256 ^ size }
{
    1 << (8 * size)
}

/// A number behind the lowest `size` bytes.
fn joined(lowest: u64, size: u8, next: u64, next_size: u8) -> u64
    requires lowest { lowest < 256 ^ size }
    requires next { next < 256 ^ next_size }
    requires some { 1 ≤ next_size }
    requires whole { size + next_size ≤ 8 }
    ensures value { result ≡ lowest + 256 ^ size * next }
    ensures below { result < 256 ^ (size + next_size) }
{
    lowest + weight(size) * next
}

/// The number of the bytes of some parts in RAM, part after part.
pub fn load_parts(store: &Store, parts: &Parts, size: u8) -> u64
    requires within { AreWithin (length store.now.ram) (listed parts.now) }
    requires sizes { AreParts size parts.now }
    requires most { size ≤ 8 }
    ensures value { result ≡ le_value (bytes_in store.now.ram (listed parts.now)) }
    ensures below { result < 256 ^ size }
{
    let first = load_part(store, parts.first);
    match parts.second {
        None => first,
        Some(second) => joined(
            first,
            parts.first.size,
            load_part(store, second),
            second.size,
        ),
    }
}

/// Stores a number in one part of RAM.
fn store_part(
    store: &mut Store,
    journal: &mut Journal,
    number: u8,
    moment: u32,
    part: Part,
    value: u64,
)
    requires within { part.at + part.size ≤ length store.old.ram }
    requires some { 1 ≤ part.size }
    requires most { part.size ≤ 8 }
    requires value { value < 256 ^ part.size }
    requires room { length journal.old.rows.writes < write_places journal.old.reserved }
    requires moment { moment ≡ length journal.old.rows.steps }
    ensures ram { store.new.ram ≡ written store.old.ram (write_row moment number store.old.ram part.at part.size value) }
    ensures row { journal.new ≡ record journal.old { rows = add_write journal.old.rows (write_row moment number store.old.ram part.at part.size value) } }
{
    match store.store(journal, number, moment, part.at, part.size, value) {
        Ok(()) => {}
        Err(_) => unreachable!(),
    }
}

/// Stores the lowest bytes of a number in the first part and the next ones in the second, in RAM.
#[tactic(auto, unfolding(journal_core::specs::Past::ram_after))]
pub fn store_parts(
    store: &mut Store,
    journal: &mut Journal,
    number: u8,
    moment: u32,
    parts: &Parts,
    size: u8,
    value: u64,
)
    requires within { AreWithin (length store.old.ram) (listed parts.now) }
    requires sizes { AreParts size parts.now }
    requires most { size ≤ 8 }
    requires value { value < 256 ^ size }
    requires room { length journal.old.rows.writes + 2 ≤ write_places journal.old.reserved }
    requires moment { moment ≡ length journal.old.rows.steps }
    ensures ram { store.new.ram ≡ ram_after store.old.ram (writes_of moment number store.old.ram (split value (listed parts.now))) }
    ensures right { AreWrites store.old.ram (writes_of moment number store.old.ram (split value (listed parts.now))) }
    ensures rows { journal.new ≡ with_writes journal.old (writes_of moment number store.old.ram (split value (listed parts.now))) }
{
    let second = match parts.second {
        Some(second) => second,
        None => return store_part(store, journal, number, moment, parts.first, value),
    };
    let weight = weight(parts.first.size);
    store_part(store, journal, number, moment, parts.first, value % weight);
    store_part(store, journal, number, moment, second, value / weight);
}

/// Stores so many doublewords of zeros in RAM, one behind another.
#[tactic(auto, unfolding(journal_core::specs::Past::ram_after))]
pub fn clear_doublewords(
    store: &mut Store,
    journal: &mut Journal,
    number: u8,
    moment: u32,
    at: u64,
    count: u8,
)
    requires within { at + 8 * count ≤ length store.old.ram }
    requires room { length journal.old.rows.writes + count ≤ write_places journal.old.reserved }
    requires moment { moment ≡ length journal.old.rows.steps }
    ensures ram { store.new.ram ≡ ram_after store.old.ram (writes_of moment number store.old.ram (zeros count at)) }
    ensures right { AreWrites store.old.ram (writes_of moment number store.old.ram (zeros count at)) }
    ensures rows { journal.new ≡ with_writes journal.old (writes_of moment number store.old.ram (zeros count at)) }
{
    if count == 0 {
        return;
    }
    store_part(store, journal, number, moment, Part { at, size: 8 }, 0);
    // Its contract says that RAM has no byte at the highest addresses, so that the next address is a number.
    let _ = store.size();
    clear_doublewords(store, journal, number, moment, at + 8, count - 1);
}
