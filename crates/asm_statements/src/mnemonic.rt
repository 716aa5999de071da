//! Names of operations with their marks.

ghost use Rattle.std.specs.Prelude.{◌≡◌, ◌<◌, length, option_and_then, drop, slice_get};
ghost use Rattle.asm_statements.specs.Mnemonics.{with_marks, behind_front, as_name_of, all_operations, mnemonic_of};

use crate::spelling::Spelling;
use operand_texts::{Mnemonic, takes_marks};
use ppc_ops::{Op, name, row, row_count};

/// An operation with the marks that stand behind its name.
fn with_marks(op: Op, marks: &[u8]) -> Option<Mnemonic>
    ensures { result ≡ with_marks op marks.now }
{
    let plain = Mnemonic::unmarked(op);
    match marks {
        b"" => Some(plain),
        b"o" => Some(Mnemonic { oe: true, ..plain }),
        b"." => Some(Mnemonic { rc: true, ..plain }),
        b"o." => Some(Mnemonic {
            oe: true,
            rc: true,
            ..plain
        }),
        b"l" => Some(Mnemonic { lk: true, ..plain }),
        b"a" => Some(Mnemonic { aa: true, ..plain }),
        b"la" => Some(Mnemonic {
            lk: true,
            aa: true,
            ..plain
        }),
        _ => None,
    }
}

/// What stands behind a front of a word.
fn behind_front<'a>(front: &[u8], word: &'a [u8]) -> Option<Spelling<'a>>
    ensures { result ≡ behind_front front.now word.now }
{
    for (i, byte) in front.iter().enumerate() {
        if i >= word.len() || word[i] != *byte {
            return None;
        }
    }
    Some(Spelling::of(&word[front.len()..]))
}

/// The word as the name of an operation with marks that it has.
fn as_name_of(op: Op, word: &[u8]) -> Option<Mnemonic>
    ensures { result ≡ as_name_of op word.now }
{
    let marks = behind_front(name(op).as_bytes(), word)?;
    let mnemonic = with_marks(op, marks.bytes())?;
    if takes_marks(mnemonic) {
        Some(mnemonic)
    } else {
        None
    }
}

/// The operation of a row.
fn operation(i: u16) -> Option<Op>
    ensures { result ≡ slice_get all_operations i }
{
    match row(i) {
        Some(row) => Some(row.op),
        None => None,
    }
}

/// The operation and the marks that a word names.
pub(crate) fn mnemonic_of(word: &[u8]) -> Option<Mnemonic>
    ensures { result ≡ mnemonic_of word.now }
{
    for i in 0..row_count() {
        if let Some(op) = operation(i) {
            if let Some(mnemonic) = as_name_of(op, word) {
                return Some(mnemonic);
            }
        }
    }
    None
}
