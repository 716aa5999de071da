//! Rotations under a mask (Power ISA, Book I, 3.3.14).

ghost use Rattle.std.specs.Prelude.{◌≡◌, ◌-◌, ◌<◌};
ghost use Rattle.ppc_bits.specs.Bits.{mask_of};
ghost use Rattle.fixed_logic.specs.Rotates.{inserted, turned_word, turned, word_turn, word_mask, turn};

use ppc_bits::{field, low_word, mask, rotl32, rotl64};

/// The bits of `r` where the mask `m` has ones, those of `old` elsewhere.
pub(crate) fn insert(r: u64, m: u64, old: u64) -> u64
    ensures { result ≡ inserted r m old }
{
    (r & m) | (old & !m)
}

/// The low word turned left, in both words.
pub(crate) fn turn_word(s: u64, by: u8) -> u64
    requires { by < 32 }
    ensures { result ≡ turned_word s by }
{
    rotl32(low_word(s), by)
}

/// The mask of a rotation of words, whose bits are numbered in the low word.
pub(crate) fn word_mask(mb: u8, me: u8) -> u64
    requires mb { mb < 32 }
    requires me { me < 32 }
    ensures { result ≡ word_mask mb me }
{
    mask(mb + 32, me + 32)
}

/// The mask from `edge` to the last bit of a doubleword that is turned left by `by` and not round its end.
pub(crate) fn mask_before(edge: u8, by: u8) -> u64
    requires edge { edge < 64 }
    requires by { by < 64 }
    ensures { result ≡ mask_of edge (63 - by) }
{
    mask(edge, 63 - by)
}

/// How far a register turns a word: its bits 59:63.
fn word_turn(b: u64) -> u8
    ensures value { result ≡ word_turn b }
    ensures bound { result < 32 }
{
    field(b, 64, 59, 63) as u8
}

/// How far a register turns a doubleword: its bits 58:63.
fn turn(b: u64) -> u8
    ensures value { result ≡ turn b }
    ensures bound { result < 64 }
{
    field(b, 64, 58, 63) as u8
}

/// The low word turned left by a register, in both words.
pub(crate) fn turn_word_by_register(s: u64, b: u64) -> u64
    ensures { result ≡ turned_word s (word_turn b) }
{
    turn_word(s, word_turn(b))
}

/// The doubleword turned left by a register.
pub(crate) fn turn_by_register(s: u64, b: u64) -> u64
    ensures { result ≡ turned s (turn b) }
{
    rotl64(s, turn(b))
}
