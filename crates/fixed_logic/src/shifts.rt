//! Signed extensions (Power ISA, Book I, 3.3.13) and shifts (3.3.14).

ghost use Rattle.std.specs.Prelude.{◌≡◌, ◌%◌, ◌^◌, ◌<◌, ◌==◌, pos, int_lt, not, FitsSigned};
ghost use Rattle.std.specs.Int.{w64, int_div_euclid};
ghost use Rattle.ppc_bits.specs.Bits.{modulo};
ghost use Rattle.fixed_logic.specs.Shifts.{extended, word_distance, distance, shifted_left, shifted_right, shifted_extended, shifted_signed, loses_one};

use ppc_bits::{field, low_word, sign_extend, signed_doubleword, signed_word};

pub(crate) fn extend_byte(s: u64) -> u64
    ensures { result ≡ extended 8 s }
{
    sign_extend(s & 0xff, 8)
}

pub(crate) fn extend_halfword(s: u64) -> u64
    ensures { result ≡ extended 16 s }
{
    sign_extend(s & 0xffff, 16)
}

pub(crate) fn extend_word(s: u64) -> u64
    ensures { result ≡ extended 32 s }
{
    sign_extend(u64::from(low_word(s)), 32)
}

/// How far a register shifts a word: its bits 58:63.
pub(crate) fn word_distance(b: u64) -> u8
    ensures value { result ≡ word_distance b }
    ensures bound { result < 64 }
{
    field(b, 64, 58, 63) as u8
}

/// How far a register shifts a doubleword: its bits 57:63.
pub(crate) fn distance(b: u64) -> u8
    ensures value { result ≡ distance b }
    ensures bound { result < 128 }
{
    field(b, 64, 57, 63) as u8
}

pub(crate) fn shift_word_left(s: u64, n: u8) -> u64
    requires { n < 64 }
    ensures { result ≡ shifted_left 32 s n }
{
    (s << n) & 0xffff_ffff
}

pub(crate) fn shift_word_right(s: u64, n: u8) -> u64
    requires { n < 64 }
    ensures { result ≡ shifted_right 32 s n }
{
    u64::from(low_word(s)) >> n
}

pub(crate) fn shift_left(s: u64, n: u8) -> u64
    ensures { result ≡ shifted_left 64 s n }
{
    if n < 64 { s << n } else { 0 }
}

pub(crate) fn shift_right(s: u64, n: u8) -> u64
    ensures { result ≡ shifted_right 64 s n }
{
    if n < 64 { s >> n } else { 0 }
}

/// The signed low word shifted left.
pub(crate) fn shift_extended_word(s: u64, n: u8) -> u64
    requires { n < 64 }
    ensures { result ≡ shifted_extended 32 s n }
{
    extend_word(s) << n
}

/// The quotient by 2^n, rounded down.
fn quotient(z: i128, n: u8) -> u64
    requires size { FitsSigned w64 z }
    requires count { n < 128 }
    ensures { result ≡ modulo 64 (int_div_euclid z (pos (2 ^ n))) }
{
    ((z >> n).cast_unsigned() % 0x1_0000_0000_0000_0000) as u64
}

/// Whether one of the low n bits is 1.
fn has_one_below(bits: u64, n: u8) -> bool
    requires { n < 128 }
    ensures { result ≡ not (bits % 2 ^ n == 0) }
{
    bits as u128 & ((1u128 << n) - 1) != 0
}

/// The signed low word shifted right.
pub(crate) fn shift_signed_word(s: u64, n: u8) -> u64
    requires { n < 64 }
    ensures { result ≡ shifted_signed 32 s n }
{
    quotient(i128::from(signed_word(s)), n)
}

/// The signed doubleword shifted right.
pub(crate) fn shift_signed(s: u64, n: u8) -> u64
    requires { n < 128 }
    ensures { result ≡ shifted_signed 64 s n }
{
    quotient(signed_doubleword(s), n)
}

/// Whether the shift of the signed low word is of a negative number and loses a 1.
pub(crate) fn word_loses_one(s: u64, n: u8) -> bool
    requires { n < 64 }
    ensures { result ≡ loses_one 32 s n }
{
    signed_word(s) < 0 && has_one_below(u64::from(low_word(s)), n)
}

/// Whether the shift of the signed doubleword is of a negative number and loses a 1.
pub(crate) fn loses_one(s: u64, n: u8) -> bool
    requires { n < 128 }
    ensures { result ≡ loses_one 64 s n }
{
    signed_doubleword(s) < 0 && has_one_below(s, n)
}
