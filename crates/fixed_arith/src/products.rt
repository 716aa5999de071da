//! Products.

ghost use Rattle.std.specs.Prelude.{◌≡◌, ◌+◌, ◌*◌, ◌%◌, ◌^◌, ◌+ℤ◌, ◌*ℤ◌, pos, ◌≤◌};
ghost use Rattle.std.specs.Int.Signed.{mag};
ghost use Rattle.ppc_bits.specs.Bits.{low, low_signed};
ghost use Rattle.fixed_arith.specs.Products as products;

use crate::outcomes::Computation;
use crate::ranges::{leaves32, leaves64};
use ppc_bits::{doubleword, low_word, signed_doubleword, signed_word};

/// The low doubleword of a product, with its overflow.
fn low_half(number: i128, overflow: bool) -> Computation
    ensures { result ≡ products.low_half number overflow }
{
    Computation {
        value: doubleword(number),
        carries: None,
        overflow,
        overflow32: overflow,
    }
}

/// The product of the low words as signed numbers, exactly.
fn signed_product32(a: u64, b: u64) -> i64
    ensures { result ≡ low_signed 32 a *ℤ low_signed 32 b }
{
    signed_word(a) * signed_word(b)
}

/// The product as signed numbers, exactly.
fn signed_product64(a: u64, b: u64) -> i128
    ensures value { result ≡ low_signed 64 a *ℤ low_signed 64 b }
    ensures range { mag result ≤ 2 ^ 126 }
{
    signed_doubleword(a) * signed_doubleword(b)
}

/// The product and a third number, all signed, exactly.
fn signed_multiply_add(a: u64, b: u64, c: u64) -> i128
    ensures { result ≡ low_signed 64 a *ℤ low_signed 64 b +ℤ low_signed 64 c }
{
    signed_product64(a, b) + signed_doubleword(c)
}

/// The product of a register and an immediate as signed numbers, exactly.
fn signed_multiple(a: u64, immediate: i16) -> i128
    ensures { result ≡ low_signed 64 a *ℤ immediate }
{
    signed_doubleword(a) * i128::from(immediate)
}

/// The product of the low words as signed numbers.
pub fn word_product(a: u64, b: u64) -> Computation
    ensures { result ≡ products.product 32 (low_signed 32 a *ℤ low_signed 32 b) }
{
    let number = signed_product32(a, b);
    low_half(i128::from(number), leaves32(number))
}

/// The product as signed numbers.
pub fn product(a: u64, b: u64) -> Computation
    ensures { result ≡ products.product 64 (low_signed 64 a *ℤ low_signed 64 b) }
{
    let number = signed_product64(a, b);
    low_half(number, leaves64(number))
}

/// The product of a register and an immediate as signed numbers.
pub fn immediate_product(a: u64, immediate: i16) -> Computation
    ensures { result ≡ products.product 64 (low_signed 64 a *ℤ immediate) }
{
    let number = signed_multiple(a, immediate);
    low_half(number, leaves64(number))
}

/// The high word of the product of the low words as signed numbers.
pub fn high_word(a: u64, b: u64) -> u64
    ensures { result ≡ products.high_half 32 (low_signed 32 a *ℤ low_signed 32 b) }
{
    signed_product32(a, b).cast_unsigned() >> 32
}

/// The high word of the product of the low words.
pub fn high_word_unsigned(a: u64, b: u64) -> u64
    ensures { result ≡ products.high_half 32 (pos (low 32 a * low 32 b)) }
{
    (u64::from(low_word(a)) * u64::from(low_word(b))) >> 32
}

/// The high doubleword of a signed number of 128 bits.
fn high_half(number: i128) -> u64
    ensures { result ≡ products.high_half 64 number }
{
    (number.cast_unsigned() >> 64) as u64
}

/// The high doubleword of a product and a third number, all signed.
pub fn high_doubleword(a: u64, b: u64, c: u64) -> u64
    ensures { result ≡ products.high_half 64
        (low_signed 64 a *ℤ low_signed 64 b +ℤ low_signed 64 c) }
{
    high_half(signed_multiply_add(a, b, c))
}

/// The high doubleword of a product and a third number.
pub fn high_doubleword_unsigned(a: u64, b: u64, c: u64) -> u64
    ensures { result ≡ products.high_half 64 (pos (a * b + c)) }
{
    ((u128::from(a) * u128::from(b) + u128::from(c)) >> 64) as u64
}

/// The low doubleword of a product and a third number.
pub fn low_doubleword(a: u64, b: u64, c: u64) -> u64
    ensures { result ≡ (a * b + c) % 2 ^ 64 }
{
    a.wrapping_mul(b).wrapping_add(c)
}
