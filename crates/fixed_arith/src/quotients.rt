//! Quotients and remainders.

ghost use Rattle.std.specs.Prelude.{◌≡◌, pos};
ghost use Rattle.fixed_arith.specs.Quotients as quotients;

use crate::outcomes::{Computation, plain};
use crate::ranges::{leaves32, leaves64};
use ppc_bits::{doubleword, word};

/// What a divide computes where there is no quotient.
fn no_quotient() -> Computation
    ensures { result ≡ quotients.divided 64 None }
{
    Computation {
        value: 0,
        carries: None,
        overflow: true,
        overflow32: true,
    }
}

/// The quotient of two signed numbers in 32 bits.
pub fn word_quotient(dividend: i64, divisor: i64) -> Computation
    ensures { result ≡ quotients.divided 32 (quotients.signed_quotient 32 dividend divisor) }
{
    match dividend.checked_div(divisor) {
        Some(quotient) if !leaves32(quotient) => plain(word(i128::from(quotient))),
        _ => no_quotient(),
    }
}

/// The quotient of two signed numbers in 64 bits.
pub fn quotient(dividend: i128, divisor: i128) -> Computation
    ensures { result ≡ quotients.divided 64 (quotients.signed_quotient 64 dividend divisor) }
{
    match dividend.checked_div(divisor) {
        Some(quotient) if !leaves64(quotient) => plain(doubleword(quotient)),
        _ => no_quotient(),
    }
}

/// The quotient of two unsigned numbers in 32 bits.
pub fn word_quotient_unsigned(dividend: u64, divisor: u32) -> Computation
    ensures { result ≡ quotients.divided 32
        (quotients.unsigned_quotient 32 (pos dividend) (pos divisor)) }
{
    match dividend.checked_div(u64::from(divisor)) {
        Some(quotient) if quotient < 1 << 32 => plain(quotient),
        _ => no_quotient(),
    }
}

/// The quotient of two unsigned numbers in 64 bits.
pub fn quotient_unsigned(dividend: u128, divisor: u64) -> Computation
    ensures { result ≡ quotients.divided 64
        (quotients.unsigned_quotient 64 (pos dividend) (pos divisor)) }
{
    match dividend.checked_div(u128::from(divisor)) {
        Some(quotient) if quotient < 1 << 64 => plain(quotient as u64),
        _ => no_quotient(),
    }
}

/// The remainder of two signed numbers, with the sign of the dividend.
pub fn remainder(dividend: i128, divisor: i128) -> i128
    ensures { result ≡ quotients.remainder dividend divisor }
{
    dividend.checked_rem(divisor).unwrap_or(0)
}

/// The remainder of two unsigned numbers.
pub fn remainder_unsigned(dividend: u64, divisor: u64) -> u64
    ensures { pos result ≡ quotients.remainder (pos dividend) (pos divisor) }
{
    if divisor == 0 { 0 } else { dividend % divisor }
}
