//! Sums of two doublewords and a carry.

ghost use Rattle.std.specs.Prelude.{◌≡◌, ◌≤◌};
ghost use Rattle.fixed_arith.specs.Sums as sums;

use crate::outcomes::{Carries, Computation};
use crate::ranges::{leaves32, leaves64};
use ppc_bits::{low_word, signed_doubleword, signed_word};

/// Whether the sum carries out of all 64 bits.
fn carries_out64(left: u64, right: u64, carry: u64) -> bool
    requires { carry ≤ 1 }
    ensures { result ≡ sums.carries_out 64 left right carry }
{
    (u128::from(left) + u128::from(right) + u128::from(carry)) >> 64 != 0
}

/// Whether the sum carries out of the low 32 bits.
fn carries_out32(left: u64, right: u64, carry: u64) -> bool
    requires { carry ≤ 1 }
    ensures { result ≡ sums.carries_out 32 left right carry }
{
    (u64::from(low_word(left)) + u64::from(low_word(right)) + carry) >> 32 != 0
}

/// The sum of the two as signed numbers.
fn signed_sum64(left: u64, right: u64, carry: u64) -> i128
    requires { carry ≤ 1 }
    ensures { result ≡ sums.signed_sum 64 left right carry }
{
    signed_doubleword(left) + signed_doubleword(right) + i128::from(carry)
}

/// The sum of the low words as signed numbers.
fn signed_sum32(left: u64, right: u64, carry: u64) -> i64
    requires { carry ≤ 1 }
    ensures { result ≡ sums.signed_sum 32 left right carry }
{
    signed_word(left) + signed_word(right) + carry as i64
}

/// A sum that records no carries.
pub fn sum(left: u64, right: u64, carry: u64) -> Computation
    requires { carry ≤ 1 }
    ensures { result ≡ sums.sum left right carry }
{
    Computation {
        value: left.wrapping_add(right).wrapping_add(carry),
        carries: None,
        overflow: leaves64(signed_sum64(left, right, carry)),
        overflow32: leaves32(signed_sum32(left, right, carry)),
    }
}

/// A sum that records its carries.
pub fn carrying_sum(left: u64, right: u64, carry: u64) -> Computation
    requires { carry ≤ 1 }
    ensures { result ≡ sums.carrying_sum left right carry }
{
    let carries = Carries {
        carry: carries_out64(left, right, carry),
        carry32: carries_out32(left, right, carry),
    };
    Computation {
        carries: Some(carries),
        ..sum(left, right, carry)
    }
}
