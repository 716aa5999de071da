//! Fields of an instruction's word.

ghost use Rattle.std.specs.Prelude.{◌≡◌, ◌+◌, ◌*◌, ◌<◌, ◌≤◌, ◌^◌};
ghost use Rattle.ppc_bits.specs.Bits.{signed_of};
ghost use Rattle.ppc_ops.specs.Fitting.{IsSigned, IsSignedMultiple};
ghost use Rattle.word_decoder.specs.Operands as operands;

use ppc_bits::{field, is_set};

/// The bits `from` to `to`, at most eight.
pub(crate) fn bits(word: u64, from: u8, to: u8) -> u8
    requires fits { word < 2 ^ 32 }
    requires order { from ≤ to }
    requires inside { to < 32 }
    requires short { to < from + 8 }
    ensures { result ≡ operands.bits word from to }
{
    field(word, 32, from, to) as u8
}

/// Whether the bit `at` is 1.
pub(crate) fn flag(word: u64, at: u8) -> bool
    requires fits { word < 2 ^ 32 }
    requires inside { at < 32 }
    ensures { result ≡ operands.flag word at }
{
    is_set(word, 32, at)
}

/// The bit `high` and the five bits from `from` on.
pub(crate) fn six_bits(word: u64, high: u8, from: u8) -> u8
    requires fits { word < 2 ^ 32 }
    requires high { high < 32 }
    requires inside { from < 27 }
    ensures { result ≡ operands.followed (operands.bits word high high) 5 (operands.bits word from (from + 4)) }
{
    32 * bits(word, high, high) + bits(word, from, from + 4)
}

/// The number of a special register, whose two halves stand in the word in the other order.
pub(crate) fn special_register(word: u64) -> u16
    requires { word < 2 ^ 32 }
    ensures { result ≡ operands.followed (operands.bits word 16 20) 5 (operands.bits word 11 15) }
{
    32 * u16::from(bits(word, 16, 20)) + u16::from(bits(word, 11, 15))
}

/// The signed number of 16 bits.
fn signed_16(value: u64) -> i16
    requires { value < 2 ^ 16 }
    ensures number { result ≡ signed_of 16 value }
    ensures signed { IsSigned 16 result }
{
    if value < 0x8000 {
        value as i16
    } else {
        (value as i64 - 0x1_0000) as i16
    }
}

/// The signed immediate in bits 16 to 31.
pub(crate) fn immediate(word: u64) -> i16
    requires { word < 2 ^ 32 }
    ensures number { result ≡ signed_of 16 (operands.bits word 16 31) }
    ensures signed { IsSigned 16 result }
{
    signed_16(field(word, 32, 16, 31))
}

/// The signed number of bits 16 to 29 with two zeros behind them.
pub(crate) fn scaled_immediate(word: u64) -> i16
    requires { word < 2 ^ 32 }
    ensures number { result ≡ signed_of 16 (operands.followed (operands.bits word 16 29) 2 0) }
    ensures signed { IsSignedMultiple 16 result }
{
    signed_16(4 * field(word, 32, 16, 29))
}

/// The signed immediate whose parts are bits 16 to 25, 11 to 15, and 31.
pub(crate) fn split_immediate(word: u64) -> i16
    requires { word < 2 ^ 32 }
    ensures number { result ≡ signed_of 16 (operands.followed (operands.followed (operands.bits word 16 25) 5 (operands.bits word 11 15)) 1 (operands.bits word 31 31)) }
    ensures signed { IsSigned 16 result }
{
    signed_16(64 * field(word, 32, 16, 25) + 2 * field(word, 32, 11, 15) + field(word, 32, 31, 31))
}

/// The signed number of bits 6 to 29 with two zeros behind them.
pub(crate) fn jump_distance(word: u64) -> i32
    requires { word < 2 ^ 32 }
    ensures number { result ≡ signed_of 26 (operands.followed (operands.bits word 6 29) 2 0) }
    ensures signed { IsSignedMultiple 26 result }
{
    let value = 4 * field(word, 32, 6, 29);
    if value < 0x200_0000 {
        value as i32
    } else {
        (value as i64 - 0x400_0000) as i32
    }
}
