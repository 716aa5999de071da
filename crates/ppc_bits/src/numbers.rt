//! The numbers that words stand for, and the words of numbers.

ghost use Rattle.std.specs.Prelude.{◌≡◌, ◌^◌, ◌<◌, ◌≤◌, FitsSigned};
ghost use Rattle.std.specs.Int.{w32, w64};
ghost use Rattle.ppc_bits.specs.Bits as bits;

/// Whether bit `at` of a word of `width` bits is 1.
pub fn is_set(word: u64, width: u8, at: u8) -> bool
    requires inside { at < width }
    requires width { width ≤ 64 }
    requires fits { word < 2 ^ width }
    ensures { result ≡ bits.is_set width word at }
{
    (word >> (width - 1 - at)) % 2 == 1
}

/// The low word of a doubleword.
pub fn low_word(value: u64) -> u32
    ensures { result ≡ bits.low 32 value }
{
    (value % (1 << 32)) as u32
}

/// The signed number that the low word of a doubleword stands for.
pub fn signed_word(value: u64) -> i64
    ensures value { result ≡ bits.low_signed 32 value }
    ensures range { FitsSigned w32 result }
{
    i64::from(low_word(value).cast_signed())
}

/// The signed number that a doubleword stands for.
pub fn signed_doubleword(value: u64) -> i128
    ensures value { result ≡ bits.signed_of 64 value }
    ensures low { result ≡ bits.low_signed 64 value }
    ensures range { FitsSigned w64 result }
{
    i128::from(value.cast_signed())
}

/// A number modulo 2 ^ 64.
pub fn doubleword(number: i128) -> u64
    ensures { result ≡ bits.modulo 64 number }
{
    (number.cast_unsigned() % (1 << 64)) as u64
}

/// A number modulo 2 ^ 32.
pub fn word(number: i128) -> u64
    ensures { result ≡ bits.modulo 32 number }
{
    (number.cast_unsigned() % (1 << 32)) as u64
}
