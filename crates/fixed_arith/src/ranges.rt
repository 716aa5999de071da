//! The ranges of numbers of 32 and 64 bits.

ghost use Rattle.std.specs.Prelude.{◌≡◌};
ghost use Rattle.fixed_arith.specs.Ranges as ranges;

/// Whether a number is no signed number of 64 bits.
pub fn leaves64(number: i128) -> bool
    ensures { result ≡ ranges.leaves_signed 64 number }
{
    number < i128::from(i64::MIN) || number > i128::from(i64::MAX)
}

/// Whether a number is no signed number of 32 bits.
pub fn leaves32(number: i64) -> bool
    ensures { result ≡ ranges.leaves_signed 32 number }
{
    number < i64::from(i32::MIN) || number > i64::from(i32::MAX)
}
