//! Numbers modulo powers of 2.

ghost use Rattle.std.specs.Prelude.{◌≡◌};
ghost use Rattle.ppc_bits.specs.Bits.{modulo};

/// A number modulo 2^32.
pub(crate) fn low_32(value: i128) -> u32
    ensures { result ≡ modulo 32 value }
{
    (value.cast_unsigned() % (1 << 32)) as u32
}

/// A number modulo 2^64.
pub(crate) fn low_64(value: i128) -> u64
    ensures { result ≡ modulo 64 value }
{
    (value.cast_unsigned() % (1 << 64)) as u64
}
