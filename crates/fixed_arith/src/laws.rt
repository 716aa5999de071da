//! A law of the definitions.

ghost use Rattle.std.specs.Prelude.{◌≡◌, pos, ◌-ℤ◌, nat_le};
ghost use Rattle.ppc_bits.specs.Bits.{low, low_signed, modulo};
ghost use Rattle.fixed_arith.specs.Sums.{not_of, sum, signed_sum, carries_out};

/// A sum with the complement and a carry is a difference: it has the value of `b - a`, overflows where this leaves the
/// signed range, and carries where `a` is not above `b`.
pub fn complements_make_differences(a: u64, b: u64)
    ensures value { (sum (not_of a) b 1).value ≡ modulo 64 (pos b -ℤ pos a) }
    ensures signed64 { signed_sum 64 (not_of a) b 1 ≡ low_signed 64 b -ℤ low_signed 64 a }
    ensures signed32 { signed_sum 32 (not_of a) b 1 ≡ low_signed 32 b -ℤ low_signed 32 a }
    ensures carry64 { carries_out 64 (not_of a) b 1 ≡ nat_le a b }
    ensures carry32 { carries_out 32 (not_of a) b 1 ≡ nat_le (low 32 a) (low 32 b) }
{}
