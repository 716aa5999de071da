//! Laws of the definitions: rotations turn back, counts of powers of 2, and long shifts.

ghost use Rattle.std.specs.Prelude.{◌≡◌, ◌-◌, ◌^◌, ◌<◌, ◌≤◌};
ghost use Rattle.ppc_bits.specs.Bits.{rotated};
ghost use Rattle.fixed_logic.specs.Counts.{cntlzd_of, cnttzd_of, popcntd_of};
ghost use Rattle.fixed_logic.specs.Shifts.{shifted_left, shifted_right};

/// A doubleword turned left by some places, and then by the rest of 64, is as it was.
pub fn rotations_turn_back(value: u64, by: u8)
    requires { by ≤ 64 }
    ensures { rotated 64 (rotated 64 value by) (64 - by) ≡ value }
{}

/// The power 2 ^ k has 63 - k zeros before its one, and k after it.
pub fn powers_of_two_have_one_bit(k: u8)
    requires { k < 64 }
    ensures before { cntlzd_of (2 ^ k) ≡ 63 - k }
    ensures after { cnttzd_of (2 ^ k) ≡ k }
    ensures ones { popcntd_of (2 ^ k) ≡ 1 }
{}

/// Zero has 64 zeros before its first one, and after its last.
pub fn zero_has_no_bit()
    ensures before { cntlzd_of 0 ≡ 64 }
    ensures after { cnttzd_of 0 ≡ 64 }
    ensures ones { popcntd_of 0 ≡ 0 }
{}

/// A shift by 64 places or more leaves 0.
pub fn long_shifts_leave_nothing(value: u64, n: u8)
    requires { 64 ≤ n }
    ensures left { shifted_left 64 value n ≡ 0 }
    ensures right { shifted_right 64 value n ≡ 0 }
{}
