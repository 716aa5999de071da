// Written by tools/make_tables.py from docs/INSTRUCTIONS.md.
//! Classes of operations.

ghost use Rattle.std.specs.Prelude.{◌≡◌};
ghost use Rattle.ppc_ops.specs.Classes as classes;

use crate::op::Op;

/// Whether the operation is one of these: operations of one register, whose bits 16:20 are ignored.
pub fn has_one_source(op: Op) -> bool
    ensures { result ≡ classes.has_one_source op }
{
    matches!(
        op,
        Op::Addme | Op::Addze | Op::Neg | Op::Subfme | Op::Subfze
    )
}

/// Whether the operation is one of these: sums with an immediate that take 0 in place of register 0.
pub fn takes_zero(op: Op) -> bool
    ensures { result ≡ classes.takes_zero op }
{
    matches!(op, Op::Addi | Op::Addis)
}

/// Whether the operation is one of these: shifts whose distance has five bits.
pub fn shifts_words(op: Op) -> bool
    ensures { result ≡ classes.shifts_words op }
{
    matches!(op, Op::Srawi)
}

/// Whether the operation is one of these: rotations of doublewords by the number in a register.
pub fn turns_by_register(op: Op) -> bool
    ensures { result ≡ classes.turns_by_register op }
{
    matches!(op, Op::Rldcl | Op::Rldcr)
}

/// Whether the operation is one of these: comparisons with an unsigned immediate.
pub fn compares_unsigned(op: Op) -> bool
    ensures { result ≡ classes.compares_unsigned op }
{
    matches!(op, Op::Cmpli)
}

/// Whether the operation is one of these: comparisons of a byte with each byte of a doubleword.
pub fn seeks_any_byte(op: Op) -> bool
    ensures { result ≡ classes.seeks_any_byte op }
{
    matches!(op, Op::Cmpeqb)
}

/// Whether the operation is one of these: loads and stores whose displacement is a multiple of 4.
pub fn scales_displacement(op: Op) -> bool
    ensures { result ≡ classes.scales_displacement op }
{
    matches!(op, Op::Ld | Op::Ldu | Op::Lwa | Op::Std | Op::Stdu)
}

/// Whether the operation is one of these: loads that put the address into RA.
pub fn loads_with_update(op: Op) -> bool
    ensures { result ≡ classes.loads_with_update op }
{
    matches!(
        op,
        Op::Lwzu
            | Op::Lbzu
            | Op::Lhzu
            | Op::Lhau
            | Op::Ldu
            | Op::Lwzux
            | Op::Lbzux
            | Op::Lhzux
            | Op::Lhaux
            | Op::Lwaux
            | Op::Ldux
    )
}

/// Whether the operation is one of these: stores that put the address into RA.
pub fn stores_with_update(op: Op) -> bool
    ensures { result ≡ classes.stores_with_update op }
{
    matches!(
        op,
        Op::Stwu | Op::Stbu | Op::Sthu | Op::Stdu | Op::Stwux | Op::Stbux | Op::Sthux | Op::Stdux
    )
}

/// Whether the operation is one of these: branches to the count register.
pub fn branches_to_count(op: Op) -> bool
    ensures { result ≡ classes.branches_to_count op }
{
    matches!(op, Op::Bcctr)
}

/// Whether the operation is one of these: loads and stores of the hypervisor that do not use caches.
pub fn inhibits_caching(op: Op) -> bool
    ensures { result ≡ classes.inhibits_caching op }
{
    matches!(
        op,
        Op::Lwzcix
            | Op::Lhzcix
            | Op::Lbzcix
            | Op::Ldcix
            | Op::Stwcix
            | Op::Sthcix
            | Op::Stbcix
            | Op::Stdcix
    )
}
