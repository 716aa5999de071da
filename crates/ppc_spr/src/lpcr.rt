//! The logical partitioning control register (Power ISA, Book III, 2.2).

ghost use Rattle.std.specs.Prelude.{◌≡◌};
ghost use Rattle.ppc_spr.specs.Lpcr as profile;

use ppc_bits::is_set;

/// Interrupts are taken little-endian.
const ILE: u64 = 1 << (63 - 38);
/// Processes have tables.
const UPRT: u64 = 1 << (63 - 41);
/// The hypervisor's own tables are radix trees.
const HR: u64 = 1 << (63 - 43);
/// A guest may make invalidations that reach all threads.
const GTSE: u64 = 1 << (63 - 53);
/// The hypervisor decrementer's interrupt is enabled.
const HDICE: u64 = 1 << (63 - 63);

/// The bits that are 1.
const ONES: u64 = ILE | UPRT | HR;
/// All bits but those that may be 0 and 1.
const FIXED: u64 = !(GTSE | HDICE);

/// Whether the register may have this value.
pub(crate) fn is_in_profile(value: u64) -> bool
    ensures { result ≡ profile.is_in_profile value }
{
    value & FIXED == ONES
}

/// Whether a hypervisor with this value of LPCR has left its guests invalidations that reach all threads.
pub fn leaves_invalidations(lpcr: u64) -> bool
    ensures { result ≡ profile.leaves_invalidations lpcr }
{
    is_set(lpcr, 64, 53)
}
