//! Who may read and write a special purpose register (Power ISA, Book III, Move To/From System Register).

ghost use Rattle.std.specs.Prelude.{◌≡◌};
ghost use Rattle.ppc_spr.specs.Access as accesses;

use crate::answer::Access;
use crate::msr::Msr;
use crate::spr::{is_hypervisor, is_read_only, spr_of};

/// Whether problem state may not use registers of this number.
fn is_privileged(n: u16) -> bool
    ensures { result ≡ accesses.is_privileged n }
{
    n & 16 != 0
}

/// The answer to a thread with this machine state that writes, or else reads, the register of number `n`.
#[tactic(auto, unfolding(crate::specs::Access::access_of))]
pub fn access(n: u16, msr: Msr, write: bool) -> Access
    ensures { result ≡ accesses.access_of n msr write }
{
    if is_privileged(n) && msr.is_problem() {
        return Access::Program;
    }
    match spr_of(n) {
        None => Access::NotInProfile,
        Some(spr) if write && is_read_only(spr) => Access::NotInProfile,
        Some(spr) if is_hypervisor(spr) && !msr.is_hypervisor() => Access::Assist,
        Some(spr) => Access::Allowed(spr),
    }
}
