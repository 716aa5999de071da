//! The interrupt that a thread is to take before its next instruction.

ghost use Rattle.std.specs.Prelude.{◌≡◌};
ghost use Rattle.interrupts.specs.PendingCauses.{pending_cause};

use journal_core::Cause;
use thread_regs::Thread;

/// The cause that is taken before the thread's next instruction, if there is one (Power ISA, Book III, 6.7). The
/// decrementers raise none in this machine, so there is none.
pub fn pending(thread: &Thread) -> Option<Cause>
    ensures { result ≡ pending_cause thread.now }
{
    None
}
