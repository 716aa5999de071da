//! The causes that forms raise, and the stop at a word that is not executed.

ghost use Rattle.std.specs.Prelude.{◌≡◌};
ghost use Rattle.journal_core.specs.declared.rows.StepEnd.TheVariants.{Stopped};
ghost use Rattle.journal_core.specs.declared.rows.StopName.TheVariants.{Unsupported};
ghost use Rattle.form_outcomes.specs.Programs as programs;

use journal_core::{Cause, StepEnd, StopName};

/// Bit 45 of SRR1: the program interrupt is one for a privileged instruction.
const PRIVILEGED: u64 = 1 << (63 - 45);

/// Bit 46 of SRR1: the program interrupt is a trap.
const TRAP: u64 = 1 << (63 - 46);

/// A program interrupt for a privileged instruction (Power ISA, Book III, 6.5.9).
pub fn privileged() -> Cause
    ensures { result ≡ programs.privileged }
{
    Cause::Program { bits: PRIVILEGED }
}

/// A program interrupt for a trap whose condition holds (Power ISA, Book III, 6.5.9).
pub fn trap() -> Cause
    ensures { result ≡ programs.trap }
{
    Cause::Program { bits: TRAP }
}

/// A hypervisor emulation assistance interrupt for the instruction of this word (Power ISA, Book III, 6.5.18).
pub fn assist(word: u32) -> Cause
    ensures { result ≡ programs.assist word }
{
    Cause::HypAssist { heir: word }
}

/// The stop at a word that the machine does not execute.
pub fn unsupported(word: u32) -> StepEnd
    ensures { result ≡ Stopped Unsupported word }
{
    StepEnd::Stopped(StopName::Unsupported, u64::from(word))
}
