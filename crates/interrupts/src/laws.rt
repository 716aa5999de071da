//! Laws of the definitions: what every interrupt keeps, and where it leads.

ghost use Rattle.std.specs.Prelude.{◌≡◌, ◌<◌, ◌%◌, true, false, ◌||◌};
ghost use Rattle.ppc_spr.specs.Msrs as msrs;
ghost use Rattle.ppc_spr.specs.Profile.{is_in_profile};
ghost use Rattle.interrupts.specs.Delivery.{delivered};
ghost use Rattle.interrupts.specs.Laws.{LeavesTheRest, AReturnRestoresTheState};
ghost use Rattle.interrupts.specs.Table.{interrupt_of, offset_of};

use journal_core::Cause;
use thread_regs::Thread;

/// An interrupt changes no general purpose register, and of the others only the next address, the machine state and those
/// that interrupts write.
pub fn an_interrupt_leaves_the_rest(cause: Cause, thread: Thread)
    ensures { LeavesTheRest thread (delivered cause thread) }
{}

/// After an interrupt the thread is at the offset of its cause, in privileged state, with interrupts disabled and relocation
/// off. It is in hypervisor state where it was, or where the cause raises it; and its machine state is still one that this
/// machine can have.
pub fn an_interrupt_enters_privileged_state(cause: Cause, thread: Thread)
    ensures next { (delivered cause thread).nia ≡ offset_of cause }
    ensures profile { is_in_profile thread.msr.0 ≡ true → is_in_profile (delivered cause thread).msr.0 ≡ true }
    ensures privileged { msrs.pr (delivered cause thread).msr ≡ false }
    ensures disabled { msrs.ee (delivered cause thread).msr ≡ false }
    ensures fetches { msrs.ir (delivered cause thread).msr ≡ false }
    ensures data { msrs.dr (delivered cause thread).msr ≡ false }
    ensures hypervisor { msrs.hv (delivered cause thread).msr ≡ (msrs.raises (interrupt_of cause).hyper || msrs.hv thread.msr) }
{}

/// An interrupt's handler begins at a multiple of 4, in the first 4096 bytes.
#[tactic(auto, unfolding(crate::specs::Table::interrupt_of))]
pub fn handlers_begin_at_instructions(cause: Cause)
    ensures aligned { offset_of cause % 4 ≡ 0 }
    ensures low { offset_of cause < 4096 }
{}

/// A return directly after an interrupt, by `rfid` from SRR1 or by `hrfid` from HSRR1, gives back the machine state that was
/// interrupted.
pub fn a_return_restores_the_state(cause: Cause, thread: Thread)
    ensures { AReturnRestoresTheState cause thread }
{}
