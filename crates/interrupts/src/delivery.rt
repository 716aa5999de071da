//! An interrupt is taken.

ghost use Rattle.std.specs.Prelude.{◌≡◌};
ghost use Rattle.interrupts.specs.Delivery as deliveries;

use crate::table::{Interrupt, SavedIn, interrupt_of};
use journal_core::Cause;
use ppc_bits::next_address;
use ppc_spr::Msr;
use thread_regs::Thread;

/// The address that is saved.
#[tactic(auto, unfolding(crate::specs::Delivery::saved_address))]
fn saved_address(cause: &Cause, nia: u64) -> u64
    ensures { result ≡ deliveries.saved_address cause.now nia }
{
    match *cause {
        Cause::SystemCall { .. } => next_address(nia),
        Cause::DataStorage { .. }
        | Cause::DataSegment { .. }
        | Cause::InstStorage { .. }
        | Cause::InstSegment
        | Cause::Alignment { .. }
        | Cause::Program { .. }
        | Cause::Decrementer
        | Cause::HypDecrementer
        | Cause::HypDataStorage { .. }
        | Cause::HypInstStorage { .. }
        | Cause::HypAssist { .. }
        | Cause::HypDoorbell => nia,
    }
}

/// The machine state that is saved.
fn saved_state(msr: Msr, bits: u64) -> u64
    ensures { result ≡ deliveries.saved_state msr bits }
{
    msr.0 | bits
}

/// Saves an address and a machine state.
fn save(saved_in: SavedIn, address: u64, state: u64, thread: &mut Thread)
    ensures { thread.new ≡ deliveries.with_saved saved_in address state thread.old }
{
    match saved_in {
        SavedIn::Srr => {
            thread.srr0 = address;
            thread.srr1 = state;
        }
        SavedIn::Hsrr => {
            thread.hsrr0 = address;
            thread.hsrr1 = state;
        }
    }
}

/// Goes on at the interrupt's address, with the machine state that it leaves.
fn enter(interrupt: Interrupt, thread: &mut Thread)
    ensures { thread.new ≡ deliveries.entered interrupt thread.old }
{
    thread.nia = interrupt.offset;
    thread.msr = thread.msr.after_interrupt(interrupt.hyper);
}

/// Sets the registers that tell more of the cause.
#[tactic(auto, unfolding(crate::specs::Delivery::with_details))]
fn set_details(cause: &Cause, thread: &mut Thread)
    ensures { thread.new ≡ deliveries.with_details cause.now thread.old }
{
    match *cause {
        Cause::DataStorage { dar, dsisr } => {
            thread.dar = dar;
            thread.dsisr = dsisr;
        }
        Cause::DataSegment { dar } | Cause::Alignment { dar } => thread.dar = dar,
        Cause::HypDataStorage { hdar, hdsisr, asdr } => {
            thread.hdar = hdar;
            thread.hdsisr = hdsisr;
            thread.asdr = asdr;
        }
        Cause::HypInstStorage { asdr, .. } => thread.asdr = asdr,
        Cause::HypAssist { heir } => thread.heir = heir,
        Cause::InstStorage { .. }
        | Cause::InstSegment
        | Cause::Program { .. }
        | Cause::Decrementer
        | Cause::HypDecrementer
        | Cause::SystemCall { .. }
        | Cause::HypDoorbell => {}
    }
}

/// The thread takes the interrupt of this cause (Power ISA, Book III, 6.4 and 6.5).
#[tactic(auto, unfolding(crate::specs::Delivery::delivered))]
pub fn deliver(cause: &Cause, thread: &mut Thread)
    ensures { thread.new ≡ deliveries.delivered cause.now thread.old }
{
    let interrupt = interrupt_of(cause);
    let address = saved_address(cause, thread.nia);
    let state = saved_state(thread.msr, interrupt.bits);
    enter(interrupt, thread);
    save(interrupt.saved_in, address, state, thread);
    set_details(cause, thread);
}
