//! Interrupts: what each cause leaves in a thread's registers, which cause is pending, and the clock.
#![tactic(auto)]

mod clock;
mod delivery;
mod laws;
mod pending_causes;
mod table;

pub use clock::tick;
pub use delivery::deliver;
pub use laws::{
    a_return_restores_the_state, an_interrupt_enters_privileged_state,
    an_interrupt_leaves_the_rest, handlers_begin_at_instructions,
};
pub use pending_causes::pending;
pub use table::{Interrupt, SavedIn, interrupt_of, offset};

#[cfg(test)]
mod tests;
