//! Special purpose registers, who may use them and which values they may have, and the machine state register.
#![tactic(auto)]

mod answer;
mod laws;
mod lpcr;
mod msr;
mod privilege;
mod spr;
mod values;

pub use answer::Access;
pub use laws::{
    guests_stay_guests, interrupts_keep_the_profile, new_values_are_in_the_profile,
    problem_state_is_confined,
};
pub use lpcr::leaves_invalidations;
pub use msr::{Hyper, Msr, ProfileBits};
pub use privilege::access;
pub use spr::{Spr, is_hypervisor, is_read_only, number, spr_of, width};
pub use values::may_have;

#[cfg(test)]
mod tests;
