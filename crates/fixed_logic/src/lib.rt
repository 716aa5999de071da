//! Logic instructions: logical operations, shifts, rotations and counts.
#![tactic(auto)]

mod bitwise;
mod bytes;
mod counts;
mod forms;
mod laws;
mod rotates;
mod shifts;

pub use forms::logic;
pub use laws::{
    long_shifts_leave_nothing, powers_of_two_have_one_bit, rotations_turn_back, zero_has_no_bit,
};

#[cfg(test)]
mod tests;
