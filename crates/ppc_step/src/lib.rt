//! One step of a thread: its word, what the word's form does, the interrupt that it takes, and the clock.
#![tactic(auto)]

mod branching;
mod conditions;
mod execution;
mod fixed_point;
mod laws;
mod stepping;
mod storage;
mod words;

pub use laws::{
    a_reset_state_is_sound, a_run_keeps_states_sound, a_step_keeps_other_threads,
    a_step_keeps_states_sound, a_steps_accesses_are_confined,
    the_readings_of_a_lawful_run_are_true,
};
pub use stepping::{Parts, Stepped, step};

#[cfg(test)]
mod tests;
