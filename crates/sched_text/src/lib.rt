//! Schedules: whose turn each step is.
#![tactic(auto)]

mod ends;
mod fault;
mod item;
mod reading;
mod schedule;

pub use fault::SchedFault;
pub use item::Item;
pub use reading::read_schedule;
pub use schedule::Schedule;

#[cfg(test)]
mod tests;
