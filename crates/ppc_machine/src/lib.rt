//! The machine: opening, one step, and whole runs.
#![tactic(auto)]

mod machines;
mod opening;
mod plugging;

pub use machines::{Machine, MachineOf};
pub use opening::{OpenFault, OpenFaultOf, OpenReason};
pub use plugging::{Plugged, PluggedOf};

#[cfg(test)]
mod tests;
