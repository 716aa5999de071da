//! Devices in windows of the address space: a bus, and what a step asks of one.
#![tactic(auto)]

mod buses;
mod devices;
mod faults;
mod laws;
mod ports;
mod slots;

pub use buses::{Bus, BusOf};
pub use devices::Device;
pub use faults::{BusFault, PlugFault, PlugFaultOf, PlugReason};
pub use laws::{aligned_access_lies_in_its_window, chain_gives_answers};
pub use ports::Port;
pub use slots::Slot;

#[cfg(test)]
mod tests;
