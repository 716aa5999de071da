//! Accesses in hypervisor state without relocation, over a bus of the three devices.

mod all_forms;
mod bench;
mod devices;
mod refusals;
mod two_pages;
