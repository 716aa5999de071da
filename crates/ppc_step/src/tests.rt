//! Steps in hypervisor state without relocation, and words in any state.

mod bench;
mod privilege;
mod rows;
