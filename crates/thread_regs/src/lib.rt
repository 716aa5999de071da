//! The registers of the machine's hardware threads.
#![tactic(auto)]

mod laws;
mod registers;
mod specials;
mod threads;

pub use laws::a_set_register_is_read_back;
pub use registers::Thread;
pub use threads::Threads;

#[cfg(test)]
mod tests;
