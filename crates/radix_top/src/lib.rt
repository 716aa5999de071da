//! The top call: words, files and a sink in, a machine and a status out.
#![tactic(auto)]

mod call;
mod command;
mod console_law;
mod cutting;
mod fault_lines;
mod guest_words;
mod guests;
mod inputs;
mod opening;
mod status;

pub use call::{Bench, radix_call};
pub use command::{Command, Options, read_command};
pub use console_law::consoles_show_their_stores;
pub use fault_lines::fault_line;
pub use guest_words::{GuestWord, GuestWords};
pub use status::{Refusal, Status, refused_status};

#[cfg(test)]
mod tests;
