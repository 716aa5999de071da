//! The devices that the program plugs: a console, a control and a tape.
#![tactic(auto)]

mod consoles;
mod controls;
mod tapes;

pub use consoles::Console;
pub use controls::Control;
pub use tapes::Tape;

#[cfg(test)]
mod tests;
