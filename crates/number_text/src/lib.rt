//! Numbers as text: decimal and hexadecimal ones.
#![tactic(auto)]

mod hex;
mod reading;

pub use hex::{is_hex_digit, read_hex, read_hex_up_to};
pub use reading::read_number;

#[cfg(test)]
mod tests;
