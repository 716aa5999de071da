//! RAM, from real address 0 on.
#![tactic(auto)]

mod laws;
mod numbers;
mod store;

pub use laws::{a_store_fits_no_rows, a_table_word_is_past, storing_keeps_fitting};
pub use store::{MOST_BYTES, NoStorage, Store};

#[cfg(test)]
mod tests;
