//! What translates the addresses of a machine's threads.
#![tactic(auto)]

mod cached;
mod completing;
mod covering;
mod lists;
mod places;
mod plain;

pub use cached::Cached;
pub use places::{KeptPlace, PlaceList};
pub use plain::Plain;

#[cfg(test)]
mod tests;
