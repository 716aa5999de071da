//! What loads, stores and instructions of cache blocks do, over any translation and any devices.
#![tactic(auto)]

mod access_table;
mod accesses;
mod answering;
mod checks;
mod deeds;
mod devices;
mod forms;
mod moves;
mod moving;
mod parts;
mod storing;

pub use access_table::access_form;
pub use accesses::{StorageOut, access};
pub use answering::Answers;
pub use deeds::Deed;
pub use forms::AccessForm;
pub use parts::{Part, Parts};

#[cfg(test)]
mod tests;
