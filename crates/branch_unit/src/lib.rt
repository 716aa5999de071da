//! Branches, the condition register, comparisons, traps, and the values that the condition register gives.
#![tactic(auto)]

mod branching;
mod comparisons;
mod cr_bits;
mod fields;
mod laws;
mod masks;
mod selection;
mod traps;

pub use branching::{BranchOut, branch};
pub use comparisons::compare;
pub use cr_bits::cr_logic;
pub use fields::{moved_fields, with_field};
pub use laws::{
    bdnz_ends_at_count_1, bo_20_always_branches, comparisons_find_one_order, to_31_always_traps,
};
pub use selection::select;
pub use traps::trap;

#[cfg(test)]
mod tests;
