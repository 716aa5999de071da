//! The instruction table: operations, the layouts of their operands, and the fixed bits of their words.
#![tactic(auto)]

mod classes;
mod forms;
mod insn;
mod layouts;
mod names;
mod op;
mod results;
mod rows;
mod table;

pub use classes::{
    branches_to_count, compares_unsigned, has_one_source, inhibits_caching, loads_with_update,
    scales_displacement, seeks_any_byte, shifts_words, stores_with_update, takes_zero,
    turns_by_register,
};
pub use forms::is_invalid;
pub use insn::{Insn, Layout};
pub use layouts::layout;
pub use names::name;
pub use op::{Op, Row};
pub use results::{ArithOut, Xer, record_of};
pub use table::{row, row_count, row_of, rows_apart};

#[cfg(test)]
mod tests;
