//! The lines of the assembler's language: what a label, a directive, an instruction, an operand and an expression are.
#![tactic(auto)]

mod expression;
mod laws;
mod line;
mod mnemonic;
mod operand;
mod operand_list;
mod operand_reading;
mod piece;
mod pieces;
mod spelling;
mod statement;
mod statement_reading;

pub use expression::{Atom, Expression, Term};
pub use laws::a_text_is_no_longer_than_its_line;
pub use line::{Line, read_line};
pub use operand::{Half, Number, Operand};
pub use operand_list::Operands;
pub use piece::{Piece, Sign};
pub use pieces::Pieces;
pub use spelling::Spelling;
pub use statement::{Directive, Statement, Width};

#[cfg(test)]
mod tests;
