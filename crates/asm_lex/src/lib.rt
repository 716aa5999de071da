//! The tokens of the assembler's language: numbers, words, texts, signs and newlines, as slices in order.
#![tactic(auto)]

mod classes;
mod fault;
mod laws;
mod lexemes;
mod lexer;
mod reading;
mod token;
mod token_list;

pub use fault::LexFault;
pub use laws::tokens_are_those_of_the_lines;
pub use lexer::Lexer;
pub use reading::tokens;
pub use token::{Token, TokenKind};
pub use token_list::Tokens;

#[cfg(test)]
mod tests;
