//! Statements.

use crate::expression::Expression;
use crate::operand_list::Operands;
use crate::spelling::Spelling;
use operand_texts::Mnemonic;

/// A directive, by its word.
#[derive(Clone, Copy, Debug, PartialEq, Eq)]
pub enum Directive {
    /// `.seg`.
    Seg,
    /// `.entry`.
    Entry,
    /// `.equ`.
    Equ,
    /// `.word`.
    Word,
    /// `.dword`.
    Dword,
    /// `.bedword`.
    Bedword,
    /// `.ascii`.
    Ascii,
    /// `.space`.
    Space,
    /// `.align`.
    Align,
}

/// How a number stands in memory.
#[derive(Clone, Copy, Debug, PartialEq, Eq)]
pub enum Width {
    /// Four bytes, the lowest first.
    Word,
    /// Eight bytes, the lowest first.
    Doubleword,
    /// Eight bytes, the highest first.
    BigEndianDoubleword,
}

/// A statement of a line.
#[derive(Drop)]
pub enum Statement<'a> {
    /// A segment begins, at this real address.
    Seg(Expression<'a>),
    /// The first instruction stands at this name.
    Entry(Spelling<'a>),
    /// The name has this value.
    Equ(Spelling<'a>, Expression<'a>),
    /// A number.
    Data(Width, Expression<'a>),
    /// The bytes of a text.
    Ascii(Spelling<'a>),
    /// So many zeros.
    Space(Expression<'a>),
    /// Zeros up to a multiple.
    Align(Expression<'a>),
    /// An instruction.
    Instruction(Mnemonic, Operands<'a>),
}
