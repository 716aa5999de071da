//! Operands as they stand in text.

use crate::expression::Expression;
use crate::spelling::Spelling;

/// Which 16 bits of a name's value are asked for.
#[derive(Clone, Copy, Debug, PartialEq, Eq)]
pub enum Half {
    /// The low ones, `@l`.
    Low,
    /// The next, `@h`.
    High,
    /// The next, plus the highest bit of the low ones, `@ha`.
    Adjusted,
}

/// A number as an operand.
#[derive(Drop)]
pub enum Number<'a> {
    /// The value of an expression.
    Whole(Expression<'a>),
    /// A part of the value of a name.
    Part(Half, Spelling<'a>),
}

/// An operand of an instruction.
#[derive(Drop)]
pub enum Operand<'a> {
    /// A general register, 0 to 31.
    Register(u8),
    /// A number.
    Number(Number<'a>),
    /// A displacement, and its general register, 0 to 31.
    Displacement(Number<'a>, u8),
    /// The address that a branch goes to.
    Target(Expression<'a>),
}

impl<'a> Default for Operand<'a> {
    fn default() -> Operand<'a> {
        Operand::Register(0)
    }
}
