//! The kinds of operands in text.

use crate::fields::Field;

/// How an operand of a form stands in assembler text.
#[derive(Clone, Copy, Debug, PartialEq, Eq)]
pub enum OperandText {
    /// A general register: `r0` to `r31`.
    Register(Field),
    /// A general register, in whose place register 0 means the number 0: `r0` to `r31`, or `0` for register 0.
    RegisterOrZero(Field),
    /// A number from 0 on; of a `bool` 0 or 1.
    Number(Field),
    /// A signed number of 16 bits.
    Signed(Field),
    /// The displacement, and in brackets register RA: `D(r0)` to `D(r31)`.
    Displacement,
    /// The displacement, and in brackets register RA, in whose place register 0 means the number 0: `D(r0)` to
    /// `D(r31)`, or `D(0)` for register 0.
    DisplacementOrZero,
    /// The address that a branch goes to. The field has this address where `aa` is true, and else what is added to the
    /// branch's own address.
    Target(Field),
}
