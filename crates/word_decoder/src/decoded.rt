//! What a word means.

use ppc_ops::{Insn, Op};

/// What a word means.
#[derive(Clone, Copy, Debug, PartialEq, Eq)]
pub enum Decoded {
    /// This form, with its operands.
    Form(Insn),
    /// Nothing: the word 0, which is no instruction in any version of the architecture.
    Zero,
    /// An operation with operands that are an invalid form of it.
    InvalidForm(Op),
    /// No instruction of this machine.
    Unsupported,
}
