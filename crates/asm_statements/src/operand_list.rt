//! Lists of operands.

ghost use Rattle.std.specs.Prelude.{◌≡◌, ◌<◌, ◌≤◌, [], ◌∷◌, ◌++◌, length};

use crate::operand::Operand;
use arrayvec::ArrayVec;
use std::marker::Model;

/// The operands of an instruction, at most five. Contracts see the list of them.
#[derive(Drop)]
pub struct Operands<'a> {
    items: ArrayVec<Operand<'a>, 5>,
}

impl<'a> Model for Operands<'a> {
    ghost use Rattle.std.specs.Prelude.{List};
    ghost use Rattle.asm_statements.specs.declared.operand.Operand.{Operand};

    ghost Value = { List Operand };

    ghost view = { λ o. o.items.items };
}

impl<'a> Operands<'a> {
    /// No operands.
    pub(crate) fn new() -> Operands<'a>
        ensures { result ≡ [] }
    {
        Operands {
            items: ArrayVec::new(),
        }
    }

    /// Adds an operand at the end.
    pub(crate) fn push(&mut self, operand: Operand<'a>)
        requires { length self.old < 5 }
        ensures { self.new ≡ self.old ++ operand.entry ∷ [] }
    {
        self.items.push(operand);
    }

    /// The operands, in order.
    pub fn as_slice(&self) -> &[Operand<'a>]
        ensures { result.now ≡ self.now }
    {
        self.items.as_slice()
    }
}
