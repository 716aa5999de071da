// Written by tools/make_tables.py from docs/INSTRUCTIONS.md.
//! The marks behind the names of operations.

ghost use Rattle.std.specs.Prelude.{◌≡◌};
ghost use Rattle.operand_texts.specs.Marks as marks;

use ppc_ops::{Layout, Op, layout};

/// Whether the operation's name takes the mark `o`, which asks for the overflow bits.
pub fn takes_overflow(op: Op) -> bool
    ensures { result ≡ marks.takes_overflow op }
{
    matches!(layout(op), Layout::Arith)
}

/// Whether the operation's name takes the mark `.`, which asks for CR0.
pub fn takes_record(op: Op) -> bool
    ensures { result ≡ marks.takes_record op }
{
    matches!(
        layout(op),
        Layout::Arith
            | Layout::MulHigh
            | Layout::Logic
            | Layout::Unary
            | Layout::ShiftImm
            | Layout::RotWord
            | Layout::RotDouble
    )
}

/// Whether the operation's name takes the mark `l`, which puts the next address into LR.
pub fn takes_link(op: Op) -> bool
    ensures { result ≡ marks.takes_link op }
{
    matches!(
        layout(op),
        Layout::Jump | Layout::Branch | Layout::BranchReg
    )
}

/// Whether the operation's name takes the mark `a`, which makes the target the address itself.
pub fn takes_absolute(op: Op) -> bool
    ensures { result ≡ marks.takes_absolute op }
{
    matches!(layout(op), Layout::Jump | Layout::Branch)
}
