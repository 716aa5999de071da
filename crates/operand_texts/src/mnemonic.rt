//! Names of operations with their marks.

ghost use Rattle.std.specs.Prelude.{◌≡◌};
ghost use Rattle.operand_texts.specs.Mnemonics as mnemonics;

use crate::marks::{takes_absolute, takes_link, takes_overflow, takes_record};
use ppc_ops::Op;

/// An operation with the marks of its name.
#[derive(Clone, Copy, Debug, PartialEq, Eq)]
pub struct Mnemonic {
    /// The operation.
    pub op: Op,
    /// Whether `o` stands behind the name: the overflow bits are asked for.
    pub oe: bool,
    /// Whether `.` stands behind the name, or behind `o`: the record in CR field 0 is asked for.
    pub rc: bool,
    /// Whether `l` stands behind the name: the link register is set.
    pub lk: bool,
    /// Whether `a` stands behind the name, or behind `l`: the target is absolute.
    pub aa: bool,
}

impl Mnemonic {
    /// An operation without marks.
    pub fn unmarked(op: Op) -> Mnemonic
        ensures { result ≡ mnemonics.unmarked op }
    {
        Mnemonic {
            op,
            oe: false,
            rc: false,
            lk: false,
            aa: false,
        }
    }
}

/// Whether the operation's name takes the marks.
pub fn takes_marks(mnemonic: Mnemonic) -> bool
    ensures { result ≡ mnemonics.takes_marks mnemonic }
{
    (!mnemonic.oe || takes_overflow(mnemonic.op))
        && (!mnemonic.rc || takes_record(mnemonic.op))
        && (!mnemonic.lk || takes_link(mnemonic.op))
        && (!mnemonic.aa || takes_absolute(mnemonic.op))
}
