//! What operations compute, and what instructions leave of it.

ghost use Rattle.std.specs.Prelude.{◌≡◌};
ghost use Rattle.fixed_arith.specs.Outcomes as outcomes;

use ppc_ops::{ArithOut, Xer, record_of};

/// The carries of a sum.
#[derive(Clone, Copy, Debug, PartialEq, Eq)]
pub struct Carries {
    /// The carry out of all 64 bits.
    pub carry: bool,
    /// The carry out of the low 32 bits.
    pub carry32: bool,
}

/// What an operation computes, before the instruction says which of it is recorded.
#[derive(Clone, Copy, Debug, PartialEq, Eq)]
pub struct Computation {
    /// The new value of the register that is written.
    pub value: u64,
    /// The carries, where the operation records them.
    pub carries: Option<Carries>,
    /// The exact result leaves its range.
    pub overflow: bool,
    /// The exact result of the low 32 bits leaves its range.
    pub overflow32: bool,
}

/// A value alone: no carries to record, and no overflow.
pub fn plain(value: u64) -> Computation
    ensures { result ≡ outcomes.plain value }
{
    Computation {
        value,
        carries: None,
        overflow: false,
        overflow32: false,
    }
}

/// The exception register after an instruction; `oe` asks for the overflow bits.
fn xer_after(oe: bool, computed: Computation, xer: Xer) -> Xer
    ensures { result ≡ outcomes.xer_after oe computed xer }
{
    let mut after = xer;
    if let Some(carries) = computed.carries {
        after.ca = carries.carry;
        after.ca32 = carries.carry32;
    }
    if oe {
        after.so = xer.so || computed.overflow;
        after.ov = computed.overflow;
        after.ov32 = computed.overflow32;
    }
    after
}

/// What an instruction leaves: `oe` asks for the overflow bits, `rc` for the first field of the condition register.
pub fn outcome(oe: bool, rc: bool, xer: Xer, computed: Computation) -> ArithOut
    ensures { result ≡ outcomes.outcome oe rc xer computed }
{
    let value = computed.value;
    let xer = xer_after(oe, computed, xer);
    let cr0 = if rc {
        Some(record_of(value, xer.so))
    } else {
        None
    };
    ArithOut { value, xer, cr0 }
}
