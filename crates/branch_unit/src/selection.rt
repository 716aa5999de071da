//! Values that the condition register gives (Power ISA, Book I, 3.3.12 and 3.3.17).

ghost use Rattle.std.specs.Prelude.{◌≡◌, ◌<◌, ◌+◌, ◌*◌};
ghost use Rattle.ppc_bits.specs.Bits.{bit};
ghost use Rattle.ppc_ops.specs.Forms.{IsForm};
ghost use Rattle.branch_unit.specs.Select as selecting;

use crate::fields::{fields_of, has_bit};
use ppc_ops::Insn;

/// -1, 1 or 0 by the first two bits of a field.
fn set_by(cr: u32, bfa: u8) -> u64
    requires { bfa < 8 }
    ensures { result ≡ selecting.set_by (bit 32 cr (4 * bfa)) (bit 32 cr (4 * bfa + 1)) }
{
    if has_bit(cr, 4 * bfa) {
        u64::MAX
    } else {
        u64::from(has_bit(cr, 4 * bfa + 1))
    }
}

/// The value of RT after isel, setb, mfcr and mfocrf (Power ISA, Book I, 3.3.12 and 3.3.17). `a` is the value of RA, which
/// is 0 for isel whose RA is 0, and `b` that of RB.
#[tactic(auto, unfolding(crate::specs::Select::select_of))]
pub fn select(insn: &Insn, a: u64, b: u64, cr: u32) -> u64
    requires form { IsForm insn.now }
    requires select { selecting.IsSelect insn.now }
    ensures { result ≡ selecting.select_of insn.now a b cr }
{
    match *insn {
        Insn::Select { bit, .. } => { if has_bit(cr, bit) { a } else { b } }
        Insn::SetB { bfa, .. } => set_by(cr, bfa),
        Insn::MfCr { .. } => u64::from(cr),
        Insn::MfOneCr { fxm, .. } => u64::from(fields_of(fxm, cr)),
        _ => unreachable!(),
    }
}
