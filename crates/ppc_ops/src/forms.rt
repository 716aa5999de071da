//! Invalid forms.

ghost use Rattle.std.specs.Prelude.{◌≡◌};
ghost use Rattle.ppc_ops.specs.Forms as forms;

use crate::classes::{branches_to_count, loads_with_update, stores_with_update};
use crate::insn::Insn;
use crate::op::Op;

fn is_wrong_update(op: Op, rt: u8, ra: u8) -> bool
    ensures { result ≡ forms.is_wrong_update op rt ra }
{
    loads_with_update(op) && (ra == 0 || ra == rt) || stores_with_update(op) && ra == 0
}

/// Whether the operands of an instruction are an invalid form: a load with update whose `ra` is 0 or `rt`, a
/// store with update whose `ra` is 0, a branch to the count register that would count, a move of one condition
/// field that names none or several, or the reserved barrier.
pub fn is_invalid(insn: Insn) -> bool
    ensures { result ≡ forms.is_invalid insn }
{
    match insn {
        Insn::Access { op, rt, ra, .. } => is_wrong_update(op, rt, ra),
        Insn::AccessX { op, rt, ra, .. } => is_wrong_update(op, rt, ra),
        Insn::BranchReg { op, bo, .. } => branches_to_count(op) && bo / 4 % 2 != 1,
        Insn::MfOneCr { fxm, .. } => fxm.count_ones() != 1,
        Insn::MtOneCr { fxm, .. } => fxm.count_ones() != 1,
        Insn::Sync { l } => l == 3,
        _ => false,
    }
}
