//! The execution of forms that read or write the condition register.

ghost use Rattle.std.specs.Prelude.{◌≡◌, ◌<◌};
ghost use Rattle.ppc_ops.specs.Forms.{IsForm};
ghost use Rattle.branch_unit.specs.Compare.{IsCompare};
ghost use Rattle.branch_unit.specs.CrLogic.{IsCrLogic};
ghost use Rattle.branch_unit.specs.Select.{IsSelect};
ghost use Rattle.form_outcomes.specs.Outcomes.{ComesTo, Goes};
ghost use Rattle.ppc_step.specs.Conditions as conditions;

use branch_unit::{compare, cr_logic, moved_fields, select, with_field};
use journal_core::StepEnd;
use ppc_ops::Insn;
use thread_regs::Thread;

/// Executes a comparison of two values, which writes field `bf`.
pub fn execute_compare(thread: &mut Thread, insn: &Insn, bf: u8, a: u64, b: u64) -> StepEnd
    requires form { IsForm insn.now }
    requires compare { IsCompare insn.now }
    requires bf { bf < 8 }
    ensures { ComesTo (Goes (conditions.compare_effect insn.now bf a b thread.old)) thread.old thread.new result }
{
    let order = compare(insn, a, b, thread.xer);
    thread.set_cr(with_field(thread.cr(), bf, order));
    thread.advance();
    StepEnd::Ran
}

/// Executes an operation of the condition register.
pub fn execute_cr_logic(thread: &mut Thread, insn: &Insn) -> StepEnd
    requires form { IsForm insn.now }
    requires cr_logic { IsCrLogic insn.now }
    ensures { ComesTo (Goes (conditions.cr_effect insn.now thread.old)) thread.old thread.new result }
{
    thread.set_cr(cr_logic(insn, thread.cr(), thread.xer));
    thread.advance();
    StepEnd::Ran
}

/// Executes a choice of two values, or a copy of the condition register, which writes register `rt`.
pub fn execute_select(thread: &mut Thread, insn: &Insn, rt: u8, a: u64, b: u64) -> StepEnd
    requires form { IsForm insn.now }
    requires select { IsSelect insn.now }
    requires rt { rt < 32 }
    ensures { ComesTo (Goes (conditions.select_effect insn.now rt a b thread.old)) thread.old thread.new result }
{
    thread.set_gpr(rt, select(insn, a, b, thread.cr()));
    thread.advance();
    StepEnd::Ran
}

/// Moves fields of a register to the condition register.
pub fn execute_fields(thread: &mut Thread, fxm: u8, rs: u8) -> StepEnd
    requires rs { rs < 32 }
    ensures { ComesTo (Goes (conditions.fields_effect fxm rs thread.old)) thread.old thread.new result }
{
    thread.set_cr(moved_fields(fxm, thread.gpr(rs), thread.cr()));
    thread.advance();
    StepEnd::Ran
}

/// The value of a register, or 0 for register 0.
pub fn gpr_or_zero(thread: &Thread, ra: u8) -> u64
    requires { ra < 32 }
    ensures { result ≡ conditions.gpr_or_zero ra thread.now }
{
    if ra == 0 { 0 } else { thread.gpr(ra) }
}
