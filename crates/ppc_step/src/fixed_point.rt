//! The execution of fixed-point forms.

ghost use Rattle.std.specs.Prelude.{◌≡◌, ◌<◌, ◌^◌, if◌then◌else◌};
ghost use Rattle.thread_regs.specs.Registers.{gpr};
ghost use Rattle.ppc_ops.specs.Forms.{IsForm};
ghost use Rattle.ppc_ops.specs.Classes.{turns_by_register};
ghost use Rattle.fixed_arith.specs.Arith.{IsArithmetic};
ghost use Rattle.fixed_logic.specs.Logic.{IsLogic};
ghost use Rattle.form_outcomes.specs.Outcomes.{ComesTo, Goes};
ghost use Rattle.ppc_step.specs.FixedPoint as points;

use fixed_arith::arith;
use fixed_logic::logic;
use journal_core::StepEnd;
use ppc_ops::{ArithOut, Insn, Op, takes_zero, turns_by_register};
use thread_regs::Thread;

/// The value of a register, or 0 where its number is 0 and the operation takes 0 in its place.
pub fn base(thread: &Thread, op: Op, ra: u8) -> u64
    requires { ra < 32 }
    ensures { result ≡ points.base op ra thread.now }
{
    if takes_zero(op) && ra == 0 {
        0
    } else {
        thread.gpr(ra)
    }
}

/// Writes the first field of the condition register, if at all.
fn write_cr0(thread: &mut Thread, field: Option<u8>)
    ensures { thread.new ≡ points.with_cr0 field thread.old }
{
    if let Some(field) = field {
        thread.cr = u32::from(field) % 16 * 0x1000_0000 + thread.cr % 0x1000_0000;
    }
}

/// Leaves what an instruction gives in the registers, and goes on.
fn leave(thread: &mut Thread, register: u8, out: ArithOut)
    requires { register < 32 }
    ensures { thread.new ≡ points.left_in register out thread.old }
{
    thread.set_gpr(register, out.value);
    thread.xer = out.xer;
    write_cr0(thread, out.cr0);
    thread.advance();
}

/// Executes an arithmetic form, whose operands have these values.
pub fn execute_arith(thread: &mut Thread, insn: &Insn, rt: u8, a: u64, b: u64, c: u64) -> StepEnd
    requires form { IsForm insn.now }
    requires arithmetic { IsArithmetic insn.now }
    requires rt { rt < 32 }
    ensures { ComesTo (Goes (points.arith_effect insn.now rt a b c thread.old)) thread.old thread.new result }
{
    let out = arith(insn, a, b, c, thread.xer);
    leave(thread, rt, out);
    StepEnd::Ran
}

/// The value of the register that `by` numbers, where the operation turns by a register.
pub fn turning(thread: &Thread, op: Op, by: u8) -> u64
    requires { by < 2 ^ (if turns_by_register op then 5 else 6) }
    ensures { result ≡ points.turning op by thread.now }
{
    if turns_by_register(op) {
        thread.gpr(by)
    } else {
        0
    }
}

/// Executes a logic form, whose sources have these values.
pub fn execute_logic(thread: &mut Thread, insn: &Insn, ra: u8, s: u64, b: u64) -> StepEnd
    requires form { IsForm insn.now }
    requires logic { IsLogic insn.now }
    requires ra { ra < 32 }
    ensures { ComesTo (Goes (points.logic_effect insn.now ra s b thread.old)) thread.old thread.new result }
{
    let out = logic(insn, s, b, thread.gpr(ra), thread.xer);
    leave(thread, ra, out);
    StepEnd::Ran
}
