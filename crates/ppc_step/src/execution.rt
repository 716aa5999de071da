//! The execution of forms, each by its unit.

ghost use Rattle.std.specs.Prelude.{◌≡◌, ◌<◌};
ghost use Rattle.ppc_ops.specs.Forms.{IsForm};
ghost use Rattle.form_outcomes.specs.Outcomes.{ComesTo};
ghost use Rattle.ppc_step.specs.Effects.{thread_outcome};

use crate::branching::{execute_branch, execute_trap};
use crate::conditions::{
    execute_compare, execute_cr_logic, execute_fields, execute_select, gpr_or_zero,
};
use crate::fixed_point::{base, execute_arith, execute_logic, turning};
use form_outcomes::unsupported;
use journal_core::StepEnd;
use ppc_bits::next_address;
use ppc_ops::Insn;
use system_ops::system;
use thread_regs::Thread;

/// Executes a form that works on registers alone, of this word and in a thread of this number: the arm of its layout names
/// its unit and the registers that the unit works on. An interrupt that the form takes is not delivered here, and changes no
/// register yet.
#[tactic(auto, unfolding(crate::specs::Effects::thread_outcome))]
pub fn execute(thread: &mut Thread, insn: Insn, number: u8, word: u32) -> StepEnd
    requires form { IsForm insn }
    requires number { number < 4 }
    ensures { ComesTo (thread_outcome insn word thread.old) thread.old thread.new result }
{
    match insn {
        // sums, products and quotients
        Insn::AddImm { op, rt, ra, .. } => {
            execute_arith(thread, &insn, rt, base(thread, op, ra), 0, 0)
        }
        Insn::AddPc { rt, .. } => {
            execute_arith(thread, &insn, rt, next_address(thread.nia()), 0, 0)
        }
        Insn::Arith { rt, ra, rb, .. }
        | Insn::MulHigh { rt, ra, rb, .. }
        | Insn::Modulo { rt, ra, rb, .. } => {
            execute_arith(thread, &insn, rt, thread.gpr(ra), thread.gpr(rb), 0)
        }
        Insn::MulAdd {
            rt,
            ra,
            rb,
            third,
            ..
        } => {
            let c = thread.gpr(third);
            execute_arith(thread, &insn, rt, thread.gpr(ra), thread.gpr(rb), c)
        }
        // logic, shifts and rotations
        Insn::LogicImm { ra, rs, .. }
        | Insn::Unary { ra, rs, .. }
        | Insn::Count { ra, rs, .. }
        | Insn::ShiftImm { ra, rs, .. } => execute_logic(thread, &insn, ra, thread.gpr(rs), 0),
        Insn::Logic { ra, rs, rb, .. } | Insn::Bytes { ra, rs, rb, .. } => {
            execute_logic(thread, &insn, ra, thread.gpr(rs), thread.gpr(rb))
        }
        Insn::RotWord { ra, rs, by, .. } => {
            execute_logic(thread, &insn, ra, thread.gpr(rs), thread.gpr(by))
        }
        Insn::RotDouble { op, ra, rs, by, .. } => {
            let b = turning(thread, op, by);
            execute_logic(thread, &insn, ra, thread.gpr(rs), b)
        }
        // comparisons, choices, and the condition register
        Insn::CmpImm { bf, ra, .. } => execute_compare(thread, &insn, bf, thread.gpr(ra), 0),
        Insn::Cmp { bf, ra, rb, .. } | Insn::CmpByte { bf, ra, rb, .. } => {
            execute_compare(thread, &insn, bf, thread.gpr(ra), thread.gpr(rb))
        }
        Insn::Select { rt, ra, rb, .. } => {
            let a = gpr_or_zero(thread, ra);
            execute_select(thread, &insn, rt, a, thread.gpr(rb))
        }
        Insn::SetB { rt, .. } | Insn::MfCr { rt } | Insn::MfOneCr { rt, .. } => {
            execute_select(thread, &insn, rt, 0, 0)
        }
        Insn::CrBit { .. } | Insn::CrMove { .. } | Insn::MoveXer { .. } => {
            execute_cr_logic(thread, &insn)
        }
        Insn::MtCr { rs, fxm } | Insn::MtOneCr { rs, fxm } => execute_fields(thread, fxm, rs),
        // branches and traps
        Insn::Jump { .. } | Insn::Branch { .. } | Insn::BranchReg { .. } => {
            execute_branch(thread, &insn)
        }
        Insn::TrapImm { ra, .. } => execute_trap(thread, &insn, thread.gpr(ra), 0),
        Insn::Trap { ra, rb, .. } => execute_trap(thread, &insn, thread.gpr(ra), thread.gpr(rb)),
        // loads, stores and cache blocks work on more than registers
        Insn::Access { .. } | Insn::AccessX { .. } | Insn::Block { .. } => unsupported(word),
        // system forms
        Insn::MfSpr { .. }
        | Insn::MtSpr { .. }
        | Insn::MfTb { .. }
        | Insn::MfMsr { .. }
        | Insn::MtMsr { .. }
        | Insn::Sync { .. }
        | Insn::Eieio
        | Insn::TlbSync
        | Insn::Inval { .. }
        | Insn::Message { .. }
        | Insn::Isync
        | Insn::Rfid
        | Insn::Hrfid
        | Insn::Sc { .. } => system(&insn, word, thread, number).end,
    }
}
