// Written by tools/make_tables.py from docs/INSTRUCTIONS.md.
//! Forms from the values of their operands.

ghost use Rattle.std.specs.Prelude.{◌≡◌, IfSome};
ghost use Rattle.ppc_ops.specs.Fitting.{FitsFields};
ghost use Rattle.asm_forms.specs.Words.{form_of};

use crate::fixed_point::{
    add_imm, add_pc, arith, bytes, cmp, cmp_byte, cmp_imm, count, logic, logic_imm, modulo,
    mul_add, mul_high, rot_double, rot_word, select, set_b, shift_imm, unary,
};
use crate::other_units::{
    access, access_x, block, branch, branch_reg, cr_bit, cr_move, inval, jump, message, mf_cr,
    mf_msr, mf_one_cr, mf_spr, mf_tb, move_xer, mt_cr, mt_msr, mt_one_cr, mt_spr, sc, sync, trap,
    trap_imm,
};
use crate::values::Values;
use operand_texts::Mnemonic;
use ppc_ops::{Insn, Layout, layout};

/// The form that an operation with marks and the values of its operands make.
pub(crate) fn form(mnemonic: Mnemonic, values: &Values) -> Option<Insn>
    ensures form { result ≡ form_of mnemonic values.now }
    ensures fits { IfSome result (λ i. FitsFields i) }
{
    match layout(mnemonic.op) {
        Layout::AddImm => add_imm(mnemonic, values),
        Layout::AddPc => add_pc(values),
        Layout::Arith => arith(mnemonic, values),
        Layout::MulHigh => mul_high(mnemonic, values),
        Layout::Modulo => modulo(mnemonic, values),
        Layout::MulAdd => mul_add(mnemonic, values),
        Layout::LogicImm => logic_imm(mnemonic, values),
        Layout::Logic => logic(mnemonic, values),
        Layout::Unary => unary(mnemonic, values),
        Layout::Count => count(mnemonic, values),
        Layout::Bytes => bytes(mnemonic, values),
        Layout::ShiftImm => shift_imm(mnemonic, values),
        Layout::RotWord => rot_word(mnemonic, values),
        Layout::RotDouble => rot_double(mnemonic, values),
        Layout::Select => select(values),
        Layout::CmpImm => cmp_imm(mnemonic, values),
        Layout::Cmp => cmp(mnemonic, values),
        Layout::CmpByte => cmp_byte(mnemonic, values),
        Layout::SetB => set_b(values),
        Layout::TrapImm => trap_imm(mnemonic, values),
        Layout::Trap => trap(mnemonic, values),
        Layout::Jump => jump(mnemonic, values),
        Layout::Branch => branch(mnemonic, values),
        Layout::BranchReg => branch_reg(mnemonic, values),
        Layout::CrBit => cr_bit(mnemonic, values),
        Layout::CrMove => cr_move(values),
        Layout::MoveXer => move_xer(values),
        Layout::MfCr => mf_cr(values),
        Layout::MfOneCr => mf_one_cr(values),
        Layout::MtCr => mt_cr(values),
        Layout::MtOneCr => mt_one_cr(values),
        Layout::Access => access(mnemonic, values),
        Layout::AccessX => access_x(mnemonic, values),
        Layout::Block => block(mnemonic, values),
        Layout::MfSpr => mf_spr(values),
        Layout::MtSpr => mt_spr(values),
        Layout::MfTb => mf_tb(values),
        Layout::MfMsr => mf_msr(values),
        Layout::MtMsr => mt_msr(mnemonic, values),
        Layout::Sync => sync(values),
        Layout::Eieio => Some(Insn::Eieio),
        Layout::TlbSync => Some(Insn::TlbSync),
        Layout::Inval => inval(mnemonic, values),
        Layout::Message => message(mnemonic, values),
        Layout::Isync => Some(Insn::Isync),
        Layout::Rfid => Some(Insn::Rfid),
        Layout::Hrfid => Some(Insn::Hrfid),
        Layout::Sc => sc(values),
    }
}
