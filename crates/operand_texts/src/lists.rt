// Written by tools/make_tables.py from docs/INSTRUCTIONS.md.
//! The operands of each operation in text.

ghost use Rattle.std.specs.Prelude.{◌≡◌, ◌≤◌, length};
ghost use Rattle.ppc_ops.specs.declared.insn.Layout.TheVariants as layouts;
ghost use Rattle.operand_texts.specs.Operands.{operand_texts, layout_texts, is_rlwnm};

use crate::fields::Field::{
    Ba, Bb, Bd, Bf, Bfa, Bi, Bit, Bo, Bt, By, D, Edge, Fxm, L, Lev, Li, Mb, Me, Prs, R, Ra, Rb,
    Ric, Rs, Rt, Sh, Si, Spr, Third, To, Two, Ui, Value, Wide,
};
use crate::kinds::OperandText;
use crate::kinds::OperandText::{
    Displacement, DisplacementOrZero, Number, Register, RegisterOrZero, Signed, Target,
};
use ppc_ops::{
    Layout, Op, compares_unsigned, has_one_source, layout, loads_with_update, stores_with_update,
    takes_zero, turns_by_register,
};

fn is_rlwnm(op: Op) -> bool
    ensures { result ≡ is_rlwnm op }
{
    matches!(op, Op::Rlwnm)
}

fn add_imm(op: Op) -> &'static [OperandText]
    ensures { result.now ≡ layout_texts layouts.AddImm op }
{
    if takes_zero(op) {
        &[Register(Rt), RegisterOrZero(Ra), Signed(Si)]
    } else {
        &[Register(Rt), Register(Ra), Signed(Si)]
    }
}

fn arith(op: Op) -> &'static [OperandText]
    ensures { result.now ≡ layout_texts layouts.Arith op }
{
    if has_one_source(op) {
        &[Register(Rt), Register(Ra)]
    } else {
        &[Register(Rt), Register(Ra), Register(Rb)]
    }
}

fn rot_word(op: Op) -> &'static [OperandText]
    ensures { result.now ≡ layout_texts layouts.RotWord op }
{
    if is_rlwnm(op) {
        &[
            Register(Ra),
            Register(Rs),
            Register(By),
            Number(Mb),
            Number(Me),
        ]
    } else {
        &[
            Register(Ra),
            Register(Rs),
            Number(By),
            Number(Mb),
            Number(Me),
        ]
    }
}

fn rot_double(op: Op) -> &'static [OperandText]
    ensures { result.now ≡ layout_texts layouts.RotDouble op }
{
    if turns_by_register(op) {
        &[Register(Ra), Register(Rs), Register(By), Number(Edge)]
    } else {
        &[Register(Ra), Register(Rs), Number(By), Number(Edge)]
    }
}

fn cmp_imm(op: Op) -> &'static [OperandText]
    ensures { result.now ≡ layout_texts layouts.CmpImm op }
{
    if compares_unsigned(op) {
        &[Number(Bf), Number(Wide), Register(Ra), Number(Value)]
    } else {
        &[Number(Bf), Number(Wide), Register(Ra), Signed(Value)]
    }
}

fn access(op: Op) -> &'static [OperandText]
    ensures { result.now ≡ layout_texts layouts.Access op }
{
    if loads_with_update(op) || stores_with_update(op) {
        &[Register(Rt), Displacement]
    } else {
        &[Register(Rt), DisplacementOrZero]
    }
}

fn access_x(op: Op) -> &'static [OperandText]
    ensures { result.now ≡ layout_texts layouts.AccessX op }
{
    if loads_with_update(op) || stores_with_update(op) {
        &[Register(Rt), Register(Ra), Register(Rb)]
    } else {
        &[Register(Rt), RegisterOrZero(Ra), Register(Rb)]
    }
}

/// The operands of an operation in assembler text, in their order; at most five.
pub fn operands(op: Op) -> &'static [OperandText]
    ensures list { result.now ≡ operand_texts op }
    ensures most { length result.now ≤ 5 }
{
    match layout(op) {
        Layout::AddImm => add_imm(op),
        Layout::AddPc => &[Register(Rt), Signed(D)],
        Layout::Arith => arith(op),
        Layout::MulHigh => &[Register(Rt), Register(Ra), Register(Rb)],
        Layout::Modulo => &[Register(Rt), Register(Ra), Register(Rb)],
        Layout::MulAdd => &[Register(Rt), Register(Ra), Register(Rb), Register(Third)],
        Layout::LogicImm => &[Register(Ra), Register(Rs), Number(Ui)],
        Layout::Logic => &[Register(Ra), Register(Rs), Register(Rb)],
        Layout::Unary => &[Register(Ra), Register(Rs)],
        Layout::Count => &[Register(Ra), Register(Rs)],
        Layout::Bytes => &[Register(Ra), Register(Rs), Register(Rb)],
        Layout::ShiftImm => &[Register(Ra), Register(Rs), Number(Sh)],
        Layout::RotWord => rot_word(op),
        Layout::RotDouble => rot_double(op),
        Layout::Select => &[Register(Rt), RegisterOrZero(Ra), Register(Rb), Number(Bit)],
        Layout::CmpImm => cmp_imm(op),
        Layout::Cmp => &[Number(Bf), Number(Wide), Register(Ra), Register(Rb)],
        Layout::CmpByte => &[Number(Bf), Number(Two), Register(Ra), Register(Rb)],
        Layout::SetB => &[Register(Rt), Number(Bfa)],
        Layout::TrapImm => &[Number(To), Register(Ra), Signed(Si)],
        Layout::Trap => &[Number(To), Register(Ra), Register(Rb)],
        Layout::Jump => &[Target(Li)],
        Layout::Branch => &[Number(Bo), Number(Bi), Target(Bd)],
        Layout::BranchReg => &[Number(Bo), Number(Bi)],
        Layout::CrBit => &[Number(Bt), Number(Ba), Number(Bb)],
        Layout::CrMove => &[Number(Bf), Number(Bfa)],
        Layout::MoveXer => &[Number(Bf)],
        Layout::MfCr => &[Register(Rt)],
        Layout::MfOneCr => &[Register(Rt), Number(Fxm)],
        Layout::MtCr => &[Register(Rs), Number(Fxm)],
        Layout::MtOneCr => &[Register(Rs), Number(Fxm)],
        Layout::Access => access(op),
        Layout::AccessX => access_x(op),
        Layout::Block => &[RegisterOrZero(Ra), Register(Rb)],
        Layout::MfSpr => &[Register(Rt), Number(Spr)],
        Layout::MtSpr => &[Number(Spr), Register(Rs)],
        Layout::MfTb => &[Register(Rt), Number(Spr)],
        Layout::MfMsr => &[Register(Rt)],
        Layout::MtMsr => &[Register(Rs), Number(L)],
        Layout::Sync => &[Number(L)],
        Layout::Eieio => &[],
        Layout::TlbSync => &[],
        Layout::Inval => &[
            Register(Rb),
            Register(Rs),
            Number(Ric),
            Number(Prs),
            Number(R),
        ],
        Layout::Message => &[Register(Rb)],
        Layout::Isync => &[],
        Layout::Rfid => &[],
        Layout::Hrfid => &[],
        Layout::Sc => &[Number(Lev)],
    }
}
