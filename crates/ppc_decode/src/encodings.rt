// Written by tools/make_tables.py from docs/INSTRUCTIONS.md.
//! The words of each layout.

ghost use Rattle.std.specs.Prelude.{◌≡◌, ◌+◌, IfOk, IsOk, IsErr};
ghost use Rattle.ppc_ops.specs.declared.insn.Insn.TheVariants as insn;
ghost use Rattle.ppc_ops.specs.declared.op.Op.TheVariants.{Addpcis, Isel, Setb, B, Bc, Mcrf, Mcrxrx, Mfcr, Mfocrf, Mtcrf, Mtocrf, Mfspr, Mtspr, Mftb, Mfmsr, Sync, Sc};
ghost use Rattle.ppc_ops.specs.Fitting.{FitsFields};
ghost use Rattle.ppc_ops.specs.Rows.{value_of};
ghost use Rattle.ppc_ops.specs.Table.{op_row};
ghost use Rattle.ppc_decode.specs.Encode.{insn_op, fields_of};

use crate::encoder::OutOfField;
use crate::fields::{
    branch_distance, compared, fixed_bits, flag, has_layout, immediate, is_branch_distance,
    is_compared, is_displacement, is_jump_distance, jump_distance, place, six_bits,
    special_register, split_immediate,
};
use ppc_ops::{
    Insn, Layout, Op, compares_unsigned, has_one_source, scales_displacement, seeks_any_byte,
    shifts_words, turns_by_register,
};

fn add_imm(op: Op, rt: u8, ra: u8, si: i16) -> Result<u32, OutOfField>
    ensures word { IfOk result (λ w. w ≡ (op_row op).value + value_of (fields_of (insn.AddImm op rt ra si))) }
    ensures fits { IsOk result → FitsFields (insn.AddImm op rt ra si) }
    ensures refused { IsErr result → FitsFields (insn.AddImm op rt ra si) → ⊥ }
{
    if has_layout(op, Layout::AddImm) && rt < 32 && ra < 32 {
        Ok(fixed_bits(op) + place(rt, 10) + place(ra, 15) + immediate(si))
    } else {
        Err(OutOfField)
    }
}

fn add_pc(rt: u8, d: i16) -> Result<u32, OutOfField>
    ensures word { IfOk result (λ w. w ≡ (op_row Addpcis).value + value_of (fields_of (insn.AddPc rt d))) }
    ensures fits { IsOk result → FitsFields (insn.AddPc rt d) }
    ensures refused { IsErr result → FitsFields (insn.AddPc rt d) → ⊥ }
{
    if rt < 32 {
        Ok(fixed_bits(Op::Addpcis) + place(rt, 10) + split_immediate(d))
    } else {
        Err(OutOfField)
    }
}

fn arith(op: Op, rt: u8, ra: u8, rb: u8, oe: bool, rc: bool) -> Result<u32, OutOfField>
    ensures word { IfOk result (λ w. w ≡ (op_row op).value + value_of (fields_of (insn.Arith op rt ra rb oe rc))) }
    ensures fits { IsOk result → FitsFields (insn.Arith op rt ra rb oe rc) }
    ensures refused { IsErr result → FitsFields (insn.Arith op rt ra rb oe rc) → ⊥ }
{
    let rb_end = if has_one_source(op) { 1 } else { 32 };
    if has_layout(op, Layout::Arith) && rt < 32 && ra < 32 && rb < rb_end {
        Ok(
            fixed_bits(op)
                + place(rt, 10)
                + place(ra, 15)
                + place(rb, 20)
                + flag(oe, 21)
                + flag(rc, 31),
        )
    } else {
        Err(OutOfField)
    }
}

fn mul_high(op: Op, rt: u8, ra: u8, rb: u8, rc: bool) -> Result<u32, OutOfField>
    ensures word { IfOk result (λ w. w ≡ (op_row op).value + value_of (fields_of (insn.MulHigh op rt ra rb rc))) }
    ensures fits { IsOk result → FitsFields (insn.MulHigh op rt ra rb rc) }
    ensures refused { IsErr result → FitsFields (insn.MulHigh op rt ra rb rc) → ⊥ }
{
    if has_layout(op, Layout::MulHigh) && rt < 32 && ra < 32 && rb < 32 {
        Ok(fixed_bits(op) + place(rt, 10) + place(ra, 15) + place(rb, 20) + flag(rc, 31))
    } else {
        Err(OutOfField)
    }
}

fn modulo(op: Op, rt: u8, ra: u8, rb: u8) -> Result<u32, OutOfField>
    ensures word { IfOk result (λ w. w ≡ (op_row op).value + value_of (fields_of (insn.Modulo op rt ra rb))) }
    ensures fits { IsOk result → FitsFields (insn.Modulo op rt ra rb) }
    ensures refused { IsErr result → FitsFields (insn.Modulo op rt ra rb) → ⊥ }
{
    if has_layout(op, Layout::Modulo) && rt < 32 && ra < 32 && rb < 32 {
        Ok(fixed_bits(op) + place(rt, 10) + place(ra, 15) + place(rb, 20))
    } else {
        Err(OutOfField)
    }
}

fn mul_add(op: Op, rt: u8, ra: u8, rb: u8, third: u8) -> Result<u32, OutOfField>
    ensures word { IfOk result (λ w. w ≡ (op_row op).value + value_of (fields_of (insn.MulAdd op rt ra rb third))) }
    ensures fits { IsOk result → FitsFields (insn.MulAdd op rt ra rb third) }
    ensures refused { IsErr result → FitsFields (insn.MulAdd op rt ra rb third) → ⊥ }
{
    if has_layout(op, Layout::MulAdd) && rt < 32 && ra < 32 && rb < 32 && third < 32 {
        Ok(fixed_bits(op) + place(rt, 10) + place(ra, 15) + place(rb, 20) + place(third, 25))
    } else {
        Err(OutOfField)
    }
}

fn logic_imm(op: Op, ra: u8, rs: u8, ui: u16) -> Result<u32, OutOfField>
    ensures word { IfOk result (λ w. w ≡ (op_row op).value + value_of (fields_of (insn.LogicImm op ra rs ui))) }
    ensures fits { IsOk result → FitsFields (insn.LogicImm op ra rs ui) }
    ensures refused { IsErr result → FitsFields (insn.LogicImm op ra rs ui) → ⊥ }
{
    if has_layout(op, Layout::LogicImm) && ra < 32 && rs < 32 {
        Ok(fixed_bits(op) + place(ra, 15) + place(rs, 10) + u32::from(ui))
    } else {
        Err(OutOfField)
    }
}

fn logic(op: Op, ra: u8, rs: u8, rb: u8, rc: bool) -> Result<u32, OutOfField>
    ensures word { IfOk result (λ w. w ≡ (op_row op).value + value_of (fields_of (insn.Logic op ra rs rb rc))) }
    ensures fits { IsOk result → FitsFields (insn.Logic op ra rs rb rc) }
    ensures refused { IsErr result → FitsFields (insn.Logic op ra rs rb rc) → ⊥ }
{
    if has_layout(op, Layout::Logic) && ra < 32 && rs < 32 && rb < 32 {
        Ok(fixed_bits(op) + place(ra, 15) + place(rs, 10) + place(rb, 20) + flag(rc, 31))
    } else {
        Err(OutOfField)
    }
}

fn unary(op: Op, ra: u8, rs: u8, rc: bool) -> Result<u32, OutOfField>
    ensures word { IfOk result (λ w. w ≡ (op_row op).value + value_of (fields_of (insn.Unary op ra rs rc))) }
    ensures fits { IsOk result → FitsFields (insn.Unary op ra rs rc) }
    ensures refused { IsErr result → FitsFields (insn.Unary op ra rs rc) → ⊥ }
{
    if has_layout(op, Layout::Unary) && ra < 32 && rs < 32 {
        Ok(fixed_bits(op) + place(ra, 15) + place(rs, 10) + flag(rc, 31))
    } else {
        Err(OutOfField)
    }
}

fn count(op: Op, ra: u8, rs: u8) -> Result<u32, OutOfField>
    ensures word { IfOk result (λ w. w ≡ (op_row op).value + value_of (fields_of (insn.Count op ra rs))) }
    ensures fits { IsOk result → FitsFields (insn.Count op ra rs) }
    ensures refused { IsErr result → FitsFields (insn.Count op ra rs) → ⊥ }
{
    if has_layout(op, Layout::Count) && ra < 32 && rs < 32 {
        Ok(fixed_bits(op) + place(ra, 15) + place(rs, 10))
    } else {
        Err(OutOfField)
    }
}

fn bytes(op: Op, ra: u8, rs: u8, rb: u8) -> Result<u32, OutOfField>
    ensures word { IfOk result (λ w. w ≡ (op_row op).value + value_of (fields_of (insn.Bytes op ra rs rb))) }
    ensures fits { IsOk result → FitsFields (insn.Bytes op ra rs rb) }
    ensures refused { IsErr result → FitsFields (insn.Bytes op ra rs rb) → ⊥ }
{
    if has_layout(op, Layout::Bytes) && ra < 32 && rs < 32 && rb < 32 {
        Ok(fixed_bits(op) + place(ra, 15) + place(rs, 10) + place(rb, 20))
    } else {
        Err(OutOfField)
    }
}

fn shift_imm(op: Op, ra: u8, rs: u8, sh: u8, rc: bool) -> Result<u32, OutOfField>
    ensures word { IfOk result (λ w. w ≡ (op_row op).value + value_of (fields_of (insn.ShiftImm op ra rs sh rc))) }
    ensures fits { IsOk result → FitsFields (insn.ShiftImm op ra rs sh rc) }
    ensures refused { IsErr result → FitsFields (insn.ShiftImm op ra rs sh rc) → ⊥ }
{
    let sh_end = if shifts_words(op) { 32 } else { 64 };
    if has_layout(op, Layout::ShiftImm) && ra < 32 && rs < 32 && sh < sh_end {
        Ok(fixed_bits(op) + place(ra, 15) + place(rs, 10) + six_bits(sh, 30, 20) + flag(rc, 31))
    } else {
        Err(OutOfField)
    }
}

fn rot_word(op: Op, ra: u8, rs: u8, by: u8, mb: u8, me: u8, rc: bool) -> Result<u32, OutOfField>
    ensures word { IfOk result (λ w. w ≡ (op_row op).value + value_of (fields_of (insn.RotWord op ra rs by mb me rc))) }
    ensures fits { IsOk result → FitsFields (insn.RotWord op ra rs by mb me rc) }
    ensures refused { IsErr result → FitsFields (insn.RotWord op ra rs by mb me rc) → ⊥ }
{
    if has_layout(op, Layout::RotWord) && ra < 32 && rs < 32 && by < 32 && mb < 32 && me < 32 {
        Ok(
            fixed_bits(op)
                + place(ra, 15)
                + place(rs, 10)
                + place(by, 20)
                + place(mb, 25)
                + place(me, 30)
                + flag(rc, 31),
        )
    } else {
        Err(OutOfField)
    }
}

fn rot_double(op: Op, ra: u8, rs: u8, by: u8, edge: u8, rc: bool) -> Result<u32, OutOfField>
    ensures word { IfOk result (λ w. w ≡ (op_row op).value + value_of (fields_of (insn.RotDouble op ra rs by edge rc))) }
    ensures fits { IsOk result → FitsFields (insn.RotDouble op ra rs by edge rc) }
    ensures refused { IsErr result → FitsFields (insn.RotDouble op ra rs by edge rc) → ⊥ }
{
    let by_end = if turns_by_register(op) { 32 } else { 64 };
    if has_layout(op, Layout::RotDouble) && ra < 32 && rs < 32 && by < by_end && edge < 64 {
        Ok(
            fixed_bits(op)
                + place(ra, 15)
                + place(rs, 10)
                + six_bits(by, 30, 20)
                + six_bits(edge, 26, 25)
                + flag(rc, 31),
        )
    } else {
        Err(OutOfField)
    }
}

fn select(rt: u8, ra: u8, rb: u8, bit: u8) -> Result<u32, OutOfField>
    ensures word { IfOk result (λ w. w ≡ (op_row Isel).value + value_of (fields_of (insn.Select rt ra rb bit))) }
    ensures fits { IsOk result → FitsFields (insn.Select rt ra rb bit) }
    ensures refused { IsErr result → FitsFields (insn.Select rt ra rb bit) → ⊥ }
{
    if rt < 32 && ra < 32 && rb < 32 && bit < 32 {
        Ok(fixed_bits(Op::Isel) + place(rt, 10) + place(ra, 15) + place(rb, 20) + place(bit, 25))
    } else {
        Err(OutOfField)
    }
}

fn cmp_imm(op: Op, bf: u8, wide: bool, ra: u8, value: i32) -> Result<u32, OutOfField>
    ensures word { IfOk result (λ w. w ≡ (op_row op).value + value_of (fields_of (insn.CmpImm op bf wide ra value))) }
    ensures fits { IsOk result → FitsFields (insn.CmpImm op bf wide ra value) }
    ensures refused { IsErr result → FitsFields (insn.CmpImm op bf wide ra value) → ⊥ }
{
    if has_layout(op, Layout::CmpImm)
        && bf < 8
        && ra < 32
        && is_compared(compares_unsigned(op), value)
    {
        Ok(fixed_bits(op) + place(bf, 8) + flag(wide, 10) + place(ra, 15) + compared(value))
    } else {
        Err(OutOfField)
    }
}

fn cmp(op: Op, bf: u8, wide: bool, ra: u8, rb: u8) -> Result<u32, OutOfField>
    ensures word { IfOk result (λ w. w ≡ (op_row op).value + value_of (fields_of (insn.Cmp op bf wide ra rb))) }
    ensures fits { IsOk result → FitsFields (insn.Cmp op bf wide ra rb) }
    ensures refused { IsErr result → FitsFields (insn.Cmp op bf wide ra rb) → ⊥ }
{
    if has_layout(op, Layout::Cmp) && bf < 8 && ra < 32 && rb < 32 {
        Ok(fixed_bits(op) + place(bf, 8) + flag(wide, 10) + place(ra, 15) + place(rb, 20))
    } else {
        Err(OutOfField)
    }
}

fn cmp_byte(op: Op, bf: u8, two: bool, ra: u8, rb: u8) -> Result<u32, OutOfField>
    ensures word { IfOk result (λ w. w ≡ (op_row op).value + value_of (fields_of (insn.CmpByte op bf two ra rb))) }
    ensures fits { IsOk result → FitsFields (insn.CmpByte op bf two ra rb) }
    ensures refused { IsErr result → FitsFields (insn.CmpByte op bf two ra rb) → ⊥ }
{
    if has_layout(op, Layout::CmpByte)
        && bf < 8
        && !(seeks_any_byte(op) && two)
        && ra < 32
        && rb < 32
    {
        Ok(fixed_bits(op) + place(bf, 8) + flag(two, 10) + place(ra, 15) + place(rb, 20))
    } else {
        Err(OutOfField)
    }
}

fn set_b(rt: u8, bfa: u8) -> Result<u32, OutOfField>
    ensures word { IfOk result (λ w. w ≡ (op_row Setb).value + value_of (fields_of (insn.SetB rt bfa))) }
    ensures fits { IsOk result → FitsFields (insn.SetB rt bfa) }
    ensures refused { IsErr result → FitsFields (insn.SetB rt bfa) → ⊥ }
{
    if rt < 32 && bfa < 8 {
        Ok(fixed_bits(Op::Setb) + place(rt, 10) + place(bfa, 13))
    } else {
        Err(OutOfField)
    }
}

fn trap_imm(op: Op, to: u8, ra: u8, si: i16) -> Result<u32, OutOfField>
    ensures word { IfOk result (λ w. w ≡ (op_row op).value + value_of (fields_of (insn.TrapImm op to ra si))) }
    ensures fits { IsOk result → FitsFields (insn.TrapImm op to ra si) }
    ensures refused { IsErr result → FitsFields (insn.TrapImm op to ra si) → ⊥ }
{
    if has_layout(op, Layout::TrapImm) && to < 32 && ra < 32 {
        Ok(fixed_bits(op) + place(to, 10) + place(ra, 15) + immediate(si))
    } else {
        Err(OutOfField)
    }
}

fn trap(op: Op, to: u8, ra: u8, rb: u8) -> Result<u32, OutOfField>
    ensures word { IfOk result (λ w. w ≡ (op_row op).value + value_of (fields_of (insn.Trap op to ra rb))) }
    ensures fits { IsOk result → FitsFields (insn.Trap op to ra rb) }
    ensures refused { IsErr result → FitsFields (insn.Trap op to ra rb) → ⊥ }
{
    if has_layout(op, Layout::Trap) && to < 32 && ra < 32 && rb < 32 {
        Ok(fixed_bits(op) + place(to, 10) + place(ra, 15) + place(rb, 20))
    } else {
        Err(OutOfField)
    }
}

fn jump(li: i32, aa: bool, lk: bool) -> Result<u32, OutOfField>
    ensures word { IfOk result (λ w. w ≡ (op_row B).value + value_of (fields_of (insn.Jump li aa lk))) }
    ensures fits { IsOk result → FitsFields (insn.Jump li aa lk) }
    ensures refused { IsErr result → FitsFields (insn.Jump li aa lk) → ⊥ }
{
    if is_jump_distance(li) {
        Ok(fixed_bits(Op::B) + jump_distance(li) + flag(aa, 30) + flag(lk, 31))
    } else {
        Err(OutOfField)
    }
}

fn branch(bo: u8, bi: u8, bd: i32, aa: bool, lk: bool) -> Result<u32, OutOfField>
    ensures word { IfOk result (λ w. w ≡ (op_row Bc).value + value_of (fields_of (insn.Branch bo bi bd aa lk))) }
    ensures fits { IsOk result → FitsFields (insn.Branch bo bi bd aa lk) }
    ensures refused { IsErr result → FitsFields (insn.Branch bo bi bd aa lk) → ⊥ }
{
    if bo < 32 && bi < 32 && is_branch_distance(bd) {
        Ok(
            fixed_bits(Op::Bc)
                + place(bo, 10)
                + place(bi, 15)
                + branch_distance(bd)
                + flag(aa, 30)
                + flag(lk, 31),
        )
    } else {
        Err(OutOfField)
    }
}

fn branch_reg(op: Op, bo: u8, bi: u8, lk: bool) -> Result<u32, OutOfField>
    ensures word { IfOk result (λ w. w ≡ (op_row op).value + value_of (fields_of (insn.BranchReg op bo bi lk))) }
    ensures fits { IsOk result → FitsFields (insn.BranchReg op bo bi lk) }
    ensures refused { IsErr result → FitsFields (insn.BranchReg op bo bi lk) → ⊥ }
{
    if has_layout(op, Layout::BranchReg) && bo < 32 && bi < 32 {
        Ok(fixed_bits(op) + place(bo, 10) + place(bi, 15) + flag(lk, 31))
    } else {
        Err(OutOfField)
    }
}

fn cr_bit(op: Op, bt: u8, ba: u8, bb: u8) -> Result<u32, OutOfField>
    ensures word { IfOk result (λ w. w ≡ (op_row op).value + value_of (fields_of (insn.CrBit op bt ba bb))) }
    ensures fits { IsOk result → FitsFields (insn.CrBit op bt ba bb) }
    ensures refused { IsErr result → FitsFields (insn.CrBit op bt ba bb) → ⊥ }
{
    if has_layout(op, Layout::CrBit) && bt < 32 && ba < 32 && bb < 32 {
        Ok(fixed_bits(op) + place(bt, 10) + place(ba, 15) + place(bb, 20))
    } else {
        Err(OutOfField)
    }
}

fn cr_move(bf: u8, bfa: u8) -> Result<u32, OutOfField>
    ensures word { IfOk result (λ w. w ≡ (op_row Mcrf).value + value_of (fields_of (insn.CrMove bf bfa))) }
    ensures fits { IsOk result → FitsFields (insn.CrMove bf bfa) }
    ensures refused { IsErr result → FitsFields (insn.CrMove bf bfa) → ⊥ }
{
    if bf < 8 && bfa < 8 {
        Ok(fixed_bits(Op::Mcrf) + place(bf, 8) + place(bfa, 13))
    } else {
        Err(OutOfField)
    }
}

fn move_xer(bf: u8) -> Result<u32, OutOfField>
    ensures word { IfOk result (λ w. w ≡ (op_row Mcrxrx).value + value_of (fields_of (insn.MoveXer bf))) }
    ensures fits { IsOk result → FitsFields (insn.MoveXer bf) }
    ensures refused { IsErr result → FitsFields (insn.MoveXer bf) → ⊥ }
{
    if bf < 8 {
        Ok(fixed_bits(Op::Mcrxrx) + place(bf, 8))
    } else {
        Err(OutOfField)
    }
}

fn mf_cr(rt: u8) -> Result<u32, OutOfField>
    ensures word { IfOk result (λ w. w ≡ (op_row Mfcr).value + value_of (fields_of (insn.MfCr rt))) }
    ensures fits { IsOk result → FitsFields (insn.MfCr rt) }
    ensures refused { IsErr result → FitsFields (insn.MfCr rt) → ⊥ }
{
    if rt < 32 {
        Ok(fixed_bits(Op::Mfcr) + place(rt, 10))
    } else {
        Err(OutOfField)
    }
}

fn mf_one_cr(rt: u8, fxm: u8) -> Result<u32, OutOfField>
    ensures word { IfOk result (λ w. w ≡ (op_row Mfocrf).value + value_of (fields_of (insn.MfOneCr rt fxm))) }
    ensures fits { IsOk result → FitsFields (insn.MfOneCr rt fxm) }
    ensures refused { IsErr result → FitsFields (insn.MfOneCr rt fxm) → ⊥ }
{
    if rt < 32 {
        Ok(fixed_bits(Op::Mfocrf) + place(rt, 10) + place(fxm, 19))
    } else {
        Err(OutOfField)
    }
}

fn mt_cr(rs: u8, fxm: u8) -> Result<u32, OutOfField>
    ensures word { IfOk result (λ w. w ≡ (op_row Mtcrf).value + value_of (fields_of (insn.MtCr rs fxm))) }
    ensures fits { IsOk result → FitsFields (insn.MtCr rs fxm) }
    ensures refused { IsErr result → FitsFields (insn.MtCr rs fxm) → ⊥ }
{
    if rs < 32 {
        Ok(fixed_bits(Op::Mtcrf) + place(rs, 10) + place(fxm, 19))
    } else {
        Err(OutOfField)
    }
}

fn mt_one_cr(rs: u8, fxm: u8) -> Result<u32, OutOfField>
    ensures word { IfOk result (λ w. w ≡ (op_row Mtocrf).value + value_of (fields_of (insn.MtOneCr rs fxm))) }
    ensures fits { IsOk result → FitsFields (insn.MtOneCr rs fxm) }
    ensures refused { IsErr result → FitsFields (insn.MtOneCr rs fxm) → ⊥ }
{
    if rs < 32 {
        Ok(fixed_bits(Op::Mtocrf) + place(rs, 10) + place(fxm, 19))
    } else {
        Err(OutOfField)
    }
}

fn access(op: Op, rt: u8, ra: u8, disp: i16) -> Result<u32, OutOfField>
    ensures word { IfOk result (λ w. w ≡ (op_row op).value + value_of (fields_of (insn.Access op rt ra disp))) }
    ensures fits { IsOk result → FitsFields (insn.Access op rt ra disp) }
    ensures refused { IsErr result → FitsFields (insn.Access op rt ra disp) → ⊥ }
{
    if has_layout(op, Layout::Access)
        && rt < 32
        && ra < 32
        && is_displacement(scales_displacement(op), disp)
    {
        Ok(fixed_bits(op) + place(rt, 10) + place(ra, 15) + immediate(disp))
    } else {
        Err(OutOfField)
    }
}

fn access_x(op: Op, rt: u8, ra: u8, rb: u8) -> Result<u32, OutOfField>
    ensures word { IfOk result (λ w. w ≡ (op_row op).value + value_of (fields_of (insn.AccessX op rt ra rb))) }
    ensures fits { IsOk result → FitsFields (insn.AccessX op rt ra rb) }
    ensures refused { IsErr result → FitsFields (insn.AccessX op rt ra rb) → ⊥ }
{
    if has_layout(op, Layout::AccessX) && rt < 32 && ra < 32 && rb < 32 {
        Ok(fixed_bits(op) + place(rt, 10) + place(ra, 15) + place(rb, 20))
    } else {
        Err(OutOfField)
    }
}

fn block(op: Op, ra: u8, rb: u8) -> Result<u32, OutOfField>
    ensures word { IfOk result (λ w. w ≡ (op_row op).value + value_of (fields_of (insn.Block op ra rb))) }
    ensures fits { IsOk result → FitsFields (insn.Block op ra rb) }
    ensures refused { IsErr result → FitsFields (insn.Block op ra rb) → ⊥ }
{
    if has_layout(op, Layout::Block) && ra < 32 && rb < 32 {
        Ok(fixed_bits(op) + place(ra, 15) + place(rb, 20))
    } else {
        Err(OutOfField)
    }
}

fn mf_spr(rt: u8, spr: u16) -> Result<u32, OutOfField>
    ensures word { IfOk result (λ w. w ≡ (op_row Mfspr).value + value_of (fields_of (insn.MfSpr rt spr))) }
    ensures fits { IsOk result → FitsFields (insn.MfSpr rt spr) }
    ensures refused { IsErr result → FitsFields (insn.MfSpr rt spr) → ⊥ }
{
    if rt < 32 && spr < 1024 {
        Ok(fixed_bits(Op::Mfspr) + place(rt, 10) + special_register(spr))
    } else {
        Err(OutOfField)
    }
}

fn mt_spr(rs: u8, spr: u16) -> Result<u32, OutOfField>
    ensures word { IfOk result (λ w. w ≡ (op_row Mtspr).value + value_of (fields_of (insn.MtSpr rs spr))) }
    ensures fits { IsOk result → FitsFields (insn.MtSpr rs spr) }
    ensures refused { IsErr result → FitsFields (insn.MtSpr rs spr) → ⊥ }
{
    if rs < 32 && spr < 1024 {
        Ok(fixed_bits(Op::Mtspr) + place(rs, 10) + special_register(spr))
    } else {
        Err(OutOfField)
    }
}

fn mf_tb(rt: u8, spr: u16) -> Result<u32, OutOfField>
    ensures word { IfOk result (λ w. w ≡ (op_row Mftb).value + value_of (fields_of (insn.MfTb rt spr))) }
    ensures fits { IsOk result → FitsFields (insn.MfTb rt spr) }
    ensures refused { IsErr result → FitsFields (insn.MfTb rt spr) → ⊥ }
{
    if rt < 32 && spr < 1024 {
        Ok(fixed_bits(Op::Mftb) + place(rt, 10) + special_register(spr))
    } else {
        Err(OutOfField)
    }
}

fn mf_msr(rt: u8) -> Result<u32, OutOfField>
    ensures word { IfOk result (λ w. w ≡ (op_row Mfmsr).value + value_of (fields_of (insn.MfMsr rt))) }
    ensures fits { IsOk result → FitsFields (insn.MfMsr rt) }
    ensures refused { IsErr result → FitsFields (insn.MfMsr rt) → ⊥ }
{
    if rt < 32 {
        Ok(fixed_bits(Op::Mfmsr) + place(rt, 10))
    } else {
        Err(OutOfField)
    }
}

fn mt_msr(op: Op, rs: u8, l: bool) -> Result<u32, OutOfField>
    ensures word { IfOk result (λ w. w ≡ (op_row op).value + value_of (fields_of (insn.MtMsr op rs l))) }
    ensures fits { IsOk result → FitsFields (insn.MtMsr op rs l) }
    ensures refused { IsErr result → FitsFields (insn.MtMsr op rs l) → ⊥ }
{
    if has_layout(op, Layout::MtMsr) && rs < 32 {
        Ok(fixed_bits(op) + place(rs, 10) + flag(l, 15))
    } else {
        Err(OutOfField)
    }
}

fn sync(l: u8) -> Result<u32, OutOfField>
    ensures word { IfOk result (λ w. w ≡ (op_row Sync).value + value_of (fields_of (insn.Sync l))) }
    ensures fits { IsOk result → FitsFields (insn.Sync l) }
    ensures refused { IsErr result → FitsFields (insn.Sync l) → ⊥ }
{
    if l < 4 {
        Ok(fixed_bits(Op::Sync) + place(l, 10))
    } else {
        Err(OutOfField)
    }
}

fn inval(op: Op, rb: u8, rs: u8, ric: u8, prs: bool, r: bool) -> Result<u32, OutOfField>
    ensures word { IfOk result (λ w. w ≡ (op_row op).value + value_of (fields_of (insn.Inval op rb rs ric prs r))) }
    ensures fits { IsOk result → FitsFields (insn.Inval op rb rs ric prs r) }
    ensures refused { IsErr result → FitsFields (insn.Inval op rb rs ric prs r) → ⊥ }
{
    if has_layout(op, Layout::Inval) && rb < 32 && rs < 32 && ric < 4 {
        Ok(
            fixed_bits(op)
                + place(rb, 20)
                + place(rs, 10)
                + place(ric, 13)
                + flag(prs, 14)
                + flag(r, 15),
        )
    } else {
        Err(OutOfField)
    }
}

fn message(op: Op, rb: u8) -> Result<u32, OutOfField>
    ensures word { IfOk result (λ w. w ≡ (op_row op).value + value_of (fields_of (insn.Message op rb))) }
    ensures fits { IsOk result → FitsFields (insn.Message op rb) }
    ensures refused { IsErr result → FitsFields (insn.Message op rb) → ⊥ }
{
    if has_layout(op, Layout::Message) && rb < 32 {
        Ok(fixed_bits(op) + place(rb, 20))
    } else {
        Err(OutOfField)
    }
}

fn sc(lev: u8) -> Result<u32, OutOfField>
    ensures word { IfOk result (λ w. w ≡ (op_row Sc).value + value_of (fields_of (insn.Sc lev))) }
    ensures fits { IsOk result → FitsFields (insn.Sc lev) }
    ensures refused { IsErr result → FitsFields (insn.Sc lev) → ⊥ }
{
    if lev < 2 {
        Ok(fixed_bits(Op::Sc) + place(lev, 26))
    } else {
        Err(OutOfField)
    }
}

/// The fixed bits and the fields of an instruction whose operands fit.
pub(crate) fn word(insn: Insn) -> Result<u32, OutOfField>
    ensures word { IfOk result (λ w. w ≡ (op_row (insn_op insn)).value + value_of (fields_of insn)) }
    ensures fits { IsOk result → FitsFields insn }
    ensures refused { IsErr result → FitsFields insn → ⊥ }
{
    match insn {
        Insn::AddImm { op, rt, ra, si } => add_imm(op, rt, ra, si),
        Insn::AddPc { rt, d } => add_pc(rt, d),
        Insn::Arith {
            op,
            rt,
            ra,
            rb,
            oe,
            rc,
        } => arith(op, rt, ra, rb, oe, rc),
        Insn::MulHigh { op, rt, ra, rb, rc } => mul_high(op, rt, ra, rb, rc),
        Insn::Modulo { op, rt, ra, rb } => modulo(op, rt, ra, rb),
        Insn::MulAdd {
            op,
            rt,
            ra,
            rb,
            third,
        } => mul_add(op, rt, ra, rb, third),
        Insn::LogicImm { op, ra, rs, ui } => logic_imm(op, ra, rs, ui),
        Insn::Logic { op, ra, rs, rb, rc } => logic(op, ra, rs, rb, rc),
        Insn::Unary { op, ra, rs, rc } => unary(op, ra, rs, rc),
        Insn::Count { op, ra, rs } => count(op, ra, rs),
        Insn::Bytes { op, ra, rs, rb } => bytes(op, ra, rs, rb),
        Insn::ShiftImm { op, ra, rs, sh, rc } => shift_imm(op, ra, rs, sh, rc),
        Insn::RotWord {
            op,
            ra,
            rs,
            by,
            mb,
            me,
            rc,
        } => rot_word(op, ra, rs, by, mb, me, rc),
        Insn::RotDouble {
            op,
            ra,
            rs,
            by,
            edge,
            rc,
        } => rot_double(op, ra, rs, by, edge, rc),
        Insn::Select { rt, ra, rb, bit } => select(rt, ra, rb, bit),
        Insn::CmpImm {
            op,
            bf,
            wide,
            ra,
            value,
        } => cmp_imm(op, bf, wide, ra, value),
        Insn::Cmp {
            op,
            bf,
            wide,
            ra,
            rb,
        } => cmp(op, bf, wide, ra, rb),
        Insn::CmpByte {
            op,
            bf,
            two,
            ra,
            rb,
        } => cmp_byte(op, bf, two, ra, rb),
        Insn::SetB { rt, bfa } => set_b(rt, bfa),
        Insn::TrapImm { op, to, ra, si } => trap_imm(op, to, ra, si),
        Insn::Trap { op, to, ra, rb } => trap(op, to, ra, rb),
        Insn::Jump { li, aa, lk } => jump(li, aa, lk),
        Insn::Branch { bo, bi, bd, aa, lk } => branch(bo, bi, bd, aa, lk),
        Insn::BranchReg { op, bo, bi, lk } => branch_reg(op, bo, bi, lk),
        Insn::CrBit { op, bt, ba, bb } => cr_bit(op, bt, ba, bb),
        Insn::CrMove { bf, bfa } => cr_move(bf, bfa),
        Insn::MoveXer { bf } => move_xer(bf),
        Insn::MfCr { rt } => mf_cr(rt),
        Insn::MfOneCr { rt, fxm } => mf_one_cr(rt, fxm),
        Insn::MtCr { rs, fxm } => mt_cr(rs, fxm),
        Insn::MtOneCr { rs, fxm } => mt_one_cr(rs, fxm),
        Insn::Access { op, rt, ra, disp } => access(op, rt, ra, disp),
        Insn::AccessX { op, rt, ra, rb } => access_x(op, rt, ra, rb),
        Insn::Block { op, ra, rb } => block(op, ra, rb),
        Insn::MfSpr { rt, spr } => mf_spr(rt, spr),
        Insn::MtSpr { rs, spr } => mt_spr(rs, spr),
        Insn::MfTb { rt, spr } => mf_tb(rt, spr),
        Insn::MfMsr { rt } => mf_msr(rt),
        Insn::MtMsr { op, rs, l } => mt_msr(op, rs, l),
        Insn::Sync { l } => sync(l),
        Insn::Eieio => Ok(fixed_bits(Op::Eieio)),
        Insn::TlbSync => Ok(fixed_bits(Op::Tlbsync)),
        Insn::Inval {
            op,
            rb,
            rs,
            ric,
            prs,
            r,
        } => inval(op, rb, rs, ric, prs, r),
        Insn::Message { op, rb } => message(op, rb),
        Insn::Isync => Ok(fixed_bits(Op::Isync)),
        Insn::Rfid => Ok(fixed_bits(Op::Rfid)),
        Insn::Hrfid => Ok(fixed_bits(Op::Hrfid)),
        Insn::Sc { lev } => sc(lev),
    }
}
