// Written by tools/make_tables.py from docs/INSTRUCTIONS.md.
//! The operands of each layout.

ghost use Rattle.std.specs.Prelude.{◌≡◌, ◌<◌, ◌^◌};
ghost use Rattle.ppc_ops.specs.declared.insn.Layout.TheVariants as layouts;
ghost use Rattle.ppc_ops.specs.declared.op.Op.TheVariants.{Addpcis, Isel, Setb, B, Bc, Mcrf, Mcrxrx, Mfcr, Mfocrf, Mtcrf, Mtocrf, Mfspr, Mtspr, Mftb, Mfmsr, Sync, Sc};
ghost use Rattle.ppc_ops.specs.Table.{layout_of};
ghost use Rattle.ppc_ops.specs.Fitting.{FitsFields};
ghost use Rattle.word_decoder.specs.Operands.{operands_of};

use crate::fields::{
    bits, flag, immediate, jump_distance, scaled_immediate, six_bits, special_register,
    split_immediate,
};
use ppc_bits::field;
use ppc_ops::{
    Insn, Layout, Op, compares_unsigned, has_one_source, layout, scales_displacement,
    seeks_any_byte, shifts_words, turns_by_register,
};

fn add_imm(op: Op, word: u64) -> Insn
    requires word { word < 2 ^ 32 }
    requires op { layout_of op ≡ layouts.AddImm }
    ensures form { result ≡ operands_of layouts.AddImm op word }
    ensures fits { FitsFields result }
{
    Insn::AddImm {
        op,
        rt: bits(word, 6, 10),
        ra: bits(word, 11, 15),
        si: immediate(word),
    }
}

fn add_pc(word: u64) -> Insn
    requires word { word < 2 ^ 32 }
    ensures form { result ≡ operands_of layouts.AddPc Addpcis word }
    ensures fits { FitsFields result }
{
    Insn::AddPc {
        rt: bits(word, 6, 10),
        d: split_immediate(word),
    }
}

fn arith(op: Op, word: u64) -> Insn
    requires word { word < 2 ^ 32 }
    requires op { layout_of op ≡ layouts.Arith }
    ensures form { result ≡ operands_of layouts.Arith op word }
    ensures fits { FitsFields result }
{
    Insn::Arith {
        op,
        rt: bits(word, 6, 10),
        ra: bits(word, 11, 15),
        rb: if has_one_source(op) {
            0
        } else {
            bits(word, 16, 20)
        },
        oe: flag(word, 21),
        rc: flag(word, 31),
    }
}

fn mul_high(op: Op, word: u64) -> Insn
    requires word { word < 2 ^ 32 }
    requires op { layout_of op ≡ layouts.MulHigh }
    ensures form { result ≡ operands_of layouts.MulHigh op word }
    ensures fits { FitsFields result }
{
    Insn::MulHigh {
        op,
        rt: bits(word, 6, 10),
        ra: bits(word, 11, 15),
        rb: bits(word, 16, 20),
        rc: flag(word, 31),
    }
}

fn modulo(op: Op, word: u64) -> Insn
    requires word { word < 2 ^ 32 }
    requires op { layout_of op ≡ layouts.Modulo }
    ensures form { result ≡ operands_of layouts.Modulo op word }
    ensures fits { FitsFields result }
{
    Insn::Modulo {
        op,
        rt: bits(word, 6, 10),
        ra: bits(word, 11, 15),
        rb: bits(word, 16, 20),
    }
}

fn mul_add(op: Op, word: u64) -> Insn
    requires word { word < 2 ^ 32 }
    requires op { layout_of op ≡ layouts.MulAdd }
    ensures form { result ≡ operands_of layouts.MulAdd op word }
    ensures fits { FitsFields result }
{
    Insn::MulAdd {
        op,
        rt: bits(word, 6, 10),
        ra: bits(word, 11, 15),
        rb: bits(word, 16, 20),
        third: bits(word, 21, 25),
    }
}

fn logic_imm(op: Op, word: u64) -> Insn
    requires word { word < 2 ^ 32 }
    requires op { layout_of op ≡ layouts.LogicImm }
    ensures form { result ≡ operands_of layouts.LogicImm op word }
    ensures fits { FitsFields result }
{
    Insn::LogicImm {
        op,
        ra: bits(word, 11, 15),
        rs: bits(word, 6, 10),
        ui: field(word, 32, 16, 31) as u16,
    }
}

fn logic(op: Op, word: u64) -> Insn
    requires word { word < 2 ^ 32 }
    requires op { layout_of op ≡ layouts.Logic }
    ensures form { result ≡ operands_of layouts.Logic op word }
    ensures fits { FitsFields result }
{
    Insn::Logic {
        op,
        ra: bits(word, 11, 15),
        rs: bits(word, 6, 10),
        rb: bits(word, 16, 20),
        rc: flag(word, 31),
    }
}

fn unary(op: Op, word: u64) -> Insn
    requires word { word < 2 ^ 32 }
    requires op { layout_of op ≡ layouts.Unary }
    ensures form { result ≡ operands_of layouts.Unary op word }
    ensures fits { FitsFields result }
{
    Insn::Unary {
        op,
        ra: bits(word, 11, 15),
        rs: bits(word, 6, 10),
        rc: flag(word, 31),
    }
}

fn count(op: Op, word: u64) -> Insn
    requires word { word < 2 ^ 32 }
    requires op { layout_of op ≡ layouts.Count }
    ensures form { result ≡ operands_of layouts.Count op word }
    ensures fits { FitsFields result }
{
    Insn::Count {
        op,
        ra: bits(word, 11, 15),
        rs: bits(word, 6, 10),
    }
}

fn bytes(op: Op, word: u64) -> Insn
    requires word { word < 2 ^ 32 }
    requires op { layout_of op ≡ layouts.Bytes }
    ensures form { result ≡ operands_of layouts.Bytes op word }
    ensures fits { FitsFields result }
{
    Insn::Bytes {
        op,
        ra: bits(word, 11, 15),
        rs: bits(word, 6, 10),
        rb: bits(word, 16, 20),
    }
}

fn shift_imm(op: Op, word: u64) -> Insn
    requires word { word < 2 ^ 32 }
    requires op { layout_of op ≡ layouts.ShiftImm }
    ensures form { result ≡ operands_of layouts.ShiftImm op word }
    ensures fits { FitsFields result }
{
    Insn::ShiftImm {
        op,
        ra: bits(word, 11, 15),
        rs: bits(word, 6, 10),
        sh: if shifts_words(op) {
            bits(word, 16, 20)
        } else {
            six_bits(word, 30, 16)
        },
        rc: flag(word, 31),
    }
}

fn rot_word(op: Op, word: u64) -> Insn
    requires word { word < 2 ^ 32 }
    requires op { layout_of op ≡ layouts.RotWord }
    ensures form { result ≡ operands_of layouts.RotWord op word }
    ensures fits { FitsFields result }
{
    Insn::RotWord {
        op,
        ra: bits(word, 11, 15),
        rs: bits(word, 6, 10),
        by: bits(word, 16, 20),
        mb: bits(word, 21, 25),
        me: bits(word, 26, 30),
        rc: flag(word, 31),
    }
}

fn rot_double(op: Op, word: u64) -> Insn
    requires word { word < 2 ^ 32 }
    requires op { layout_of op ≡ layouts.RotDouble }
    ensures form { result ≡ operands_of layouts.RotDouble op word }
    ensures fits { FitsFields result }
{
    Insn::RotDouble {
        op,
        ra: bits(word, 11, 15),
        rs: bits(word, 6, 10),
        by: if turns_by_register(op) {
            bits(word, 16, 20)
        } else {
            six_bits(word, 30, 16)
        },
        edge: six_bits(word, 26, 21),
        rc: flag(word, 31),
    }
}

fn select(word: u64) -> Insn
    requires word { word < 2 ^ 32 }
    ensures form { result ≡ operands_of layouts.Select Isel word }
    ensures fits { FitsFields result }
{
    Insn::Select {
        rt: bits(word, 6, 10),
        ra: bits(word, 11, 15),
        rb: bits(word, 16, 20),
        bit: bits(word, 21, 25),
    }
}

fn cmp_imm(op: Op, word: u64) -> Insn
    requires word { word < 2 ^ 32 }
    requires op { layout_of op ≡ layouts.CmpImm }
    ensures form { result ≡ operands_of layouts.CmpImm op word }
    ensures fits { FitsFields result }
{
    Insn::CmpImm {
        op,
        bf: bits(word, 6, 8),
        wide: flag(word, 10),
        ra: bits(word, 11, 15),
        value: if compares_unsigned(op) {
            field(word, 32, 16, 31) as i32
        } else {
            i32::from(immediate(word))
        },
    }
}

fn cmp(op: Op, word: u64) -> Insn
    requires word { word < 2 ^ 32 }
    requires op { layout_of op ≡ layouts.Cmp }
    ensures form { result ≡ operands_of layouts.Cmp op word }
    ensures fits { FitsFields result }
{
    Insn::Cmp {
        op,
        bf: bits(word, 6, 8),
        wide: flag(word, 10),
        ra: bits(word, 11, 15),
        rb: bits(word, 16, 20),
    }
}

fn cmp_byte(op: Op, word: u64) -> Insn
    requires word { word < 2 ^ 32 }
    requires op { layout_of op ≡ layouts.CmpByte }
    ensures form { result ≡ operands_of layouts.CmpByte op word }
    ensures fits { FitsFields result }
{
    Insn::CmpByte {
        op,
        bf: bits(word, 6, 8),
        two: !seeks_any_byte(op) && flag(word, 10),
        ra: bits(word, 11, 15),
        rb: bits(word, 16, 20),
    }
}

fn set_b(word: u64) -> Insn
    requires word { word < 2 ^ 32 }
    ensures form { result ≡ operands_of layouts.SetB Setb word }
    ensures fits { FitsFields result }
{
    Insn::SetB {
        rt: bits(word, 6, 10),
        bfa: bits(word, 11, 13),
    }
}

fn trap_imm(op: Op, word: u64) -> Insn
    requires word { word < 2 ^ 32 }
    requires op { layout_of op ≡ layouts.TrapImm }
    ensures form { result ≡ operands_of layouts.TrapImm op word }
    ensures fits { FitsFields result }
{
    Insn::TrapImm {
        op,
        to: bits(word, 6, 10),
        ra: bits(word, 11, 15),
        si: immediate(word),
    }
}

fn trap(op: Op, word: u64) -> Insn
    requires word { word < 2 ^ 32 }
    requires op { layout_of op ≡ layouts.Trap }
    ensures form { result ≡ operands_of layouts.Trap op word }
    ensures fits { FitsFields result }
{
    Insn::Trap {
        op,
        to: bits(word, 6, 10),
        ra: bits(word, 11, 15),
        rb: bits(word, 16, 20),
    }
}

fn jump(word: u64) -> Insn
    requires word { word < 2 ^ 32 }
    ensures form { result ≡ operands_of layouts.Jump B word }
    ensures fits { FitsFields result }
{
    Insn::Jump {
        li: jump_distance(word),
        aa: flag(word, 30),
        lk: flag(word, 31),
    }
}

fn branch(word: u64) -> Insn
    requires word { word < 2 ^ 32 }
    ensures form { result ≡ operands_of layouts.Branch Bc word }
    ensures fits { FitsFields result }
{
    Insn::Branch {
        bo: bits(word, 6, 10),
        bi: bits(word, 11, 15),
        bd: i32::from(scaled_immediate(word)),
        aa: flag(word, 30),
        lk: flag(word, 31),
    }
}

fn branch_reg(op: Op, word: u64) -> Insn
    requires word { word < 2 ^ 32 }
    requires op { layout_of op ≡ layouts.BranchReg }
    ensures form { result ≡ operands_of layouts.BranchReg op word }
    ensures fits { FitsFields result }
{
    Insn::BranchReg {
        op,
        bo: bits(word, 6, 10),
        bi: bits(word, 11, 15),
        lk: flag(word, 31),
    }
}

fn cr_bit(op: Op, word: u64) -> Insn
    requires word { word < 2 ^ 32 }
    requires op { layout_of op ≡ layouts.CrBit }
    ensures form { result ≡ operands_of layouts.CrBit op word }
    ensures fits { FitsFields result }
{
    Insn::CrBit {
        op,
        bt: bits(word, 6, 10),
        ba: bits(word, 11, 15),
        bb: bits(word, 16, 20),
    }
}

fn cr_move(word: u64) -> Insn
    requires word { word < 2 ^ 32 }
    ensures form { result ≡ operands_of layouts.CrMove Mcrf word }
    ensures fits { FitsFields result }
{
    Insn::CrMove {
        bf: bits(word, 6, 8),
        bfa: bits(word, 11, 13),
    }
}

fn move_xer(word: u64) -> Insn
    requires word { word < 2 ^ 32 }
    ensures form { result ≡ operands_of layouts.MoveXer Mcrxrx word }
    ensures fits { FitsFields result }
{
    Insn::MoveXer {
        bf: bits(word, 6, 8),
    }
}

fn mf_cr(word: u64) -> Insn
    requires word { word < 2 ^ 32 }
    ensures form { result ≡ operands_of layouts.MfCr Mfcr word }
    ensures fits { FitsFields result }
{
    Insn::MfCr {
        rt: bits(word, 6, 10),
    }
}

fn mf_one_cr(word: u64) -> Insn
    requires word { word < 2 ^ 32 }
    ensures form { result ≡ operands_of layouts.MfOneCr Mfocrf word }
    ensures fits { FitsFields result }
{
    Insn::MfOneCr {
        rt: bits(word, 6, 10),
        fxm: bits(word, 12, 19),
    }
}

fn mt_cr(word: u64) -> Insn
    requires word { word < 2 ^ 32 }
    ensures form { result ≡ operands_of layouts.MtCr Mtcrf word }
    ensures fits { FitsFields result }
{
    Insn::MtCr {
        rs: bits(word, 6, 10),
        fxm: bits(word, 12, 19),
    }
}

fn mt_one_cr(word: u64) -> Insn
    requires word { word < 2 ^ 32 }
    ensures form { result ≡ operands_of layouts.MtOneCr Mtocrf word }
    ensures fits { FitsFields result }
{
    Insn::MtOneCr {
        rs: bits(word, 6, 10),
        fxm: bits(word, 12, 19),
    }
}

fn access(op: Op, word: u64) -> Insn
    requires word { word < 2 ^ 32 }
    requires op { layout_of op ≡ layouts.Access }
    ensures form { result ≡ operands_of layouts.Access op word }
    ensures fits { FitsFields result }
{
    Insn::Access {
        op,
        rt: bits(word, 6, 10),
        ra: bits(word, 11, 15),
        disp: if scales_displacement(op) {
            scaled_immediate(word)
        } else {
            immediate(word)
        },
    }
}

fn access_x(op: Op, word: u64) -> Insn
    requires word { word < 2 ^ 32 }
    requires op { layout_of op ≡ layouts.AccessX }
    ensures form { result ≡ operands_of layouts.AccessX op word }
    ensures fits { FitsFields result }
{
    Insn::AccessX {
        op,
        rt: bits(word, 6, 10),
        ra: bits(word, 11, 15),
        rb: bits(word, 16, 20),
    }
}

fn block(op: Op, word: u64) -> Insn
    requires word { word < 2 ^ 32 }
    requires op { layout_of op ≡ layouts.Block }
    ensures form { result ≡ operands_of layouts.Block op word }
    ensures fits { FitsFields result }
{
    Insn::Block {
        op,
        ra: bits(word, 11, 15),
        rb: bits(word, 16, 20),
    }
}

fn mf_spr(word: u64) -> Insn
    requires word { word < 2 ^ 32 }
    ensures form { result ≡ operands_of layouts.MfSpr Mfspr word }
    ensures fits { FitsFields result }
{
    Insn::MfSpr {
        rt: bits(word, 6, 10),
        spr: special_register(word),
    }
}

fn mt_spr(word: u64) -> Insn
    requires word { word < 2 ^ 32 }
    ensures form { result ≡ operands_of layouts.MtSpr Mtspr word }
    ensures fits { FitsFields result }
{
    Insn::MtSpr {
        rs: bits(word, 6, 10),
        spr: special_register(word),
    }
}

fn mf_tb(word: u64) -> Insn
    requires word { word < 2 ^ 32 }
    ensures form { result ≡ operands_of layouts.MfTb Mftb word }
    ensures fits { FitsFields result }
{
    Insn::MfTb {
        rt: bits(word, 6, 10),
        spr: special_register(word),
    }
}

fn mf_msr(word: u64) -> Insn
    requires word { word < 2 ^ 32 }
    ensures form { result ≡ operands_of layouts.MfMsr Mfmsr word }
    ensures fits { FitsFields result }
{
    Insn::MfMsr {
        rt: bits(word, 6, 10),
    }
}

fn mt_msr(op: Op, word: u64) -> Insn
    requires word { word < 2 ^ 32 }
    requires op { layout_of op ≡ layouts.MtMsr }
    ensures form { result ≡ operands_of layouts.MtMsr op word }
    ensures fits { FitsFields result }
{
    Insn::MtMsr {
        op,
        rs: bits(word, 6, 10),
        l: flag(word, 15),
    }
}

fn sync(word: u64) -> Insn
    requires word { word < 2 ^ 32 }
    ensures form { result ≡ operands_of layouts.Sync Sync word }
    ensures fits { FitsFields result }
{
    Insn::Sync {
        l: bits(word, 9, 10),
    }
}

fn inval(op: Op, word: u64) -> Insn
    requires word { word < 2 ^ 32 }
    requires op { layout_of op ≡ layouts.Inval }
    ensures form { result ≡ operands_of layouts.Inval op word }
    ensures fits { FitsFields result }
{
    Insn::Inval {
        op,
        rb: bits(word, 16, 20),
        rs: bits(word, 6, 10),
        ric: bits(word, 12, 13),
        prs: flag(word, 14),
        r: flag(word, 15),
    }
}

fn message(op: Op, word: u64) -> Insn
    requires word { word < 2 ^ 32 }
    requires op { layout_of op ≡ layouts.Message }
    ensures form { result ≡ operands_of layouts.Message op word }
    ensures fits { FitsFields result }
{
    Insn::Message {
        op,
        rb: bits(word, 16, 20),
    }
}

fn sc(word: u64) -> Insn
    requires word { word < 2 ^ 32 }
    ensures form { result ≡ operands_of layouts.Sc Sc word }
    ensures fits { FitsFields result }
{
    Insn::Sc {
        lev: bits(word, 26, 26),
    }
}

/// The form of an operation, with the operands that the word has in its fields.
pub(crate) fn operands(op: Op, word: u64) -> Insn
    requires { word < 2 ^ 32 }
    ensures form { result ≡ operands_of (layout_of op) op word }
    ensures fits { FitsFields result }
{
    match layout(op) {
        Layout::AddImm => add_imm(op, word),
        Layout::AddPc => add_pc(word),
        Layout::Arith => arith(op, word),
        Layout::MulHigh => mul_high(op, word),
        Layout::Modulo => modulo(op, word),
        Layout::MulAdd => mul_add(op, word),
        Layout::LogicImm => logic_imm(op, word),
        Layout::Logic => logic(op, word),
        Layout::Unary => unary(op, word),
        Layout::Count => count(op, word),
        Layout::Bytes => bytes(op, word),
        Layout::ShiftImm => shift_imm(op, word),
        Layout::RotWord => rot_word(op, word),
        Layout::RotDouble => rot_double(op, word),
        Layout::Select => select(word),
        Layout::CmpImm => cmp_imm(op, word),
        Layout::Cmp => cmp(op, word),
        Layout::CmpByte => cmp_byte(op, word),
        Layout::SetB => set_b(word),
        Layout::TrapImm => trap_imm(op, word),
        Layout::Trap => trap(op, word),
        Layout::Jump => jump(word),
        Layout::Branch => branch(word),
        Layout::BranchReg => branch_reg(op, word),
        Layout::CrBit => cr_bit(op, word),
        Layout::CrMove => cr_move(word),
        Layout::MoveXer => move_xer(word),
        Layout::MfCr => mf_cr(word),
        Layout::MfOneCr => mf_one_cr(word),
        Layout::MtCr => mt_cr(word),
        Layout::MtOneCr => mt_one_cr(word),
        Layout::Access => access(op, word),
        Layout::AccessX => access_x(op, word),
        Layout::Block => block(op, word),
        Layout::MfSpr => mf_spr(word),
        Layout::MtSpr => mt_spr(word),
        Layout::MfTb => mf_tb(word),
        Layout::MfMsr => mf_msr(word),
        Layout::MtMsr => mt_msr(op, word),
        Layout::Sync => sync(word),
        Layout::Eieio => Insn::Eieio,
        Layout::TlbSync => Insn::TlbSync,
        Layout::Inval => inval(op, word),
        Layout::Message => message(op, word),
        Layout::Isync => Insn::Isync,
        Layout::Rfid => Insn::Rfid,
        Layout::Hrfid => Insn::Hrfid,
        Layout::Sc => sc(word),
    }
}
