// Written by tools/make_tables.py from docs/INSTRUCTIONS.md.
//! Forms of fixed-point operations.

ghost use Rattle.std.specs.Prelude.{◌≡◌, IfSome};
ghost use Rattle.ppc_ops.specs.declared.insn.Layout.TheVariants as layouts;
ghost use Rattle.ppc_ops.specs.declared.op.Op.TheVariants.{Addpcis, Isel, Setb};
ghost use Rattle.ppc_ops.specs.Table.{layout_of};
ghost use Rattle.ppc_ops.specs.Fitting.{FitsFields};
ghost use Rattle.operand_texts.specs.Mnemonics.{unmarked};
ghost use Rattle.asm_forms.specs.Layouts.{form_by};

use crate::values::Values;
use operand_texts::Mnemonic;
use ppc_ops::{
    Insn, compares_unsigned, has_one_source, seeks_any_byte, shifts_words, turns_by_register,
};

pub(crate) fn add_imm(mnemonic: Mnemonic, values: &Values) -> Option<Insn>
    requires { layout_of mnemonic.op ≡ layouts.AddImm }
    ensures form { result ≡ form_by layouts.AddImm mnemonic values.now }
    ensures fits { IfSome result (λ i. FitsFields i) }
{
    Some(Insn::AddImm {
        op: mnemonic.op,
        rt: values.number(0, 5)?,
        ra: values.number(1, 5)?,
        si: values.signed(2)?,
    })
}

pub(crate) fn add_pc(values: &Values) -> Option<Insn>
    ensures form { result ≡ form_by layouts.AddPc (unmarked Addpcis) values.now }
    ensures fits { IfSome result (λ i. FitsFields i) }
{
    Some(Insn::AddPc {
        rt: values.number(0, 5)?,
        d: values.signed(1)?,
    })
}

pub(crate) fn arith(mnemonic: Mnemonic, values: &Values) -> Option<Insn>
    requires { layout_of mnemonic.op ≡ layouts.Arith }
    ensures form { result ≡ form_by layouts.Arith mnemonic values.now }
    ensures fits { IfSome result (λ i. FitsFields i) }
{
    let rb_bits = if has_one_source(mnemonic.op) { 0 } else { 5 };
    Some(Insn::Arith {
        op: mnemonic.op,
        rt: values.number(0, 5)?,
        ra: values.number(1, 5)?,
        rb: values.number(2, rb_bits)?,
        oe: mnemonic.oe,
        rc: mnemonic.rc,
    })
}

pub(crate) fn mul_high(mnemonic: Mnemonic, values: &Values) -> Option<Insn>
    requires { layout_of mnemonic.op ≡ layouts.MulHigh }
    ensures form { result ≡ form_by layouts.MulHigh mnemonic values.now }
    ensures fits { IfSome result (λ i. FitsFields i) }
{
    Some(Insn::MulHigh {
        op: mnemonic.op,
        rt: values.number(0, 5)?,
        ra: values.number(1, 5)?,
        rb: values.number(2, 5)?,
        rc: mnemonic.rc,
    })
}

pub(crate) fn modulo(mnemonic: Mnemonic, values: &Values) -> Option<Insn>
    requires { layout_of mnemonic.op ≡ layouts.Modulo }
    ensures form { result ≡ form_by layouts.Modulo mnemonic values.now }
    ensures fits { IfSome result (λ i. FitsFields i) }
{
    Some(Insn::Modulo {
        op: mnemonic.op,
        rt: values.number(0, 5)?,
        ra: values.number(1, 5)?,
        rb: values.number(2, 5)?,
    })
}

pub(crate) fn mul_add(mnemonic: Mnemonic, values: &Values) -> Option<Insn>
    requires { layout_of mnemonic.op ≡ layouts.MulAdd }
    ensures form { result ≡ form_by layouts.MulAdd mnemonic values.now }
    ensures fits { IfSome result (λ i. FitsFields i) }
{
    Some(Insn::MulAdd {
        op: mnemonic.op,
        rt: values.number(0, 5)?,
        ra: values.number(1, 5)?,
        rb: values.number(2, 5)?,
        third: values.number(3, 5)?,
    })
}

pub(crate) fn logic_imm(mnemonic: Mnemonic, values: &Values) -> Option<Insn>
    requires { layout_of mnemonic.op ≡ layouts.LogicImm }
    ensures form { result ≡ form_by layouts.LogicImm mnemonic values.now }
    ensures fits { IfSome result (λ i. FitsFields i) }
{
    Some(Insn::LogicImm {
        op: mnemonic.op,
        ra: values.number(0, 5)?,
        rs: values.number(1, 5)?,
        ui: values.half(2, 16)?,
    })
}

pub(crate) fn logic(mnemonic: Mnemonic, values: &Values) -> Option<Insn>
    requires { layout_of mnemonic.op ≡ layouts.Logic }
    ensures form { result ≡ form_by layouts.Logic mnemonic values.now }
    ensures fits { IfSome result (λ i. FitsFields i) }
{
    Some(Insn::Logic {
        op: mnemonic.op,
        ra: values.number(0, 5)?,
        rs: values.number(1, 5)?,
        rb: values.number(2, 5)?,
        rc: mnemonic.rc,
    })
}

pub(crate) fn unary(mnemonic: Mnemonic, values: &Values) -> Option<Insn>
    requires { layout_of mnemonic.op ≡ layouts.Unary }
    ensures form { result ≡ form_by layouts.Unary mnemonic values.now }
    ensures fits { IfSome result (λ i. FitsFields i) }
{
    Some(Insn::Unary {
        op: mnemonic.op,
        ra: values.number(0, 5)?,
        rs: values.number(1, 5)?,
        rc: mnemonic.rc,
    })
}

pub(crate) fn count(mnemonic: Mnemonic, values: &Values) -> Option<Insn>
    requires { layout_of mnemonic.op ≡ layouts.Count }
    ensures form { result ≡ form_by layouts.Count mnemonic values.now }
    ensures fits { IfSome result (λ i. FitsFields i) }
{
    Some(Insn::Count {
        op: mnemonic.op,
        ra: values.number(0, 5)?,
        rs: values.number(1, 5)?,
    })
}

pub(crate) fn bytes(mnemonic: Mnemonic, values: &Values) -> Option<Insn>
    requires { layout_of mnemonic.op ≡ layouts.Bytes }
    ensures form { result ≡ form_by layouts.Bytes mnemonic values.now }
    ensures fits { IfSome result (λ i. FitsFields i) }
{
    Some(Insn::Bytes {
        op: mnemonic.op,
        ra: values.number(0, 5)?,
        rs: values.number(1, 5)?,
        rb: values.number(2, 5)?,
    })
}

pub(crate) fn shift_imm(mnemonic: Mnemonic, values: &Values) -> Option<Insn>
    requires { layout_of mnemonic.op ≡ layouts.ShiftImm }
    ensures form { result ≡ form_by layouts.ShiftImm mnemonic values.now }
    ensures fits { IfSome result (λ i. FitsFields i) }
{
    let sh_bits = if shifts_words(mnemonic.op) { 5 } else { 6 };
    Some(Insn::ShiftImm {
        op: mnemonic.op,
        ra: values.number(0, 5)?,
        rs: values.number(1, 5)?,
        sh: values.number(2, sh_bits)?,
        rc: mnemonic.rc,
    })
}

pub(crate) fn rot_word(mnemonic: Mnemonic, values: &Values) -> Option<Insn>
    requires { layout_of mnemonic.op ≡ layouts.RotWord }
    ensures form { result ≡ form_by layouts.RotWord mnemonic values.now }
    ensures fits { IfSome result (λ i. FitsFields i) }
{
    Some(Insn::RotWord {
        op: mnemonic.op,
        ra: values.number(0, 5)?,
        rs: values.number(1, 5)?,
        by: values.number(2, 5)?,
        mb: values.number(3, 5)?,
        me: values.number(4, 5)?,
        rc: mnemonic.rc,
    })
}

pub(crate) fn rot_double(mnemonic: Mnemonic, values: &Values) -> Option<Insn>
    requires { layout_of mnemonic.op ≡ layouts.RotDouble }
    ensures form { result ≡ form_by layouts.RotDouble mnemonic values.now }
    ensures fits { IfSome result (λ i. FitsFields i) }
{
    let by_bits = if turns_by_register(mnemonic.op) { 5 } else { 6 };
    Some(Insn::RotDouble {
        op: mnemonic.op,
        ra: values.number(0, 5)?,
        rs: values.number(1, 5)?,
        by: values.number(2, by_bits)?,
        edge: values.number(3, 6)?,
        rc: mnemonic.rc,
    })
}

pub(crate) fn select(values: &Values) -> Option<Insn>
    ensures form { result ≡ form_by layouts.Select (unmarked Isel) values.now }
    ensures fits { IfSome result (λ i. FitsFields i) }
{
    Some(Insn::Select {
        rt: values.number(0, 5)?,
        ra: values.number(1, 5)?,
        rb: values.number(2, 5)?,
        bit: values.number(3, 5)?,
    })
}

pub(crate) fn cmp_imm(mnemonic: Mnemonic, values: &Values) -> Option<Insn>
    requires { layout_of mnemonic.op ≡ layouts.CmpImm }
    ensures form { result ≡ form_by layouts.CmpImm mnemonic values.now }
    ensures fits { IfSome result (λ i. FitsFields i) }
{
    Some(Insn::CmpImm {
        op: mnemonic.op,
        bf: values.number(0, 3)?,
        wide: values.flag(1)?,
        ra: values.number(2, 5)?,
        value: values.compared(3, compares_unsigned(mnemonic.op))?,
    })
}

pub(crate) fn cmp(mnemonic: Mnemonic, values: &Values) -> Option<Insn>
    requires { layout_of mnemonic.op ≡ layouts.Cmp }
    ensures form { result ≡ form_by layouts.Cmp mnemonic values.now }
    ensures fits { IfSome result (λ i. FitsFields i) }
{
    Some(Insn::Cmp {
        op: mnemonic.op,
        bf: values.number(0, 3)?,
        wide: values.flag(1)?,
        ra: values.number(2, 5)?,
        rb: values.number(3, 5)?,
    })
}

pub(crate) fn cmp_byte(mnemonic: Mnemonic, values: &Values) -> Option<Insn>
    requires { layout_of mnemonic.op ≡ layouts.CmpByte }
    ensures form { result ≡ form_by layouts.CmpByte mnemonic values.now }
    ensures fits { IfSome result (λ i. FitsFields i) }
{
    Some(Insn::CmpByte {
        op: mnemonic.op,
        bf: values.number(0, 3)?,
        two: values.flag_unless(1, seeks_any_byte(mnemonic.op))?,
        ra: values.number(2, 5)?,
        rb: values.number(3, 5)?,
    })
}

pub(crate) fn set_b(values: &Values) -> Option<Insn>
    ensures form { result ≡ form_by layouts.SetB (unmarked Setb) values.now }
    ensures fits { IfSome result (λ i. FitsFields i) }
{
    Some(Insn::SetB {
        rt: values.number(0, 5)?,
        bfa: values.number(1, 3)?,
    })
}
