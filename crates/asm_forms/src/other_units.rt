// Written by tools/make_tables.py from docs/INSTRUCTIONS.md.
//! Forms of traps, branches, accesses and operations of the system.

ghost use Rattle.std.specs.Prelude.{◌≡◌, IfSome};
ghost use Rattle.ppc_ops.specs.declared.insn.Layout.TheVariants as layouts;
ghost use Rattle.ppc_ops.specs.declared.op.Op.TheVariants.{Mcrf, Mcrxrx, Mfcr, Mfocrf, Mtcrf, Mtocrf, Mfspr, Mtspr, Mftb, Mfmsr, Sync, Sc};
ghost use Rattle.ppc_ops.specs.Table.{layout_of};
ghost use Rattle.ppc_ops.specs.Fitting.{FitsFields};
ghost use Rattle.operand_texts.specs.Mnemonics.{unmarked};
ghost use Rattle.asm_forms.specs.Layouts.{form_by};

use crate::values::Values;
use operand_texts::Mnemonic;
use ppc_ops::{Insn, scales_displacement};

pub(crate) fn trap_imm(mnemonic: Mnemonic, values: &Values) -> Option<Insn>
    requires { layout_of mnemonic.op ≡ layouts.TrapImm }
    ensures form { result ≡ form_by layouts.TrapImm mnemonic values.now }
    ensures fits { IfSome result (λ i. FitsFields i) }
{
    Some(Insn::TrapImm {
        op: mnemonic.op,
        to: values.number(0, 5)?,
        ra: values.number(1, 5)?,
        si: values.signed(2)?,
    })
}

pub(crate) fn trap(mnemonic: Mnemonic, values: &Values) -> Option<Insn>
    requires { layout_of mnemonic.op ≡ layouts.Trap }
    ensures form { result ≡ form_by layouts.Trap mnemonic values.now }
    ensures fits { IfSome result (λ i. FitsFields i) }
{
    Some(Insn::Trap {
        op: mnemonic.op,
        to: values.number(0, 5)?,
        ra: values.number(1, 5)?,
        rb: values.number(2, 5)?,
    })
}

pub(crate) fn jump(mnemonic: Mnemonic, values: &Values) -> Option<Insn>
    ensures form { result ≡ form_by layouts.Jump mnemonic values.now }
    ensures fits { IfSome result (λ i. FitsFields i) }
{
    Some(Insn::Jump {
        li: values.jump_distance(0)?,
        aa: mnemonic.aa,
        lk: mnemonic.lk,
    })
}

pub(crate) fn branch(mnemonic: Mnemonic, values: &Values) -> Option<Insn>
    ensures form { result ≡ form_by layouts.Branch mnemonic values.now }
    ensures fits { IfSome result (λ i. FitsFields i) }
{
    Some(Insn::Branch {
        bo: values.number(0, 5)?,
        bi: values.number(1, 5)?,
        bd: values.branch_distance(2)?,
        aa: mnemonic.aa,
        lk: mnemonic.lk,
    })
}

pub(crate) fn branch_reg(mnemonic: Mnemonic, values: &Values) -> Option<Insn>
    requires { layout_of mnemonic.op ≡ layouts.BranchReg }
    ensures form { result ≡ form_by layouts.BranchReg mnemonic values.now }
    ensures fits { IfSome result (λ i. FitsFields i) }
{
    Some(Insn::BranchReg {
        op: mnemonic.op,
        bo: values.number(0, 5)?,
        bi: values.number(1, 5)?,
        lk: mnemonic.lk,
    })
}

pub(crate) fn cr_bit(mnemonic: Mnemonic, values: &Values) -> Option<Insn>
    requires { layout_of mnemonic.op ≡ layouts.CrBit }
    ensures form { result ≡ form_by layouts.CrBit mnemonic values.now }
    ensures fits { IfSome result (λ i. FitsFields i) }
{
    Some(Insn::CrBit {
        op: mnemonic.op,
        bt: values.number(0, 5)?,
        ba: values.number(1, 5)?,
        bb: values.number(2, 5)?,
    })
}

pub(crate) fn cr_move(values: &Values) -> Option<Insn>
    ensures form { result ≡ form_by layouts.CrMove (unmarked Mcrf) values.now }
    ensures fits { IfSome result (λ i. FitsFields i) }
{
    Some(Insn::CrMove {
        bf: values.number(0, 3)?,
        bfa: values.number(1, 3)?,
    })
}

pub(crate) fn move_xer(values: &Values) -> Option<Insn>
    ensures form { result ≡ form_by layouts.MoveXer (unmarked Mcrxrx) values.now }
    ensures fits { IfSome result (λ i. FitsFields i) }
{
    Some(Insn::MoveXer {
        bf: values.number(0, 3)?,
    })
}

pub(crate) fn mf_cr(values: &Values) -> Option<Insn>
    ensures form { result ≡ form_by layouts.MfCr (unmarked Mfcr) values.now }
    ensures fits { IfSome result (λ i. FitsFields i) }
{
    Some(Insn::MfCr {
        rt: values.number(0, 5)?,
    })
}

pub(crate) fn mf_one_cr(values: &Values) -> Option<Insn>
    ensures form { result ≡ form_by layouts.MfOneCr (unmarked Mfocrf) values.now }
    ensures fits { IfSome result (λ i. FitsFields i) }
{
    Some(Insn::MfOneCr {
        rt: values.number(0, 5)?,
        fxm: values.number(1, 8)?,
    })
}

pub(crate) fn mt_cr(values: &Values) -> Option<Insn>
    ensures form { result ≡ form_by layouts.MtCr (unmarked Mtcrf) values.now }
    ensures fits { IfSome result (λ i. FitsFields i) }
{
    Some(Insn::MtCr {
        rs: values.number(0, 5)?,
        fxm: values.number(1, 8)?,
    })
}

pub(crate) fn mt_one_cr(values: &Values) -> Option<Insn>
    ensures form { result ≡ form_by layouts.MtOneCr (unmarked Mtocrf) values.now }
    ensures fits { IfSome result (λ i. FitsFields i) }
{
    Some(Insn::MtOneCr {
        rs: values.number(0, 5)?,
        fxm: values.number(1, 8)?,
    })
}

pub(crate) fn access(mnemonic: Mnemonic, values: &Values) -> Option<Insn>
    requires { layout_of mnemonic.op ≡ layouts.Access }
    ensures form { result ≡ form_by layouts.Access mnemonic values.now }
    ensures fits { IfSome result (λ i. FitsFields i) }
{
    Some(Insn::Access {
        op: mnemonic.op,
        rt: values.number(0, 5)?,
        ra: values.number(2, 5)?,
        disp: values.displacement(1, scales_displacement(mnemonic.op))?,
    })
}

pub(crate) fn access_x(mnemonic: Mnemonic, values: &Values) -> Option<Insn>
    requires { layout_of mnemonic.op ≡ layouts.AccessX }
    ensures form { result ≡ form_by layouts.AccessX mnemonic values.now }
    ensures fits { IfSome result (λ i. FitsFields i) }
{
    Some(Insn::AccessX {
        op: mnemonic.op,
        rt: values.number(0, 5)?,
        ra: values.number(1, 5)?,
        rb: values.number(2, 5)?,
    })
}

pub(crate) fn block(mnemonic: Mnemonic, values: &Values) -> Option<Insn>
    requires { layout_of mnemonic.op ≡ layouts.Block }
    ensures form { result ≡ form_by layouts.Block mnemonic values.now }
    ensures fits { IfSome result (λ i. FitsFields i) }
{
    Some(Insn::Block {
        op: mnemonic.op,
        ra: values.number(0, 5)?,
        rb: values.number(1, 5)?,
    })
}

pub(crate) fn mf_spr(values: &Values) -> Option<Insn>
    ensures form { result ≡ form_by layouts.MfSpr (unmarked Mfspr) values.now }
    ensures fits { IfSome result (λ i. FitsFields i) }
{
    Some(Insn::MfSpr {
        rt: values.number(0, 5)?,
        spr: values.half(1, 10)?,
    })
}

pub(crate) fn mt_spr(values: &Values) -> Option<Insn>
    ensures form { result ≡ form_by layouts.MtSpr (unmarked Mtspr) values.now }
    ensures fits { IfSome result (λ i. FitsFields i) }
{
    Some(Insn::MtSpr {
        rs: values.number(1, 5)?,
        spr: values.half(0, 10)?,
    })
}

pub(crate) fn mf_tb(values: &Values) -> Option<Insn>
    ensures form { result ≡ form_by layouts.MfTb (unmarked Mftb) values.now }
    ensures fits { IfSome result (λ i. FitsFields i) }
{
    Some(Insn::MfTb {
        rt: values.number(0, 5)?,
        spr: values.half(1, 10)?,
    })
}

pub(crate) fn mf_msr(values: &Values) -> Option<Insn>
    ensures form { result ≡ form_by layouts.MfMsr (unmarked Mfmsr) values.now }
    ensures fits { IfSome result (λ i. FitsFields i) }
{
    Some(Insn::MfMsr {
        rt: values.number(0, 5)?,
    })
}

pub(crate) fn mt_msr(mnemonic: Mnemonic, values: &Values) -> Option<Insn>
    requires { layout_of mnemonic.op ≡ layouts.MtMsr }
    ensures form { result ≡ form_by layouts.MtMsr mnemonic values.now }
    ensures fits { IfSome result (λ i. FitsFields i) }
{
    Some(Insn::MtMsr {
        op: mnemonic.op,
        rs: values.number(0, 5)?,
        l: values.flag(1)?,
    })
}

pub(crate) fn sync(values: &Values) -> Option<Insn>
    ensures form { result ≡ form_by layouts.Sync (unmarked Sync) values.now }
    ensures fits { IfSome result (λ i. FitsFields i) }
{
    Some(Insn::Sync {
        l: values.number(0, 2)?,
    })
}

pub(crate) fn inval(mnemonic: Mnemonic, values: &Values) -> Option<Insn>
    requires { layout_of mnemonic.op ≡ layouts.Inval }
    ensures form { result ≡ form_by layouts.Inval mnemonic values.now }
    ensures fits { IfSome result (λ i. FitsFields i) }
{
    Some(Insn::Inval {
        op: mnemonic.op,
        rb: values.number(0, 5)?,
        rs: values.number(1, 5)?,
        ric: values.number(2, 2)?,
        prs: values.flag(3)?,
        r: values.flag(4)?,
    })
}

pub(crate) fn message(mnemonic: Mnemonic, values: &Values) -> Option<Insn>
    requires { layout_of mnemonic.op ≡ layouts.Message }
    ensures form { result ≡ form_by layouts.Message mnemonic values.now }
    ensures fits { IfSome result (λ i. FitsFields i) }
{
    Some(Insn::Message {
        op: mnemonic.op,
        rb: values.number(0, 5)?,
    })
}

pub(crate) fn sc(values: &Values) -> Option<Insn>
    ensures form { result ≡ form_by layouts.Sc (unmarked Sc) values.now }
    ensures fits { IfSome result (λ i. FitsFields i) }
{
    Some(Insn::Sc {
        lev: values.number(0, 1)?,
    })
}
