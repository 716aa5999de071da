//! The instructions that generated code has, with their operands in the order of assembler text.

ghost use Rattle.std.specs.Prelude.{◌≡◌};
ghost use Rattle.gen_image.specs.Code as said;

use ppc_ops::{Insn, Op};

pub(crate) fn addi(rt: u8, ra: u8, si: i16) -> Insn
    ensures { result ≡ said.addi rt ra si }
{
    Insn::AddImm {
        op: Op::Addi,
        rt,
        ra,
        si,
    }
}

pub(crate) fn addis(rt: u8, ra: u8, si: i16) -> Insn
    ensures { result ≡ said.addis rt ra si }
{
    Insn::AddImm {
        op: Op::Addis,
        rt,
        ra,
        si,
    }
}

pub(crate) fn ori(ra: u8, rs: u8, ui: u16) -> Insn
    ensures { result ≡ said.ori ra rs ui }
{
    Insn::LogicImm {
        op: Op::Ori,
        ra,
        rs,
        ui,
    }
}

pub(crate) fn xori(ra: u8, rs: u8, ui: u16) -> Insn
    ensures { result ≡ said.xori ra rs ui }
{
    Insn::LogicImm {
        op: Op::Xori,
        ra,
        rs,
        ui,
    }
}

pub(crate) fn rldicr(ra: u8, rs: u8, sh: u8, me: u8) -> Insn
    ensures { result ≡ said.rldicr ra rs sh me }
{
    Insn::RotDouble {
        op: Op::Rldicr,
        ra,
        rs,
        by: sh,
        edge: me,
        rc: false,
    }
}

/// The load of a doubleword, with no displacement.
pub(crate) fn ld(rt: u8, ra: u8) -> Insn
    ensures { result ≡ said.ld rt ra }
{
    Insn::Access {
        op: Op::Ld,
        rt,
        ra,
        disp: 0,
    }
}

/// The store of a doubleword, with no displacement.
pub(crate) fn store_doubleword(rs: u8, ra: u8) -> Insn
    ensures { result ≡ said.std rs ra }
{
    Insn::Access {
        op: Op::Std,
        rt: rs,
        ra,
        disp: 0,
    }
}

/// The store of a byte, with no displacement.
pub(crate) fn stb(rs: u8, ra: u8) -> Insn
    ensures { result ≡ said.stb rs ra }
{
    Insn::Access {
        op: Op::Stb,
        rt: rs,
        ra,
        disp: 0,
    }
}

pub(crate) fn mfspr(rt: u8, spr: u16) -> Insn
    ensures { result ≡ said.mfspr rt spr }
{
    Insn::MfSpr { rt, spr }
}

pub(crate) fn mtspr(spr: u16, rs: u8) -> Insn
    ensures { result ≡ said.mtspr spr rs }
{
    Insn::MtSpr { rs, spr }
}

pub(crate) fn tlbie(rb: u8, rs: u8, ric: u8, prs: bool, r: bool) -> Insn
    ensures { result ≡ said.tlbie rb rs ric prs r }
{
    Insn::Inval {
        op: Op::Tlbie,
        rb,
        rs,
        ric,
        prs,
        r,
    }
}
