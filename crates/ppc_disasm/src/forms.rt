// Written by tools/make_tables.py from docs/INSTRUCTIONS.md.
//! The text of each form.

ghost use Rattle.std.specs.Prelude.{◌≡◌, ◌+◌, ◌++◌, ◌≤◌, length};
ghost use Rattle.ppc_disasm.specs.Texts.{insn_text};

use crate::operands::push_form;
use line_text::Line;
use operand_texts::Mnemonic;
use ppc_ops::{Insn, Op};

/// Adds the text of an instruction to a line, which must have room for it and 20 bytes more.
#[tactic(auto, unfolding(crate::specs::Texts::insn_text))]
pub(crate) fn push_text(line: &mut Line, insn: Insn)
    requires { length line.old + length (insn_text insn) + 20 ≤ 512 }
    ensures { line.new ≡ line.old ++ insn_text insn }
{
    match insn {
        Insn::AddImm { op, rt, ra, si } => {
            let mnemonic = Mnemonic::unmarked(op);
            let values = [i32::from(rt), i32::from(ra), i32::from(si)];
            push_form(line, mnemonic, &values);
        }
        Insn::AddPc { rt, d } => {
            let mnemonic = Mnemonic::unmarked(Op::Addpcis);
            let values = [i32::from(rt), i32::from(d)];
            push_form(line, mnemonic, &values);
        }
        Insn::Arith {
            op,
            rt,
            ra,
            rb,
            oe,
            rc,
        } => {
            let mnemonic = Mnemonic {
                oe,
                rc,
                ..Mnemonic::unmarked(op)
            };
            let values = [i32::from(rt), i32::from(ra), i32::from(rb)];
            push_form(line, mnemonic, &values);
        }
        Insn::MulHigh { op, rt, ra, rb, rc } => {
            let mnemonic = Mnemonic {
                rc,
                ..Mnemonic::unmarked(op)
            };
            let values = [i32::from(rt), i32::from(ra), i32::from(rb)];
            push_form(line, mnemonic, &values);
        }
        Insn::Modulo { op, rt, ra, rb } => {
            let mnemonic = Mnemonic::unmarked(op);
            let values = [i32::from(rt), i32::from(ra), i32::from(rb)];
            push_form(line, mnemonic, &values);
        }
        Insn::MulAdd {
            op,
            rt,
            ra,
            rb,
            third,
        } => {
            let mnemonic = Mnemonic::unmarked(op);
            let values = [
                i32::from(rt),
                i32::from(ra),
                i32::from(rb),
                i32::from(third),
            ];
            push_form(line, mnemonic, &values);
        }
        Insn::LogicImm { op, ra, rs, ui } => {
            let mnemonic = Mnemonic::unmarked(op);
            let values = [i32::from(ra), i32::from(rs), i32::from(ui)];
            push_form(line, mnemonic, &values);
        }
        Insn::Logic { op, ra, rs, rb, rc } => {
            let mnemonic = Mnemonic {
                rc,
                ..Mnemonic::unmarked(op)
            };
            let values = [i32::from(ra), i32::from(rs), i32::from(rb)];
            push_form(line, mnemonic, &values);
        }
        Insn::Unary { op, ra, rs, rc } => {
            let mnemonic = Mnemonic {
                rc,
                ..Mnemonic::unmarked(op)
            };
            let values = [i32::from(ra), i32::from(rs)];
            push_form(line, mnemonic, &values);
        }
        Insn::Count { op, ra, rs } => {
            let mnemonic = Mnemonic::unmarked(op);
            let values = [i32::from(ra), i32::from(rs)];
            push_form(line, mnemonic, &values);
        }
        Insn::Bytes { op, ra, rs, rb } => {
            let mnemonic = Mnemonic::unmarked(op);
            let values = [i32::from(ra), i32::from(rs), i32::from(rb)];
            push_form(line, mnemonic, &values);
        }
        Insn::ShiftImm { op, ra, rs, sh, rc } => {
            let mnemonic = Mnemonic {
                rc,
                ..Mnemonic::unmarked(op)
            };
            let values = [i32::from(ra), i32::from(rs), i32::from(sh)];
            push_form(line, mnemonic, &values);
        }
        Insn::RotWord {
            op,
            ra,
            rs,
            by,
            mb,
            me,
            rc,
        } => {
            let mnemonic = Mnemonic {
                rc,
                ..Mnemonic::unmarked(op)
            };
            let values = [
                i32::from(ra),
                i32::from(rs),
                i32::from(by),
                i32::from(mb),
                i32::from(me),
            ];
            push_form(line, mnemonic, &values);
        }
        Insn::RotDouble {
            op,
            ra,
            rs,
            by,
            edge,
            rc,
        } => {
            let mnemonic = Mnemonic {
                rc,
                ..Mnemonic::unmarked(op)
            };
            let values = [i32::from(ra), i32::from(rs), i32::from(by), i32::from(edge)];
            push_form(line, mnemonic, &values);
        }
        Insn::Select { rt, ra, rb, bit } => {
            let mnemonic = Mnemonic::unmarked(Op::Isel);
            let values = [i32::from(rt), i32::from(ra), i32::from(rb), i32::from(bit)];
            push_form(line, mnemonic, &values);
        }
        Insn::CmpImm {
            op,
            bf,
            wide,
            ra,
            value,
        } => {
            let mnemonic = Mnemonic::unmarked(op);
            let values = [i32::from(bf), i32::from(wide), i32::from(ra), value];
            push_form(line, mnemonic, &values);
        }
        Insn::Cmp {
            op,
            bf,
            wide,
            ra,
            rb,
        } => {
            let mnemonic = Mnemonic::unmarked(op);
            let values = [i32::from(bf), i32::from(wide), i32::from(ra), i32::from(rb)];
            push_form(line, mnemonic, &values);
        }
        Insn::CmpByte {
            op,
            bf,
            two,
            ra,
            rb,
        } => {
            let mnemonic = Mnemonic::unmarked(op);
            let values = [i32::from(bf), i32::from(two), i32::from(ra), i32::from(rb)];
            push_form(line, mnemonic, &values);
        }
        Insn::SetB { rt, bfa } => {
            let mnemonic = Mnemonic::unmarked(Op::Setb);
            let values = [i32::from(rt), i32::from(bfa)];
            push_form(line, mnemonic, &values);
        }
        Insn::TrapImm { op, to, ra, si } => {
            let mnemonic = Mnemonic::unmarked(op);
            let values = [i32::from(to), i32::from(ra), i32::from(si)];
            push_form(line, mnemonic, &values);
        }
        Insn::Trap { op, to, ra, rb } => {
            let mnemonic = Mnemonic::unmarked(op);
            let values = [i32::from(to), i32::from(ra), i32::from(rb)];
            push_form(line, mnemonic, &values);
        }
        Insn::Jump { li, aa, lk } => {
            let mnemonic = Mnemonic {
                lk,
                aa,
                ..Mnemonic::unmarked(Op::B)
            };
            let values = [li];
            push_form(line, mnemonic, &values);
        }
        Insn::Branch { bo, bi, bd, aa, lk } => {
            let mnemonic = Mnemonic {
                lk,
                aa,
                ..Mnemonic::unmarked(Op::Bc)
            };
            let values = [i32::from(bo), i32::from(bi), bd];
            push_form(line, mnemonic, &values);
        }
        Insn::BranchReg { op, bo, bi, lk } => {
            let mnemonic = Mnemonic {
                lk,
                ..Mnemonic::unmarked(op)
            };
            let values = [i32::from(bo), i32::from(bi)];
            push_form(line, mnemonic, &values);
        }
        Insn::CrBit { op, bt, ba, bb } => {
            let mnemonic = Mnemonic::unmarked(op);
            let values = [i32::from(bt), i32::from(ba), i32::from(bb)];
            push_form(line, mnemonic, &values);
        }
        Insn::CrMove { bf, bfa } => {
            let mnemonic = Mnemonic::unmarked(Op::Mcrf);
            let values = [i32::from(bf), i32::from(bfa)];
            push_form(line, mnemonic, &values);
        }
        Insn::MoveXer { bf } => {
            let mnemonic = Mnemonic::unmarked(Op::Mcrxrx);
            let values = [i32::from(bf)];
            push_form(line, mnemonic, &values);
        }
        Insn::MfCr { rt } => {
            let mnemonic = Mnemonic::unmarked(Op::Mfcr);
            let values = [i32::from(rt)];
            push_form(line, mnemonic, &values);
        }
        Insn::MfOneCr { rt, fxm } => {
            let mnemonic = Mnemonic::unmarked(Op::Mfocrf);
            let values = [i32::from(rt), i32::from(fxm)];
            push_form(line, mnemonic, &values);
        }
        Insn::MtCr { rs, fxm } => {
            let mnemonic = Mnemonic::unmarked(Op::Mtcrf);
            let values = [i32::from(rs), i32::from(fxm)];
            push_form(line, mnemonic, &values);
        }
        Insn::MtOneCr { rs, fxm } => {
            let mnemonic = Mnemonic::unmarked(Op::Mtocrf);
            let values = [i32::from(rs), i32::from(fxm)];
            push_form(line, mnemonic, &values);
        }
        Insn::Access { op, rt, ra, disp } => {
            let mnemonic = Mnemonic::unmarked(op);
            let values = [i32::from(rt), i32::from(disp), i32::from(ra)];
            push_form(line, mnemonic, &values);
        }
        Insn::AccessX { op, rt, ra, rb } => {
            let mnemonic = Mnemonic::unmarked(op);
            let values = [i32::from(rt), i32::from(ra), i32::from(rb)];
            push_form(line, mnemonic, &values);
        }
        Insn::Block { op, ra, rb } => {
            let mnemonic = Mnemonic::unmarked(op);
            let values = [i32::from(ra), i32::from(rb)];
            push_form(line, mnemonic, &values);
        }
        Insn::MfSpr { rt, spr } => {
            let mnemonic = Mnemonic::unmarked(Op::Mfspr);
            let values = [i32::from(rt), i32::from(spr)];
            push_form(line, mnemonic, &values);
        }
        Insn::MtSpr { rs, spr } => {
            let mnemonic = Mnemonic::unmarked(Op::Mtspr);
            let values = [i32::from(spr), i32::from(rs)];
            push_form(line, mnemonic, &values);
        }
        Insn::MfTb { rt, spr } => {
            let mnemonic = Mnemonic::unmarked(Op::Mftb);
            let values = [i32::from(rt), i32::from(spr)];
            push_form(line, mnemonic, &values);
        }
        Insn::MfMsr { rt } => {
            let mnemonic = Mnemonic::unmarked(Op::Mfmsr);
            let values = [i32::from(rt)];
            push_form(line, mnemonic, &values);
        }
        Insn::MtMsr { op, rs, l } => {
            let mnemonic = Mnemonic::unmarked(op);
            let values = [i32::from(rs), i32::from(l)];
            push_form(line, mnemonic, &values);
        }
        Insn::Sync { l } => {
            let mnemonic = Mnemonic::unmarked(Op::Sync);
            let values = [i32::from(l)];
            push_form(line, mnemonic, &values);
        }
        Insn::Eieio => push_form(line, Mnemonic::unmarked(Op::Eieio), &[]),
        Insn::TlbSync => push_form(line, Mnemonic::unmarked(Op::Tlbsync), &[]),
        Insn::Inval {
            op,
            rb,
            rs,
            ric,
            prs,
            r,
        } => {
            let mnemonic = Mnemonic::unmarked(op);
            let values = [
                i32::from(rb),
                i32::from(rs),
                i32::from(ric),
                i32::from(prs),
                i32::from(r),
            ];
            push_form(line, mnemonic, &values);
        }
        Insn::Message { op, rb } => {
            let mnemonic = Mnemonic::unmarked(op);
            let values = [i32::from(rb)];
            push_form(line, mnemonic, &values);
        }
        Insn::Isync => push_form(line, Mnemonic::unmarked(Op::Isync), &[]),
        Insn::Rfid => push_form(line, Mnemonic::unmarked(Op::Rfid), &[]),
        Insn::Hrfid => push_form(line, Mnemonic::unmarked(Op::Hrfid), &[]),
        Insn::Sc { lev } => {
            let mnemonic = Mnemonic::unmarked(Op::Sc);
            let values = [i32::from(lev)];
            push_form(line, mnemonic, &values);
        }
    }
}
