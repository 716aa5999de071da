ghost use Rattle.std.specs.Prelude.{IfSome};
ghost use Rattle.ppc_ops.specs.Forms.{IsForm};
ghost use Rattle.fixed_logic.specs.Logic.{IsLogic};

mod cases;

use super::*;
use cases::CASES;
use ppc_ops::{
    ArithOut, Insn, Layout, Op, Xer, layout, name, row, row_count, shifts_words, turns_by_register,
};
use std::process::Abort;

/// The operation of a name.
fn operation(text: &str) -> Option<Op> {
    for i in 0..row_count() {
        if let Some(found) = row(i) {
            if name(found.op) == text {
                return Some(found.op);
            }
        }
    }
    None
}

/// The instruction with these operands, which stand in their order in its layout, registers left out.
fn form(op: Op, rc: bool, x: u16, y: u8, z: u8) -> Option<Insn>
    ensures form { IfSome result (λ i. IsForm i) }
    ensures logic { IfSome result (λ i. IsLogic i) }
{
    let (ra, rs, rb) = (0, 0, 0);
    let by = (x & 0x3f) as u8;
    match layout(op) {
        Layout::LogicImm => Some(Insn::LogicImm { op, ra, rs, ui: x }),
        Layout::Logic => Some(Insn::Logic { op, ra, rs, rb, rc }),
        Layout::Unary => Some(Insn::Unary { op, ra, rs, rc }),
        Layout::Count => Some(Insn::Count { op, ra, rs }),
        Layout::Bytes => Some(Insn::Bytes { op, ra, rs, rb }),
        Layout::ShiftImm if by < 32 || !shifts_words(op) => Some(Insn::ShiftImm {
            op,
            ra,
            rs,
            sh: by,
            rc,
        }),
        Layout::RotWord if by < 32 && y < 32 && z < 32 => Some(Insn::RotWord {
            op,
            ra,
            rs,
            by,
            mb: y,
            me: z,
            rc,
        }),
        Layout::RotDouble if y < 64 && (by < 32 || !turns_by_register(op)) => {
            Some(Insn::RotDouble {
                op,
                ra,
                rs,
                by,
                edge: y,
                rc,
            })
        }
        _ => None,
    }
}

fn hexadecimal(rt: &impl Abort, text: Option<&str>) -> u64 {
    u64::from_str_radix(text.unwrap_or(""), 16).expect(rt, "hexadecimal digits")
}

fn operand(rt: &impl Abort, text: Option<&str>) -> u16 {
    u16::from_str_radix(text.unwrap_or(""), 10).expect(rt, "an operand")
}

/// SO, OV, CA, OV32 and CA32 as digits.
fn register(rt: &impl Abort, text: Option<&str>) -> Xer {
    let digits = u8::from_str_radix(text.unwrap_or(""), 2).expect(rt, "binary digits");
    Xer {
        so: digits & 16 != 0,
        ov: digits & 8 != 0,
        ca: digits & 4 != 0,
        ov32: digits & 2 != 0,
        ca32: digits & 1 != 0,
    }
}

/// The operation that a line names, and whether it records: `andi.` has its dot in the name.
fn named(text: &str) -> (Option<Op>, bool) {
    match operation(text) {
        Some(op) => (Some(op), false),
        None => (operation(text.trim_end_matches('.')), true),
    }
}

#[test]
fn each_operation_leaves_what_the_sentences_of_the_architecture_say(rt: HostRuntime) {
    assert!(rt; CASES.lines().count() >= 200);
    for line in CASES.lines() {
        let mut parts = line.split(' ');
        let (op, rc) = named(parts.next().unwrap_or(""));
        let op = op.expect(&rt, "an operation");
        let s = hexadecimal(&rt, parts.next());
        let b = hexadecimal(&rt, parts.next());
        let old = hexadecimal(&rt, parts.next());
        let x = operand(&rt, parts.next());
        let y = (operand(&rt, parts.next()) & 0xff) as u8;
        let z = (operand(&rt, parts.next()) & 0xff) as u8;
        let xer = register(&rt, parts.next());
        let value = hexadecimal(&rt, parts.next());
        let after = register(&rt, parts.next());
        let field = parts.next().unwrap_or("");
        let cr0 = if field == "-" {
            None
        } else {
            Some((hexadecimal(&rt, Some(field)) & 0xff) as u8)
        };
        let insn = form(op, rc, x, y, z).expect(&rt, "operands that fit");
        let wanted = ArithOut {
            value,
            xer: after,
            cr0,
        };
        assert_eq!(rt; logic(&insn, s, b, old, xer), wanted, "{line}");
    }
}

/// Whether a line of the cases is of this operation.
fn has_a_case(text: &str) -> bool {
    for line in CASES.lines() {
        let first = line.split(' ').next().unwrap_or("");
        if first == text || first.trim_end_matches('.') == text {
            return true;
        }
    }
    false
}

#[test]
fn each_operation_has_a_case(rt: HostRuntime) {
    let mut count = 0u32;
    for i in 0..row_count() {
        if let Some(found) = row(i) {
            if form(found.op, false, 0, 0, 0).is_some() {
                assert!(rt; has_a_case(name(found.op)));
                count = count.wrapping_add(1);
            }
        }
    }
    assert_eq!(rt; count, 46);
}
