mod cases;

use super::*;
use cases::CASES;
use ppc_ops::{ArithOut, Insn, Layout, Op, Xer, layout, name, row, row_count};
use std::process::Abort;
use std::test::Fail;

/// The number of a text of hexadecimal digits.
fn hexadecimal(rt: &impl Abort, text: Option<&str>) -> u64 {
    u64::from_str_radix(text.unwrap_or(""), 16).expect(rt, "hexadecimal digits")
}

/// The operation with a name.
fn operation(named: &str) -> Option<Op> {
    for number in 0..row_count() {
        if let Some(row) = row(number) {
            if name(row.op) == named {
                return Some(row.op);
            }
        }
    }
    None
}

/// The exception register of five digits.
fn read_xer(digits: u64) -> Xer {
    Xer {
        so: digits / 0x1_0000 % 2 == 1,
        ov: digits / 0x1000 % 2 == 1,
        ca: digits / 0x100 % 2 == 1,
        ov32: digits / 0x10 % 2 == 1,
        ca32: digits % 2 == 1,
    }
}

/// The immediate of a number's low 16 bits.
fn immediate(value: u64) -> i16 {
    ((value % 0x1_0000) as u16).cast_signed()
}

/// What the instruction with an operation leaves, if it is arithmetic; `b` is also the immediate.
fn answer(op: Op, oe: bool, rc: bool, a: u64, b: u64, c: u64, xer: Xer) -> Option<ArithOut> {
    let (rt, ra, rb, third) = (1, 2, 0, 3);
    let si = immediate(b);
    let insn = match layout(op) {
        Layout::AddImm => Insn::AddImm { op, rt, ra, si },
        Layout::AddPc => Insn::AddPc { rt, d: si },
        Layout::Arith => Insn::Arith {
            op,
            rt,
            ra,
            rb,
            oe,
            rc,
        },
        Layout::MulHigh => Insn::MulHigh { op, rt, ra, rb, rc },
        Layout::Modulo => Insn::Modulo { op, rt, ra, rb },
        Layout::MulAdd => Insn::MulAdd {
            op,
            rt,
            ra,
            rb,
            third,
        },
        _ => return None,
    };
    Some(arith(&insn, a, b, c, xer))
}

#[test]
fn each_operation_leaves_what_the_architecture_says(rt: HostRuntime) -> Result<(), Fail> {
    for line in CASES.lines() {
        let mut parts = line.splitn(8, ' ');
        let named = parts.next().unwrap_or("");
        let oe = hexadecimal(&rt, parts.next()) == 1;
        let rc = hexadecimal(&rt, parts.next()) == 1;
        let a = hexadecimal(&rt, parts.next());
        let b = hexadecimal(&rt, parts.next());
        let c = hexadecimal(&rt, parts.next());
        let xer = read_xer(hexadecimal(&rt, parts.next()));
        let op = operation(named).expect(&rt, "an operation");
        let left = answer(op, oe, rc, a, b, c, xer).expect(&rt, "an arithmetic operation");
        let after = left.xer;
        let flags = [after.so, after.ov, after.ca, after.ov32, after.ca32].map(u8::from);
        let [so, ov, ca, ov32, ca32] = flags;
        let text = match left.cr0 {
            Some(field) => format!(in rt.alloc();
                "{:016x} {so}{ov}{ca}{ov32}{ca32} {field:x}",
                left.value
            )?,
            None => format!(in rt.alloc(); "{:016x} {so}{ov}{ca}{ov32}{ca32} -", left.value)?,
        };
        assert_eq!(rt; text.as_str(), parts.next().unwrap_or(""), "{line}");
    }
    Ok(())
}
