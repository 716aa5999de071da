//! Traps (Power ISA, Book I, 3.3.11).

ghost use Rattle.std.specs.Prelude.{◌≡◌, ◌<◌};
ghost use Rattle.ppc_ops.specs.Forms.{IsForm};
ghost use Rattle.ppc_ops.specs.Table.{layout_of};
ghost use Rattle.ppc_ops.specs.declared.insn.Layout.TheVariants as layouts;
ghost use Rattle.branch_unit.specs.Trap as trapping;

use crate::fields::asks;
use ppc_bits::{doubleword, low_word, signed_doubleword, signed_word};
use ppc_ops::{Insn, Op};

fn has_signed_order(to: u8, x: i128, y: i128) -> bool
    requires { to < 32 }
    ensures { result ≡ trapping.has_signed_order to x y }
{
    asks(to, 0) && x < y || asks(to, 1) && y < x
}

fn has_unsigned_order(to: u8, a: u64, b: u64) -> bool
    requires { to < 32 }
    ensures { result ≡ trapping.has_unsigned_order to a b }
{
    asks(to, 3) && a < b || asks(to, 4) && b < a
}

/// Whether the doublewords have an order that TO asks for.
fn doublewords_trap(to: u8, a: u64, b: u64) -> bool
    requires { to < 32 }
    ensures { result ≡ trapping.doublewords_trap to a b }
{
    let signed = has_signed_order(to, signed_doubleword(a), signed_doubleword(b));
    signed || asks(to, 2) && a == b || has_unsigned_order(to, a, b)
}

/// Whether the low words have an order that TO asks for.
fn words_trap(to: u8, a: u64, b: u64) -> bool
    requires { to < 32 }
    ensures { result ≡ trapping.words_trap to a b }
{
    let x = u64::from(low_word(a));
    let y = u64::from(low_word(b));
    let signed = has_signed_order(to, i128::from(signed_word(a)), i128::from(signed_word(b)));
    signed || asks(to, 2) && x == y || has_unsigned_order(to, x, y)
}

fn immediate_traps(op: Op, to: u8, a: u64, si: i16) -> bool
    requires layout { layout_of op ≡ layouts.TrapImm }
    requires to { to < 32 }
    ensures { result ≡ trapping.immediate_traps op to a si }
{
    match op {
        Op::Twi => words_trap(to, a, doubleword(i128::from(si))),
        Op::Tdi => doublewords_trap(to, a, doubleword(i128::from(si))),
        _ => unreachable!(),
    }
}

fn registers_trap(op: Op, to: u8, a: u64, b: u64) -> bool
    requires layout { layout_of op ≡ layouts.Trap }
    requires to { to < 32 }
    ensures { result ≡ trapping.registers_trap op to a b }
{
    match op {
        Op::Tw => words_trap(to, a, b),
        Op::Td => doublewords_trap(to, a, b),
        _ => unreachable!(),
    }
}

/// Whether a trap instruction traps (Power ISA, Book I, 3.3.11). `a` is the value of RA, `b` that of RB, which a trap by
/// an immediate does not read.
#[tactic(auto, unfolding(crate::specs::Trap::trap_of))]
pub fn trap(insn: &Insn, a: u64, b: u64) -> bool
    requires form { IsForm insn.now }
    requires trap { trapping.IsTrap insn.now }
    ensures { result ≡ trapping.trap_of insn.now a b }
{
    match *insn {
        Insn::TrapImm { op, to, si, .. } => immediate_traps(op, to, a, si),
        Insn::Trap { op, to, .. } => registers_trap(op, to, a, b),
        _ => unreachable!(),
    }
}
