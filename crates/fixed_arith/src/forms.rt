//! Arithmetic instructions.

ghost use Rattle.std.specs.Prelude.{◌≡◌, ◌≤◌};
ghost use Rattle.ppc_ops.specs.Forms.{IsForm};
ghost use Rattle.ppc_ops.specs.Table.{layout_of};
ghost use Rattle.ppc_ops.specs.declared.insn.Layout.TheVariants as layout;
ghost use Rattle.fixed_arith.specs.Arith as arithmetic;

use crate::outcomes::{Computation, outcome, plain};
use crate::products::{
    high_doubleword, high_doubleword_unsigned, high_word, high_word_unsigned, immediate_product,
    low_doubleword, product, word_product,
};
use crate::quotients::{
    quotient, quotient_unsigned, remainder, remainder_unsigned, word_quotient,
    word_quotient_unsigned,
};
use crate::sums::{carrying_sum, sum};
use ppc_bits::{doubleword, low_word, signed_doubleword, signed_word, word};
use ppc_ops::{ArithOut, Insn, Op, Xer};

/// What an operation of a register and an immediate computes.
fn of_immediate(op: Op, a: u64, si: i16) -> Computation
    requires { layout_of op ≡ layout.AddImm }
    ensures { result ≡ arithmetic.immediate_of op a si }
{
    let right = doubleword(i128::from(si));
    match op {
        Op::Addi => sum(a, right, 0),
        Op::Addis => sum(a, doubleword(i128::from(si) * 0x1_0000), 0),
        Op::Addic | Op::AddicDot => carrying_sum(a, right, 0),
        Op::Subfic => carrying_sum(!a, right, 1),
        Op::Mulli => immediate_product(a, si),
        _ => unreachable!(),
    }
}

/// What an operation of two registers and the carry computes.
fn of_registers(op: Op, a: u64, b: u64, carry: u64) -> Computation
    requires layout { layout_of op ≡ layout.Arith }
    requires carry { carry ≤ 1 }
    ensures { result ≡ arithmetic.registers_of op a b carry }
{
    match op {
        Op::Add => sum(a, b, 0),
        Op::Subf => sum(!a, b, 1),
        Op::Addc => carrying_sum(a, b, 0),
        Op::Subfc => carrying_sum(!a, b, 1),
        Op::Adde => carrying_sum(a, b, carry),
        Op::Subfe => carrying_sum(!a, b, carry),
        Op::Addme => carrying_sum(a, u64::MAX, carry),
        Op::Subfme => carrying_sum(!a, u64::MAX, carry),
        Op::Addze => carrying_sum(a, 0, carry),
        Op::Subfze => carrying_sum(!a, 0, carry),
        Op::Neg => sum(!a, 0, 1),
        Op::Mullw => word_product(a, b),
        Op::Mulld => product(a, b),
        Op::Divw => word_quotient(signed_word(a), signed_word(b)),
        Op::Divwu => word_quotient_unsigned(u64::from(low_word(a)), low_word(b)),
        Op::Divd => quotient(signed_doubleword(a), signed_doubleword(b)),
        Op::Divdu => quotient_unsigned(u128::from(a), b),
        Op::Divwe => word_quotient(signed_word(a) << 32, signed_word(b)),
        Op::Divweu => word_quotient_unsigned(u64::from(low_word(a)) << 32, low_word(b)),
        Op::Divde => quotient(signed_doubleword(a) << 64, signed_doubleword(b)),
        Op::Divdeu => quotient_unsigned(u128::from(a) << 64, b),
        _ => unreachable!(),
    }
}

/// The high half of the product of two registers.
fn high_of(op: Op, a: u64, b: u64) -> u64
    requires { layout_of op ≡ layout.MulHigh }
    ensures { result ≡ arithmetic.high_of op a b }
{
    match op {
        Op::Mulhw => high_word(a, b),
        Op::Mulhwu => high_word_unsigned(a, b),
        Op::Mulhd => high_doubleword(a, b, 0),
        Op::Mulhdu => high_doubleword_unsigned(a, b, 0),
        _ => unreachable!(),
    }
}

/// The remainder of two registers.
fn remainder_of(op: Op, a: u64, b: u64) -> u64
    requires { layout_of op ≡ layout.Modulo }
    ensures { result ≡ arithmetic.remainder_of op a b }
{
    match op {
        Op::Modsw => word(remainder(i128::from(signed_word(a)), i128::from(signed_word(b)))),
        Op::Moduw => remainder_unsigned(u64::from(low_word(a)), u64::from(low_word(b))),
        Op::Modsd => doubleword(remainder(signed_doubleword(a), signed_doubleword(b))),
        Op::Modud => remainder_unsigned(a, b),
        _ => unreachable!(),
    }
}

/// Half of the sum of a product and a third number.
fn multiply_add_of(op: Op, a: u64, b: u64, c: u64) -> u64
    requires { layout_of op ≡ layout.MulAdd }
    ensures { result ≡ arithmetic.multiply_add_of op a b c }
{
    match op {
        Op::Maddhd => high_doubleword(a, b, c),
        Op::Maddhdu => high_doubleword_unsigned(a, b, c),
        Op::Maddld => low_doubleword(a, b, c),
        _ => unreachable!(),
    }
}

/// What an arithmetic instruction leaves. `a` is the value of RA: 0 for addi and addis whose RA is 0, and the next
/// instruction's address for addpcis. `b` is the value of RB, and `c` that of the third register.
#[tactic(auto, unfolding(crate::specs::Arith::arith_of))]
pub fn arith(insn: &Insn, a: u64, b: u64, c: u64, xer: Xer) -> ArithOut
    requires form { IsForm insn.now }
    requires arithmetic { arithmetic.IsArithmetic insn.now }
    ensures { result ≡ arithmetic.arith_of insn.now a b c xer }
{
    match *insn {
        Insn::AddImm { op, si, .. } => {
            outcome(false, op == Op::AddicDot, xer, of_immediate(op, a, si))
        }
        Insn::AddPc { d, .. } => {
            let right = doubleword(i128::from(d) * 0x1_0000);
            outcome(false, false, xer, sum(a, right, 0))
        }
        Insn::Arith { op, oe, rc, .. } => {
            outcome(oe, rc, xer, of_registers(op, a, b, u64::from(xer.ca)))
        }
        Insn::MulHigh { op, rc, .. } => outcome(false, rc, xer, plain(high_of(op, a, b))),
        Insn::Modulo { op, .. } => outcome(false, false, xer, plain(remainder_of(op, a, b))),
        Insn::MulAdd { op, .. } => outcome(false, false, xer, plain(multiply_add_of(op, a, b, c))),
        _ => unreachable!(),
    }
}
