//! Comparisons (Power ISA, Book I, 3.3.10).

ghost use Rattle.std.specs.Prelude.{◌≡◌, ◌<◌, FitsSigned};
ghost use Rattle.std.specs.Int.{w64};
ghost use Rattle.ppc_bits.specs.Bits.{field_of};
ghost use Rattle.ppc_ops.specs.Forms.{IsForm};
ghost use Rattle.ppc_ops.specs.Table.{layout_of};
ghost use Rattle.ppc_ops.specs.declared.insn.Layout.TheVariants as layouts;
ghost use Rattle.branch_unit.specs.Compare as comparing;

use ppc_bits::{field, low_word, signed_doubleword, signed_word};
use ppc_ops::{Insn, Op, Xer};

/// The signed number of a doubleword, or of its low word.
fn signed_number(wide: bool, v: u64) -> i128
    ensures { result ≡ comparing.signed_number wide v }
{
    if wide {
        signed_doubleword(v)
    } else {
        i128::from(signed_word(v))
    }
}

/// The unsigned number of a doubleword, or of its low word.
fn unsigned_number(wide: bool, v: u64) -> i128
    ensures { result ≡ comparing.unsigned_number wide v }
{
    if wide {
        i128::from(v)
    } else {
        i128::from(low_word(v))
    }
}

/// The field of two numbers: less, greater or equal, and then the summary overflow.
fn order_of(x: i128, y: i128, so: bool) -> u8
    ensures value { result ≡ comparing.order_of x y so }
    ensures bound { result < 16 }
{
    let order = if x < y {
        8
    } else if x == y {
        2
    } else {
        4
    };
    order + u8::from(so)
}

fn immediate_order(op: Op, wide: bool, a: u64, value: i32, so: bool) -> u8
    requires { layout_of op ≡ layouts.CmpImm }
    ensures value { result ≡ comparing.immediate_order op wide a value so }
    ensures bound { result < 16 }
{
    match op {
        Op::Cmpi => order_of(signed_number(wide, a), i128::from(value), so),
        Op::Cmpli => order_of(unsigned_number(wide, a), i128::from(value), so),
        _ => unreachable!(),
    }
}

fn registers_order(op: Op, wide: bool, a: u64, b: u64, so: bool) -> u8
    requires { layout_of op ≡ layouts.Cmp }
    ensures value { result ≡ comparing.registers_order op wide a b so }
    ensures bound { result < 16 }
{
    match op {
        Op::Cmp => order_of(signed_number(wide, a), signed_number(wide, b), so),
        Op::Cmpl => order_of(unsigned_number(wide, a), unsigned_number(wide, b), so),
        _ => unreachable!(),
    }
}

/// Whether a byte lies in the range of the lowest two bytes, or with `two` in that of the next two.
fn is_in_ranges(two: bool, v: u64, b: u64) -> bool
    ensures { result ≡ comparing.is_in_ranges two v b }
{
    let first = field(b, 64, 56, 63) <= v && v <= field(b, 64, 48, 55);
    let second = field(b, 64, 40, 47) <= v && v <= field(b, 64, 32, 39);
    first || two && second
}

/// Whether a byte is one of the eight of a doubleword.
fn is_byte_of(v: u64, b: u64) -> bool
    ensures { result ≡ comparing.is_byte_of v b }
{
    v == field(b, 64, 0, 7)
        || v == field(b, 64, 8, 15)
        || v == field(b, 64, 16, 23)
        || v == field(b, 64, 24, 31)
        || v == field(b, 64, 32, 39)
        || v == field(b, 64, 40, 47)
        || v == field(b, 64, 48, 55)
        || v == field(b, 64, 56, 63)
}

fn bytes_order(op: Op, two: bool, a: u64, b: u64) -> u8
    requires { layout_of op ≡ layouts.CmpByte }
    ensures value { result ≡ comparing.bytes_order op two a b }
    ensures bound { result < 16 }
{
    let v = field(a, 64, 56, 63);
    match op {
        Op::Cmprb => u8::from(is_in_ranges(two, v, b)) * 4,
        Op::Cmpeqb => u8::from(is_byte_of(v, b)) * 4,
        _ => unreachable!(),
    }
}

/// The condition field that a comparison writes: less 8, greater 4, equal 2 and summary overflow 1; for bytes 4 where
/// the byte is found, else 0 (Power ISA, Book I, 3.3.10). `a` is the value of RA, `b` that of RB, which a comparison with
/// an immediate does not read.
#[tactic(auto, unfolding(crate::specs::Compare::compare_of))]
pub fn compare(insn: &Insn, a: u64, b: u64, xer: Xer) -> u8
    requires form { IsForm insn.now }
    requires compare { comparing.IsCompare insn.now }
    ensures value { result ≡ comparing.compare_of insn.now a b xer }
    ensures bound { result < 16 }
{
    match *insn {
        Insn::CmpImm {
            op,
            wide,
            value,
            ..
        } => immediate_order(op, wide, a, value, xer.so),
        Insn::Cmp { op, wide, .. } => registers_order(op, wide, a, b, xer.so),
        Insn::CmpByte { op, two, .. } => bytes_order(op, two, a, b),
        _ => unreachable!(),
    }
}
