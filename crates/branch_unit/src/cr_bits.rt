//! Instructions that write the condition register from itself or from the exception register (Power ISA, Book I, 2.5 and
//! 3.3.17).

ghost use Rattle.std.specs.Prelude.{◌≡◌, ◌<◌};
ghost use Rattle.ppc_bits.specs.Bits.{bit};
ghost use Rattle.ppc_ops.specs.Forms.{IsForm};
ghost use Rattle.ppc_ops.specs.Results.{one};
ghost use Rattle.ppc_ops.specs.Table.{layout_of};
ghost use Rattle.ppc_ops.specs.declared.insn.Layout.TheVariants as layouts;
ghost use Rattle.branch_unit.specs.CrLogic as logic;

use crate::fields::{cr_field, has_bit, with_field};
use crate::masks::{bit_mask, merge, repeated_bit};
use ppc_ops::{Insn, Op, Xer};

/// The bit that an operation makes of two.
fn bit_of(op: Op, x: bool, y: bool) -> bool
    requires { layout_of op ≡ layouts.CrBit }
    ensures { one result ≡ logic.bit_of op (one x) (one y) }
{
    match op {
        Op::Crand => x && y,
        Op::Cror => x || y,
        Op::Crxor => x != y,
        Op::Crnand => !(x && y),
        Op::Crnor => !(x || y),
        Op::Creqv => x == y,
        Op::Crandc => x && !y,
        Op::Crorc => x || !y,
        _ => unreachable!(),
    }
}

/// The condition register with one bit replaced.
fn with_bit(cr: u32, bt: u8, x: bool) -> u32
    requires { bt < 32 }
    ensures { result ≡ logic.with_bit cr bt (one x) }
{
    merge(bit_mask(bt), repeated_bit(x), cr)
}

/// OV, OV32, CA and CA32 as a field.
fn carry_field(xer: Xer) -> u8
    ensures value { result ≡ logic.carry_field xer }
    ensures bound { result < 16 }
{
    u8::from(xer.ov) * 8 + u8::from(xer.ov32) * 4 + u8::from(xer.ca) * 2 + u8::from(xer.ca32)
}

/// The condition register after an operation on two of its bits.
fn bit_logic(op: Op, bt: u8, ba: u8, bb: u8, cr: u32) -> u32
    requires layout { layout_of op ≡ layouts.CrBit }
    requires bt { bt < 32 }
    requires ba { ba < 32 }
    requires bb { bb < 32 }
    ensures { result ≡ logic.with_bit cr bt (logic.bit_of op (bit 32 cr ba) (bit 32 cr bb)) }
{
    with_bit(cr, bt, bit_of(op, has_bit(cr, ba), has_bit(cr, bb)))
}

/// What an instruction leaves of the condition register, where it is an operation on two bits, a move of a field, or the
/// move of the overflow and carry bits (Power ISA, Book I, 2.5 and 3.3.17).
#[tactic(auto, unfolding(crate::specs::CrLogic::cr_logic_of))]
pub fn cr_logic(insn: &Insn, cr: u32, xer: Xer) -> u32
    requires form { IsForm insn.now }
    requires cr_logic { logic.IsCrLogic insn.now }
    ensures { result ≡ logic.cr_logic_of insn.now cr xer }
{
    match *insn {
        Insn::CrBit { op, bt, ba, bb } => bit_logic(op, bt, ba, bb, cr),
        Insn::CrMove { bf, bfa } => with_field(cr, bf, cr_field(cr, bfa)),
        Insn::MoveXer { bf } => with_field(cr, bf, carry_field(xer)),
        _ => unreachable!(),
    }
}
