//! What logic instructions leave.

ghost use Rattle.std.specs.Prelude.{◌≡◌, ◌<◌};
ghost use Rattle.ppc_ops.specs.declared.insn.Layout.TheVariants as layouts;
ghost use Rattle.ppc_ops.specs.Forms.{IsForm};
ghost use Rattle.ppc_ops.specs.Table.{layout_of};
ghost use Rattle.fixed_logic.specs.Logic.{IsLogic, outcome, signed_outcome, immediate_of, registers_of, unary_of, count_of, bytes_of, shift_of, word_turn_of, turn_of, logic_of};

use crate::bitwise::{and, andc, eqv, nand, nor, or, orc, xor};
use crate::bytes::{bpermd, cmpb};
use crate::counts::{cntlzd, cntlzw, cnttzd, cnttzw, popcntb, popcntd, popcntw, prtyd, prtyw};
use crate::rotates::{
    insert, mask_before, turn_by_register, turn_word, turn_word_by_register, word_mask,
};
use crate::shifts::{
    distance, extend_byte, extend_halfword, extend_word, loses_one, shift_extended_word,
    shift_left, shift_right, shift_signed, shift_signed_word, shift_word_left, shift_word_right,
    word_distance, word_loses_one,
};
use ppc_bits::{mask, rotl64};
use ppc_ops::{ArithOut, Insn, Op, Xer, record_of};

/// A value, the exception register, and the first field of the condition register where it is recorded.
fn leave(rc: bool, value: u64, xer: Xer) -> ArithOut
    ensures { result ≡ outcome rc value xer }
{
    let cr0 = if rc {
        Some(record_of(value, xer.so))
    } else {
        None
    };
    ArithOut { value, xer, cr0 }
}

/// A signed word shifted right.
fn leave_signed_word(s: u64, n: u8, rc: bool, xer: Xer) -> ArithOut
    requires { n < 64 }
    ensures { result ≡ signed_outcome 32 s n rc xer }
{
    let lost = word_loses_one(s, n);
    let carried = Xer {
        ca: lost,
        ca32: lost,
        ..xer
    };
    leave(rc, shift_signed_word(s, n), carried)
}

/// A signed doubleword shifted right.
fn leave_signed(s: u64, n: u8, rc: bool, xer: Xer) -> ArithOut
    requires { n < 128 }
    ensures { result ≡ signed_outcome 64 s n rc xer }
{
    let lost = loses_one(s, n);
    let carried = Xer {
        ca: lost,
        ca32: lost,
        ..xer
    };
    leave(rc, shift_signed(s, n), carried)
}

fn immediate(op: Op, s: u64, ui: u16, xer: Xer) -> ArithOut
    requires { layout_of op ≡ layouts.LogicImm }
    ensures { result ≡ immediate_of op s ui xer }
{
    let low = u64::from(ui);
    let high = low << 16;
    match op {
        Op::Ori => leave(false, or(s, low), xer),
        Op::Oris => leave(false, or(s, high), xer),
        Op::Xori => leave(false, xor(s, low), xer),
        Op::Xoris => leave(false, xor(s, high), xer),
        Op::AndiDot => leave(true, and(s, low), xer),
        Op::AndisDot => leave(true, and(s, high), xer),
        _ => unreachable!(),
    }
}

fn registers(op: Op, s: u64, b: u64, rc: bool, xer: Xer) -> ArithOut
    requires { layout_of op ≡ layouts.Logic }
    ensures { result ≡ registers_of op s b rc xer }
{
    match op {
        Op::And => leave(rc, and(s, b), xer),
        Op::Or => leave(rc, or(s, b), xer),
        Op::Xor => leave(rc, xor(s, b), xer),
        Op::Nand => leave(rc, nand(s, b), xer),
        Op::Nor => leave(rc, nor(s, b), xer),
        Op::Eqv => leave(rc, eqv(s, b), xer),
        Op::Andc => leave(rc, andc(s, b), xer),
        Op::Orc => leave(rc, orc(s, b), xer),
        Op::Slw => leave(rc, shift_word_left(s, word_distance(b)), xer),
        Op::Srw => leave(rc, shift_word_right(s, word_distance(b)), xer),
        Op::Sraw => leave_signed_word(s, word_distance(b), rc, xer),
        Op::Sld => leave(rc, shift_left(s, distance(b)), xer),
        Op::Srd => leave(rc, shift_right(s, distance(b)), xer),
        Op::Srad => leave_signed(s, distance(b), rc, xer),
        _ => unreachable!(),
    }
}

fn unary(op: Op, s: u64, rc: bool, xer: Xer) -> ArithOut
    requires { layout_of op ≡ layouts.Unary }
    ensures { result ≡ unary_of op s rc xer }
{
    match op {
        Op::Extsb => leave(rc, extend_byte(s), xer),
        Op::Extsh => leave(rc, extend_halfword(s), xer),
        Op::Extsw => leave(rc, extend_word(s), xer),
        Op::Cntlzw => leave(rc, cntlzw(s), xer),
        Op::Cntlzd => leave(rc, cntlzd(s), xer),
        Op::Cnttzw => leave(rc, cnttzw(s), xer),
        Op::Cnttzd => leave(rc, cnttzd(s), xer),
        _ => unreachable!(),
    }
}

fn count(op: Op, s: u64, xer: Xer) -> ArithOut
    requires { layout_of op ≡ layouts.Count }
    ensures { result ≡ count_of op s xer }
{
    match op {
        Op::Popcntb => leave(false, popcntb(s), xer),
        Op::Popcntw => leave(false, popcntw(s), xer),
        Op::Popcntd => leave(false, popcntd(s), xer),
        Op::Prtyw => leave(false, prtyw(s), xer),
        Op::Prtyd => leave(false, prtyd(s), xer),
        _ => unreachable!(),
    }
}

fn bytes(op: Op, s: u64, b: u64, xer: Xer) -> ArithOut
    requires { layout_of op ≡ layouts.Bytes }
    ensures { result ≡ bytes_of op s b xer }
{
    match op {
        Op::Cmpb => leave(false, cmpb(s, b), xer),
        Op::Bpermd => leave(false, bpermd(s, b), xer),
        _ => unreachable!(),
    }
}

fn shift(op: Op, s: u64, sh: u8, rc: bool, xer: Xer) -> ArithOut
    requires layout { layout_of op ≡ layouts.ShiftImm }
    requires distance { sh < 64 }
    ensures { result ≡ shift_of op s sh rc xer }
{
    match op {
        Op::Srawi => leave_signed_word(s, sh, rc, xer),
        Op::Sradi => leave_signed(s, sh, rc, xer),
        Op::Extswsli => leave(rc, shift_extended_word(s, sh), xer),
        _ => unreachable!(),
    }
}

/// The distance and the mask of a rotation of words.
#[derive(Clone, Copy)]
struct WordTurn {
    by: u8,
    mb: u8,
    me: u8,
}

fn rotate_word(op: Op, s: u64, b: u64, old: u64, turn: WordTurn, rc: bool, xer: Xer) -> ArithOut
    requires layout { layout_of op ≡ layouts.RotWord }
    requires by { turn.by < 32 }
    requires mb { turn.mb < 32 }
    requires me { turn.me < 32 }
    ensures { result ≡ word_turn_of op s b old turn.by turn.mb turn.me rc xer }
{
    let m = word_mask(turn.mb, turn.me);
    match op {
        Op::Rlwimi => leave(rc, insert(turn_word(s, turn.by), m, old), xer),
        Op::Rlwinm => leave(rc, insert(turn_word(s, turn.by), m, 0), xer),
        Op::Rlwnm => leave(rc, insert(turn_word_by_register(s, b), m, 0), xer),
        _ => unreachable!(),
    }
}

fn rotate(op: Op, s: u64, b: u64, old: u64, by: u8, edge: u8, rc: bool, xer: Xer) -> ArithOut
    requires layout { layout_of op ≡ layouts.RotDouble }
    requires by { by < 64 }
    requires edge { edge < 64 }
    ensures { result ≡ turn_of op s b old by edge rc xer }
{
    match op {
        Op::Rldicl => leave(rc, insert(rotl64(s, by), mask(edge, 63), 0), xer),
        Op::Rldicr => leave(rc, insert(rotl64(s, by), mask(0, edge), 0), xer),
        Op::Rldic => leave(rc, insert(rotl64(s, by), mask_before(edge, by), 0), xer),
        Op::Rldimi => leave(rc, insert(rotl64(s, by), mask_before(edge, by), old), xer),
        Op::Rldcl => leave(rc, insert(turn_by_register(s, b), mask(edge, 63), 0), xer),
        Op::Rldcr => leave(rc, insert(turn_by_register(s, b), mask(0, edge), 0), xer),
        _ => unreachable!(),
    }
}

/// What a logic instruction leaves (Power ISA, Book I, 3.3.13 and 3.3.14). `s` is the value of RS, `b` that of RB,
/// `old` that of RA before, into which `rlwimi` and `rldimi` insert.
#[tactic(auto, unfolding(crate::specs::Logic::logic_of))]
pub fn logic(insn: &Insn, s: u64, b: u64, old: u64, xer: Xer) -> ArithOut
    requires form { IsForm insn.now }
    requires logic { IsLogic insn.now }
    ensures { result ≡ logic_of insn.now s b old xer }
{
    match *insn {
        Insn::LogicImm { op, ui, .. } => immediate(op, s, ui, xer),
        Insn::Logic { op, rc, .. } => registers(op, s, b, rc, xer),
        Insn::Unary { op, rc, .. } => unary(op, s, rc, xer),
        Insn::Count { op, .. } => count(op, s, xer),
        Insn::Bytes { op, .. } => bytes(op, s, b, xer),
        Insn::ShiftImm { op, sh, rc, .. } => shift(op, s, sh, rc, xer),
        Insn::RotWord {
            op,
            by,
            mb,
            me,
            rc,
            ..
        } => rotate_word(op, s, b, old, WordTurn { by, mb, me }, rc, xer),
        Insn::RotDouble {
            op,
            by,
            edge,
            rc,
            ..
        } => rotate(op, s, b, old, by, edge, rc, xer),
        _ => unreachable!(),
    }
}
