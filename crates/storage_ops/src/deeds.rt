//! What a form does to storage, and where.

ghost use Rattle.std.specs.Prelude.{◌≡◌, ◌<◌, true, pos};
ghost use Rattle.ppc_ops.specs.Forms.{IsForm};
ghost use Rattle.storage_ops.specs.Deeds as deeds;
ghost use Rattle.thread_regs.specs.Registers.{gpr};
ghost use Rattle.storage_ops.specs.AccessTable.{access_form};

use crate::access_table::access_form;
use crate::forms::AccessForm;
use journal_core::AccessKind;
use ppc_ops::{Insn, Op};
use thread_regs::Thread;

/// The size of a cache block.
const BLOCK_BYTES: u64 = 128;

/// What a form does to storage, at an effective address.
#[derive(Clone, Copy, Debug, PartialEq, Eq)]
pub enum Deed {
    /// It moves bytes between a register and storage.
    Moves {
        /// What is moved.
        form: AccessForm,
        /// The register that is loaded or stored.
        register: u8,
        /// RA.
        base: u8,
        /// The effective address.
        at: u64,
    },
    /// It sets a cache block, which begins here, to zero.
    Clears {
        /// The effective address.
        at: u64,
    },
    /// It looks for the byte here as a load does, and moves nothing.
    Touches {
        /// The effective address.
        at: u64,
    },
    /// It does nothing.
    Nothing,
}

/// The value of a register, or 0 for register 0.
pub fn gpr_or_zero(thread: &Thread, ra: u8) -> u64
    requires { ra < 32 }
    ensures { result ≡ deeds.gpr_or_zero thread.now ra }
{
    if ra == 0 { 0 } else { thread.gpr(ra) }
}

/// The value from which the effective address counts.
fn base_of(form: &AccessForm, thread: &Thread, ra: u8) -> u64
    requires { ra < 32 }
    ensures { result ≡ deeds.base_of form.now thread.now ra }
{
    if form.update {
        thread.gpr(ra)
    } else {
        gpr_or_zero(thread, ra)
    }
}

/// What an operation at a displacement does.
fn displaced(thread: &Thread, op: Op, register: u8, base: u8, displacement: i16) -> Deed
    requires register { register < 32 }
    requires base { base < 32 }
    ensures deed { result ≡ deeds.moves (access_form op) thread.now register base displacement }
    ensures whole { deeds.IsDeed result }
{
    match access_form(op) {
        None => Deed::Nothing,
        Some(form) => Deed::Moves {
            form,
            register,
            base,
            at: base_of(&form, thread, base).wrapping_add_signed(i64::from(displacement)),
        },
    }
}

/// What an operation at the sum of two registers does.
fn indexed(thread: &Thread, op: Op, register: u8, base: u8, index: u8) -> Deed
    requires register { register < 32 }
    requires base { base < 32 }
    requires index { index < 32 }
    ensures deed { result ≡ deeds.moves (access_form op) thread.now register base (pos (gpr thread.now index)) }
    ensures whole { deeds.IsDeed result }
{
    match access_form(op) {
        None => Deed::Nothing,
        Some(form) => Deed::Moves {
            form,
            register,
            base,
            at: base_of(&form, thread, base).wrapping_add(thread.gpr(index)),
        },
    }
}

/// What an operation of the cache block that has an address does.
fn block_deed(op: Op, at: u64) -> Deed
    ensures deed { result ≡ deeds.block_deed op at }
    ensures whole { deeds.IsDeed result }
{
    match op {
        Op::Dcbz => Deed::Clears {
            at: at - at % BLOCK_BYTES,
        },
        Op::Dcbf | Op::Dcbst | Op::Icbi => Deed::Touches { at },
        _ => Deed::Nothing,
    }
}

/// What a form does to storage.
#[tactic(auto, unfolding(crate::specs::Deeds::deed_of))]
pub fn deed_of(insn: &Insn, thread: &Thread) -> Deed
    requires { IsForm insn.now }
    ensures deed { result ≡ deeds.deed_of insn.now thread.now }
    ensures whole { deeds.IsDeed result }
{
    match *insn {
        Insn::Access { op, rt, ra, disp } => displaced(thread, op, rt, ra, disp),
        Insn::AccessX { op, rt, ra, rb } => indexed(thread, op, rt, ra, rb),
        Insn::Block { op, ra, rb } => {
            block_deed(op, gpr_or_zero(thread, ra).wrapping_add(thread.gpr(rb)))
        }
        _ => Deed::Nothing,
    }
}

/// The access of a deed.
pub fn kind_of(deed: &Deed) -> AccessKind
    ensures { result ≡ deeds.kind_in deed.now }
{
    match deed {
        Deed::Moves { form, .. } => {
            if form.store {
                AccessKind::Store
            } else {
                AccessKind::Load
            }
        }
        Deed::Clears { .. } => AccessKind::Store,
        Deed::Touches { .. } | Deed::Nothing => AccessKind::Load,
    }
}

/// Whether the form wants an address that its size divides, and this one is none.
pub fn is_misaligned(deed: &Deed) -> bool
    requires { deeds.IsDeed deed.now }
    ensures { result ≡ deeds.is_misaligned deed.now }
{
    match deed {
        Deed::Moves { form, at, .. } => form.inhibited && *at % u64::from(form.size) != 0,
        _ => false,
    }
}

/// The effective address of a deed, or 0 where it does nothing.
pub fn address_of(deed: &Deed) -> u64
    ensures { result ≡ deeds.address_in deed.now }
{
    match *deed {
        Deed::Moves { at, .. } | Deed::Clears { at } | Deed::Touches { at } => at,
        Deed::Nothing => 0,
    }
}
