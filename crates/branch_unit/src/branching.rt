//! Branches (Power ISA, Book I, 2.4).

ghost use Rattle.std.specs.Prelude.{◌≡◌, ◌<◌};
ghost use Rattle.ppc_bits.specs.Bits.{bit};
ghost use Rattle.ppc_ops.specs.Forms.{IsForm};
ghost use Rattle.ppc_ops.specs.Table.{layout_of};
ghost use Rattle.ppc_ops.specs.declared.insn.Layout.TheVariants as layouts;
ghost use Rattle.branch_unit.specs.Branch as branches;

use crate::fields::{asks, has_bit};
use ppc_bits::{aligned, next_address};
use ppc_ops::{Insn, Op};

/// What a branch leaves.
#[derive(Clone, Copy, Debug, PartialEq, Eq)]
pub struct BranchOut {
    /// The address of the next instruction.
    pub next: u64,
    /// The link register.
    pub lr: u64,
    /// The count register.
    pub ctr: u64,
}

/// The count register, which falls by 1 where BO says so.
fn count_after(bo: u8, ctr: u64) -> u64
    requires { bo < 32 }
    ensures { result ≡ branches.count_after bo ctr }
{
    if asks(bo, 2) {
        ctr
    } else {
        ctr.wrapping_sub(1)
    }
}

/// Whether the count register, after it fell, allows the branch.
fn is_count_right(bo: u8, count: u64) -> bool
    requires { bo < 32 }
    ensures { result ≡ branches.is_count_right bo count }
{
    asks(bo, 2) || asks(bo, 3) == (count == 0)
}

/// Whether a bit of the condition register allows the branch.
fn is_condition_right(bo: u8, bi: u8, cr: u32) -> bool
    requires bo { bo < 32 }
    requires bi { bi < 32 }
    ensures { result ≡ branches.is_condition_right bo (bit 32 cr bi) }
{
    asks(bo, 0) || has_bit(cr, bi) == asks(bo, 1)
}

/// Whether the branch is taken, by the count register after it fell and a bit of the condition register.
fn is_taken(bo: u8, bi: u8, cr: u32, count: u64) -> bool
    requires bo { bo < 32 }
    requires bi { bi < 32 }
    ensures { result ≡ branches.is_taken bo (bit 32 cr bi) count }
{
    is_count_right(bo, count) && is_condition_right(bo, bi, cr)
}

/// The address itself where `aa`, else the one so many bytes from this instruction.
fn place(aa: bool, to: i32, cia: u64) -> u64
    ensures { result ≡ branches.place aa to cia }
{
    let distance = i64::from(to).cast_unsigned();
    if aa {
        distance
    } else {
        cia.wrapping_add(distance)
    }
}

/// The register that has the target.
fn place_in(op: Op, lr: u64, ctr: u64, tar: u64) -> u64
    requires { layout_of op ≡ layouts.BranchReg }
    ensures { result ≡ branches.place_in op lr ctr tar }
{
    match op {
        Op::Bclr => lr,
        Op::Bcctr => ctr,
        Op::Bctar => tar,
        _ => unreachable!(),
    }
}

/// What a branch leaves, by whether it is taken, the target, and the count register.
fn branched(taken: bool, lk: bool, target: u64, cia: u64, lr: u64, count: u64) -> BranchOut
    ensures { result ≡ branches.branched taken lk target cia lr count }
{
    let next = if taken {
        aligned(target)
    } else {
        next_address(cia)
    };
    let lr = if lk { next_address(cia) } else { lr };
    BranchOut {
        next,
        lr,
        ctr: count,
    }
}

/// What a branch at the address `cia` leaves (Power ISA, Book I, 2.4). `cr`, `lr`, `ctr` and `tar` are the registers before
/// it. LR is the next address where `lk`, taken or not; targets have bits 62:63 cleared; CTR falls before it is tested.
#[tactic(auto, unfolding(crate::specs::Branch::branch_of))]
pub fn branch(insn: &Insn, cia: u64, cr: u32, lr: u64, ctr: u64, tar: u64) -> BranchOut
    requires form { IsForm insn.now }
    requires branch { branches.IsBranch insn.now }
    ensures { result ≡ branches.branch_of insn.now cia cr lr ctr tar }
{
    match *insn {
        Insn::Jump { li, aa, lk } => branched(true, lk, place(aa, li, cia), cia, lr, ctr),
        Insn::Branch { bo, bi, bd, aa, lk } => {
            let count = count_after(bo, ctr);
            let taken = is_taken(bo, bi, cr, count);
            branched(taken, lk, place(aa, bd, cia), cia, lr, count)
        }
        Insn::BranchReg { op, bo, bi, lk } => {
            let count = count_after(bo, ctr);
            let target = place_in(op, lr, ctr, tar);
            branched(is_taken(bo, bi, cr, count), lk, target, cia, lr, count)
        }
        _ => unreachable!(),
    }
}
