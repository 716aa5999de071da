// Written by tools/make_tables.py from docs/INSTRUCTIONS.md.
//! Instructions with their operands.

use crate::op::Op;

/// The layout of an operation's operands in a word (Power ISA, Book I, 1.6).
#[derive(Clone, Copy, Debug, PartialEq, Eq)]
pub enum Layout {
    /// Sums, differences and products of a register and an immediate.
    AddImm,
    /// The sum of the next instruction's address and the immediate `d`, shifted left by 16.
    AddPc,
    /// Sums, differences, products and quotients of registers; `oe` asks for the overflow bits, `rc` for CR0.
    /// A quotient is cut toward 0, and is 0 where there is none or it does not fit.
    Arith,
    /// High halves of products; `rc` asks for CR0.
    MulHigh,
    /// Remainders; a signed one has the sign of the dividend. A divisor of 0 gives 0.
    Modulo,
    /// Products to which the register `third` is added before one half is taken.
    MulAdd,
    /// Logical operations of a register and an unsigned immediate.
    LogicImm,
    /// Logical operations of two registers, and shifts of one by the number in the other; `rc` asks for CR0.
    Logic,
    /// Signed extensions of a register, and counts of its zeros; `rc` asks for CR0.
    Unary,
    /// Counts of ones and parities of a register.
    Count,
    /// Operations on the bytes of two registers: a comparison byte by byte, and a choice of bits.
    Bytes,
    /// Shifts by the immediate `sh`; `rc` asks for CR0.
    ShiftImm,
    /// Rotations of a low word, which then stands in both words, under a mask that is 1 from bit `mb` + 32
    /// round to bit `me` + 32. `by` is the distance, for rlwnm the register that has it; `rc` asks for CR0.
    RotWord,
    /// Rotations of a doubleword under a mask; `edge` is the first bit of the mask, for rldicr and rldcr the
    /// last. `by` is the distance, for rldcl and rldcr the register that has it; `rc` asks for CR0.
    RotDouble,
    /// The choice of one of two registers by the bit of CR with the number `bit`.
    Select,
    /// Comparisons of a register with the immediate `value`; `wide` asks for the doubleword, else the low
    /// word is compared.
    CmpImm,
    /// Comparisons of two registers; `wide` asks for doublewords, else the low words are compared.
    Cmp,
    /// Comparisons of a register's lowest byte with bytes of another; `two` asks for a second range, from RB
    /// 40:47 to RB 32:39.
    CmpByte,
    /// The result of a comparison, in CR field `bfa`, as the number -1, 1 or 0.
    SetB,
    /// Traps by a register and an immediate; the bits of `to` ask for less and greater signed, equal, less
    /// and greater unsigned.
    TrapImm,
    /// Traps by two registers; the bits of `to` ask for less and greater signed, equal, less and greater
    /// unsigned.
    Trap,
    /// The branch without condition; `aa` makes `li` the address itself, `lk` puts the next address into LR.
    Jump,
    /// The branch on CTR and CR bit `bi` as `bo` says, whose hint bits are kept; `aa` makes `bd` the address
    /// itself, `lk` puts the next address into LR.
    Branch,
    /// Branches to a register on CTR and CR bit `bi` as `bo` says, whose hint bits are kept; `lk` puts the
    /// next address into LR.
    BranchReg,
    /// Logical operations of the CR bits `ba` and `bb`; the result goes to bit `bt`.
    CrBit,
    /// The copy of CR field `bfa` to CR field `bf`.
    CrMove,
    /// The copy of the overflow and carry bits of XER to CR field `bf`.
    MoveXer,
    /// The copy of CR to a register.
    MfCr,
    /// The copy of one CR field to a register; bit i of `fxm` names field i.
    MfOneCr,
    /// The copy of a register to fields of CR; bit i of `fxm` names field i.
    MtCr,
    /// The copy of a register to one CR field; bit i of `fxm` names field i.
    MtOneCr,
    /// Loads and stores at a register plus the displacement `disp`; `rt` is the register that is loaded or
    /// stored.
    Access,
    /// Loads and stores at the sum of two registers; `rt` is the register that is loaded or stored.
    AccessX,
    /// Cache instructions on the aligned block of 128 bytes that has the address.
    Block,
    /// The read of the special register with the number `spr`.
    MfSpr,
    /// The write of the special register with the number `spr`.
    MtSpr,
    /// The read of the time base by its number `spr`, 268.
    MfTb,
    /// The read of MSR.
    MfMsr,
    /// Writes of MSR; `l` asks for EE and RI alone. Else, where RS has PR at 1, EE, IR and DR become 1 too.
    MtMsr,
    /// The memory barrier; `l` is 0 for sync, 1 for lwsync, 2 for ptesync.
    Sync,
    /// The barrier of input and output.
    Eieio,
    /// The barrier of invalidations that other threads take part in.
    TlbSync,
    /// Invalidations of kept translations; `ric` says of which kinds, `prs` is true for those of processes,
    /// `r` for radix trees.
    Inval,
    /// Messages to threads; `rb` is the register that has the message.
    Message,
    /// The barrier of fetches.
    Isync,
    /// The return from an interrupt by SRR0 and SRR1.
    Rfid,
    /// The return from an interrupt by HSRR0 and HSRR1.
    Hrfid,
    /// The system call; `lev` is 1 for one to the hypervisor, else 0.
    Sc,
}

/// An instruction with its operands. A field is named as the Power ISA names it, in lower case.
#[derive(Clone, Copy, Debug, PartialEq, Eq)]
pub enum Insn {
    /// Sums, differences and products of a register and an immediate.
    AddImm {
        op: Op,
        rt: u8,
        ra: u8,
        si: i16,
    },
    /// The sum of the next instruction's address and the immediate `d`, shifted left by 16.
    AddPc {
        rt: u8,
        d: i16,
    },
    /// Sums, differences, products and quotients of registers; `oe` asks for the overflow bits, `rc` for CR0.
    /// A quotient is cut toward 0, and is 0 where there is none or it does not fit.
    Arith {
        op: Op,
        rt: u8,
        ra: u8,
        rb: u8,
        oe: bool,
        rc: bool,
    },
    /// High halves of products; `rc` asks for CR0.
    MulHigh {
        op: Op,
        rt: u8,
        ra: u8,
        rb: u8,
        rc: bool,
    },
    /// Remainders; a signed one has the sign of the dividend. A divisor of 0 gives 0.
    Modulo {
        op: Op,
        rt: u8,
        ra: u8,
        rb: u8,
    },
    /// Products to which the register `third` is added before one half is taken.
    MulAdd {
        op: Op,
        rt: u8,
        ra: u8,
        rb: u8,
        third: u8,
    },
    /// Logical operations of a register and an unsigned immediate.
    LogicImm {
        op: Op,
        ra: u8,
        rs: u8,
        ui: u16,
    },
    /// Logical operations of two registers, and shifts of one by the number in the other; `rc` asks for CR0.
    Logic {
        op: Op,
        ra: u8,
        rs: u8,
        rb: u8,
        rc: bool,
    },
    /// Signed extensions of a register, and counts of its zeros; `rc` asks for CR0.
    Unary {
        op: Op,
        ra: u8,
        rs: u8,
        rc: bool,
    },
    /// Counts of ones and parities of a register.
    Count {
        op: Op,
        ra: u8,
        rs: u8,
    },
    /// Operations on the bytes of two registers: a comparison byte by byte, and a choice of bits.
    Bytes {
        op: Op,
        ra: u8,
        rs: u8,
        rb: u8,
    },
    /// Shifts by the immediate `sh`; `rc` asks for CR0.
    ShiftImm {
        op: Op,
        ra: u8,
        rs: u8,
        sh: u8,
        rc: bool,
    },
    /// Rotations of a low word, which then stands in both words, under a mask that is 1 from bit `mb` + 32
    /// round to bit `me` + 32. `by` is the distance, for rlwnm the register that has it; `rc` asks for CR0.
    RotWord {
        op: Op,
        ra: u8,
        rs: u8,
        by: u8,
        mb: u8,
        me: u8,
        rc: bool,
    },
    /// Rotations of a doubleword under a mask; `edge` is the first bit of the mask, for rldicr and rldcr the
    /// last. `by` is the distance, for rldcl and rldcr the register that has it; `rc` asks for CR0.
    RotDouble {
        op: Op,
        ra: u8,
        rs: u8,
        by: u8,
        edge: u8,
        rc: bool,
    },
    /// The choice of one of two registers by the bit of CR with the number `bit`.
    Select {
        rt: u8,
        ra: u8,
        rb: u8,
        bit: u8,
    },
    /// Comparisons of a register with the immediate `value`; `wide` asks for the doubleword, else the low
    /// word is compared.
    CmpImm {
        op: Op,
        bf: u8,
        wide: bool,
        ra: u8,
        value: i32,
    },
    /// Comparisons of two registers; `wide` asks for doublewords, else the low words are compared.
    Cmp {
        op: Op,
        bf: u8,
        wide: bool,
        ra: u8,
        rb: u8,
    },
    /// Comparisons of a register's lowest byte with bytes of another; `two` asks for a second range, from RB
    /// 40:47 to RB 32:39.
    CmpByte {
        op: Op,
        bf: u8,
        two: bool,
        ra: u8,
        rb: u8,
    },
    /// The result of a comparison, in CR field `bfa`, as the number -1, 1 or 0.
    SetB {
        rt: u8,
        bfa: u8,
    },
    /// Traps by a register and an immediate; the bits of `to` ask for less and greater signed, equal, less
    /// and greater unsigned.
    TrapImm {
        op: Op,
        to: u8,
        ra: u8,
        si: i16,
    },
    /// Traps by two registers; the bits of `to` ask for less and greater signed, equal, less and greater
    /// unsigned.
    Trap {
        op: Op,
        to: u8,
        ra: u8,
        rb: u8,
    },
    /// The branch without condition; `aa` makes `li` the address itself, `lk` puts the next address into LR.
    Jump {
        li: i32,
        aa: bool,
        lk: bool,
    },
    /// The branch on CTR and CR bit `bi` as `bo` says, whose hint bits are kept; `aa` makes `bd` the address
    /// itself, `lk` puts the next address into LR.
    Branch {
        bo: u8,
        bi: u8,
        bd: i32,
        aa: bool,
        lk: bool,
    },
    /// Branches to a register on CTR and CR bit `bi` as `bo` says, whose hint bits are kept; `lk` puts the
    /// next address into LR.
    BranchReg {
        op: Op,
        bo: u8,
        bi: u8,
        lk: bool,
    },
    /// Logical operations of the CR bits `ba` and `bb`; the result goes to bit `bt`.
    CrBit {
        op: Op,
        bt: u8,
        ba: u8,
        bb: u8,
    },
    /// The copy of CR field `bfa` to CR field `bf`.
    CrMove {
        bf: u8,
        bfa: u8,
    },
    /// The copy of the overflow and carry bits of XER to CR field `bf`.
    MoveXer {
        bf: u8,
    },
    /// The copy of CR to a register.
    MfCr {
        rt: u8,
    },
    /// The copy of one CR field to a register; bit i of `fxm` names field i.
    MfOneCr {
        rt: u8,
        fxm: u8,
    },
    /// The copy of a register to fields of CR; bit i of `fxm` names field i.
    MtCr {
        rs: u8,
        fxm: u8,
    },
    /// The copy of a register to one CR field; bit i of `fxm` names field i.
    MtOneCr {
        rs: u8,
        fxm: u8,
    },
    /// Loads and stores at a register plus the displacement `disp`; `rt` is the register that is loaded or
    /// stored.
    Access {
        op: Op,
        rt: u8,
        ra: u8,
        disp: i16,
    },
    /// Loads and stores at the sum of two registers; `rt` is the register that is loaded or stored.
    AccessX {
        op: Op,
        rt: u8,
        ra: u8,
        rb: u8,
    },
    /// Cache instructions on the aligned block of 128 bytes that has the address.
    Block {
        op: Op,
        ra: u8,
        rb: u8,
    },
    /// The read of the special register with the number `spr`.
    MfSpr {
        rt: u8,
        spr: u16,
    },
    /// The write of the special register with the number `spr`.
    MtSpr {
        rs: u8,
        spr: u16,
    },
    /// The read of the time base by its number `spr`, 268.
    MfTb {
        rt: u8,
        spr: u16,
    },
    /// The read of MSR.
    MfMsr {
        rt: u8,
    },
    /// Writes of MSR; `l` asks for EE and RI alone. Else, where RS has PR at 1, EE, IR and DR become 1 too.
    MtMsr {
        op: Op,
        rs: u8,
        l: bool,
    },
    /// The memory barrier; `l` is 0 for sync, 1 for lwsync, 2 for ptesync.
    Sync {
        l: u8,
    },
    /// The barrier of input and output.
    Eieio,
    /// The barrier of invalidations that other threads take part in.
    TlbSync,
    /// Invalidations of kept translations; `ric` says of which kinds, `prs` is true for those of processes,
    /// `r` for radix trees.
    Inval {
        op: Op,
        rb: u8,
        rs: u8,
        ric: u8,
        prs: bool,
        r: bool,
    },
    /// Messages to threads; `rb` is the register that has the message.
    Message {
        op: Op,
        rb: u8,
    },
    /// The barrier of fetches.
    Isync,
    /// The return from an interrupt by SRR0 and SRR1.
    Rfid,
    /// The return from an interrupt by HSRR0 and HSRR1.
    Hrfid,
    /// The system call; `lev` is 1 for one to the hypervisor, else 0.
    Sc {
        lev: u8,
    },
}
