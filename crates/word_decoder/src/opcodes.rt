// Written by tools/make_tables.py from docs/INSTRUCTIONS.md.
//! Branches on opcodes.

ghost use Rattle.std.specs.Prelude.{◌≡◌, ◌<◌, ◌^◌};
ghost use Rattle.word_decoder.specs.Find.{op_at};
ghost use Rattle.word_decoder.specs.Opcodes as branches;

use ppc_bits::field;
use ppc_ops::Op;

/// The operation of a primary opcode that has no extended one.
fn plain(key: u64) -> Option<Op>
    ensures { result ≡ branches.plain key }
{
    match key {
        2 => Some(Op::Tdi),
        3 => Some(Op::Twi),
        7 => Some(Op::Mulli),
        8 => Some(Op::Subfic),
        10 => Some(Op::Cmpli),
        11 => Some(Op::Cmpi),
        12 => Some(Op::Addic),
        13 => Some(Op::AddicDot),
        14 => Some(Op::Addi),
        15 => Some(Op::Addis),
        16 => Some(Op::Bc),
        18 => Some(Op::B),
        20 => Some(Op::Rlwimi),
        21 => Some(Op::Rlwinm),
        23 => Some(Op::Rlwnm),
        24 => Some(Op::Ori),
        25 => Some(Op::Oris),
        26 => Some(Op::Xori),
        27 => Some(Op::Xoris),
        28 => Some(Op::AndiDot),
        29 => Some(Op::AndisDot),
        32 => Some(Op::Lwz),
        33 => Some(Op::Lwzu),
        34 => Some(Op::Lbz),
        35 => Some(Op::Lbzu),
        36 => Some(Op::Stw),
        37 => Some(Op::Stwu),
        38 => Some(Op::Stb),
        39 => Some(Op::Stbu),
        40 => Some(Op::Lhz),
        41 => Some(Op::Lhzu),
        42 => Some(Op::Lha),
        43 => Some(Op::Lhau),
        44 => Some(Op::Sth),
        45 => Some(Op::Sthu),
        _ => None,
    }
}

/// The operation of primary opcode 4, by bits 26 to 31.
fn extended_4(key: u64) -> Option<Op>
    ensures { result ≡ branches.extended_4 key }
{
    match key {
        48 => Some(Op::Maddhd),
        49 => Some(Op::Maddhdu),
        51 => Some(Op::Maddld),
        _ => None,
    }
}

/// The operation of primary opcode 17, by bit 30.
fn extended_17(key: u64) -> Option<Op>
    ensures { result ≡ branches.extended_17 key }
{
    match key {
        1 => Some(Op::Sc),
        _ => None,
    }
}

/// The operation of primary opcode 19, by bits 21 to 30.
fn extended_19(key: u64) -> Option<Op>
    ensures { result ≡ branches.extended_19 key }
{
    match key {
        0 => Some(Op::Mcrf),
        2 => Some(Op::Addpcis),
        16 => Some(Op::Bclr),
        18 => Some(Op::Rfid),
        33 => Some(Op::Crnor),
        34 => Some(Op::Addpcis),
        66 => Some(Op::Addpcis),
        98 => Some(Op::Addpcis),
        129 => Some(Op::Crandc),
        130 => Some(Op::Addpcis),
        150 => Some(Op::Isync),
        162 => Some(Op::Addpcis),
        193 => Some(Op::Crxor),
        194 => Some(Op::Addpcis),
        225 => Some(Op::Crnand),
        226 => Some(Op::Addpcis),
        257 => Some(Op::Crand),
        258 => Some(Op::Addpcis),
        274 => Some(Op::Hrfid),
        289 => Some(Op::Creqv),
        290 => Some(Op::Addpcis),
        322 => Some(Op::Addpcis),
        354 => Some(Op::Addpcis),
        386 => Some(Op::Addpcis),
        417 => Some(Op::Crorc),
        418 => Some(Op::Addpcis),
        449 => Some(Op::Cror),
        450 => Some(Op::Addpcis),
        482 => Some(Op::Addpcis),
        514 => Some(Op::Addpcis),
        528 => Some(Op::Bcctr),
        546 => Some(Op::Addpcis),
        560 => Some(Op::Bctar),
        578 => Some(Op::Addpcis),
        610 => Some(Op::Addpcis),
        642 => Some(Op::Addpcis),
        674 => Some(Op::Addpcis),
        706 => Some(Op::Addpcis),
        738 => Some(Op::Addpcis),
        770 => Some(Op::Addpcis),
        802 => Some(Op::Addpcis),
        834 => Some(Op::Addpcis),
        866 => Some(Op::Addpcis),
        898 => Some(Op::Addpcis),
        930 => Some(Op::Addpcis),
        962 => Some(Op::Addpcis),
        994 => Some(Op::Addpcis),
        _ => None,
    }
}

/// The operation of primary opcode 30, by bits 27 to 30.
fn extended_30(key: u64) -> Option<Op>
    ensures { result ≡ branches.extended_30 key }
{
    match key {
        0 => Some(Op::Rldicl),
        1 => Some(Op::Rldicl),
        2 => Some(Op::Rldicr),
        3 => Some(Op::Rldicr),
        4 => Some(Op::Rldic),
        5 => Some(Op::Rldic),
        6 => Some(Op::Rldimi),
        7 => Some(Op::Rldimi),
        8 => Some(Op::Rldcl),
        9 => Some(Op::Rldcr),
        _ => None,
    }
}

/// The operation of primary opcode 58, by bits 30 to 31.
fn extended_58(key: u64) -> Option<Op>
    ensures { result ≡ branches.extended_58 key }
{
    match key {
        0 => Some(Op::Ld),
        1 => Some(Op::Ldu),
        2 => Some(Op::Lwa),
        _ => None,
    }
}

/// The operation of primary opcode 62, by bits 30 to 31.
fn extended_62(key: u64) -> Option<Op>
    ensures { result ≡ branches.extended_62 key }
{
    match key {
        0 => Some(Op::Std),
        1 => Some(Op::Stdu),
        _ => None,
    }
}

/// The operation of primary opcode 31 whose extended opcode ends in 0, by its upper half.
fn ending_0(key: u64) -> Option<Op>
    ensures { result ≡ branches.ending_0 key }
{
    match key {
        0 => Some(Op::Cmp),
        1 => Some(Op::Cmpl),
        4 => Some(Op::Setb),
        6 => Some(Op::Cmprb),
        7 => Some(Op::Cmpeqb),
        18 => Some(Op::Mcrxrx),
        _ => None,
    }
}

/// The operation of primary opcode 31 whose extended opcode ends in 4, by its upper half.
fn ending_4(key: u64) -> Option<Op>
    ensures { result ≡ branches.ending_4 key }
{
    match key {
        0 => Some(Op::Tw),
        2 => Some(Op::Td),
        _ => None,
    }
}

/// The operation of primary opcode 31 whose extended opcode ends in 8, by its upper half.
fn ending_8(key: u64) -> Option<Op>
    ensures { result ≡ branches.ending_8 key }
{
    match key {
        0 => Some(Op::Subfc),
        1 => Some(Op::Subf),
        3 => Some(Op::Neg),
        4 => Some(Op::Subfe),
        6 => Some(Op::Subfze),
        7 => Some(Op::Subfme),
        16 => Some(Op::Subfc),
        17 => Some(Op::Subf),
        19 => Some(Op::Neg),
        20 => Some(Op::Subfe),
        22 => Some(Op::Subfze),
        23 => Some(Op::Subfme),
        _ => None,
    }
}

/// The operation of primary opcode 31 whose extended opcode ends in 9, by its upper half.
fn ending_9(key: u64) -> Option<Op>
    ensures { result ≡ branches.ending_9 key }
{
    match key {
        0 => Some(Op::Mulhdu),
        2 => Some(Op::Mulhd),
        7 => Some(Op::Mulld),
        8 => Some(Op::Modud),
        12 => Some(Op::Divdeu),
        13 => Some(Op::Divde),
        14 => Some(Op::Divdu),
        15 => Some(Op::Divd),
        16 => Some(Op::Mulhdu),
        18 => Some(Op::Mulhd),
        23 => Some(Op::Mulld),
        24 => Some(Op::Modsd),
        28 => Some(Op::Divdeu),
        29 => Some(Op::Divde),
        30 => Some(Op::Divdu),
        31 => Some(Op::Divd),
        _ => None,
    }
}

/// The operation of primary opcode 31 whose extended opcode ends in 10, by its upper half.
fn ending_10(key: u64) -> Option<Op>
    ensures { result ≡ branches.ending_10 key }
{
    match key {
        0 => Some(Op::Addc),
        4 => Some(Op::Adde),
        6 => Some(Op::Addze),
        7 => Some(Op::Addme),
        8 => Some(Op::Add),
        16 => Some(Op::Addc),
        20 => Some(Op::Adde),
        22 => Some(Op::Addze),
        23 => Some(Op::Addme),
        24 => Some(Op::Add),
        _ => None,
    }
}

/// The operation of primary opcode 31 whose extended opcode ends in 11, by its upper half.
fn ending_11(key: u64) -> Option<Op>
    ensures { result ≡ branches.ending_11 key }
{
    match key {
        0 => Some(Op::Mulhwu),
        2 => Some(Op::Mulhw),
        7 => Some(Op::Mullw),
        8 => Some(Op::Moduw),
        12 => Some(Op::Divweu),
        13 => Some(Op::Divwe),
        14 => Some(Op::Divwu),
        15 => Some(Op::Divw),
        16 => Some(Op::Mulhwu),
        18 => Some(Op::Mulhw),
        23 => Some(Op::Mullw),
        24 => Some(Op::Modsw),
        28 => Some(Op::Divweu),
        29 => Some(Op::Divwe),
        30 => Some(Op::Divwu),
        31 => Some(Op::Divw),
        _ => None,
    }
}

/// The operation of primary opcode 31 whose extended opcode ends in 14, by its upper half.
fn ending_14(key: u64) -> Option<Op>
    ensures { result ≡ branches.ending_14 key }
{
    match key {
        6 => Some(Op::Msgsnd),
        7 => Some(Op::Msgclr),
        _ => None,
    }
}

/// The operation of primary opcode 31 whose extended opcode ends in 15, by its upper half.
fn ending_15(key: u64) -> Option<Op>
    ensures { result ≡ branches.ending_15 key }
{
    match key {
        0 => Some(Op::Isel),
        1 => Some(Op::Isel),
        2 => Some(Op::Isel),
        3 => Some(Op::Isel),
        4 => Some(Op::Isel),
        5 => Some(Op::Isel),
        6 => Some(Op::Isel),
        7 => Some(Op::Isel),
        8 => Some(Op::Isel),
        9 => Some(Op::Isel),
        10 => Some(Op::Isel),
        11 => Some(Op::Isel),
        12 => Some(Op::Isel),
        13 => Some(Op::Isel),
        14 => Some(Op::Isel),
        15 => Some(Op::Isel),
        16 => Some(Op::Isel),
        17 => Some(Op::Isel),
        18 => Some(Op::Isel),
        19 => Some(Op::Isel),
        20 => Some(Op::Isel),
        21 => Some(Op::Isel),
        22 => Some(Op::Isel),
        23 => Some(Op::Isel),
        24 => Some(Op::Isel),
        25 => Some(Op::Isel),
        26 => Some(Op::Isel),
        27 => Some(Op::Isel),
        28 => Some(Op::Isel),
        29 => Some(Op::Isel),
        30 => Some(Op::Isel),
        31 => Some(Op::Isel),
        _ => None,
    }
}

/// The operation of primary opcode 31 whose extended opcode ends in 16, by its upper half.
fn ending_16(key: u64) -> Option<Op>
    ensures { result ≡ branches.ending_16 key }
{
    match key {
        4 => Some(Op::Mtcrf),
        _ => None,
    }
}

/// The operation of primary opcode 31 whose extended opcode ends in 18, by its upper half.
fn ending_18(key: u64) -> Option<Op>
    ensures { result ≡ branches.ending_18 key }
{
    match key {
        4 => Some(Op::Mtmsr),
        5 => Some(Op::Mtmsrd),
        8 => Some(Op::Tlbiel),
        9 => Some(Op::Tlbie),
        _ => None,
    }
}

/// The operation of primary opcode 31 whose extended opcode ends in 19, by its upper half.
fn ending_19(key: u64) -> Option<Op>
    ensures { result ≡ branches.ending_19 key }
{
    match key {
        0 => Some(Op::Mfcr),
        2 => Some(Op::Mfmsr),
        10 => Some(Op::Mfspr),
        11 => Some(Op::Mftb),
        14 => Some(Op::Mtspr),
        _ => None,
    }
}

/// The operation of primary opcode 31 whose extended opcode ends in 20, by its upper half.
fn ending_20(key: u64) -> Option<Op>
    ensures { result ≡ branches.ending_20 key }
{
    match key {
        0 => Some(Op::Lwarx),
        1 => Some(Op::Lbarx),
        2 => Some(Op::Ldarx),
        3 => Some(Op::Lharx),
        16 => Some(Op::Ldbrx),
        20 => Some(Op::Stdbrx),
        _ => None,
    }
}

/// The operation of primary opcode 31 whose extended opcode ends in 21, by its upper half.
fn ending_21(key: u64) -> Option<Op>
    ensures { result ≡ branches.ending_21 key }
{
    match key {
        0 => Some(Op::Ldx),
        1 => Some(Op::Ldux),
        4 => Some(Op::Stdx),
        5 => Some(Op::Stdux),
        10 => Some(Op::Lwax),
        11 => Some(Op::Lwaux),
        24 => Some(Op::Lwzcix),
        25 => Some(Op::Lhzcix),
        26 => Some(Op::Lbzcix),
        27 => Some(Op::Ldcix),
        28 => Some(Op::Stwcix),
        29 => Some(Op::Sthcix),
        30 => Some(Op::Stbcix),
        31 => Some(Op::Stdcix),
        _ => None,
    }
}

/// The operation of primary opcode 31 whose extended opcode ends in 22, by its upper half.
fn ending_22(key: u64) -> Option<Op>
    ensures { result ≡ branches.ending_22 key }
{
    match key {
        1 => Some(Op::Dcbst),
        2 => Some(Op::Dcbf),
        4 => Some(Op::StwcxDot),
        6 => Some(Op::StdcxDot),
        7 => Some(Op::Dcbtst),
        8 => Some(Op::Dcbt),
        16 => Some(Op::Lwbrx),
        17 => Some(Op::Tlbsync),
        18 => Some(Op::Sync),
        20 => Some(Op::Stwbrx),
        21 => Some(Op::StbcxDot),
        22 => Some(Op::SthcxDot),
        24 => Some(Op::Lhbrx),
        26 => Some(Op::Eieio),
        28 => Some(Op::Sthbrx),
        30 => Some(Op::Icbi),
        31 => Some(Op::Dcbz),
        _ => None,
    }
}

/// The operation of primary opcode 31 whose extended opcode ends in 23, by its upper half.
fn ending_23(key: u64) -> Option<Op>
    ensures { result ≡ branches.ending_23 key }
{
    match key {
        0 => Some(Op::Lwzx),
        1 => Some(Op::Lwzux),
        2 => Some(Op::Lbzx),
        3 => Some(Op::Lbzux),
        4 => Some(Op::Stwx),
        5 => Some(Op::Stwux),
        6 => Some(Op::Stbx),
        7 => Some(Op::Stbux),
        8 => Some(Op::Lhzx),
        9 => Some(Op::Lhzux),
        10 => Some(Op::Lhax),
        11 => Some(Op::Lhaux),
        12 => Some(Op::Sthx),
        13 => Some(Op::Sthux),
        _ => None,
    }
}

/// The operation of primary opcode 31 whose extended opcode ends in 24, by its upper half.
fn ending_24(key: u64) -> Option<Op>
    ensures { result ≡ branches.ending_24 key }
{
    match key {
        0 => Some(Op::Slw),
        16 => Some(Op::Srw),
        24 => Some(Op::Sraw),
        25 => Some(Op::Srawi),
        _ => None,
    }
}

/// The operation of primary opcode 31 whose extended opcode ends in 26, by its upper half.
fn ending_26(key: u64) -> Option<Op>
    ensures { result ≡ branches.ending_26 key }
{
    match key {
        0 => Some(Op::Cntlzw),
        1 => Some(Op::Cntlzd),
        3 => Some(Op::Popcntb),
        4 => Some(Op::Prtyw),
        5 => Some(Op::Prtyd),
        11 => Some(Op::Popcntw),
        15 => Some(Op::Popcntd),
        16 => Some(Op::Cnttzw),
        17 => Some(Op::Cnttzd),
        24 => Some(Op::Srad),
        25 => Some(Op::Sradi),
        27 => Some(Op::Extswsli),
        28 => Some(Op::Extsh),
        29 => Some(Op::Extsb),
        30 => Some(Op::Extsw),
        _ => None,
    }
}

/// The operation of primary opcode 31 whose extended opcode ends in 27, by its upper half.
fn ending_27(key: u64) -> Option<Op>
    ensures { result ≡ branches.ending_27 key }
{
    match key {
        0 => Some(Op::Sld),
        16 => Some(Op::Srd),
        25 => Some(Op::Sradi),
        27 => Some(Op::Extswsli),
        _ => None,
    }
}

/// The operation of primary opcode 31 whose extended opcode ends in 28, by its upper half.
fn ending_28(key: u64) -> Option<Op>
    ensures { result ≡ branches.ending_28 key }
{
    match key {
        0 => Some(Op::And),
        1 => Some(Op::Andc),
        3 => Some(Op::Nor),
        7 => Some(Op::Bpermd),
        8 => Some(Op::Eqv),
        9 => Some(Op::Xor),
        12 => Some(Op::Orc),
        13 => Some(Op::Or),
        14 => Some(Op::Nand),
        15 => Some(Op::Cmpb),
        _ => None,
    }
}

/// The operation of primary opcode 31, by the last five bits of its extended opcode and by its upper half.
fn by_ending(low: u64, high: u64) -> Option<Op>
    ensures { result ≡ branches.by_ending low high }
{
    match low {
        0 => ending_0(high),
        4 => ending_4(high),
        8 => ending_8(high),
        9 => ending_9(high),
        10 => ending_10(high),
        11 => ending_11(high),
        14 => ending_14(high),
        15 => ending_15(high),
        16 => ending_16(high),
        18 => ending_18(high),
        19 => ending_19(high),
        20 => ending_20(high),
        21 => ending_21(high),
        22 => ending_22(high),
        23 => ending_23(high),
        24 => ending_24(high),
        26 => ending_26(high),
        27 => ending_27(high),
        28 => ending_28(high),
        _ => None,
    }
}

/// The operation with regard to bit 11, which parts the moves of the whole condition register from those of one
/// field, and to bit 31, which a conditional store has.
fn adjust(one_field: u64, last: u64, found: Option<Op>) -> Option<Op>
    ensures { result ≡ branches.adjusted one_field last found }
{
    match found {
        Some(Op::Mfcr) if one_field != 0 => Some(Op::Mfocrf),
        Some(Op::Mtcrf) if one_field != 0 => Some(Op::Mtocrf),
        Some(Op::StbcxDot) if last == 0 => None,
        Some(Op::SthcxDot) if last == 0 => None,
        Some(Op::StwcxDot) if last == 0 => None,
        Some(Op::StdcxDot) if last == 0 => None,
        other => other,
    }
}

/// The operation of primary opcode 31, by bit 11 and by bits 21 to 31.
fn extended_31(one_field: u64, key: u64) -> Option<Op>
    ensures { result ≡ branches.extended_31 one_field key }
{
    adjust(one_field, key % 2, by_ending(key / 2 % 32, key / 64))
}

/// The operation of the row whose fixed bits the word has.
pub(crate) fn op_of(word: u64) -> Option<Op>
    requires { word < 2 ^ 32 }
    ensures { result ≡ op_at word }
{
    let primary = field(word, 32, 0, 5);
    match primary {
        4 => extended_4(field(word, 32, 26, 31)),
        17 => extended_17(field(word, 32, 30, 30)),
        19 => extended_19(field(word, 32, 21, 30)),
        30 => extended_30(field(word, 32, 27, 30)),
        31 => extended_31(field(word, 32, 11, 11), field(word, 32, 21, 31)),
        58 => extended_58(field(word, 32, 30, 31)),
        62 => extended_62(field(word, 32, 30, 31)),
        _ => plain(primary),
    }
}
