//! Words and what they mean, as an assembler of the architecture writes them.

/// A word, two sets of bits that are to be ignored, and the form that it means, a line each.
pub(crate) const FORMS: &str = "\
3ba0fffe 00000000 00000000 AddImm { op: Addi, rt: 29, ra: 0, si: -2 }
3c7f8000 00000000 00000000 AddImm { op: Addis, rt: 3, ra: 31, si: -32768 }
32261234 00000000 00000000 AddImm { op: Addic, rt: 17, ra: 6, si: 4660 }
3517aaaa 00000000 00000000 AddImm { op: AddicDot, rt: 8, ra: 23, si: -21846 }
23f17fff 00000000 00000000 AddImm { op: Subfic, rt: 31, ra: 17, si: 32767 }
1d9bfeff 00000000 00000000 AddImm { op: Mulli, rt: 12, ra: 27, si: -257 }
4e3caa85 00000000 00000000 AddPc { rt: 17, d: -21831 }
7e9bce14 00000000 00000000 Arith { op: Add, rt: 20, ra: 27, rb: 25, oe: true, rc: false }
7cacb851 00000000 00000000 Arith { op: Subf, rt: 5, ra: 12, rb: 23, oe: false, rc: true }
7ef65415 00000000 00000000 Arith { op: Addc, rt: 23, ra: 22, rb: 10, oe: true, rc: true }
7fb42010 00000000 00000000 Arith { op: Subfc, rt: 29, ra: 20, rb: 4, oe: false, rc: false }
7d0add14 00000000 00000000 Arith { op: Adde, rt: 8, ra: 10, rb: 27, oe: true, rc: false }
7f6fa111 00000000 00000000 Arith { op: Subfe, rt: 27, ra: 15, rb: 20, oe: false, rc: true }
7dde05d5 0000f800 0000a800 Arith { op: Addme, rt: 14, ra: 30, rb: 0, oe: true, rc: true }
7f6801d0 0000f800 0000a800 Arith { op: Subfme, rt: 27, ra: 8, rb: 0, oe: false, rc: false }
7f970594 0000f800 0000a800 Arith { op: Addze, rt: 28, ra: 23, rb: 0, oe: true, rc: false }
7c5f0191 0000f800 0000a800 Arith { op: Subfze, rt: 2, ra: 31, rb: 0, oe: false, rc: true }
7d1b04d1 0000f800 0000a800 Arith { op: Neg, rt: 8, ra: 27, rb: 0, oe: true, rc: true }
7fceb1d6 00000000 00000000 Arith { op: Mullw, rt: 30, ra: 14, rb: 22, oe: false, rc: false }
7c5be5d2 00000000 00000000 Arith { op: Mulld, rt: 2, ra: 27, rb: 28, oe: true, rc: false }
7c2bdbd7 00000000 00000000 Arith { op: Divw, rt: 1, ra: 11, rb: 27, oe: false, rc: true }
7e2d6797 00000000 00000000 Arith { op: Divwu, rt: 17, ra: 13, rb: 12, oe: true, rc: true }
7ff653d2 00000000 00000000 Arith { op: Divd, rt: 31, ra: 22, rb: 10, oe: false, rc: false }
7ef9c792 00000000 00000000 Arith { op: Divdu, rt: 23, ra: 25, rb: 24, oe: true, rc: false }
7e3e0b57 00000000 00000000 Arith { op: Divwe, rt: 17, ra: 30, rb: 1, oe: false, rc: true }
7d7b9717 00000000 00000000 Arith { op: Divweu, rt: 11, ra: 27, rb: 18, oe: true, rc: true }
7c3f4352 00000000 00000000 Arith { op: Divde, rt: 1, ra: 31, rb: 8, oe: false, rc: false }
7d1b6712 00000000 00000000 Arith { op: Divdeu, rt: 8, ra: 27, rb: 12, oe: true, rc: false }
7f1b7097 00000400 00000400 MulHigh { op: Mulhw, rt: 24, ra: 27, rb: 14, rc: true }
7ee29016 00000400 00000400 MulHigh { op: Mulhwu, rt: 23, ra: 2, rb: 18, rc: false }
7f25f093 00000400 00000400 MulHigh { op: Mulhd, rt: 25, ra: 5, rb: 30, rc: true }
7fdd1812 00000400 00000400 MulHigh { op: Mulhdu, rt: 30, ra: 29, rb: 3, rc: false }
7f79d616 00000001 00000001 Modulo { op: Modsw, rt: 27, ra: 25, rb: 26 }
7e9f2a16 00000001 00000001 Modulo { op: Moduw, rt: 20, ra: 31, rb: 5 }
7feb6612 00000001 00000001 Modulo { op: Modsd, rt: 31, ra: 11, rb: 12 }
7cd0ea12 00000001 00000001 Modulo { op: Modud, rt: 6, ra: 16, rb: 29 }
131ddcb0 00000000 00000000 MulAdd { op: Maddhd, rt: 24, ra: 29, rb: 27, third: 18 }
13bf15f1 00000000 00000000 MulAdd { op: Maddhdu, rt: 29, ra: 31, rb: 2, third: 23 }
12d7d0f3 00000000 00000000 MulAdd { op: Maddld, rt: 22, ra: 23, rb: 26, third: 3 }
63e4fffe 00000000 00000000 LogicImm { op: Ori, ra: 4, rs: 31, ui: 65534 }
65578000 00000000 00000000 LogicImm { op: Oris, ra: 23, rs: 10, ui: 32768 }
68f71234 00000000 00000000 LogicImm { op: Xori, ra: 23, rs: 7, ui: 4660 }
6fbeaaaa 00000000 00000000 LogicImm { op: Xoris, ra: 30, rs: 29, ui: 43690 }
731effff 00000000 00000000 LogicImm { op: AndiDot, ra: 30, rs: 24, ui: 65535 }
753e0102 00000000 00000000 LogicImm { op: AndisDot, ra: 30, rs: 9, ui: 258 }
7fa35039 00000000 00000000 Logic { op: And, ra: 3, rs: 29, rb: 10, rc: true }
7d5c8b78 00000000 00000000 Logic { op: Or, ra: 28, rs: 10, rb: 17, rc: false }
7dfbc279 00000000 00000000 Logic { op: Xor, ra: 27, rs: 15, rb: 24, rc: true }
7d9bd3b8 00000000 00000000 Logic { op: Nand, ra: 27, rs: 12, rb: 26, rc: false }
7d94f0f9 00000000 00000000 Logic { op: Nor, ra: 20, rs: 12, rb: 30, rc: true }
7c31a238 00000000 00000000 Logic { op: Eqv, ra: 17, rs: 1, rb: 20, rc: false }
7ddba879 00000000 00000000 Logic { op: Andc, ra: 27, rs: 14, rb: 21, rc: true }
7f01bb38 00000000 00000000 Logic { op: Orc, ra: 1, rs: 24, rb: 23, rc: false }
7e86f831 00000000 00000000 Logic { op: Slw, ra: 6, rs: 20, rb: 31, rc: true }
7ffb5c30 00000000 00000000 Logic { op: Srw, ra: 27, rs: 31, rb: 11, rc: false }
7feb8631 00000000 00000000 Logic { op: Sraw, ra: 11, rs: 31, rb: 16, rc: true }
7fc56836 00000000 00000000 Logic { op: Sld, ra: 5, rs: 30, rb: 13, rc: false }
7e7f6437 00000000 00000000 Logic { op: Srd, ra: 31, rs: 19, rb: 12, rc: true }
7fa90e34 00000000 00000000 Logic { op: Srad, ra: 9, rs: 29, rb: 1, rc: false }
7d7f0775 0000f800 0000a800 Unary { op: Extsb, ra: 31, rs: 11, rc: true }
7fad0734 0000f800 0000a800 Unary { op: Extsh, ra: 13, rs: 29, rc: false }
7d1707b5 0000f800 0000a800 Unary { op: Extsw, ra: 23, rs: 8, rc: true }
7fc90034 0000f800 0000a800 Unary { op: Cntlzw, ra: 9, rs: 30, rc: false }
7d5b0075 0000f800 0000a800 Unary { op: Cntlzd, ra: 27, rs: 10, rc: true }
7e1b0434 0000f800 0000a800 Unary { op: Cnttzw, ra: 27, rs: 16, rc: false }
7f5b0475 0000f800 0000a800 Unary { op: Cnttzd, ra: 27, rs: 26, rc: true }
7d9e00f4 0000f801 00005001 Count { op: Popcntb, ra: 30, rs: 12 }
7f6b02f4 0000f801 00005001 Count { op: Popcntw, ra: 11, rs: 27 }
7e9703f4 0000f801 00005001 Count { op: Popcntd, ra: 23, rs: 20 }
7ebb0134 0000f801 00005001 Count { op: Prtyw, ra: 27, rs: 21 }
7c3e0174 0000f801 00005001 Count { op: Prtyd, ra: 30, rs: 1 }
7fb163f8 00000001 00000001 Bytes { op: Cmpb, ra: 17, rs: 29, rb: 12 }
7d66d9f8 00000001 00000001 Bytes { op: Bpermd, ra: 6, rs: 11, rb: 27 }
7cdf9e70 00000000 00000000 ShiftImm { op: Srawi, ra: 31, rs: 6, sh: 19, rc: false }
7fb1ae75 00000000 00000000 ShiftImm { op: Sradi, ra: 17, rs: 29, sh: 21, rc: true }
7eeaf6f6 00000000 00000000 ShiftImm { op: Extswsli, ra: 10, rs: 23, sh: 62, rc: false }
53f12a6e 00000000 00000000 RotWord { op: Rlwimi, ra: 17, rs: 31, by: 5, mb: 9, me: 23, rc: false }
5666ee05 00000000 00000000 RotWord { op: Rlwinm, ra: 6, rs: 19, by: 29, mb: 24, me: 2, rc: true }
5d3ea8b7 00000000 00000000 RotWord { op: Rlwnm, ra: 30, rs: 9, by: 21, mb: 2, me: 27, rc: true }
799f68e3 00000000 00000000 RotDouble { op: Rldicl, ra: 31, rs: 12, by: 45, edge: 35, rc: true }
7bd14da4 00000000 00000000 RotDouble { op: Rldicr, ra: 17, rs: 30, by: 9, edge: 54, rc: false }
7ae5354b 00000000 00000000 RotDouble { op: Rldic, ra: 5, rs: 23, by: 38, edge: 21, rc: true }
787decae 00000000 00000000 RotDouble { op: Rldimi, ra: 29, rs: 3, by: 61, edge: 50, rc: false }
7bee8eb1 00000000 00000000 RotDouble { op: Rldcl, ra: 14, rs: 31, by: 17, edge: 58, rc: true }
791bb172 00000000 00000000 RotDouble { op: Rldcr, ra: 27, rs: 8, by: 22, edge: 37, rc: false }
7f759f5e 00000001 00000001 Select { rt: 27, ra: 21, rb: 19, bit: 29 }
2eb2aabb 00400000 00400000 CmpImm { op: Cmpi, bf: 5, wide: true, ra: 18, value: -21829 }
291daabb 00400000 00400000 CmpImm { op: Cmpli, bf: 2, wide: false, ra: 29, value: 43707 }
7f155000 00400001 00000001 Cmp { op: Cmp, bf: 6, wide: false, ra: 21, rb: 10 }
7caed840 00400001 00000001 Cmp { op: Cmpl, bf: 1, wide: true, ra: 14, rb: 27 }
7eaab980 00400001 00000001 CmpByte { op: Cmprb, bf: 5, two: true, ra: 10, rb: 23 }
7d1d91c0 00600001 00400001 CmpByte { op: Cmpeqb, bf: 2, two: false, ra: 29, rb: 18 }
7f740100 0003f801 00015001 SetB { rt: 27, bfa: 5 }
0aabaaaa 00000000 00000000 TrapImm { op: Tdi, to: 21, ra: 11, si: -21846 }
0d5d5555 00000000 00000000 TrapImm { op: Twi, to: 10, ra: 29, si: 21845 }
7f536808 00000001 00000001 Trap { op: Tw, to: 26, ra: 19, rb: 13 }
7caee888 00000001 00000001 Trap { op: Td, to: 5, ra: 14, rb: 29 }
4a555555 00000000 00000000 Jump { li: -27962028, aa: false, lk: true }
4336aaaa 00000000 00000000 Branch { bo: 25, bi: 22, bd: -21848, aa: true, lk: false }
4f750020 0000f800 0000a800 BranchReg { op: Bclr, bo: 27, bi: 21, lk: false }
4dfa0421 0000f800 0000a800 BranchReg { op: Bcctr, bo: 15, bi: 26, lk: true }
4d4d0461 0000f800 0000a800 BranchReg { op: Bctar, bo: 10, bi: 13, lk: true }
4cdb0a02 00000001 00000001 CrBit { op: Crand, bt: 6, ba: 27, bb: 1 }
4ec1f382 00000001 00000001 CrBit { op: Cror, bt: 22, ba: 1, bb: 30 }
4fdb5182 00000001 00000001 CrBit { op: Crxor, bt: 30, ba: 27, bb: 10 }
4c3721c2 00000001 00000001 CrBit { op: Crnand, bt: 1, ba: 23, bb: 4 }
4ef1d042 00000001 00000001 CrBit { op: Crnor, bt: 23, ba: 17, bb: 26 }
4e3a8242 00000001 00000001 CrBit { op: Creqv, bt: 17, ba: 26, bb: 16 }
4f63d102 00000001 00000001 CrBit { op: Crandc, bt: 27, ba: 3, bb: 26 }
4fc16342 00000001 00000001 CrBit { op: Crorc, bt: 30, ba: 1, bb: 12 }
4e980000 0063f801 00215001 CrMove { bf: 5, bfa: 6 }
7e800480 007ff801 00555001 MoveXer { bf: 5 }
7ea00026 000ff801 00055001 MfCr { rt: 21 }
7f580026 00000801 00000001 MfOneCr { rt: 26, fxm: 128 }
7e6a5120 00000801 00000001 MtCr { rs: 19, fxm: 165 }
7eb80120 00000801 00000001 MtOneCr { rs: 21, fxm: 128 }
83e0fffe 00000000 00000000 Access { op: Lwz, rt: 31, ra: 0, disp: -2 }
84111234 00000000 00000000 Access { op: Lwzu, rt: 0, ra: 17, disp: 4660 }
89bd8000 00000000 00000000 Access { op: Lbz, rt: 13, ra: 29, disp: -32768 }
8f457fff 00000000 00000000 Access { op: Lbzu, rt: 26, ra: 5, disp: 32767 }
923eaaaa 00000000 00000000 Access { op: Stw, rt: 17, ra: 30, disp: -21846 }
94d9ffff 00000000 00000000 Access { op: Stwu, rt: 6, ra: 25, disp: -1 }
9ba05555 00000000 00000000 Access { op: Stb, rt: 29, ra: 0, disp: 21845 }
9c7fff7f 00000000 00000000 Access { op: Stbu, rt: 3, ra: 31, disp: -129 }
a1550102 00000000 00000000 Access { op: Lhz, rt: 10, ra: 21, disp: 258 }
a6aaefff 00000000 00000000 Access { op: Lhzu, rt: 21, ra: 10, disp: -4097 }
abd1fffd 00000000 00000000 Access { op: Lha, rt: 30, ra: 17, disp: -3 }
ad1b4001 00000000 00000000 Access { op: Lhau, rt: 8, ra: 27, disp: 16385 }
b26c8001 00000000 00000000 Access { op: Sth, rt: 19, ra: 12, disp: -32767 }
b7077918 00000000 00000000 Access { op: Sthu, rt: 24, ra: 7, disp: 31000 }
ebf2fffc 00000000 00000000 Access { op: Ld, rt: 31, ra: 18, disp: -4 }
e93d7ffd 00000000 00000000 Access { op: Ldu, rt: 9, ra: 29, disp: 32764 }
eac0aaaa 00000000 00000000 Access { op: Lwa, rt: 22, ra: 0, disp: -21848 }
f8178000 00000000 00000000 Access { op: Std, rt: 0, ra: 23, disp: -32768 }
fa265555 00000000 00000000 Access { op: Stdu, rt: 17, ra: 6, disp: 21844 }
7d40b02e 00000001 00000001 AccessX { op: Lwzx, rt: 10, ra: 0, rb: 22 }
7e3e906e 00000001 00000001 AccessX { op: Lwzux, rt: 17, ra: 30, rb: 18 }
7cd740ae 00000001 00000001 AccessX { op: Lbzx, rt: 6, ra: 23, rb: 8 }
7c1028ee 00000001 00000001 AccessX { op: Lbzux, rt: 0, ra: 16, rb: 5 }
7ccaba2e 00000001 00000001 AccessX { op: Lhzx, rt: 6, ra: 10, rb: 23 }
7ff7a26e 00000001 00000001 AccessX { op: Lhzux, rt: 31, ra: 23, rb: 20 }
7f1f0aae 00000001 00000001 AccessX { op: Lhax, rt: 24, ra: 31, rb: 1 }
7fa352ee 00000001 00000001 AccessX { op: Lhaux, rt: 29, ra: 3, rb: 10 }
7fbe32aa 00000001 00000001 AccessX { op: Lwax, rt: 29, ra: 30, rb: 6 }
7ff202ea 00000001 00000001 AccessX { op: Lwaux, rt: 31, ra: 18, rb: 0 }
7ebd282a 00000001 00000001 AccessX { op: Ldx, rt: 21, ra: 29, rb: 5 }
7d84d86a 00000001 00000001 AccessX { op: Ldux, rt: 12, ra: 4, rb: 27 }
7f3e592e 00000001 00000001 AccessX { op: Stwx, rt: 25, ra: 30, rb: 11 }
7c1e396e 00000001 00000001 AccessX { op: Stwux, rt: 0, ra: 30, rb: 7 }
7da0f9ae 00000001 00000001 AccessX { op: Stbx, rt: 13, ra: 0, rb: 31 }
7deab9ee 00000001 00000001 AccessX { op: Stbux, rt: 15, ra: 10, rb: 23 }
7ee16b2e 00000001 00000001 AccessX { op: Sthx, rt: 23, ra: 1, rb: 13 }
7ffbcb6e 00000001 00000001 AccessX { op: Sthux, rt: 31, ra: 27, rb: 25 }
7e57092a 00000001 00000001 AccessX { op: Stdx, rt: 18, ra: 23, rb: 1 }
7f11016a 00000001 00000001 AccessX { op: Stdux, rt: 24, ra: 17, rb: 0 }
7d1e142c 00000001 00000001 AccessX { op: Lwbrx, rt: 8, ra: 30, rb: 2 }
7d7d462c 00000001 00000001 AccessX { op: Lhbrx, rt: 11, ra: 29, rb: 8 }
7fa29c28 00000001 00000001 AccessX { op: Ldbrx, rt: 29, ra: 2, rb: 19 }
7c7b252c 00000001 00000001 AccessX { op: Stwbrx, rt: 3, ra: 27, rb: 4 }
7ed48f2c 00000001 00000001 AccessX { op: Sthbrx, rt: 22, ra: 20, rb: 17 }
7cbd6528 00000001 00000001 AccessX { op: Stdbrx, rt: 5, ra: 29, rb: 12 }
7fbf8868 00000001 00000001 AccessX { op: Lbarx, rt: 29, ra: 31, rb: 17 }
7ddb80e8 00000001 00000001 AccessX { op: Lharx, rt: 14, ra: 27, rb: 16 }
7e5fa828 00000001 00000001 AccessX { op: Lwarx, rt: 18, ra: 31, rb: 21 }
7f6060a8 00000001 00000001 AccessX { op: Ldarx, rt: 27, ra: 0, rb: 12 }
7f1d3d6d 00000000 00000000 AccessX { op: StbcxDot, rt: 24, ra: 29, rb: 7 }
7dd195ad 00000000 00000000 AccessX { op: SthcxDot, rt: 14, ra: 17, rb: 18 }
7c40612d 00000000 00000000 AccessX { op: StwcxDot, rt: 2, ra: 0, rb: 12 }
7cacb9ad 00000000 00000000 AccessX { op: StdcxDot, rt: 5, ra: 12, rb: 23 }
7ed1e62a 00000001 00000001 AccessX { op: Lwzcix, rt: 22, ra: 17, rb: 28 }
7f9bce6a 00000001 00000001 AccessX { op: Lhzcix, rt: 28, ra: 27, rb: 25 }
7f605eaa 00000001 00000001 AccessX { op: Lbzcix, rt: 27, ra: 0, rb: 11 }
7f7c3eea 00000001 00000001 AccessX { op: Ldcix, rt: 27, ra: 28, rb: 7 }
7ef4ff2a 00000001 00000001 AccessX { op: Stwcix, rt: 23, ra: 20, rb: 31 }
7ddf6f6a 00000001 00000001 AccessX { op: Sthcix, rt: 14, ra: 31, rb: 13 }
7efcb7aa 00000001 00000001 AccessX { op: Stbcix, rt: 23, ra: 28, rb: 22 }
7cba8fea 00000001 00000001 AccessX { op: Stdcix, rt: 5, ra: 26, rb: 17 }
7c02dfec 03e00001 01400001 Block { op: Dcbz, ra: 2, rb: 27 }
7c1a88ac 03e00001 01400001 Block { op: Dcbf, ra: 26, rb: 17 }
7c00986c 03e00001 01400001 Block { op: Dcbst, ra: 0, rb: 19 }
7c10f22c 03e00001 01400001 Block { op: Dcbt, ra: 16, rb: 30 }
7c19e9ec 03e00001 01400001 Block { op: Dcbtst, ra: 25, rb: 29 }
7c01dfac 03e00001 01400001 Block { op: Icbi, ra: 1, rb: 27 }
7fafcaa6 00000001 00000001 MfSpr { rt: 29, spr: 815 }
7e39e3a6 00000001 00000001 MtSpr { rs: 17, spr: 921 }
7eac42e6 00000001 00000001 MfTb { rt: 21, spr: 268 }
7f4000a6 001ff801 00155001 MfMsr { rt: 26 }
7ea10124 001ef801 000a5001 MtMsr { op: Mtmsr, rs: 21, l: true }
7fc00164 001ef801 000a5001 MtMsr { op: Mtmsrd, rs: 30, l: false }
7c4004ac 039ff801 01155001 Sync { l: 2 }
7c0006ac 03fff801 01555001 Eieio
7c00046c 03fff801 01555001 TlbSync
7fc56264 00100001 00000001 Inval { op: Tlbie, rb: 12, rs: 30, ric: 1, prs: false, r: true }
7eaa9a24 00100001 00000001 Inval { op: Tlbiel, rb: 19, rs: 21, ric: 2, prs: true, r: false }
7c00a99c 03ff0001 02aa0001 Message { op: Msgsnd, rb: 21 }
7c0071dc 03ff0001 02aa0001 Message { op: Msgclr, rb: 14 }
4c00012c 03fff801 01555001 Isync
4c000024 03fff801 01555001 Rfid
4c000224 03fff801 01555001 Hrfid
44000022 03ffffdd 01555549 Sc { lev: 1 }";

/// A word whose operands are an invalid form, and its operation, a line each.
pub(crate) const INVALID: &str = "\
87e0fff8 Lwzu
8e207ffc Lbzu
a4600000 Lhzu
afa08000 Lhau
e9801235 Ldu
8631ffec Lwzu
8e31ffec Lbzu
a54affec Lhzu
ac84ffec Lhau
eaf7ffed Ldu
84000008 Lwzu
7c60886e Lwzux
7d60d8ee Lbzux
7c608a6e Lhzux
7ea0baee Lhaux
7f408aea Lwaux
7ee0486a Ldux
7f7bb86e Lwzux
7fbdf0ee Lbzux
7fbdb26e Lhzux
7fde82ee Lhaux
7fbdfaea Lwaux
7d6b886a Ldux
7c00f86b Ldux
9760ffe8 Stwu
9fc0ffe8 Stbu
b620ffe8 Sthu
fa20ffe9 Stdu
7f60c96e Stwux
7c20f9ee Stbux
7fa05b6e Sthux
7fc0096a Stdux
7c00f16a Stdux
4c020420 Bcctr
4c5f0421 Bcctr
4d110420 Bcctr
4d7d0420 Bcctr
4e000421 Bcctr
4e460420 Bcctr
4f3e0420 Bcctr
4f750421 Bcctr
4f05fc20 Bcctr
7fb00026 Mfocrf
7ff03026 Mfocrf
7fd81026 Mfocrf
7efff026 Mfocrf
7ff00120 Mtocrf
7f728120 Mtocrf
7ffc0120 Mtocrf
7e37f120 Mtocrf
7ff00827 Mfocrf
7c6004ac Sync
7ffffcad Sync";

/// Words that have the fixed bits of no row.
pub(crate) const UNSUPPORTED: [u32; 40] = [
    0x0000_0001,
    0x07ff_ffff,
    0x1464_2a14,
    0x1b85_0010,
    0x2523_4567,
    0x5800_0001,
    0xbbff_ffff,
    0xbc64_2a14,
    0xc385_0010,
    0xc523_4567,
    0xc800_0001,
    0xcfff_ffff,
    0xd064_2a14,
    0xd785_0010,
    0xd923_4567,
    0xdc00_0001,
    0xe3ff_ffff,
    0xe464_2a14,
    0xef85_0010,
    0xf123_4567,
    0xf400_0001,
    0xffff_ffff,
    0x03ff_ffff,
    0x1064_2932,
    0x13e1_1000,
    0x4400_0021,
    0x4400_0000,
    0x4c00_0064,
    0x4e00_04a0,
    0x7864_2814,
    0x7864_281f,
    0x7e80_0400,
    0x7c64_2caa,
    0xe864_0003,
    0xf864_0002,
    0xf864_000b,
    0x7c83_2d6c,
    0x7c83_2dac,
    0x7c83_292c,
    0x7c83_29ac,
];
