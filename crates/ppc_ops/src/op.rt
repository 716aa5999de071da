// Written by tools/make_tables.py from docs/INSTRUCTIONS.md.
//! The operations of the instruction table.

/// An operation of the instruction table.
#[derive(Clone, Copy, Debug, PartialEq, Eq)]
pub enum Op {
    /// addi: RT = (RA|0) + SI (Book I, 3.3.9).
    Addi,
    /// addis: RT = (RA|0) + SI * 2^16 (Book I, 3.3.9).
    Addis,
    /// addic: RT = RA + SI; sets CA, CA32 (Book I, 3.3.9).
    Addic,
    /// addic.: RT = RA + SI; sets CA, CA32, CR0 (Book I, 3.3.9).
    AddicDot,
    /// subfic: RT = SI - RA; sets CA, CA32 (Book I, 3.3.9).
    Subfic,
    /// mulli: RT = the low doubleword of RA * SI, signed (Book I, 3.3.9).
    Mulli,
    /// addpcis: RT = the next instruction's address + D * 2^16 (Book I, 3.3.9).
    Addpcis,
    /// add: RT = RA + RB (Book I, 3.3.9).
    Add,
    /// subf: RT = RB - RA (Book I, 3.3.9).
    Subf,
    /// addc: RT = RA + RB; sets CA, CA32 (Book I, 3.3.9).
    Addc,
    /// subfc: RT = RB - RA; sets CA, CA32 (Book I, 3.3.9).
    Subfc,
    /// adde: RT = RA + RB + CA; sets CA, CA32 (Book I, 3.3.9).
    Adde,
    /// subfe: RT = (not RA) + RB + CA; sets CA, CA32 (Book I, 3.3.9).
    Subfe,
    /// addme: RT = RA + CA - 1; sets CA, CA32 (Book I, 3.3.9).
    Addme,
    /// subfme: RT = (not RA) + CA - 1; sets CA, CA32 (Book I, 3.3.9).
    Subfme,
    /// addze: RT = RA + CA; sets CA, CA32 (Book I, 3.3.9).
    Addze,
    /// subfze: RT = (not RA) + CA; sets CA, CA32 (Book I, 3.3.9).
    Subfze,
    /// neg: RT = -RA (Book I, 3.3.9).
    Neg,
    /// mullw: RT = RA's low word * RB's low word, signed (Book I, 3.3.9).
    Mullw,
    /// mulld: RT = the low doubleword of RA * RB, signed (Book I, 3.3.9).
    Mulld,
    /// divw: RT = RA's low word / RB's low word, signed; upper word 0 (Book I, 3.3.9).
    Divw,
    /// divwu: RT = RA's low word / RB's low word, unsigned; upper word 0 (Book I, 3.3.9).
    Divwu,
    /// divd: RT = RA / RB, signed (Book I, 3.3.9).
    Divd,
    /// divdu: RT = RA / RB, unsigned (Book I, 3.3.9).
    Divdu,
    /// divwe: RT = RA's low word * 2^32 / RB's low word, signed; upper word 0 (Book I, 3.3.9).
    Divwe,
    /// divweu: RT = RA's low word * 2^32 / RB's low word, unsigned; upper word 0 (Book I, 3.3.9).
    Divweu,
    /// divde: RT = RA * 2^64 / RB, signed (Book I, 3.3.9).
    Divde,
    /// divdeu: RT = RA * 2^64 / RB, unsigned (Book I, 3.3.9).
    Divdeu,
    /// mulhw: RT = the high word of the product of RA's and RB's low words, signed; upper word 0 (Book I,
    /// 3.3.9).
    Mulhw,
    /// mulhwu: RT = the high word of the product of RA's and RB's low words, unsigned; upper word 0 (Book I,
    /// 3.3.9).
    Mulhwu,
    /// mulhd: RT = the high doubleword of RA * RB, signed (Book I, 3.3.9).
    Mulhd,
    /// mulhdu: RT = the high doubleword of RA * RB, unsigned (Book I, 3.3.9).
    Mulhdu,
    /// modsw: RT = the remainder of RA's low word by RB's low word, signed; upper word 0 (Book I, 3.3.9).
    Modsw,
    /// moduw: RT = the remainder of RA's low word by RB's low word, unsigned; upper word 0 (Book I, 3.3.9).
    Moduw,
    /// modsd: RT = the remainder of RA by RB, signed (Book I, 3.3.9).
    Modsd,
    /// modud: RT = the remainder of RA by RB, unsigned (Book I, 3.3.9).
    Modud,
    /// maddhd: RT = the high doubleword of RA * RB + THIRD, signed (Book I, 3.3.9).
    Maddhd,
    /// maddhdu: RT = the high doubleword of RA * RB + THIRD, unsigned (Book I, 3.3.9).
    Maddhdu,
    /// maddld: RT = the low doubleword of RA * RB + THIRD (Book I, 3.3.9).
    Maddld,
    /// ori: RA = RS or UI (Book I, 3.3.13).
    Ori,
    /// oris: RA = RS or (UI * 2^16) (Book I, 3.3.13).
    Oris,
    /// xori: RA = RS xor UI (Book I, 3.3.13).
    Xori,
    /// xoris: RA = RS xor (UI * 2^16) (Book I, 3.3.13).
    Xoris,
    /// andi.: RA = RS and UI; sets CR0 (Book I, 3.3.13).
    AndiDot,
    /// andis.: RA = RS and (UI * 2^16); sets CR0 (Book I, 3.3.13).
    AndisDot,
    /// and: RA = RS and RB (Book I, 3.3.13).
    And,
    /// or: RA = RS or RB (Book I, 3.3.13).
    Or,
    /// xor: RA = RS xor RB (Book I, 3.3.13).
    Xor,
    /// nand: RA = not (RS and RB) (Book I, 3.3.13).
    Nand,
    /// nor: RA = not (RS or RB) (Book I, 3.3.13).
    Nor,
    /// eqv: RA = not (RS xor RB) (Book I, 3.3.13).
    Eqv,
    /// andc: RA = RS and (not RB) (Book I, 3.3.13).
    Andc,
    /// orc: RA = RS or (not RB) (Book I, 3.3.13).
    Orc,
    /// slw: RA = RS's low word shifted left by RB 58:63, 0 from 32 on; upper word 0 (Book I, 3.3.14).
    Slw,
    /// srw: RA = RS's low word shifted right by RB 58:63, 0 from 32 on; upper word 0 (Book I, 3.3.14).
    Srw,
    /// sraw: RA = RS's low word, signed, shifted right by RB 58:63; sets CA, CA32 (Book I, 3.3.14).
    Sraw,
    /// sld: RA = RS shifted left by RB 57:63, 0 from 64 on (Book I, 3.3.14).
    Sld,
    /// srd: RA = RS shifted right by RB 57:63, 0 from 64 on (Book I, 3.3.14).
    Srd,
    /// srad: RA = RS, signed, shifted right by RB 57:63; sets CA, CA32 (Book I, 3.3.14).
    Srad,
    /// extsb: RA = RS's low byte, signed (Book I, 3.3.13).
    Extsb,
    /// extsh: RA = RS's low halfword, signed (Book I, 3.3.13).
    Extsh,
    /// extsw: RA = RS's low word, signed (Book I, 3.3.13).
    Extsw,
    /// cntlzw: RA = the count of leading zeros in RS's low word (Book I, 3.3.13).
    Cntlzw,
    /// cntlzd: RA = the count of leading zeros in RS (Book I, 3.3.13).
    Cntlzd,
    /// cnttzw: RA = the count of trailing zeros in RS's low word (Book I, 3.3.13).
    Cnttzw,
    /// cnttzd: RA = the count of trailing zeros in RS (Book I, 3.3.13).
    Cnttzd,
    /// popcntb: each byte of RA = the count of ones in that byte of RS (Book I, 3.3.13).
    Popcntb,
    /// popcntw: each word of RA = the count of ones in that word of RS (Book I, 3.3.13).
    Popcntw,
    /// popcntd: RA = the count of ones in RS (Book I, 3.3.13).
    Popcntd,
    /// prtyw: each word of RA = the parity of the lowest bits of the four bytes in that word of RS (Book I,
    /// 3.3.13).
    Prtyw,
    /// prtyd: RA = the parity of the lowest bits of the eight bytes in RS (Book I, 3.3.13).
    Prtyd,
    /// cmpb: each byte of RA = 0xff where RS and RB are equal in that byte, else 0 (Book I, 3.3.13).
    Cmpb,
    /// bpermd: bit 56 + i of RA = RB's bit numbered by byte i of RS, 0 from 64 on; bits 0:55 are 0 (Book I,
    /// 3.3.13).
    Bpermd,
    /// srawi: RA = RS's low word, signed, shifted right by SH; sets CA, CA32 (Book I, 3.3.14).
    Srawi,
    /// sradi: RA = RS, signed, shifted right by SH; sets CA, CA32 (Book I, 3.3.14).
    Sradi,
    /// extswsli: RA = RS's low word, signed, shifted left by SH (Book I, 3.3.14).
    Extswsli,
    /// rlwimi: RA = RS's low word turned left by BY where the mask is 1, elsewhere the old RA (Book I,
    /// 3.3.14).
    Rlwimi,
    /// rlwinm: RA = RS's low word turned left by BY where the mask is 1, elsewhere 0 (Book I, 3.3.14).
    Rlwinm,
    /// rlwnm: RA = RS's low word turned left by register BY 59:63 where the mask is 1, elsewhere 0 (Book I,
    /// 3.3.14).
    Rlwnm,
    /// rldicl: RA = RS turned left by BY in bits EDGE to 63, elsewhere 0 (Book I, 3.3.14).
    Rldicl,
    /// rldicr: RA = RS turned left by BY in bits 0 to EDGE, elsewhere 0 (Book I, 3.3.14).
    Rldicr,
    /// rldic: RA = RS turned left by BY in bits EDGE to 63 - BY, elsewhere 0 (Book I, 3.3.14).
    Rldic,
    /// rldimi: RA = RS turned left by BY in bits EDGE to 63 - BY, elsewhere the old RA (Book I, 3.3.14).
    Rldimi,
    /// rldcl: RA = RS turned left by register BY 58:63 in bits EDGE to 63, elsewhere 0 (Book I, 3.3.14).
    Rldcl,
    /// rldcr: RA = RS turned left by register BY 58:63 in bits 0 to EDGE, elsewhere 0 (Book I, 3.3.14).
    Rldcr,
    /// isel: RT = (RA|0) where CR bit BIT is 1, else RB (Book I, 3.3.12).
    Isel,
    /// cmpi: CR field BF = whether RA is less, greater, equal to VALUE, signed; then SO (Book I, 3.3.10).
    Cmpi,
    /// cmpli: CR field BF = whether RA is less, greater, equal to VALUE, unsigned; then SO (Book I, 3.3.10).
    Cmpli,
    /// cmp: CR field BF = whether RA is less, greater, equal to RB, signed; then SO (Book I, 3.3.10).
    Cmp,
    /// cmpl: CR field BF = whether RA is less, greater, equal to RB, unsigned; then SO (Book I, 3.3.10).
    Cmpl,
    /// cmprb: bit 1 of CR field BF = whether RA 56:63 is from RB 56:63 to RB 48:55; its others 0 (Book I,
    /// 3.3.10).
    Cmprb,
    /// cmpeqb: bit 1 of CR field BF = whether RA 56:63 equals a byte of RB; its others 0 (Book I, 3.3.10).
    Cmpeqb,
    /// setb: RT = -1 where bit 0 of CR field BFA is 1, else 1 where its bit 1 is 1, else 0 (Book I, 3.3.17).
    Setb,
    /// tdi: traps where RA stands to SI as a bit of TO asks (Book I, 3.3.11).
    Tdi,
    /// twi: traps where RA's low word stands to SI as a bit of TO asks (Book I, 3.3.11).
    Twi,
    /// tw: traps where RA's low word stands to RB's low word as a bit of TO asks (Book I, 3.3.11).
    Tw,
    /// td: traps where RA stands to RB as a bit of TO asks (Book I, 3.3.11).
    Td,
    /// b: goes to its own address + LI, with AA to LI (Book I, 2.4).
    B,
    /// bc: goes to its own address + BD, with AA to BD, where BO and BI allow (Book I, 2.4).
    Bc,
    /// bclr: goes to LR, bits 62:63 cleared, where BO and BI allow (Book I, 2.4).
    Bclr,
    /// bcctr: goes to CTR, bits 62:63 cleared, where BO and BI allow (Book I, 2.4).
    Bcctr,
    /// bctar: goes to TAR, bits 62:63 cleared, where BO and BI allow (Book I, 2.4).
    Bctar,
    /// crand: CR bit BT = CR bit BA and CR bit BB (Book I, 2.5).
    Crand,
    /// cror: CR bit BT = CR bit BA or CR bit BB (Book I, 2.5).
    Cror,
    /// crxor: CR bit BT = CR bit BA xor CR bit BB (Book I, 2.5).
    Crxor,
    /// crnand: CR bit BT = not (CR bit BA and CR bit BB) (Book I, 2.5).
    Crnand,
    /// crnor: CR bit BT = not (CR bit BA or CR bit BB) (Book I, 2.5).
    Crnor,
    /// creqv: CR bit BT = not (CR bit BA xor CR bit BB) (Book I, 2.5).
    Creqv,
    /// crandc: CR bit BT = CR bit BA and (not CR bit BB) (Book I, 2.5).
    Crandc,
    /// crorc: CR bit BT = CR bit BA or (not CR bit BB) (Book I, 2.5).
    Crorc,
    /// mcrf: CR field BF = CR field BFA (Book I, 2.5).
    Mcrf,
    /// mcrxrx: CR field BF = OV, OV32, CA, CA32 (Book I, 3.3.17).
    Mcrxrx,
    /// mfcr: RT = CR in the low word; upper word 0 (Book I, 3.3.17).
    Mfcr,
    /// mfocrf: RT = the CR field that FXM names, at its place in the low word; elsewhere 0 (Book I, 3.3.17).
    Mfocrf,
    /// mtcrf: the CR fields that FXM names = those of RS's low word (Book I, 3.3.17).
    Mtcrf,
    /// mtocrf: the CR field that FXM names = that of RS's low word (Book I, 3.3.17).
    Mtocrf,
    /// lwz: RT = the word at (RA|0) + DISP (Book I, 3.3.2).
    Lwz,
    /// lwzu: RT = the word at RA + DISP; RA = the address (Book I, 3.3.2).
    Lwzu,
    /// lbz: RT = the byte at (RA|0) + DISP (Book I, 3.3.2).
    Lbz,
    /// lbzu: RT = the byte at RA + DISP; RA = the address (Book I, 3.3.2).
    Lbzu,
    /// stw: stores RT's low word at (RA|0) + DISP (Book I, 3.3.3).
    Stw,
    /// stwu: stores RT's low word at RA + DISP; RA = the address (Book I, 3.3.3).
    Stwu,
    /// stb: stores RT's low byte at (RA|0) + DISP (Book I, 3.3.3).
    Stb,
    /// stbu: stores RT's low byte at RA + DISP; RA = the address (Book I, 3.3.3).
    Stbu,
    /// lhz: RT = the halfword at (RA|0) + DISP (Book I, 3.3.2).
    Lhz,
    /// lhzu: RT = the halfword at RA + DISP; RA = the address (Book I, 3.3.2).
    Lhzu,
    /// lha: RT = the halfword at (RA|0) + DISP, signed (Book I, 3.3.2).
    Lha,
    /// lhau: RT = the halfword at RA + DISP, signed; RA = the address (Book I, 3.3.2).
    Lhau,
    /// sth: stores RT's low halfword at (RA|0) + DISP (Book I, 3.3.3).
    Sth,
    /// sthu: stores RT's low halfword at RA + DISP; RA = the address (Book I, 3.3.3).
    Sthu,
    /// ld: RT = the doubleword at (RA|0) + DISP (Book I, 3.3.2).
    Ld,
    /// ldu: RT = the doubleword at RA + DISP; RA = the address (Book I, 3.3.2).
    Ldu,
    /// lwa: RT = the word at (RA|0) + DISP, signed (Book I, 3.3.2).
    Lwa,
    /// std: stores RT at (RA|0) + DISP (Book I, 3.3.3).
    Std,
    /// stdu: stores RT at RA + DISP; RA = the address (Book I, 3.3.3).
    Stdu,
    /// lwzx: RT = the word at (RA|0) + RB (Book I, 3.3.2).
    Lwzx,
    /// lwzux: RT = the word at RA + RB; RA = the address (Book I, 3.3.2).
    Lwzux,
    /// lbzx: RT = the byte at (RA|0) + RB (Book I, 3.3.2).
    Lbzx,
    /// lbzux: RT = the byte at RA + RB; RA = the address (Book I, 3.3.2).
    Lbzux,
    /// lhzx: RT = the halfword at (RA|0) + RB (Book I, 3.3.2).
    Lhzx,
    /// lhzux: RT = the halfword at RA + RB; RA = the address (Book I, 3.3.2).
    Lhzux,
    /// lhax: RT = the halfword at (RA|0) + RB, signed (Book I, 3.3.2).
    Lhax,
    /// lhaux: RT = the halfword at RA + RB, signed; RA = the address (Book I, 3.3.2).
    Lhaux,
    /// lwax: RT = the word at (RA|0) + RB, signed (Book I, 3.3.2).
    Lwax,
    /// lwaux: RT = the word at RA + RB, signed; RA = the address (Book I, 3.3.2).
    Lwaux,
    /// ldx: RT = the doubleword at (RA|0) + RB (Book I, 3.3.2).
    Ldx,
    /// ldux: RT = the doubleword at RA + RB; RA = the address (Book I, 3.3.2).
    Ldux,
    /// stwx: stores RT's low word at (RA|0) + RB (Book I, 3.3.3).
    Stwx,
    /// stwux: stores RT's low word at RA + RB; RA = the address (Book I, 3.3.3).
    Stwux,
    /// stbx: stores RT's low byte at (RA|0) + RB (Book I, 3.3.3).
    Stbx,
    /// stbux: stores RT's low byte at RA + RB; RA = the address (Book I, 3.3.3).
    Stbux,
    /// sthx: stores RT's low halfword at (RA|0) + RB (Book I, 3.3.3).
    Sthx,
    /// sthux: stores RT's low halfword at RA + RB; RA = the address (Book I, 3.3.3).
    Sthux,
    /// stdx: stores RT at (RA|0) + RB (Book I, 3.3.3).
    Stdx,
    /// stdux: stores RT at RA + RB; RA = the address (Book I, 3.3.3).
    Stdux,
    /// lwbrx: RT = the word at (RA|0) + RB, its bytes reversed (Book I, 3.3.5).
    Lwbrx,
    /// lhbrx: RT = the halfword at (RA|0) + RB, its bytes reversed (Book I, 3.3.5).
    Lhbrx,
    /// ldbrx: RT = the doubleword at (RA|0) + RB, its bytes reversed (Book I, 3.3.5).
    Ldbrx,
    /// stwbrx: stores RT's low word at (RA|0) + RB, its bytes reversed (Book I, 3.3.5).
    Stwbrx,
    /// sthbrx: stores RT's low halfword at (RA|0) + RB, its bytes reversed (Book I, 3.3.5).
    Sthbrx,
    /// stdbrx: stores RT at (RA|0) + RB, its bytes reversed (Book I, 3.3.5).
    Stdbrx,
    /// lbarx: RT = the byte at (RA|0) + RB; makes a reservation there (Book II, Load And Reserve and Store
    /// Conditional).
    Lbarx,
    /// lharx: RT = the halfword at (RA|0) + RB; makes a reservation there (Book II, Load And Reserve and
    /// Store Conditional).
    Lharx,
    /// lwarx: RT = the word at (RA|0) + RB; makes a reservation there (Book II, Load And Reserve and Store
    /// Conditional).
    Lwarx,
    /// ldarx: RT = the doubleword at (RA|0) + RB; makes a reservation there (Book II, Load And Reserve and
    /// Store Conditional).
    Ldarx,
    /// stbcx.: stores RT's low byte at (RA|0) + RB where the reservation holds; CR0 tells (Book II, Load And
    /// Reserve and Store Conditional).
    StbcxDot,
    /// sthcx.: stores RT's low halfword at (RA|0) + RB where the reservation holds; CR0 tells (Book II, Load
    /// And Reserve and Store Conditional).
    SthcxDot,
    /// stwcx.: stores RT's low word at (RA|0) + RB where the reservation holds; CR0 tells (Book II, Load And
    /// Reserve and Store Conditional).
    StwcxDot,
    /// stdcx.: stores RT at (RA|0) + RB where the reservation holds; CR0 tells (Book II, Load And Reserve and
    /// Store Conditional).
    StdcxDot,
    /// lwzcix: RT = the word at (RA|0) + RB, caching inhibited (Book III, Fixed-Point Load and Store Caching
    /// Inhibited).
    Lwzcix,
    /// lhzcix: RT = the halfword at (RA|0) + RB, caching inhibited (Book III, Fixed-Point Load and Store
    /// Caching Inhibited).
    Lhzcix,
    /// lbzcix: RT = the byte at (RA|0) + RB, caching inhibited (Book III, Fixed-Point Load and Store Caching
    /// Inhibited).
    Lbzcix,
    /// ldcix: RT = the doubleword at (RA|0) + RB, caching inhibited (Book III, Fixed-Point Load and Store
    /// Caching Inhibited).
    Ldcix,
    /// stwcix: stores RT's low word at (RA|0) + RB, caching inhibited (Book III, Fixed-Point Load and Store
    /// Caching Inhibited).
    Stwcix,
    /// sthcix: stores RT's low halfword at (RA|0) + RB, caching inhibited (Book III, Fixed-Point Load and
    /// Store Caching Inhibited).
    Sthcix,
    /// stbcix: stores RT's low byte at (RA|0) + RB, caching inhibited (Book III, Fixed-Point Load and Store
    /// Caching Inhibited).
    Stbcix,
    /// stdcix: stores RT at (RA|0) + RB, caching inhibited (Book III, Fixed-Point Load and Store Caching
    /// Inhibited).
    Stdcix,
    /// dcbz: stores zeros in the block of (RA|0) + RB (Book II, Cache Management).
    Dcbz,
    /// dcbf: flushes the block of (RA|0) + RB from the data caches (Book II, Cache Management).
    Dcbf,
    /// dcbst: copies the block of (RA|0) + RB from the data caches to storage (Book II, Cache Management).
    Dcbst,
    /// dcbt: hints that the block of (RA|0) + RB will be loaded from (Book II, Cache Management).
    Dcbt,
    /// dcbtst: hints that the block of (RA|0) + RB will be stored to (Book II, Cache Management).
    Dcbtst,
    /// icbi: drops the block of (RA|0) + RB from the instruction caches (Book II, Cache Management).
    Icbi,
    /// mfspr: RT = the special register of number SPR (Book I, 3.3.17).
    Mfspr,
    /// mtspr: the special register of number SPR = RS (Book I, 3.3.17).
    Mtspr,
    /// mftb: RT = TB, where SPR is 268 (Book II, Time Base).
    Mftb,
    /// mfmsr: RT = MSR (Book III, Move To/From System Register).
    Mfmsr,
    /// mtmsr: MSR 32:63 = RS 32:63, but ME and LE stay; with L, EE and RI alone (Book III, Move To/From
    /// System Register).
    Mtmsr,
    /// mtmsrd: MSR = RS, but HV, ME and LE stay; with L, EE and RI alone (Book III, Move To/From System
    /// Register).
    Mtmsrd,
    /// sync: orders storage accesses: L 0 all, 1 all but a load after a store, 2 those of tables too (Book
    /// II, Memory Barrier).
    Sync,
    /// eieio: orders device accesses, and apart from them stores to other storage (Book II, Memory Barrier).
    Eieio,
    /// tlbsync: orders the earlier tlbie of this thread before its next sync with L 2 (Book III, TLB
    /// Management).
    Tlbsync,
    /// tlbie: drops kept translations as RB, RS, RIC, PRS and R say, in all threads (Book III, TLB
    /// Management).
    Tlbie,
    /// tlbiel: drops kept translations as RB, RS, RIC, PRS and R say, in this thread (Book III, TLB
    /// Management).
    Tlbiel,
    /// msgsnd: sends the message of RB to the threads that it names (Book III, Processor Control).
    Msgsnd,
    /// msgclr: clears a message of RB's type that was sent to this thread (Book III, Processor Control).
    Msgclr,
    /// isync: ends all earlier instructions before later ones are fetched (Book II, Instruction Synchronize).
    Isync,
    /// rfid: MSR from SRR1; goes to SRR0, bits 62:63 cleared (Book III, System Linkage).
    Rfid,
    /// hrfid: MSR from HSRR1; goes to HSRR0, bits 62:63 cleared (Book III, System Linkage).
    Hrfid,
    /// sc: makes the system call interrupt of level LEV (Book I, 2.6).
    Sc,
}

/// A row of the instruction table: the words that have `value` in the bits of `mask` are those of `op`.
#[derive(Clone, Copy, Debug, PartialEq, Eq)]
pub struct Row {
    /// Ones in the fixed bits.
    pub mask: u32,
    /// The fixed bits, and zeros elsewhere.
    pub value: u32,
    /// The operation.
    pub op: Op,
}
