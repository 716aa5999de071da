//! Rights, and what ensues where one is missing, as tools/table_cases.py works it out.

/// A scope, an access, PR and ATT, a line each, and then a letter for each R, C and EAA, EAA counted first: a dot where all
/// is permitted; p privilege, r read, w write, x execute, g guarded, f referenced, c changed.
pub(crate) const RIGHTS: &str = "\
process fetch 0 0 xfxfxfxfxfxfxfxfxfxfxfxfxfxfxfxfx.x.x.x.x.x.x.x.x.x.x.x.x.x.x.x.
process fetch 0 1 xfxfxfxfxfxfxfxfxfxfxfxfxfxfxfxfx.x.x.x.x.x.x.x.x.x.x.x.x.x.x.x.
process fetch 0 2 xgxgxgxgxgxgxgxgxgxgxgxgxgxgxgxgxgxgxgxgxgxgxgxgxgxgxgxgxgxgxgxg
process fetch 0 3 xfxfxfxfxfxfxfxfxfxfxfxfxfxfxfxfx.x.x.x.x.x.x.x.x.x.x.x.x.x.x.x.
process fetch 1 0 xfxfxfxfppppppppxfxfxfxfppppppppx.x.x.x.ppppppppx.x.x.x.pppppppp
process fetch 1 1 xfxfxfxfppppppppxfxfxfxfppppppppx.x.x.x.ppppppppx.x.x.x.pppppppp
process fetch 1 2 xgxgxgxgppppppppxgxgxgxgppppppppxgxgxgxgppppppppxgxgxgxgpppppppp
process fetch 1 3 xfxfxfxfppppppppxfxfxfxfppppppppx.x.x.x.ppppppppx.x.x.x.pppppppp
process load 0 0 rrffffffrrffffffrrffffffrrffffffrr......rr......rr......rr......
process load 0 1 rrffffffrrffffffrrffffffrrffffffrr......rr......rr......rr......
process load 0 2 rrffffffrrffffffrrffffffrrffffffrr......rr......rr......rr......
process load 0 3 rrffffffrrffffffrrffffffrrffffffrr......rr......rr......rr......
process load 1 0 rrffffffpppppppprrffffffpppppppprr......pppppppprr......pppppppp
process load 1 1 rrffffffpppppppprrffffffpppppppprr......pppppppprr......pppppppp
process load 1 2 rrffffffpppppppprrffffffpppppppprr......pppppppprr......pppppppp
process load 1 3 rrffffffpppppppprrffffffpppppppprr......pppppppprr......pppppppp
process store 0 0 wwffwwffwwffwwffwwffwwffwwffwwffwwccwwccwwccwwccww..ww..ww..ww..
process store 0 1 wwffwwffwwffwwffwwffwwffwwffwwffwwccwwccwwccwwccww..ww..ww..ww..
process store 0 2 wwffwwffwwffwwffwwffwwffwwffwwffwwccwwccwwccwwccww..ww..ww..ww..
process store 0 3 wwffwwffwwffwwffwwffwwffwwffwwffwwccwwccwwccwwccww..ww..ww..ww..
process store 1 0 wwffwwffppppppppwwffwwffppppppppwwccwwccppppppppww..ww..pppppppp
process store 1 1 wwffwwffppppppppwwffwwffppppppppwwccwwccppppppppww..ww..pppppppp
process store 1 2 wwffwwffppppppppwwffwwffppppppppwwccwwccppppppppww..ww..pppppppp
process store 1 3 wwffwwffppppppppwwffwwffppppppppwwccwwccppppppppww..ww..pppppppp
partition fetch 0 0 xfxfxfxfxfxfxfxfxfxfxfxfxfxfxfxfx.x.x.x.x.x.x.x.x.x.x.x.x.x.x.x.
partition fetch 0 1 xfxfxfxfxfxfxfxfxfxfxfxfxfxfxfxfx.x.x.x.x.x.x.x.x.x.x.x.x.x.x.x.
partition fetch 0 2 xgxgxgxgxgxgxgxgxgxgxgxgxgxgxgxgxgxgxgxgxgxgxgxgxgxgxgxgxgxgxgxg
partition fetch 0 3 xfxfxfxfxfxfxfxfxfxfxfxfxfxfxfxfx.x.x.x.x.x.x.x.x.x.x.x.x.x.x.x.
partition fetch 1 0 xfxfxfxfxfxfxfxfxfxfxfxfxfxfxfxfx.x.x.x.x.x.x.x.x.x.x.x.x.x.x.x.
partition fetch 1 1 xfxfxfxfxfxfxfxfxfxfxfxfxfxfxfxfx.x.x.x.x.x.x.x.x.x.x.x.x.x.x.x.
partition fetch 1 2 xgxgxgxgxgxgxgxgxgxgxgxgxgxgxgxgxgxgxgxgxgxgxgxgxgxgxgxgxgxgxgxg
partition fetch 1 3 xfxfxfxfxfxfxfxfxfxfxfxfxfxfxfxfx.x.x.x.x.x.x.x.x.x.x.x.x.x.x.x.
partition load 0 0 rrffffffrrffffffrrffffffrrffffffrr......rr......rr......rr......
partition load 0 1 rrffffffrrffffffrrffffffrrffffffrr......rr......rr......rr......
partition load 0 2 rrffffffrrffffffrrffffffrrffffffrr......rr......rr......rr......
partition load 0 3 rrffffffrrffffffrrffffffrrffffffrr......rr......rr......rr......
partition load 1 0 rrffffffrrffffffrrffffffrrffffffrr......rr......rr......rr......
partition load 1 1 rrffffffrrffffffrrffffffrrffffffrr......rr......rr......rr......
partition load 1 2 rrffffffrrffffffrrffffffrrffffffrr......rr......rr......rr......
partition load 1 3 rrffffffrrffffffrrffffffrrffffffrr......rr......rr......rr......
partition store 0 0 wwffwwffwwffwwffwwffwwffwwffwwffwwccwwccwwccwwccww..ww..ww..ww..
partition store 0 1 wwffwwffwwffwwffwwffwwffwwffwwffwwccwwccwwccwwccww..ww..ww..ww..
partition store 0 2 wwffwwffwwffwwffwwffwwffwwffwwffwwccwwccwwccwwccww..ww..ww..ww..
partition store 0 3 wwffwwffwwffwwffwwffwwffwwffwwffwwccwwccwwccwwccww..ww..ww..ww..
partition store 1 0 wwffwwffwwffwwffwwffwwffwwffwwffwwccwwccwwccwwccww..ww..ww..ww..
partition store 1 1 wwffwwffwwffwwffwwffwwffwwffwwffwwccwwccwwccwwccww..ww..ww..ww..
partition store 1 2 wwffwwffwwffwwffwwffwwffwwffwwffwwccwwccwwccwwccww..ww..ww..ww..
partition store 1 3 wwffwwffwwffwwffwwffwwffwwffwwffwwccwwccwwccwwccww..ww..ww..ww..
";

/// Whose tables give no page, or that there is no segment; an access, what is wrong, 46 where an entry of a table was read; and
/// then the cause with its address, its bits and its guest real address, a line each.
pub(crate) const CAUSES: &str = "\
segment fetch - - InstSegment - - -
segment load - - DataSegment 4000000000123456 - -
segment store - - DataSegment 4000000000123456 - -
process fetch missing - InstStorage - 0000000040000000 -
partition fetch missing - HypInstStorage - 0000000040000000 87654000
partition fetch missing 46 HypInstStorage - 0000000040020000 87654000
process load missing - DataStorage 4000000000123456 40000000 -
partition load missing - HypDataStorage 4000000000123456 40000000 87654000
partition load missing 46 HypDataStorage 4000000000123456 40020000 87654000
process store missing - DataStorage 4000000000123456 42000000 -
partition store missing - HypDataStorage 4000000000123456 42000000 87654000
partition store missing 46 HypDataStorage 4000000000123456 42020000 87654000
process fetch unsupported - InstStorage - 0000000000080000 -
partition fetch unsupported - HypInstStorage - 0000000000080000 87654000
partition fetch unsupported 46 HypInstStorage - 00000000000a0000 87654000
process load unsupported - DataStorage 4000000000123456 00080000 -
partition load unsupported - HypDataStorage 4000000000123456 00080000 87654000
partition load unsupported 46 HypDataStorage 4000000000123456 000a0000 87654000
process store unsupported - DataStorage 4000000000123456 02080000 -
partition store unsupported - HypDataStorage 4000000000123456 02080000 87654000
partition store unsupported 46 HypDataStorage 4000000000123456 020a0000 87654000
process fetch privilege - InstStorage - 0000000008000000 -
partition fetch privilege - HypInstStorage - 0000000008000000 87654000
partition fetch privilege 46 HypInstStorage - 0000000008020000 87654000
process load privilege - DataStorage 4000000000123456 08000000 -
partition load privilege - HypDataStorage 4000000000123456 08000000 87654000
partition load privilege 46 HypDataStorage 4000000000123456 08020000 87654000
process store privilege - DataStorage 4000000000123456 0a000000 -
partition store privilege - HypDataStorage 4000000000123456 0a000000 87654000
partition store privilege 46 HypDataStorage 4000000000123456 0a020000 87654000
process fetch read - InstStorage - 0000000008000000 -
partition fetch read - HypInstStorage - 0000000008000000 87654000
partition fetch read 46 HypInstStorage - 0000000008020000 87654000
process load read - DataStorage 4000000000123456 08000000 -
partition load read - HypDataStorage 4000000000123456 08000000 87654000
partition load read 46 HypDataStorage 4000000000123456 08020000 87654000
process store read - DataStorage 4000000000123456 0a000000 -
partition store read - HypDataStorage 4000000000123456 0a000000 87654000
partition store read 46 HypDataStorage 4000000000123456 0a020000 87654000
process fetch write - InstStorage - 0000000008000000 -
partition fetch write - HypInstStorage - 0000000008000000 87654000
partition fetch write 46 HypInstStorage - 0000000008020000 87654000
process load write - DataStorage 4000000000123456 08000000 -
partition load write - HypDataStorage 4000000000123456 08000000 87654000
partition load write 46 HypDataStorage 4000000000123456 08020000 87654000
process store write - DataStorage 4000000000123456 0a000000 -
partition store write - HypDataStorage 4000000000123456 0a000000 87654000
partition store write 46 HypDataStorage 4000000000123456 0a020000 87654000
process fetch execute - InstStorage - 0000000010000000 -
partition fetch execute - HypInstStorage - 0000000010000000 87654000
partition fetch execute 46 HypInstStorage - 0000000010020000 87654000
process load execute - DataStorage 4000000000123456 10000000 -
partition load execute - HypDataStorage 4000000000123456 10000000 87654000
partition load execute 46 HypDataStorage 4000000000123456 10020000 87654000
process store execute - DataStorage 4000000000123456 12000000 -
partition store execute - HypDataStorage 4000000000123456 12000000 87654000
partition store execute 46 HypDataStorage 4000000000123456 12020000 87654000
process fetch guarded - InstStorage - 0000000010000000 -
partition fetch guarded - HypInstStorage - 0000000010000000 87654000
partition fetch guarded 46 HypInstStorage - 0000000010020000 87654000
process load guarded - DataStorage 4000000000123456 10000000 -
partition load guarded - HypDataStorage 4000000000123456 10000000 87654000
partition load guarded 46 HypDataStorage 4000000000123456 10020000 87654000
process store guarded - DataStorage 4000000000123456 12000000 -
partition store guarded - HypDataStorage 4000000000123456 12000000 87654000
partition store guarded 46 HypDataStorage 4000000000123456 12020000 87654000
process fetch referenced - InstStorage - 0000000000040000 -
partition fetch referenced - HypInstStorage - 0000000000040000 87654000
partition fetch referenced 46 HypInstStorage - 0000000000060000 87654000
process load referenced - DataStorage 4000000000123456 00040000 -
partition load referenced - HypDataStorage 4000000000123456 00040000 87654000
partition load referenced 46 HypDataStorage 4000000000123456 00060000 87654000
process store referenced - DataStorage 4000000000123456 02040000 -
partition store referenced - HypDataStorage 4000000000123456 02040000 87654000
partition store referenced 46 HypDataStorage 4000000000123456 02060000 87654000
process fetch changed - InstStorage - 0000000000040000 -
partition fetch changed - HypInstStorage - 0000000000040000 87654000
partition fetch changed 46 HypInstStorage - 0000000000060000 87654000
process load changed - DataStorage 4000000000123456 00040000 -
partition load changed - HypDataStorage 4000000000123456 00040000 87654000
partition load changed 46 HypDataStorage 4000000000123456 00060000 87654000
process store changed - DataStorage 4000000000123456 02040000 -
partition store changed - HypDataStorage 4000000000123456 02040000 87654000
partition store changed 46 HypDataStorage 4000000000123456 02060000 87654000
";
