//! Every operation that runs, at one pattern of bytes.

use super::bench::Bench;
use journal_core::{StepEnd, Use};
use std::test::Fail;

/// The place of the pattern.
const AT: u64 = 0x2_0000;
/// The bytes there, 16 before the address in r4.
const PATTERN: [u8; 8] = [0x81, 0x82, 0x83, 0x84, 0x85, 0x86, 0x87, 0x88];
/// The number of the lowest bytes there, by how many they are.
fn old_of(size: u8) -> u64 {
    match size {
        1 => 0x81,
        2 => 0x8281,
        4 => 0x8483_8281,
        _ => 0x8887_8685_8483_8281,
    }
}

/// A bench with the pattern, r3 = 1122334455667788, r4 = 20010, r5 = 5 and r6 = -16.
fn patterned(bench: &mut Bench) -> Result<(), Fail> {
    bench.store.place(AT, &PATTERN).map_err(|_| "pattern")?;
    bench.thread.set_gpr(3, 0x1122_3344_5566_7788);
    bench.thread.set_gpr(4, 0x2_0010);
    bench.thread.set_gpr(5, 5);
    bench.thread.set_gpr(6, 0xffff_ffff_ffff_fff0);
    Ok(())
}

/// What r4 is after a form, which updates it or does not.
fn base_after(update: bool) -> u64 {
    if update { AT } else { 0x2_0010 }
}

/// A load of r5, what it leaves there, and whether it updates r4.
const LOADS: [(u32, u64, bool); 30] = [
    // lbz r5,-16(r4)
    (0x88a4_fff0, 0x81, false),
    // lbzu r5,-16(r4)
    (0x8ca4_fff0, 0x81, true),
    // lbzx r5,r4,r6
    (0x7ca4_30ae, 0x81, false),
    // lbzux r5,r4,r6
    (0x7ca4_30ee, 0x81, true),
    // lbzcix r5,r4,r6
    (0x7ca4_36aa, 0x81, false),
    // lhz r5,-16(r4)
    (0xa0a4_fff0, 0x8281, false),
    // lhzu r5,-16(r4)
    (0xa4a4_fff0, 0x8281, true),
    // lhzx r5,r4,r6
    (0x7ca4_322e, 0x8281, false),
    // lhzux r5,r4,r6
    (0x7ca4_326e, 0x8281, true),
    // lhzcix r5,r4,r6
    (0x7ca4_366a, 0x8281, false),
    // lha r5,-16(r4)
    (0xa8a4_fff0, 0xffff_ffff_ffff_8281, false),
    // lhau r5,-16(r4)
    (0xaca4_fff0, 0xffff_ffff_ffff_8281, true),
    // lhax r5,r4,r6
    (0x7ca4_32ae, 0xffff_ffff_ffff_8281, false),
    // lhaux r5,r4,r6
    (0x7ca4_32ee, 0xffff_ffff_ffff_8281, true),
    // lwz r5,-16(r4)
    (0x80a4_fff0, 0x8483_8281, false),
    // lwzu r5,-16(r4)
    (0x84a4_fff0, 0x8483_8281, true),
    // lwzx r5,r4,r6
    (0x7ca4_302e, 0x8483_8281, false),
    // lwzux r5,r4,r6
    (0x7ca4_306e, 0x8483_8281, true),
    // lwzcix r5,r4,r6
    (0x7ca4_362a, 0x8483_8281, false),
    // lwa r5,-16(r4)
    (0xe8a4_fff2, 0xffff_ffff_8483_8281, false),
    // lwax r5,r4,r6
    (0x7ca4_32aa, 0xffff_ffff_8483_8281, false),
    // lwaux r5,r4,r6
    (0x7ca4_32ea, 0xffff_ffff_8483_8281, true),
    // ld r5,-16(r4)
    (0xe8a4_fff0, 0x8887_8685_8483_8281, false),
    // ldu r5,-16(r4)
    (0xe8a4_fff1, 0x8887_8685_8483_8281, true),
    // ldx r5,r4,r6
    (0x7ca4_302a, 0x8887_8685_8483_8281, false),
    // ldux r5,r4,r6
    (0x7ca4_306a, 0x8887_8685_8483_8281, true),
    // ldcix r5,r4,r6
    (0x7ca4_36ea, 0x8887_8685_8483_8281, false),
    // lhbrx r5,r4,r6
    (0x7ca4_362c, 0x8182, false),
    // lwbrx r5,r4,r6
    (0x7ca4_342c, 0x8182_8384, false),
    // ldbrx r5,r4,r6
    (0x7ca4_3428, 0x8182_8384_8586_8788, false),
];

/// A store of r3, how many bytes it writes, their number, and whether it updates r4.
const STORES: [(u32, u8, u64, bool); 23] = [
    // stb r3,-16(r4)
    (0x9864_fff0, 1, 0x88, false),
    // stbu r3,-16(r4)
    (0x9c64_fff0, 1, 0x88, true),
    // stbx r3,r4,r6
    (0x7c64_31ae, 1, 0x88, false),
    // stbux r3,r4,r6
    (0x7c64_31ee, 1, 0x88, true),
    // stbcix r3,r4,r6
    (0x7c64_37aa, 1, 0x88, false),
    // sth r3,-16(r4)
    (0xb064_fff0, 2, 0x7788, false),
    // sthu r3,-16(r4)
    (0xb464_fff0, 2, 0x7788, true),
    // sthx r3,r4,r6
    (0x7c64_332e, 2, 0x7788, false),
    // sthux r3,r4,r6
    (0x7c64_336e, 2, 0x7788, true),
    // sthcix r3,r4,r6
    (0x7c64_376a, 2, 0x7788, false),
    // stw r3,-16(r4)
    (0x9064_fff0, 4, 0x5566_7788, false),
    // stwu r3,-16(r4)
    (0x9464_fff0, 4, 0x5566_7788, true),
    // stwx r3,r4,r6
    (0x7c64_312e, 4, 0x5566_7788, false),
    // stwux r3,r4,r6
    (0x7c64_316e, 4, 0x5566_7788, true),
    // stwcix r3,r4,r6
    (0x7c64_372a, 4, 0x5566_7788, false),
    // std r3,-16(r4)
    (0xf864_fff0, 8, 0x1122_3344_5566_7788, false),
    // stdu r3,-16(r4)
    (0xf864_fff1, 8, 0x1122_3344_5566_7788, true),
    // stdx r3,r4,r6
    (0x7c64_312a, 8, 0x1122_3344_5566_7788, false),
    // stdux r3,r4,r6
    (0x7c64_316a, 8, 0x1122_3344_5566_7788, true),
    // stdcix r3,r4,r6
    (0x7c64_37ea, 8, 0x1122_3344_5566_7788, false),
    // sthbrx r3,r4,r6
    (0x7c64_372c, 2, 0x8877, false),
    // stwbrx r3,r4,r6
    (0x7c64_352c, 4, 0x8877_6655, false),
    // stdbrx r3,r4,r6
    (0x7c64_3528, 8, 0x8877_6655_4433_2211, false),
];

#[test]
fn every_load_takes_its_bytes_of_the_pattern(rt: HostRuntime) -> Result<(), Fail> {
    let mut bench = Bench::open(rt.alloc())?;
    for (word, value, update) in LOADS {
        patterned(&mut bench)?;
        let left = bench.run(rt.alloc(), word)?;
        assert_eq!(rt; left.out.end, StepEnd::Ran, "{word:x}");
        assert_eq!(rt;
            (left.out.first, left.out.second),
            (Use::Real(AT), Use::Unused)
        );
        assert_eq!(rt; bench.thread.gpr(5), value, "{word:x}");
        assert_eq!(rt; bench.thread.gpr(4), base_after(update), "{word:x}");
        let counts = left.journal.counts();
        assert_eq!(rt; (counts.writes, counts.devices), (0, 0));
        assert_eq!(rt; bench.store.load(AT, 8), Ok(old_of(8)));
    }
    Ok(())
}

#[test]
fn every_store_writes_one_row_at_the_pattern(rt: HostRuntime) -> Result<(), Fail> {
    let mut bench = Bench::open(rt.alloc())?;
    for (word, size, value, update) in STORES {
        patterned(&mut bench)?;
        let left = bench.run(rt.alloc(), word)?;
        assert_eq!(rt; left.out.end, StepEnd::Ran, "{word:x}");
        assert_eq!(rt;
            (left.out.first, left.out.second),
            (Use::Real(AT), Use::Unused)
        );
        assert_eq!(rt;
            left.write(0),
            Some((AT, size, old_of(size), value)),
            "{word:x}"
        );
        let all = old_of(8) ^ old_of(size) ^ value;
        assert_eq!(rt; bench.store.load(AT, 8), Ok(all), "{word:x}");
        let counts = left.journal.counts();
        assert_eq!(rt; (counts.writes, counts.devices), (1, 0));
        assert_eq!(rt; bench.thread.gpr(4), base_after(update), "{word:x}");
        assert_eq!(rt; bench.thread.gpr(3), 0x1122_3344_5566_7788);
    }
    Ok(())
}

#[test]
fn a_touched_block_is_used_and_a_hint_is_not(rt: HostRuntime) -> Result<(), Fail> {
    let mut bench = Bench::open(rt.alloc())?;
    patterned(&mut bench)?;
    let at = Use::Real(AT);
    // dcbf, dcbst and icbi, and then dcbt and dcbtst, at r4 + r6
    let forms = [
        (0x7c04_30ac, at),
        (0x7c04_306c, at),
        (0x7c04_37ac, at),
        (0x7c04_322c, Use::Unused),
        (0x7c04_31ec, Use::Unused),
    ];
    for (word, first) in forms {
        let left = bench.run(rt.alloc(), word)?;
        assert_eq!(rt; left.out.end, StepEnd::Ran, "{word:x}");
        assert_eq!(rt; (left.out.first, left.out.second), (first, Use::Unused));
        assert_eq!(rt; left.journal.counts().writes, 0);
        assert_eq!(rt; bench.store.load(AT, 8), Ok(old_of(8)));
    }
    Ok(())
}

#[test]
fn dcbz_clears_the_block_around_its_address(rt: HostRuntime) -> Result<(), Fail> {
    let mut bench = Bench::open(rt.alloc())?;
    patterned(&mut bench)?;
    bench.thread.set_gpr(4, 0x2_0087);
    // dcbz r4,r6
    let left = bench.run(rt.alloc(), 0x7c04_37ec)?;
    assert_eq!(rt; left.out.end, StepEnd::Ran);
    assert_eq!(rt;
        (left.out.first, left.out.second),
        (Use::Real(AT), Use::Unused)
    );
    assert_eq!(rt; left.journal.counts().writes, 16);
    assert_eq!(rt; left.write(0), Some((AT, 8, old_of(8), 0)));
    for i in 1..16u32 {
        let at = AT + 8 * u64::from(i);
        assert_eq!(rt; left.write(i), Some((at, 8, 0, 0)));
    }
    assert_eq!(rt; bench.store.load(AT, 8), Ok(0));
    Ok(())
}
