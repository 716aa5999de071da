//! Accesses that leave nothing but the uses of their pages.

use super::bench::Bench;
use journal_core::{Cause, StepEnd, StopName, Use};
use ppc_spr::Msr;
use std::test::Fail;

/// No storage at an address.
fn none_at(at: u64) -> StepEnd {
    StepEnd::Stopped(StopName::NoStorage, at)
}

/// No access of a device at an address.
fn device_at(at: u64) -> StepEnd {
    StepEnd::Stopped(StopName::DeviceAccess, at)
}

#[test]
fn a_refused_access_leaves_its_uses_alone(rt: HostRuntime) -> Result<(), Fail> {
    let mut bench = Bench::open(rt.alloc())?;
    // r4, a word, how it ends, and the uses of its pages
    let cases = [
        // std r3,-4(r4): RAM ends in the middle; the last page is followed by the first one
        (
            0x100_0000,
            0xf864_fffc,
            none_at(0x100_0000),
            Use::Real(0xff_fffc),
            Use::Real(0x100_0000),
        ),
        (
            0,
            0xf864_fffc,
            none_at(0xfff_ffff_ffff_fffc),
            Use::Real(0xfff_ffff_ffff_fffc),
            Use::Real(0),
        ),
        // stw r3,0(r4) behind the console, to the control
        (
            0x1000_0ffe,
            0x9064_0000,
            none_at(0x1000_0ffe),
            Use::Real(0x1000_0ffe),
            Use::Real(0x1000_1000),
        ),
        // sth r3,0(r4)
        (
            0x1000_0007,
            0xb064_0000,
            device_at(0x1000_0007),
            Use::Real(0x1000_0007),
            Use::Unused,
        ),
        // lhau r5,-16(r4)
        (
            0x1000_0017,
            0xaca4_fff0,
            device_at(0x1000_0007),
            Use::Real(0x1000_0007),
            Use::Unused,
        ),
        // dcbz 0,r4
        (
            0x1000_0000,
            0x7c00_27ec,
            device_at(0x1000_0000),
            Use::Real(0x1000_0000),
            Use::Unused,
        ),
        (
            0x7fff_0000,
            0x7c00_27ec,
            none_at(0x7fff_0000),
            Use::Real(0x7fff_0000),
            Use::Unused,
        ),
        // dcbf 0,r4
        (
            0x7fff_0000,
            0x7c00_20ac,
            StepEnd::Ran,
            Use::Real(0x7fff_0000),
            Use::Unused,
        ),
    ];
    for (base, word, end, first, second) in cases {
        bench.thread.set_gpr(3, u64::MAX);
        bench.thread.set_gpr(4, base);
        bench.thread.set_gpr(5, 5);
        let left = bench.run(rt.alloc(), word)?;
        assert_eq!(rt; left.out.end, end, "{word:x}");
        assert_eq!(rt; left.out.first, first, "{word:x}");
        assert_eq!(rt; left.out.second, second, "{word:x}");
        let counts = left.journal.counts();
        assert_eq!(rt; (counts.writes, counts.devices), (0, 0));
        assert_eq!(rt; (bench.thread.gpr(4), bench.thread.gpr(5)), (base, 5));
    }
    assert_eq!(rt; bench.store.load(0xff_fff8, 8), Ok(0));
    Ok(())
}

#[test]
fn only_a_form_past_caches_is_to_be_aligned(rt: HostRuntime) -> Result<(), Fail> {
    let mut bench = Bench::open(rt.alloc())?;
    bench.thread.set_gpr(3, 1);
    bench.thread.set_gpr(5, 5);
    // ldcix r5,0,r3
    let left = bench.run(rt.alloc(), 0x7ca0_1eea)?;
    assert_eq!(rt; left.out.end, StepEnd::Took(Cause::Alignment { dar: 1 }));
    assert_eq!(rt;
        (left.out.first, left.out.second),
        (Use::Unused, Use::Unused)
    );
    assert_eq!(rt; bench.thread.gpr(5), 5);
    // ldx r5,0,r3
    let left = bench.run(rt.alloc(), 0x7ca0_182a)?;
    assert_eq!(rt;
        (left.out.end, left.out.first),
        (StepEnd::Ran, Use::Real(1))
    );
    assert_eq!(rt; bench.thread.gpr(5), 0);
    Ok(())
}

#[test]
fn only_what_asks_is_stopped_by_a_translator(rt: HostRuntime) -> Result<(), Fail> {
    let mut bench = Bench::open(rt.alloc())?;
    // DR
    bench.thread.set_msr(Msr(0x9000_0000_0000_1011));
    bench.thread.set_gpr(4, 0x2_0000);
    bench.thread.set_gpr(5, 5);
    // The first doubleword of the partition's entry is 0.
    let stop = StepEnd::Stopped(StopName::HashedPartition, 0);
    // lbz r5,0(r4), dcbf 0,r4 and dcbt 0,r4
    let cases = [
        (0x88a4_0000, stop),
        (0x7c00_20ac, stop),
        (0x7c00_222c, StepEnd::Ran),
    ];
    for (word, end) in cases {
        let left = bench.run(rt.alloc(), word)?;
        assert_eq!(rt; left.out.end, end, "{word:x}");
        assert_eq!(rt;
            (left.out.first, left.out.second),
            (Use::Unused, Use::Unused)
        );
        assert_eq!(rt; bench.thread.gpr(5), 5);
    }
    Ok(())
}
