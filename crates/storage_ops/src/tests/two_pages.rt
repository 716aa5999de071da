//! Accesses of two pages, and the bits of an address.

use super::bench::Bench;
use journal_core::{StepEnd, Use};
use std::test::Fail;

#[test]
fn bytes_of_two_pages_are_two_rows_and_two_uses(rt: HostRuntime) -> Result<(), Fail> {
    let mut bench = Bench::open(rt.alloc())?;
    let ones = 0xffff_ffff;
    // The four highest bits of an address are ignored.
    for base in [0x2_0000, 0xf000_0000_0002_0000] {
        bench.store.place(0x1_fffc, &[0; 8]).map_err(|_| "zeros")?;
        bench.thread.set_gpr(3, u64::MAX);
        bench.thread.set_gpr(4, base);
        bench.thread.set_gpr(5, 0);
        // std r3,-4(r4)
        let left = bench.run(rt.alloc(), 0xf864_fffc)?;
        assert_eq!(rt; left.out.end, StepEnd::Ran);
        assert_eq!(rt; left.out.first, Use::Real(0x1_fffc));
        assert_eq!(rt; left.out.second, Use::Real(0x2_0000));
        assert_eq!(rt; left.write(0), Some((0x1_fffc, 4, 0, ones)));
        assert_eq!(rt; left.write(1), Some((0x2_0000, 4, 0, ones)));
        assert_eq!(rt; left.journal.counts().writes, 2);
        // ld r5,-4(r4)
        let left = bench.run(rt.alloc(), 0xe8a4_fffc)?;
        assert_eq!(rt; left.out.end, StepEnd::Ran);
        assert_eq!(rt; left.out.first, Use::Real(0x1_fffc));
        assert_eq!(rt; left.out.second, Use::Real(0x2_0000));
        assert_eq!(rt; left.journal.counts().writes, 0);
        assert_eq!(rt; bench.thread.gpr(5), u64::MAX);
    }
    Ok(())
}

#[test]
fn the_lowest_bytes_lie_in_the_first_page(rt: HostRuntime) -> Result<(), Fail> {
    let mut bench = Bench::open(rt.alloc())?;
    bench.thread.set_gpr(3, 0x1122_3344_5566_7788);
    bench.thread.set_gpr(4, 0x1_fffd);
    // stdbrx r3,0,r4
    let left = bench.run(rt.alloc(), 0x7c60_2528)?;
    assert_eq!(rt; left.out.end, StepEnd::Ran);
    assert_eq!(rt; left.write(0), Some((0x1_fffd, 3, 0, 0x33_2211)));
    assert_eq!(rt; left.write(1), Some((0x2_0000, 5, 0, 0x88_7766_5544)));
    // lwbrx r5,0,r4
    let left = bench.run(rt.alloc(), 0x7ca0_242c)?;
    assert_eq!(rt; left.out.end, StepEnd::Ran);
    assert_eq!(rt; bench.thread.gpr(5), 0x1122_3344);
    Ok(())
}

#[test]
fn register_0_as_a_base_is_the_number_0(rt: HostRuntime) -> Result<(), Fail> {
    let mut bench = Bench::open(rt.alloc())?;
    bench.store.place(0x2_0000, &[0x81]).map_err(|_| "byte")?;
    bench.thread.set_gpr(0, 0x1000);
    bench.thread.set_gpr(4, 0x2_0000);
    // lbzx r5,0,r4
    let left = bench.run(rt.alloc(), 0x7ca0_20ae)?;
    assert_eq!(rt; left.out.first, Use::Real(0x2_0000));
    assert_eq!(rt; bench.thread.gpr(5), 0x81);
    Ok(())
}
