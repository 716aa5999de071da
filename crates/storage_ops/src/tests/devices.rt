//! Accesses of devices.

use super::bench::Bench;
use journal_core::{Signal, StepEnd, StopName, Use};
use ppc_bus::Port;
use std::test::Fail;

#[test]
fn a_console_shows_a_byte_and_counts(rt: HostRuntime) -> Result<(), Fail> {
    let mut bench = Bench::open(rt.alloc())?;
    bench.thread.set_gpr(3, 0x141);
    bench.thread.set_gpr(4, 0x1000_0000);
    // std r3,0(r4)
    let left = bench.run(rt.alloc(), 0xf864_0000)?;
    assert_eq!(rt;
        (left.out.end, left.out.first),
        (StepEnd::Ran, Use::Real(0x1000_0000))
    );
    assert_eq!(rt;
        left.device(),
        Some((0, 0, 8, true, 0x141, Signal::Byte(0x41)))
    );
    assert_eq!(rt; left.journal.counts().writes, 0);
    // ld r5,0(r4), lwz r5,4(r4) and lbz r5,7(r4)
    for (word, offset, size) in [
        (0xe8a4_0000, 0, 8),
        (0x80a4_0004, 4, 4),
        (0x88a4_0007, 7, 1),
    ] {
        bench.thread.set_gpr(5, 0);
        let left = bench.run(rt.alloc(), word)?;
        assert_eq!(rt; left.out.end, StepEnd::Ran, "{word:x}");
        assert_eq!(rt;
            left.device(),
            Some((0, offset, size, false, 1, Signal::Quiet)),
            "{word:x}"
        );
        assert_eq!(rt; bench.thread.gpr(5), 1, "{word:x}");
    }
    Ok(())
}

#[test]
fn a_device_gets_the_bytes_in_the_order_of_the_form(rt: HostRuntime) -> Result<(), Fail> {
    let mut bench = Bench::open(rt.alloc())?;
    bench.thread.set_gpr(3, 0x1122_3344_5566_7788);
    bench.thread.set_gpr(4, 0x1000_0000);
    // stwbrx r3,0,r4
    let left = bench.run(rt.alloc(), 0x7c60_252c)?;
    assert_eq!(rt;
        left.device(),
        Some((0, 0, 4, true, 0x8877_6655, Signal::Byte(0x55)))
    );
    // lwbrx r5,0,r4
    let left = bench.run(rt.alloc(), 0x7ca0_242c)?;
    assert_eq!(rt; left.device(), Some((0, 0, 4, false, 1, Signal::Quiet)));
    assert_eq!(rt; bench.thread.gpr(5), 0x100_0000);
    Ok(())
}

#[test]
fn a_control_stops_a_step_that_is_done_and_ejects_at_once(rt: HostRuntime) -> Result<(), Fail> {
    let mut bench = Bench::open(rt.alloc())?;
    bench.thread.set_gpr(3, 5);
    bench.thread.set_gpr(4, 0x1000_1010);
    // stbu r3,-16(r4)
    let left = bench.run(rt.alloc(), 0x9c64_fff0)?;
    assert_eq!(rt; left.out.end, StepEnd::Stopped(StopName::DeviceStop, 1));
    assert_eq!(rt; left.device(), Some((1, 0, 1, true, 5, Signal::Stop)));
    assert_eq!(rt; bench.thread.gpr(4), 0x1000_1000);
    bench.thread.set_gpr(3, 0);
    // std r3,8(r4), twice: the second time nothing is in slot 0
    for _ in 0..2u8 {
        let left = bench.run(rt.alloc(), 0xf864_0008)?;
        assert_eq!(rt; left.out.end, StepEnd::Ran);
        assert_eq!(rt; left.device(), Some((1, 8, 8, true, 0, Signal::Eject(0))));
        assert_eq!(rt; bench.bus.slot_at(0x1000_0000), None);
    }
    bench.thread.set_gpr(4, 0x1000_0000);
    // ld r5,0(r4)
    let left = bench.run(rt.alloc(), 0xe8a4_0000)?;
    assert_eq!(rt;
        left.out.end,
        StepEnd::Stopped(StopName::NoStorage, 0x1000_0000)
    );
    Ok(())
}
