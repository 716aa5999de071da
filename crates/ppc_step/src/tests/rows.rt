//! Whole steps, with their rows.

use super::bench::{HERE, Left, ram_with, step_over};
use journal_core::{Cause, Signal, StepEnd, StopName, Use};
use ppc_spr::Msr;
use std::alloc::Global;
use std::test::Fail;
use thread_regs::Threads;

#[test]
fn a_fetch_without_a_word_stops_and_shows_what_answered_it(rt: HostRuntime) -> Result<(), Fail> {
    // the state, the address, how the step ends and the use of the fetch
    let cases = [
        // behind RAM: the four highest bits of an address are ignored
        (
            0x9000_0000_0000_1001,
            0xf000_0000_0010_0000,
            StopName::NoStorage,
            0x10_0000,
            Use::Real(0x10_0000),
        ),
        // in the window of a device
        (
            0x9000_0000_0000_1001,
            0x1000_0000,
            StopName::NoStorage,
            0x1000_0000,
            Use::Real(0x1000_0000),
        ),
        // with relocation: the first doubleword of partition 0's entry is 0
        (
            0x9000_0000_0000_1021,
            HERE,
            StopName::HashedPartition,
            0,
            Use::Unused,
        ),
        // in a guest, whose partition is 0
        (
            0x8000_0000_0000_1001,
            HERE,
            StopName::GuestZero,
            0,
            Use::Unused,
        ),
    ];
    for (msr, at, name, value, used) in cases {
        let mut threads = Threads::reset(1, at);
        threads.get_mut(0).set_msr(Msr(msr));
        let left = step_over(
            rt.alloc(),
            threads,
            0,
            ram_with(rt.alloc(), HERE, 0x3860_0001)?,
        )?;
        assert_eq!(rt; left.end, StepEnd::Stopped(name, value));
        let row = left.row()?;
        assert_eq!(rt;
            (row.thread, row.cia, row.word, row.end),
            (0, at, None, left.end)
        );
        assert_eq!(rt; row.uses, [used, Use::Unused, Use::Unused]);
        assert_eq!(rt; left.thread(0)?.nia(), at);
        assert_eq!(rt; left.thread(0)?.tb, 0);
    }
    Ok(())
}

#[test]
fn an_interrupt_is_delivered_to_its_thread_alone_and_ticks_all_clocks(
    rt: HostRuntime,
) -> Result<(), Fail> {
    // sc
    let ram = ram_with(rt.alloc(), HERE, 0x4400_0002)?;
    let left = step_over(rt.alloc(), Threads::reset(2, HERE), 1, ram)?;
    assert_eq!(rt; left.end, StepEnd::Took(Cause::SystemCall { lev: 0 }));
    let row = left.row()?;
    assert_eq!(rt;
        (row.thread, row.cia, row.word, row.end),
        (1, HERE, Some(0x4400_0002), left.end)
    );
    let caller = left.thread(1)?;
    assert_eq!(rt;
        (caller.nia(), caller.srr0, caller.tb),
        (0xc00, HERE + 4, 1)
    );
    let other = left.thread(0)?;
    assert_eq!(rt; (other.nia(), other.srr0, other.tb), (HERE, 0, 1));
    Ok(())
}

/// A step of thread 2 of three, whose r4 is the border of two pages, around which the bytes 1 to 8 lie.
fn across(alloc: Global, word: u32) -> Result<Left, Fail> {
    let mut threads = Threads::reset(3, HERE);
    let thread = threads.get_mut(2);
    thread.set_gpr(3, 0x1122_3344_5566_7788);
    thread.set_gpr(4, 0x2_0000);
    let mut ram = ram_with(alloc, HERE, word)?;
    ram.place(0x1_fffc, &[1, 2, 3, 4, 5, 6, 7, 8])
        .map_err(|_| "bytes")?;
    step_over(alloc, threads, 2, ram)
}

#[test]
fn a_load_and_a_store_of_two_pages_have_two_uses(rt: HostRuntime) -> Result<(), Fail> {
    let uses = [Use::Real(HERE), Use::Real(0x1_fffc), Use::Real(0x2_0000)];
    // ld r5,-4(r4)
    let left = across(rt.alloc(), 0xe8a4_fffc)?;
    assert_eq!(rt; (left.end, left.row()?.uses), (StepEnd::Ran, uses));
    assert_eq!(rt; left.thread(2)?.gpr(5), 0x807_0605_0403_0201);
    assert_eq!(rt; left.parts.journal.counts().writes, 0);
    // std r3,-4(r4)
    let left = across(rt.alloc(), 0xf864_fffc)?;
    assert_eq!(rt; (left.end, left.row()?.uses), (StepEnd::Ran, uses));
    assert_eq!(rt; left.parts.journal.counts().writes, 2);
    let rows = [
        (0x1_fffc, 0x403_0201, 0x5566_7788),
        (0x2_0000, 0x807_0605, 0x1122_3344),
    ];
    for (i, (at, old, new)) in (0..2u32).zip(rows) {
        let row = left.parts.journal.write(i).ok_or("write")?;
        assert_eq!(rt; (row.step, row.thread, row.at, row.size), (0, 2, at, 4));
        assert_eq!(rt; (row.old, row.new), (old, new));
    }
    assert_eq!(rt;
        left.parts.store.load(0x1_fffc, 8),
        Ok(0x1122_3344_5566_7788)
    );
    assert_eq!(rt; (left.thread(2)?.nia(), left.thread(0)?.tb), (HERE + 4, 1));
    Ok(())
}

/// A step of thread 0 of two, whose r3 is 5, r4 the address and r5 is 7.
fn with_address(alloc: Global, at: u64, word: u32) -> Result<Left, Fail> {
    let mut threads = Threads::reset(2, HERE);
    let thread = threads.get_mut(0);
    thread.set_gpr(3, 5);
    thread.set_gpr(4, at);
    thread.set_gpr(5, 7);
    step_over(alloc, threads, 0, ram_with(alloc, HERE, word)?)
}

#[test]
fn a_step_that_a_device_stops_is_done_whole(rt: HostRuntime) -> Result<(), Fail> {
    // stbu r3,-16(r4)
    let left = with_address(rt.alloc(), 0x1000_0010, 0x9c64_fff0)?;
    assert_eq!(rt; left.end, StepEnd::Stopped(StopName::DeviceStop, 0));
    assert_eq!(rt; left.row()?.end, left.end);
    assert_eq!(rt;
        left.row()?.uses,
        [Use::Real(HERE), Use::Real(0x1000_0000), Use::Unused]
    );
    let row = left.parts.journal.device(0).ok_or("device")?;
    assert_eq!(rt; (row.step, row.slot, row.offset, row.size), (0, 0, 0, 1));
    assert_eq!(rt; (row.store, row.value, row.signal), (true, 5, Signal::Stop));
    let thread = left.thread(0)?;
    assert_eq!(rt; (thread.nia(), thread.gpr(4)), (HERE + 4, 0x1000_0000));
    assert_eq!(rt; (thread.tb, thread.dec), (1, 0xffff_ffff));
    assert_eq!(rt; left.thread(1)?.tb, 1);
    Ok(())
}

#[test]
fn any_other_stop_changes_nothing_but_the_journal(rt: HostRuntime) -> Result<(), Fail> {
    // lhau r5,-16(r4) of a device at an odd address, std r3,0(r4) behind RAM, and a word of no form
    let cases = [
        (
            0x1000_0017,
            0xaca4_fff0,
            StopName::DeviceAccess,
            0x1000_0007,
            Use::Real(0x1000_0007),
        ),
        (
            0x7fff_0000,
            0xf864_0000,
            StopName::NoStorage,
            0x7fff_0000,
            Use::Real(0x7fff_0000),
        ),
        (
            0,
            0xc800_0000,
            StopName::Unsupported,
            0xc800_0000,
            Use::Unused,
        ),
    ];
    for (at, word, name, value, used) in cases {
        let left = with_address(rt.alloc(), at, word)?;
        assert_eq!(rt; left.end, StepEnd::Stopped(name, value));
        let row = left.row()?;
        assert_eq!(rt; (row.cia, row.word, row.end), (HERE, Some(word), left.end));
        assert_eq!(rt; row.uses, [Use::Real(HERE), used, Use::Unused]);
        let counts = left.parts.journal.counts();
        assert_eq!(rt; (counts.writes, counts.devices), (0, 0));
        let thread = left.thread(0)?;
        assert_eq!(rt; (thread.nia(), thread.gpr(4), thread.gpr(5)), (HERE, at, 7));
        assert_eq!(rt; (thread.tb, left.thread(1)?.tb), (0, 0));
    }
    Ok(())
}
