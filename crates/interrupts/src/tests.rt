mod deliveries;
mod storage;

use super::*;
use thread_regs::{Thread, Threads};

#[test]
fn the_clock_wraps_on_every_thread(rt: HostRuntime) {
    let mut threads = Threads::reset(2, 0);
    let first = threads.get_mut(0);
    first.tb = 0xffff_ffff_ffff_ffff;
    first.dec = 0;
    first.hdec = 1;
    let second = threads.get_mut(1);
    second.tb = 0xffff_ffff;
    second.dec = 0x8000_0000;
    second.hdec = 0;
    tick(&mut threads);
    assert_eq!(rt; threads.count(), 2);
    assert_eq!(rt; threads.get(0).tb, 0);
    assert_eq!(rt; threads.get(0).dec, 0xffff_ffff);
    assert_eq!(rt; threads.get(0).hdec, 0);
    assert_eq!(rt; threads.get(1).tb, 0x1_0000_0000);
    assert_eq!(rt; threads.get(1).dec, 0x7fff_ffff);
    assert_eq!(rt; threads.get(1).hdec, 0xffff_ffff);
}

#[test]
fn no_cause_is_pending_yet(rt: HostRuntime) {
    let mut thread = Thread::reset(0, 0);
    thread.dec = 0x8000_0000;
    thread.hdec = 0x8000_0000;
    assert!(rt; pending(&thread).is_none());
}
