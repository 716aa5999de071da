//! Interrupts, privilege and stops of system forms, from the bytes of the image to the printed registers.

ghost use Rattle.std.specs.Prelude.{◌<◌, length};

use super::support::{ONE_THREAD, image, run};
use crate::Status;
use journal_core::{Ended, StopName};
use std::alloc::Global;
use std::process::Abort;
use std::test::Fail;

/// A program of one word takes an interrupt in its one step, and its report has these lines.
fn takes(rt: &impl Abort, alloc: Global, word: u32, lines: &[&str]) -> Result<(), Fail> {
    let file = image(alloc, 0x1_0000, 0x1_0000, &[word])?;
    let left = run(alloc, &file, ONE_THREAD, "1")?;
    assert_eq!(rt; left.status, Status::Done(Ended::AllRun));
    let text = String::from_utf8(left.text).unwrap_or(String::new(alloc));
    for line in lines {
        assert!(rt; text.as_str().contains(line));
    }
    Ok(())
}

#[test]
fn a_word_of_zeros_asks_the_hypervisor_for_assistance(rt: HostRuntime) -> Result<(), Fail> {
    let lines = [
        "tb 0000000000000001\n",
        "nia 0000000000000e40 msr 9000000000001001\n",
        "srr 0000000000000000 0000000000000000 hsrr 0000000000010000 9000000000001001\n",
        "heir 00000000 ",
    ];
    takes(&rt, rt.alloc(), 0, &lines)
}

#[test]
fn a_trap_is_a_program_interrupt(rt: HostRuntime) -> Result<(), Fail> {
    let lines = [
        "nia 0000000000000700 msr 9000000000001001\n",
        "srr 0000000000010000 9000000000021001 hsrr 0000000000000000 0000000000000000\n",
    ];
    takes(&rt, rt.alloc(), 0x7fe0_0008, &lines)
}

#[test]
fn a_system_call_saves_the_next_address(rt: HostRuntime) -> Result<(), Fail> {
    let lines = [
        "nia 0000000000000c00 msr 9000000000001001\n",
        "srr 0000000000010004 9000000000001001 hsrr 0000000000000000 0000000000000000\n",
    ];
    takes(&rt, rt.alloc(), 0x4400_0002, &lines)
}

/// A program of these words stops so in its step of this number.
fn stops(
    rt: &impl Abort,
    alloc: Global,
    words: &[u32],
    stop: (StopName, u64),
    steps: u32,
) -> Result<(), Fail>
    requires { length words.now < 100 }
{
    let file = image(alloc, 0x1_0000, 0x1_0000, words)?;
    let left = run(alloc, &file, ONE_THREAD, "99")?;
    assert_eq!(rt; left.status, Status::Stopped(stop.0, stop.1));
    assert_eq!(rt; left.steps, Some(steps));
    Ok(())
}

#[test]
fn an_unknown_register_and_a_machine_state_outside_the_profile_stop(
    rt: HostRuntime,
) -> Result<(), Fail> {
    let alloc = rt.alloc();
    stops(&rt, alloc, &[0x7c6d_02a6], (StopName::UnknownSpr, 13), 1)?;
    let state = (StopName::ProfileBits, 0x1000_0000_0000_1001);
    stops(&rt, alloc, &[0x7c60_0164], state, 1)
}

/// `addis r6,0,-32768`, `rldicr r6,r6,32,31`, `ori` with the low half of a machine state, `mtspr 315,r6`, `hrfid`.
fn return_to(low_half: u32) -> [u32; 5]
    requires { low_half < 65536 }
{
    [
        0x3cc0_8000,
        0x78c6_07c6,
        0x60c6_0000 + low_half,
        0x7cdb_4ba6,
        0x4c00_0224,
    ]
}

#[test]
fn a_return_to_a_guest_stops_at_its_first_fetch(rt: HostRuntime) -> Result<(), Fail> {
    let alloc = rt.alloc();
    // The guest's partition is 0.
    let stop = (StopName::GuestZero, 0);
    stops(&rt, alloc, &return_to(0x1033), stop, 6)?;
    stops(&rt, alloc, &return_to(0xd033), stop, 6)
}
