//! Machines that are opened or refused.

use super::bench::{devices_with_tape_at, image_at, machine_at, run};
use crate::{Machine, OpenFault, OpenFaultOf, OpenReason, PluggedOf};
use elf_image::{Guests, Span};
use journal_core::{Ended, StopName};
use ppc_bus::{Device, PlugReason};
use real_store::NoStorage;
use std::test::Fail;

/// Why no machine was opened, where the windows of the three devices begin that came back, and what the tape gives next.
fn refused(opened: Result<Machine, OpenFault>) -> Option<(OpenReason, [u64; 3], u64)> {
    match opened {
        Ok(_) => None,
        Err(fault) => {
            let OpenFaultOf { devices, reason } = fault;
            let mut devices = devices;
            let PluggedOf { at, device } = devices.pop()?;
            let mut tape = device;
            let next = tape.load(0, 1);
            match devices.as_slice() {
                [a, b] => Some((reason, [a.at, b.at, at], next)),
                _ => None,
            }
        }
    }
}

#[test]
fn the_first_reason_refuses_and_hands_the_devices_back(rt: HostRuntime) -> Result<(), Fail> {
    let place = OpenReason::BadPlace(
        Span {
            from: 0x10_0000,
            to: 0x10_0004,
        },
        Span {
            from: 0,
            to: 0x10_0000,
        },
    );
    let meets = OpenReason::Device(2, PlugReason::SlotUsed(0));
    // threads, RAM, steps, where the tape is to be, and why not: in 1 MiB the image leaves RAM
    let cases = [
        (1u8, 2u16, 1_048_576u32, 0x1000_2000u64, None),
        (0, 16, 3, 0x1000_2000, Some(OpenReason::BadThreads)),
        (2, 16, 3, 0x1000_2000, Some(OpenReason::BadThreads)),
        (1, 0, 3, 0x1000_2000, Some(OpenReason::BadRam)),
        (1, 257, 3, 0x1000_2000, Some(OpenReason::BadRam)),
        (1, 16, 1_048_577, 0x1000_2000, Some(OpenReason::BadSteps)),
        (1, 1, 3, 0x1000_2000, Some(place)),
        (1, 16, 3, 0x1000_0000, Some(meets)),
        (2, 0, 3, 0x1000_2000, Some(OpenReason::BadThreads)),
        (1, 0, 1_048_577, 0x1000_2000, Some(OpenReason::BadRam)),
        (1, 1, 1_048_577, 0x1000_2000, Some(OpenReason::BadSteps)),
        (1, 1, 3, 0x1000_0000, Some(place)),
    ];
    let image = image_at(rt.alloc(), 0x10_0000, &[0x3860_0001])?;
    let guests = Guests::new(rt.alloc());
    for (threads, ram_mib, steps, at, reason) in cases {
        let devices = devices_with_tape_at(rt.alloc(), at)?;
        let opened = Machine::open(
            rt.alloc(),
            &image,
            &guests,
            ram_mib,
            threads,
            devices,
            steps,
        );
        let places = [0x1000_0000, 0x1000_1000, at];
        let wanted = reason.map(|reason| (reason, places, 0x5a));
        assert_eq!(rt;
            refused(opened),
            wanted,
            "{threads} {ram_mib} {steps} {at:x}"
        );
    }
    Ok(())
}

#[test]
fn ram_ends_where_its_size_says(rt: HostRuntime) -> Result<(), Fail> {
    // RAM, where its last eight bytes begin, and how a store of 8 at FFFFFFC ends, across the end of 256 MiB and the start of the
    // console's window. Without optimization that much RAM takes minutes to open: rt try --test --seconds 500
    let cases = [
        (1u16, 0xf_fff8u32, StopName::NoStorage, 0xfff_fffc),
        (256, 0xfff_fff8, StopName::DeviceAccess, 0x1000_0000),
    ];
    for (ram_mib, last, name, value) in cases {
        // lis r4,0x1000; std r3,-4(r4)
        let words = [0x3c80_1000, 0xf864_fffc];
        let mut machine = machine_at(rt.alloc(), ram_mib, last, &words)?;
        let at = u64::from(last);
        assert_eq!(rt; machine.memory().size(), at + 8);
        assert_eq!(rt; machine.memory().load(at, 8), Ok(0xf864_fffc_3c80_1000));
        assert_eq!(rt; machine.memory().load(at + 1, 8), Err(NoStorage));
        let stop = Ended::Stopped(name, value);
        assert_eq!(rt; run(rt.alloc(), &mut machine, 9)?, stop, "{ram_mib}");
        assert_eq!(rt; machine.memory().load(at, 8), Ok(0xf864_fffc_3c80_1000));
        let counts = machine.journal().counts();
        assert_eq!(rt; (counts.steps, counts.writes, counts.devices), (2, 0, 0));
    }
    Ok(())
}
