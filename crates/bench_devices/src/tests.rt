//! What the devices answer on a bus, boxed and alone.

use super::*;
use journal_core::Signal;
use ppc_bus::{Bus, BusOf, Device, PlugFaultOf};
use std::process::Abort;
use std::test::Fail;

/// The number of the slot, or None where the device was refused.
fn slot_of<D: Device>(answer: Result<u8, PlugFaultOf<D>>) -> Option<u8> {
    answer.ok()
}

/// Stores to a console at 10000000 in slot 0 of a bus, and loads from it.
fn use_console<D: Device>(rt: &impl Abort, bus: &mut BusOf<D>) {
    let shown = [0x48u8, 0x69, 0x0a, 0x5c];
    for byte in shown {
        let answer = bus.store(0x1000_0000, 1, u64::from(byte));
        assert_eq!(rt; answer, Ok((0, 0, Signal::Byte(byte))));
    }
    assert_eq!(rt;
        bus.store(0x1000_0000, 4, 0x17f),
        Ok((0, 0, Signal::Byte(0x7f)))
    );
    assert_eq!(rt; bus.store(0x1000_0004, 4, 0x41), Ok((0, 4, Signal::Quiet)));
    for size in [1u8, 2, 4, 8] {
        assert_eq!(rt; bus.load(0x1000_0000, size), Ok((0, 0, 5)));
    }
    assert_eq!(rt; bus.load(0x1000_0007, 1), Ok((0, 7, 5)));
}

/// Stores to a control at an address in a slot of a bus, and loads from it.
fn use_control<D: Device>(rt: &impl Abort, bus: &mut BusOf<D>, at: u32, slot: u8) {
    let at = u64::from(at);
    assert_eq!(rt; bus.store(at, 8, 0), Ok((slot, 0, Signal::Stop)));
    assert_eq!(rt;
        bus.store(at + 8, 4, 0x302),
        Ok((slot, 8, Signal::Eject(2)))
    );
    assert_eq!(rt; bus.store(at + 4, 4, 7), Ok((slot, 4, Signal::Quiet)));
    assert_eq!(rt; bus.load(at + 8, 8), Ok((slot, 8, 0)));
}

/// Loads from a tape of the bytes 11 and 22 at an address in a slot of a bus.
fn use_tape<D: Device>(rt: &impl Abort, bus: &mut BusOf<D>, at: u32, slot: u8) {
    let at = u64::from(at);
    assert_eq!(rt; bus.load(at + 8, 8), Ok((slot, 8, 2)));
    assert_eq!(rt; bus.load(at + 4, 4), Ok((slot, 4, 0)));
    assert_eq!(rt; bus.store(at, 1, 0x33), Ok((slot, 0, Signal::Quiet)));
    assert_eq!(rt; bus.load(at, 1), Ok((slot, 0, 0x11)));
    assert_eq!(rt; bus.load(at, 8), Ok((slot, 0, 0x22)));
    assert_eq!(rt; bus.load(at + 8, 8), Ok((slot, 8, 0)));
    assert_eq!(rt; bus.load(at, 8), Ok((slot, 0, 256)));
    assert_eq!(rt; bus.load(at, 1), Ok((slot, 0, 0)));
}

#[test]
fn three_boxed_devices_answer_on_one_bus(rt: HostRuntime) -> Result<(), Fail> {
    let mut bus = Bus::new();
    let console: Box<dyn Device> = Box::new(rt.alloc(), Console::new())?;
    let control: Box<dyn Device> = Box::new(rt.alloc(), Control::new())?;
    let bytes = Vec::from_slice(rt.alloc(), &[0x11u8, 0x22])?;
    let tape: Box<dyn Device> = Box::new(rt.alloc(), Tape::new(bytes))?;
    assert_eq!(rt; slot_of(bus.plug(0x1000_0000, console)), Some(0));
    assert_eq!(rt; slot_of(bus.plug(0x1000_1000, control)), Some(1));
    assert_eq!(rt; slot_of(bus.plug(0x1000_2000, tape)), Some(2));
    use_console(&rt, &mut bus);
    use_control(&rt, &mut bus, 0x1000_1000, 1);
    use_tape(&rt, &mut bus, 0x1000_2000, 2);
    assert_eq!(rt; bus.slot_at(0x1000_0008), None);
    assert_eq!(rt; bus.slot_at(0x1000_1010), None);
    assert_eq!(rt; bus.slot_at(0x1000_2010), None);
    Ok(())
}

#[test]
fn each_device_answers_on_a_bus_of_its_own_type(rt: HostRuntime) -> Result<(), Fail> {
    let mut consoles = BusOf::new();
    assert_eq!(rt;
        slot_of(consoles.plug(0x1000_0000, Console::new())),
        Some(0)
    );
    use_console(&rt, &mut consoles);

    let mut controls = BusOf::new();
    assert_eq!(rt;
        slot_of(controls.plug(0x1000_1000, Control::new())),
        Some(0)
    );
    use_control(&rt, &mut controls, 0x1000_1000, 0);

    let mut tapes = BusOf::new();
    let bytes = Vec::from_slice(rt.alloc(), &[0x11u8, 0x22])?;
    assert_eq!(rt; slot_of(tapes.plug(0x1000_2000, Tape::new(bytes))), Some(0));
    use_tape(&rt, &mut tapes, 0x1000_2000, 0);
    Ok(())
}
