//! What the bus does with devices of the tests' own.

ghost use Rattle.std.specs.Prelude.{[], ◌∷◌};
ghost use Rattle.ppc_bus.specs.Examples.{adder_answers, counted_answers};

use super::*;
use journal_core::Signal;
use std::cell::Cell;
use std::rc::Rc;
use std::test::Fail;

/// Adds up what is stored.
#[derive(Drop)]
struct Adder {
    total: u64,
}

impl Device for Adder {
    ghost list = { λ a. a.total ∷ [] };

    ghost answers = { λ a. adder_answers };

    ghost window_size = { λ a. 8 };

    fn window(&self) -> u32 {
        8
    }

    fn load(&mut self, _at: u32, _size: u8) -> u64 {
        self.total
    }

    fn store(&mut self, _at: u32, _size: u8, value: u64) -> Signal {
        self.total = self.total.wrapping_add(value);
        Signal::Quiet
    }
}

/// Answers a load by 1FF, and a store by its value modulo 251. It counts how often one was dropped.
struct Counted {
    extent: u32,
    drops: Rc<Cell<u32>>,
}

impl Drop for Counted {
    fn drop(self) {
        let Counted { extent: _, drops } = self;
        drops.set(drops.get().wrapping_add(1));
        drop(drops);
    }
}

impl Device for Counted {
    ghost list = { λ c. [] };

    ghost answers = { λ c. counted_answers };

    ghost window_size = { λ c. c.extent };

    fn window(&self) -> u32 {
        self.extent
    }

    fn load(&mut self, _at: u32, _size: u8) -> u64 {
        0x1ff
    }

    fn store(&mut self, _at: u32, _size: u8, value: u64) -> Signal {
        Signal::Byte((value % 251) as u8)
    }
}

/// Why a device was refused, and how many bytes the window of the device has that came back.
fn refused<D: Device>(answer: Result<u8, PlugFaultOf<D>>) -> Option<(PlugReason, u32)> {
    match answer {
        Ok(_) => None,
        Err(fault) => {
            let size = fault.device.window();
            Some((fault.reason, size))
        }
    }
}

/// What a port answers at an address, and whether it does so after its first slot was emptied.
fn answers_of<B: Port>(port: &mut B, at: u64) -> (Option<(u8, u32)>, bool, bool, bool) {
    let place = port.slot_at(at);
    let loads = port.load(at, 1).is_ok();
    let stores = port.store(at, 1, 0).is_ok();
    port.empty(0);
    (place, loads, stores, port.slot_at(at).is_some())
}

#[test]
fn windows_have_borders(rt: HostRuntime) -> Result<(), Fail> {
    let drops = Rc::new(rt.alloc(), Cell::new(0u32))?;
    let cases = [
        (0x1000_0000, 0, true),
        (0x1000_0000, 4, true),
        (0x1000_0000, 8, false),
        (0x1000_0000, 65_536, false),
        (0x1000_0000, 65_544, true),
        (0x0fff_f000, 8, true),
        (0x1000_0800, 8, true),
        (0x1fff_f000, 8, false),
        (0x1fff_f000, 65_536, false),
        (0x2000_0000, 8, true),
    ];
    for (at, extent, bad) in cases {
        let mut bus = BusOf::new();
        let device = Counted {
            extent,
            drops: drops.clone()?,
        };
        let answer = refused(bus.plug(at, device));
        assert_eq!(rt; answer == Some((PlugReason::BadWindow, extent)), bad);
        assert_eq!(rt; answer.is_none(), !bad);
    }
    Ok(())
}

#[test]
fn a_window_that_meets_another_is_refused_until_this_is_gone(rt: HostRuntime) -> Result<(), Fail> {
    let drops = Rc::new(rt.alloc(), Cell::new(0u32))?;
    let mut bus = BusOf::new();
    let wide = Counted {
        extent: 65_536,
        drops: drops.clone()?,
    };
    assert_eq!(rt; bus.plug(0x1000_0000, wide).ok(), Some(0));
    let second = Counted {
        extent: 8,
        drops: drops.clone()?,
    };
    assert_eq!(rt;
        refused(bus.plug(0x1000_1000, second)),
        Some((PlugReason::SlotUsed(0), 8))
    );
    assert_eq!(rt; bus.eject(0).is_some(), true);
    let third = Counted {
        extent: 8,
        drops: drops.clone()?,
    };
    assert_eq!(rt; bus.plug(0x1000_1000, third).ok(), Some(1));
    assert_eq!(rt; bus.slot_at(0x1000_1007), Some((1, 7)));
    assert_eq!(rt; bus.slot_at(0x1000_1008), None);
    Ok(())
}

#[test]
fn eight_devices_are_plugged_with_those_taken_out(rt: HostRuntime) -> Result<(), Fail> {
    let drops = Rc::new(rt.alloc(), Cell::new(0u32))?;
    let mut bus = BusOf::new();
    for number in 0..8u8 {
        let device = Counted {
            extent: 8,
            drops: drops.clone()?,
        };
        let slot = bus.plug(0x1000_0000 + 4096 * u64::from(number), device);
        assert_eq!(rt; slot.ok(), Some(number));
    }
    assert_eq!(rt; bus.eject(3).is_some(), true);
    let ninth = Counted {
        extent: 0,
        drops: drops.clone()?,
    };
    assert_eq!(rt;
        refused(bus.plug(0x1000_3000, ninth)),
        Some((PlugReason::SlotsFull, 0))
    );
    Ok(())
}

#[test]
fn loads_and_stores_are_cut_to_their_size(rt: HostRuntime) -> Result<(), Fail> {
    let drops = Rc::new(rt.alloc(), Cell::new(0u32))?;
    let mut bus = BusOf::new();
    let device = Counted {
        extent: 16,
        drops: drops.clone()?,
    };
    assert_eq!(rt; bus.plug(0x1000_1000, device).ok(), Some(0));
    assert_eq!(rt; bus.load(0x1000_1007, 1), Ok((0, 7, 0xff)));
    assert_eq!(rt; bus.load(0x1000_1008, 8), Ok((0, 8, 0x1ff)));
    assert_eq!(rt;
        bus.store(0x1000_1003, 1, 0xff41),
        Ok((0, 3, Signal::Byte(0x41)))
    );
    Ok(())
}

#[test]
fn only_aligned_accesses_in_a_window_are_answered(rt: HostRuntime) -> Result<(), Fail> {
    let drops = Rc::new(rt.alloc(), Cell::new(0u32))?;
    let mut bus = BusOf::new();
    let device = Counted {
        extent: 8,
        drops: drops.clone()?,
    };
    assert_eq!(rt; bus.plug(0x1000_0000, device).ok(), Some(0));
    for (at, size) in [
        (0x1000_0000, 0),
        (0x1000_0000, 3),
        (0x1000_0004, 8),
        (0x1000_0001, 2),
    ] {
        assert_eq!(rt; bus.load(at, size), Err(BusFault::DeviceAccess));
        assert_eq!(rt; bus.store(at, size, 0), Err(BusFault::DeviceAccess));
        assert_eq!(rt; bus.load(at + 8, size), Err(BusFault::NoDevice));
        assert_eq!(rt; bus.store(at - 8, size, 0), Err(BusFault::NoDevice));
    }
    Ok(())
}

#[test]
fn only_a_slot_with_a_device_gives_one(rt: HostRuntime) -> Result<(), Fail> {
    let drops = Rc::new(rt.alloc(), Cell::new(0u32))?;
    let mut bus = BusOf::new();
    for number in 0..3u32 {
        let device = Counted {
            extent: 8 * (number + 1),
            drops: drops.clone()?,
        };
        assert_eq!(rt;
            bus.plug(0x1000_0000 + 4096 * u64::from(number), device)
                .is_ok(),
            true
        );
    }
    for slot in [7, 8, 255] {
        assert_eq!(rt; bus.eject(slot).is_none(), true);
    }
    assert_eq!(rt; bus.eject(1).map(|device| device.window()), Some(16));
    assert_eq!(rt; bus.eject(1).is_none(), true);
    assert_eq!(rt; drops.get(), 1);
    Ok(())
}

#[test]
fn an_ejected_device_is_dropped_once_and_a_bus_drops_its_devices(
    rt: HostRuntime,
) -> Result<(), Fail> {
    let drops = Rc::new(rt.alloc(), Cell::new(0u32))?;
    let mut bus = Bus::new();
    let device = Counted {
        extent: 8,
        drops: drops.clone()?,
    };
    let device: Box<dyn Device> = Box::new(rt.alloc(), device)?;
    assert_eq!(rt; bus.plug(0x1000_0000, device).ok(), Some(0));
    assert_eq!(rt; drops.get(), 0);
    assert_eq!(rt;
        answers_of(&mut bus, 0x1000_0007),
        (Some((0, 7)), true, true, false)
    );
    assert_eq!(rt; drops.get(), 1);
    drop(bus);
    assert_eq!(rt; drops.get(), 1);

    let drops = Rc::new(rt.alloc(), Cell::new(0u32))?;
    let mut bus = Bus::new();
    let device = Counted {
        extent: 8,
        drops: drops.clone()?,
    };
    let device: Box<dyn Device> = Box::new(rt.alloc(), device)?;
    assert_eq!(rt; bus.plug(0x1000_0000, device).ok(), Some(0));
    assert_eq!(rt; drops.get(), 0);
    drop(bus);
    assert_eq!(rt; drops.get(), 1);
    Ok(())
}

#[test]
fn a_refused_box_comes_back(rt: HostRuntime) -> Result<(), Fail> {
    let mut bus = Bus::new();
    let device: Box<dyn Device> = Box::new(rt.alloc(), Adder { total: 0 })?;
    assert_eq!(rt;
        refused(bus.plug(0x1000_0004, device)),
        Some((PlugReason::BadWindow, 8))
    );
    Ok(())
}

#[test]
fn a_device_of_a_callers_own_stands_on_a_bus(rt: HostRuntime) {
    let mut bus = BusOf::new();
    assert_eq!(rt; bus.plug(0x1000_0000, Adder { total: 5 }).ok(), Some(0));
    assert_eq!(rt; bus.store(0x1000_0000, 8, 7), Ok((0, 0, Signal::Quiet)));
    assert_eq!(rt; bus.load(0x1000_0000, 8), Ok((0, 0, 12)));
    assert_eq!(rt;
        answers_of(&mut bus, 0x1000_0001),
        (Some((0, 1)), true, true, false)
    );
    assert_eq!(rt; bus.load(0x1000_0000, 8), Err(BusFault::NoDevice));
}

#[test]
fn laws_do_nothing(_rt: HostRuntime) {
    aligned_access_lies_in_its_window();
    chain_gives_answers::<Adder>();
    chain_gives_answers::<Box<dyn Device>>();
}
